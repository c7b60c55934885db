//! Packages as a file declares them (SAE AS5506), in the part that is read.

use ag_base::List;
use ag_lex::Token;
pub use ag_terms::{Ident, Path};

/// The categories of components that are read.
#[derive(Clone, Copy, Debug, PartialEq, Eq)]
pub enum Category {
    System,
    Process,
    Thread,
    Device,
    Abstract,
}

/// The kinds of ports: `data port`, `event data port`, `event port`.
#[derive(Clone, Copy, Debug, PartialEq, Eq)]
pub enum PortKind {
    Plain,
    EventPlain,
    Event,
}

/// A port. `outward` tells `out` from `in`, and `carries` is the classifier of its data.
#[derive(Drop)]
pub struct Port {
    pub name: Ident,
    pub outward: bool,
    pub kind: PortKind,
    pub carries: Option<Path>,
}

/// A component type with its ports and its `agree` annexes, each in order.
#[derive(Drop)]
pub struct Frame {
    pub category: Category,
    pub name: Ident,
    pub ports: List<Port>,
    pub annexes: List<Token>,
}

/// A subcomponent: of a type, of an implementation, or of nothing.
#[derive(Drop)]
pub struct Sub {
    pub name: Ident,
    pub category: Category,
    pub of: Option<Path>,
}

/// An end of a connection: a port of a subcomponent, or an own port.
#[derive(Drop)]
pub struct End {
    pub sub: Option<Ident>,
    pub port: Ident,
}

/// A connection of ports.
#[derive(Drop)]
pub struct Wire {
    pub name: Ident,
    pub from: End,
    pub to: End,
}

/// An implementation of a component type, with what it consists of, each in order.
#[derive(Drop)]
pub struct Body {
    pub category: Category,
    /// The type's name.
    pub frame: Ident,
    /// The name behind the dot.
    pub name: Ident,
    pub subs: List<Sub>,
    pub wires: List<Wire>,
    pub annexes: List<Token>,
}

/// A declaration of a package.
#[derive(Drop)]
pub enum Item {
    Frame(Frame),
    Body(Body),
    /// An `agree` annex of the package's own.
    Library(Token),
}

/// A package with the packages that its `with` lists name and its declarations, each in order.
#[derive(Drop)]
pub struct Package {
    pub name: Ident,
    pub imports: List<Ident>,
    pub items: List<Item>,
}
