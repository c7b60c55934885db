//! A package of the small grammar.
ghost use Rattle.std.specs.Prelude.{◌≡◌};
ghost use Rattle.ag_small.specs.Nodes.{expression_of};
ghost use Rattle.ag_small.specs.declared.package.ReadFault.TheVariants as fault;

use ag_base::{List, OutOfMemory, Text};
use std::marker::Model;

/// A package with one system type and one implementation of it. Names stand as they are declared.
#[derive(Drop)]
pub struct Package {
    /// The name behind `package`.
    pub name: Text,
    /// The type's name, behind `system`.
    pub frame: Text,
    /// The implementation's name, behind the dot.
    pub body: Text,
    pub ports: List<Port>,
    pub claims: List<Claim>,
    pub assigns: List<Assign>,
}

/// A Boolean data port.
#[derive(Drop)]
pub struct Port {
    pub name: Text,
    /// Whether it is an output.
    pub outward: bool,
}

/// An assumption or a guarantee of the type.
#[derive(Drop)]
pub struct Claim {
    pub kind: ClaimKind,
    /// The text between the quotes.
    pub label: Text,
    pub formula: Formula,
}

#[derive(Clone, Copy, PartialEq)]
pub enum ClaimKind {
    Assume,
    Guarantee,
}

/// The equation of one output.
#[derive(Drop)]
pub struct Assign {
    pub name: Text,
    pub value: Formula,
}

/// A Boolean expression as it is written, with its parentheses.
#[derive(Drop)]
pub struct Formula {
    node: Node,
}

/// A formula's outermost form.
#[derive(Drop)]
pub enum Node {
    Truth(bool),
    /// A port's name as it is written here.
    Named(Text),
    /// In parentheses.
    Group(Box<Node>),
    Not(Box<Node>),
    And(Box<Node>, Box<Node>),
    Or(Box<Node>, Box<Node>),
    Implies(Box<Node>, Box<Node>),
}

impl Model for Formula {
    ghost use Rattle.ag_small.specs.Expressions.{Expression, expression_code};

    ghost Value = { Expression };

    ghost coded = { expression_code };

    ghost use Rattle.ag_small.specs.Nodes.{expression_of};

    ghost view = { λ f. expression_of f.node };
}

impl Formula {
    pub fn new(node: Node) -> Formula
        ensures { result ≡ expression_of node }
    {
        Formula { node }
    }

    pub fn node(&self) -> &Node
        ensures { expression_of result.now ≡ self.now }
    {
        &self.node
    }
}

/// Why no package was read.
#[derive(Clone, Copy)]
pub enum ReadFault {
    /// The bytes are no text of the grammar that keeps its rules.
    NotBuilt,
    OutOfMemory,
}

impl From<OutOfMemory> for ReadFault {
    ghost from_gives = { λ _ e. e ≡ fault.OutOfMemory };

    fn from(_e: OutOfMemory) -> ReadFault {
        ReadFault::OutOfMemory
    }
}
