//! Clauses as an annex states them (AGREE Users Guide).

use crate::names::Ident;
use crate::terms::Term;
use ag_base::{List, Place, Text};

/// The types of streams and constants.
#[derive(Clone, Copy, Debug, PartialEq, Eq)]
pub enum Ty {
    Int,
    Bool,
}

/// A name that is declared with a type.
#[derive(Drop)]
pub struct Var {
    pub name: Ident,
    pub ty: Ty,
}

/// Where an annex stands: in a package, in a component type, or in an implementation.
#[derive(Clone, Copy)]
pub enum Site {
    Library,
    Frame,
    Body,
}

/// An assumption, a guarantee or a lemma. The label is the text between the quotes, and the place that
/// of the clause's first word.
#[derive(Drop)]
pub struct Labelled {
    pub label: Text,
    pub claim: Term,
    pub place: Place,
}

/// A name and the expression that it is to equal.
#[derive(Drop)]
pub struct Equal {
    pub name: Ident,
    pub value: Term,
}

/// A node: a function from streams to streams.
#[derive(Drop)]
pub struct NodeDef {
    pub name: Ident,
    pub inputs: List<Var>,
    pub outputs: List<Var>,
    pub locals: List<Var>,
    pub equations: List<Equal>,
}

/// A clause.
#[derive(Drop)]
pub enum Clause {
    Assume(Labelled),
    Guarantee(Labelled),
    Lemma(Labelled),
    /// Streams of the site's own, which all together equal the value, or are free.
    Eq {
        names: List<Var>,
        value: Option<Term>,
    },
    Assign(Equal),
    Const {
        name: Var,
        value: Term,
    },
    Node(NodeDef),
}
