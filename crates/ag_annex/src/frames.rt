//! What waits for operands behind a token of an expression.

use crate::stack::Stack;
use ag_base::{List, Place};
use ag_lex::Token;
use ag_terms::{Binary, Path, Term, Unary};
use sqlite_items::Items;

/// What waits for an operand.
#[derive(Drop)]
pub enum Frame {
    /// A `(` by itself.
    Group,
    /// A `pre`.
    Pre {
        place: Place,
    },
    /// A `prev`, before the end of its first operand.
    Prev {
        place: Place,
    },
    /// A `prev` with its first operand.
    Start {
        place: Place,
        arg: Term,
    },
    /// A call with the arguments so far.
    Call {
        path: Path,
        args: Items<Term>,
    },
    /// An `if`.
    Test {
        place: Place,
    },
    /// An `if` with what it tests.
    Yes {
        place: Place,
        test: Term,
    },
    /// An `if` with what it tests, and with the operand behind `then`.
    No {
        place: Place,
        test: Term,
        yes: Term,
    },
    /// An operator before its one operand.
    Prefix {
        op: Unary,
        place: Place,
    },
    /// An operator with its left operand.
    Infix {
        op: Binary,
        place: Place,
        left: Term,
    },
}

/// The operand that stands last.
#[derive(Drop)]
pub enum Operand {
    /// None since the last operator, bracket or word.
    Nothing,
    /// A name so far: its parts apart by `::`, and what stands behind its dot.
    Name {
        parts: List<Token>,
        bodies: List<Token>,
    },
    Whole(Term),
}

/// What is known behind a token of an expression.
#[derive(Drop)]
pub struct Reading {
    /// What waits for operands, the innermost first.
    pub frames: Stack<Frame>,
    pub operand: Operand,
}
