//! Expressions as an annex states them (AGREE Users Guide), without the parentheses that stand in it.

use crate::names::Path;
use ag_base::Place;
use sqlite_items::{Boxed, Items};

/// The operators before one operand.
#[derive(Clone, Copy, PartialEq, Eq)]
pub enum Unary {
    Minus,
    Not,
    Pre,
}

/// The operators between two operands. `Arrow` is `->`, `Implies` `=>`, `Iff` `<=>`, `Same` `=`, and
/// `Differs` `<>`, which may be written `!=`.
#[derive(Clone, Copy, PartialEq, Eq)]
pub enum Binary {
    Arrow,
    Implies,
    Iff,
    Or,
    And,
    Less,
    AtMost,
    More,
    AtLeast,
    Same,
    Differs,
    Plus,
    Minus,
    Times,
    Div,
    Mod,
}

/// An expression. Its places are those of the operators, of the words `pre` and `if`, and of names and
/// literals. `prev(e, i)` is the arrow from `i` to `pre(e)`, both at the place of the word `prev`.
#[derive(Drop)]
pub enum Term {
    /// A literal, from 0 to 2^47.
    Number {
        value: i64,
        place: Place,
    },
    Truth {
        value: bool,
        place: Place,
    },
    Named {
        path: Path,
    },
    Unary {
        op: Unary,
        place: Place,
        arg: Boxed<Term>,
    },
    Binary {
        op: Binary,
        place: Place,
        left: Boxed<Term>,
        right: Boxed<Term>,
    },
    /// `if test then yes else no`
    Choice {
        place: Place,
        test: Boxed<Term>,
        yes: Boxed<Term>,
        no: Boxed<Term>,
    },
    Call {
        path: Path,
        args: Items<Term>,
    },
}
