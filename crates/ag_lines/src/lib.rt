//! Expressions by the lines of their grammar in docs/LANGUAGE.md, without an order of reading.
//!
//! It promises by laws that what is read is what these lines give, each operand behind an `else` reaching as far as
//! it can. It has no code that runs. Start at `expressions_by_lines`, and at specs/Lines.antt and Reach.antt.
#![tactic(auto)]

mod laws;

pub use laws::{
    clauses_obey, expressions_are_derived, expressions_by_lines, none_begins_so, one_expression,
};
