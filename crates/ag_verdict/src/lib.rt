//! Verdicts: what is answered of a problem, and when an answer is true.
//!
//! It promises that a verdict's truth speaks of all runs of whole numbers, and that a plain problem
//! is decided by its single instants. Start at specs/Verdicts.antt.
#![tactic(auto)]

pub mod key;
pub mod plain;
pub mod verdict;

pub use key::{Key, KeyKind, Obligation};
pub use verdict::{Fact, Literal, Verdict, Which, Why};
