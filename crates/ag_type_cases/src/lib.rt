//! Worked cases of types: which rule on types and numbers clauses break and where, what type an expression has, and the rows
//! of sums.
//!
//! It has no items but tests. Most have tables with a case on each line, so that a case is added as a line. The tables are read
//! by `ag_case_texts`. Start at `rules`.
#![tactic(auto)]

#[cfg(test)]
mod rules;
#[cfg(test)]
mod scopes;
#[cfg(test)]
mod sums;
