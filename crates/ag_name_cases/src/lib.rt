//! Worked cases of names across packages: which rule two files break first and where, and what names stand for.
//!
//! It has no items but tests, with a case on each line of a table. Start at `names`.
#![tactic(auto)]

#[cfg(test)]
mod names;
