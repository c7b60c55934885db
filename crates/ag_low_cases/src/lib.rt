//! Worked cases of the crates on which the reader and the answers stand: the outside in memory, graphs, grammars,
//! problems and keys.
//!
//! It has no items but tests, a module for each crate. Start at `outside`.
#![tactic(auto)]

#[cfg(test)]
mod grammars;
#[cfg(test)]
mod graphs;
#[cfg(test)]
mod keys;
#[cfg(test)]
mod outside;
#[cfg(test)]
mod streams;
