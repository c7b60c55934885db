//! The plain search: it chooses truths for the atoms of a query one after another, draws what
//! follows from them along clauses and kept facts, and turns the last choice round at each conflict.
//!
//! It promises that a valuation which it answers meets the query, that a query which it answers to
//! be unsatisfiable has none, and that the facts of a spent search follow and are new, each after
//! the clauses and the facts before it. Start at `search`, and at specs/Facts.antt for what is new.
#![tactic(auto)]

mod both_ways;
mod choices;
mod cone;
mod occurrences;
mod parts;
mod plain;
mod propagation;
mod rounds;
pub mod solved;
mod trail;

pub use both_ways::has_plain_clauses;
pub use plain::search;
pub use solved::Solved;
