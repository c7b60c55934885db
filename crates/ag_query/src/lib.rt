//! The questions that the solver is asked: rows of linear terms over whole numbers, atoms,
//! literals, clauses, and the valuations that answer a query.
//!
//! It promises that `Query::met` says of each valuation exactly whether it meets the query. Start
//! at `Query`, and at `Meets` in specs/Meaning.antt for what a query asks.
#![tactic(auto)]

pub mod clauses;
pub mod query;
pub mod rows;

pub use clauses::{LClause, Lit, Lits};
pub use query::{Query, Valuation};
pub use rows::{Atom, LRow, LTerm, Terms};
