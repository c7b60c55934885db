//! Names, expressions and clauses as values, apart from the texts that state them.
//!
//! It promises nothing but their shapes: who reads clauses and who reasons on them meet here, and neither waits
//! for the other. Start at `Clause` and `Term`.
#![tactic(auto)]

pub mod clauses;
pub mod names;
pub mod terms;

pub use clauses::{Clause, Equal, Labelled, NodeDef, Site, Ty, Var};
pub use names::{Ident, Path};
pub use terms::{Binary, Term, Unary};
