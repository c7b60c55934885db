//! The solver: it answers a query by a search over the theory that its rows need.
//!
//! It promises what `search` of ag_tree does, and of a query about differences never a leaf. Start
//! at `solve`.
#![tactic(auto)]

mod solver;

pub use ag_tree::Solved;
pub use solver::solve;
