//! A theory for rows that bound one variable or the difference of two: it finds whole numbers for
//! them, or a line of the kernel that refutes them.
//!
//! It promises that `decide` never ends as a leaf on such rows: its model satisfies every row that a
//! literal says, and its line has no row and only contraries of the literals. Start at `DiffEngine`,
//! and at `IsDifferenceQuery` in specs/Differences.antt for which queries it takes.
#![tactic(auto)]

mod climb;
mod edges;
mod engine;
mod fan;
mod pending;
mod query;
mod refute;
mod sweep;
mod vertices;

pub use engine::DiffEngine;
pub use query::is_difference_query;
