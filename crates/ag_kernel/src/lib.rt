//! The checked lines of the solver: each one is made by a rule that a reader can follow, and says
//! that one of its literals is true or its row holds.
//!
//! It promises that every line follows from the query, over all whole numbers, so that no valuation
//! meets a query with the empty clause among its lines. Start at `Kernel`.
#![tactic(auto)]

pub mod kernel;
pub mod line;
mod lines;
mod marks;
mod resolve;
mod rows;
mod sums;
pub mod theory;
mod units;

pub use kernel::Kernel;
pub use line::{KernelFault, Line};
pub use marks::Marked;
pub use theory::{Found, Theory};
