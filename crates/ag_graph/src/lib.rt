//! Which vertices of a finite directed graph lead back to themselves, and an order for the others.
//!
//! It promises that exactly the vertices on a circle are answered, and an order in which each other
//! vertex stands behind those that it leads to. Start at `circles`, and at specs/Circles.antt.
#![tactic(auto)]

pub mod answer;
pub mod graph;
pub mod search;

pub use answer::Circles;
pub use graph::Graph;
pub use search::circles;
