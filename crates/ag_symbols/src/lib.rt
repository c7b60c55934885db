//! What annexes see: streams, constants and nodes, found by their names.
//!
//! It promises that the clauses of a package, of a component type and of an implementation see what they, and
//! the annexes above them, declare and no more, and that a name is answered by the first that has it, in any
//! case of its letters. Start at `Sites::make`, and at specs/Seen.antt.
#![tactic(auto)]

mod gather;
mod index;
mod sight;
mod sites;
mod table;

pub use gather::push_vars;
pub use index::{Slot, compare_names, find_name, sort_names};
pub use sight::Sight;
pub use sites::{Site, Sites, assign_targets, node_results, node_streams};
pub use table::{Nodes, Vars};
