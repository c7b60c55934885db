//! The verdict store: revisions of keys and problems, claims on problems, and the verdicts that are posted.
//!
//! It promises that each call which makes an entry is one event of a machine, told in specs/Machine.antt:
//! the history has that entry more, its reply is the machine's, and the state is what the machine leaves.
//! Start at `board`, and at specs/Store.antt.
#![tactic(auto)]

pub mod board;
pub mod entry;
pub mod history;
mod laws;
mod note;
mod plan;
mod slot;
mod table;
pub mod ticket;

pub use board::Board;
pub use entry::{
    Call, Cancelled, Entry, GivenBack, Look, Posted, PublishFault, Published, Reply, Report,
    ReserveFault, StillOpen, Tally,
};
pub use history::History;
pub use laws::{
    equal_problems_agree, problems_are_compared, tickets_rise, tickets_stay, verdicts_are_true,
};
pub use ticket::{Claimed, Ticket};
