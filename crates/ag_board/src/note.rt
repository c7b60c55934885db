//! Entries as they are kept in memory.

use crate::entry::{Call, Reply};

/// What an entry says. `Work` has the position of the entry that published its problem, and the
/// problem's place in that list, so that a claim takes no memory.
#[derive(Drop)]
pub enum Noted {
    Work {
        claim: u64,
        revision: u32,
        list: u32,
        place: u32,
    },
    Whole(Call, Reply),
}

/// An entry as it is kept.
#[derive(Drop)]
pub struct Note {
    pub(crate) seat: u32,
    pub(crate) noted: Noted,
}
