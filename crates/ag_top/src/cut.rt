//! Why a check ends early.

/// Why a check ends early: its sink failed, or memory was wanting.
#[derive(Clone, Copy, Debug, PartialEq, Eq)]
pub enum Cut {
    Write,
    Memory,
}
