//! What is kept of a problem, and of a claim that is out.

use ag_stream::Problem;
use std::sync::Arc;

/// What is kept of a problem: the position of the entry that posted its verdict, and a handle for the
/// next claim. While a live claim is out, its ticket has the handle.
#[derive(Drop)]
pub struct Slot {
    pub(crate) verdict: Option<u32>,
    pub(crate) handle: Option<Arc<Problem>>,
}

/// A claim that is out, and the number of its problem.
#[derive(Clone, Copy, Drop)]
pub struct Out {
    pub(crate) claim: u64,
    pub(crate) seat: u32,
    pub(crate) revision: u32,
    pub(crate) problem: u32,
    pub(crate) is_live: bool,
}
