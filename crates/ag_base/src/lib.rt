//! What every crate of agreec speaks of: texts and lists, places and refusals, limits, and the
//! outside as traits, each with a form in memory.
//!
//! It promises that a fault is answered only where its count rose, and that the forms in memory
//! give and take exactly the bytes that they were made with. Start at `outside`.
#![tactic(auto)]

pub mod halt;
pub mod limits;
pub mod list;
pub mod memory;
pub mod outside;
pub mod place;
pub mod status;
pub mod text;

pub use halt::{AfterPolls, Halt, Never};
pub use limits::Limits;
pub use list::{Bytes, List};
pub use memory::{MemFolder, MemSink, MemSource};
pub use outside::{Failed, File, Folder, FolderFault, MOST_FILE_BYTES, Sink, Source};
pub use place::{Place, Refusal, Refused, Rule, Word, refusals_are_ordered};
pub use status::Status;
use std::alloc::{AllocError, AllocFailed};
pub use text::Text;

/// Memory was wanting. It is the one answer that no contract forbids.
#[derive(Clone, Copy, Debug, PartialEq, Eq)]
pub struct OutOfMemory;

/// Why a call that asks a halt ended early.
#[derive(Clone, Copy, Debug, PartialEq, Eq)]
pub enum Halted {
    /// The halt said yes.
    Stopped,
    OutOfMemory,
}

impl From<AllocError> for OutOfMemory {
    fn from(_e: AllocError) -> OutOfMemory {
        OutOfMemory
    }
}

impl<T: Drop> From<AllocFailed<T>> for OutOfMemory {
    fn from(_e: AllocFailed<T>) -> OutOfMemory {
        OutOfMemory
    }
}

impl From<OutOfMemory> for Halted {
    ghost use Rattle.std.specs.Prelude.{◌≡◌};
    ghost use Rattle.ag_base.specs.declared.Halted.TheVariants.{OutOfMemory as Memory};

    ghost from_gives = { λ _ halted. halted ≡ Memory };

    fn from(_e: OutOfMemory) -> Halted {
        Halted::OutOfMemory
    }
}

impl From<AllocError> for Halted {
    ghost use Rattle.std.specs.Prelude.{◌≡◌};
    ghost use Rattle.ag_base.specs.declared.Halted.TheVariants.{OutOfMemory as Memory};

    ghost from_gives = { λ _ halted. halted ≡ Memory };

    fn from(_e: AllocError) -> Halted {
        Halted::OutOfMemory
    }
}
