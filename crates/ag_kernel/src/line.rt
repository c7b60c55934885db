//! Lines, and why a rule gives none.
use ag_base::OutOfMemory;
use ag_query::{LRow, Lits};
use std::alloc::AllocError;

/// One of the literals is true, or the row holds.
#[derive(Clone, Drop)]
pub struct Line {
    pub lits: Lits,
    pub row: Option<LRow>,
}

/// Why a rule gives no line.
#[derive(Clone, Copy, PartialEq)]
pub enum KernelFault {
    /// No line has this number, the first such one that was named.
    NotThere(u32),
    /// The lines are there, and what the rule asks of them fails.
    NotImplied,
    /// A number leaves 128 bits.
    Wide,
    OutOfMemory,
}

impl From<OutOfMemory> for KernelFault {
    ghost use Rattle.std.specs.Prelude.{◌≡◌};
    ghost use Rattle.ag_kernel.specs.declared.line.KernelFault.{KernelFault};
    ghost use Rattle.ag_kernel.specs.declared.line.KernelFault.TheVariants.{OutOfMemory as Memory};

    ghost from_gives = { λ _ fault. fault ≡ Memory };

    fn from(_e: OutOfMemory) -> KernelFault {
        KernelFault::OutOfMemory
    }
}

impl From<AllocError> for KernelFault {
    ghost use Rattle.std.specs.Prelude.{◌≡◌};
    ghost use Rattle.ag_kernel.specs.declared.line.KernelFault.{KernelFault};
    ghost use Rattle.ag_kernel.specs.declared.line.KernelFault.TheVariants.{OutOfMemory as Memory};

    ghost from_gives = { λ _ fault. fault ≡ Memory };

    fn from(_e: AllocError) -> KernelFault {
        KernelFault::OutOfMemory
    }
}
