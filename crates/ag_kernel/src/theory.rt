//! Theories: deciders of the rows that literals say.
ghost use Rattle.std.specs.Prelude.{◌≡◌, ◌≤◌, ◌↔◌, ℕ, Bool, List, IfOk, IsErrOf, ◌⊎◌};
ghost use Rattle.ag_base.specs.Outside.{Rose};
ghost use Rattle.ag_base.specs.declared.Halted.TheVariants.{Stopped};
ghost use Rattle.ag_query.specs.declared.query.Query.{Query};
ghost use Rattle.ag_query.specs.declared.clauses.Lit.{Lit};
ghost use Rattle.ag_kernel.specs.State.{IsSound};
ghost use Rattle.ag_kernel.specs.Theories.{IsFound, HasGrown};

use crate::kernel::Kernel;
use ag_base::{Halt, Halted, List};
use ag_query::Lit;
use std::alloc::Global;

/// What a theory finds.
#[derive(Drop)]
pub enum Found {
    /// A whole number for each variable, at which all rows are as the literals say.
    Model(List<i64>),
    /// The number of a line that refutes the literals.
    Line(u32),
    /// Neither, within the theory's limit.
    Leaf,
}

/// Decides whether the rows that literals say can hold together, over whole numbers.
pub trait Theory {
    /// The queries and the lists of literals that it takes.
    ghost fits: { Self → Query → List Lit → Type 0 };

    /// Whether it may answer `Leaf`.
    ghost leaves: { Self → Bool };

    /// How much it keeps before it answers `Leaf`.
    ghost limit: { Self → ℕ };

    /// Finds numbers for the rows, or a line of the kernel that refutes the literals. It may add
    /// atoms and lines to the kernel, also where it finds neither. A literal of an atom without a
    /// row says nothing here.
    fn decide<H: Halt>(
        &mut self,
        alloc: Global,
        kernel: &mut Kernel,
        lits: &[Lit],
        halt: &mut H,
    ) -> Result<Found, Halted>
        requires fits { fits self.old kernel.old.query lits.now }
        ensures found { IfOk result (IsFound (leaves self.old) kernel.new lits.now) }
        // Lines that were there stay, and those that are new follow.
        ensures grown { HasGrown kernel.old kernel.new }
        ensures sound { IsSound kernel.new }
        // It stops only where the halt said so.
        ensures stopped { IsErrOf result Stopped → Rose (H.yeses halt.old) (H.yeses halt.new) }
        ensures never_falls { H.yeses halt.old ≤ H.yeses halt.new }
        ensures follows { H.follows halt.old halt.new }
        ensures unstopped { IsErrOf result Stopped ⊎ (H.yeses halt.new ≡ H.yeses halt.old) }
        // What it takes and how far it goes stay as they are.
        ensures fitting { (query : Query) (lits : List Lit) → fits self.old query lits ↔ fits self.new query lits }
        ensures leaving { leaves self.new ≡ leaves self.old }
        ensures limited { limit self.new ≡ limit self.old };
}
