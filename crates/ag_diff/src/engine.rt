//! The engine for rows about differences.
ghost use Rattle.std.specs.Prelude.{◌≡◌, ◌≤◌, ◌↔◌, ℕ, List, [], false, IfOk, IsErrOf, ◌⊎◌};
ghost use Rattle.ag_base.specs.Outside.{Rose};
ghost use Rattle.ag_base.specs.declared.Halted.TheVariants.{Stopped};
ghost use Rattle.ag_query.specs.declared.query.Query.{Query};
ghost use Rattle.ag_query.specs.declared.clauses.Lit.{Lit};
ghost use Rattle.ag_kernel.specs.State.{IsSound};
ghost use Rattle.ag_kernel.specs.Theories.{IsFound, HasGrown};
ghost use Rattle.ag_diff.specs.Differences.{IsFitting};
ghost use Rattle.ag_diff.specs.Small.{HasSmallNumbers};

use crate::edges::edges_of;
use crate::refute::refute;
use crate::sweep::settle;
use crate::vertices::{keep, numbers, start};
use ag_base::{Halt, Halted, List, OutOfMemory};
use ag_kernel::{Found, Kernel, Theory};
use ag_query::Lit;
use std::alloc::Global;
use std::marker::Model;

/// Decides rows that bound a variable, a negated variable or the difference of two.
///
/// A literal of a free atom says nothing. A literal that doesn't hold says the opposite of its row.
/// It starts from the values of its last model, so that literals that are nearly the same cost little.
/// In clauses it is these values.
#[derive(Drop)]
pub struct DiffEngine {
    /// The values of the vertices when they last made a model.
    values: Vec<i64>,
}

impl Model for DiffEngine {
    ghost use Rattle.std.specs.Prelude.{List, ℤ};

    ghost Value = { List ℤ };

    ghost view = { λ e. e.values.items };
}

impl DiffEngine {
    /// An engine without a model. It takes no memory.
    pub fn make(alloc: Global) -> DiffEngine
        ensures { result ≡ [] }
    {
        DiffEngine {
            values: Vec::new(alloc),
        }
    }
}

impl Theory for DiffEngine {
    ghost fits = { λ _ query lits. IsFitting query lits };

    ghost leaves = { λ _. false };

    ghost limit = { λ _. 0 };

    fn decide<H: Halt>(
        &mut self,
        alloc: Global,
        kernel: &mut Kernel,
        lits: &[Lit],
        halt: &mut H,
    ) -> Result<Found, Halted>
        requires fits { IsFitting kernel.old.query lits.now }
        ensures found { IfOk result (IsFound false kernel.new lits.now) }
        ensures small { IfOk result HasSmallNumbers }
        ensures grown { HasGrown kernel.old kernel.new }
        ensures sound { IsSound kernel.new }
        ensures stopped { IsErrOf result Stopped → Rose (H.yeses halt.old) (H.yeses halt.new) }
        ensures never_falls { H.yeses halt.old ≤ H.yeses halt.new }
        ensures follows { H.follows halt.old halt.new }
        ensures unstopped { IsErrOf result Stopped ⊎ (H.yeses halt.new ≡ H.yeses halt.old) }
        ensures fitting { (query : Query) (lits : List Lit) → IsFitting query lits ↔ IsFitting query lits }
        ensures leaving { false ≡ false }
        ensures limited { ◌≡◌ {A = ℕ} 0 0 }
    {
        let found = decide(alloc, &mut self.values, kernel, lits, halt);
        kernel.every_line_follows();
        found
    }
}

/// Numbers for the rows, or a line that refutes the literals. It starts from these values, and puts
/// those of a model in their place.
fn decide<H: Halt>(
    alloc: Global,
    values: &mut Vec<i64>,
    kernel: &mut Kernel,
    lits: &[Lit],
    halt: &mut H,
) -> Result<Found, Halted>
    requires fits { IsFitting kernel.old.query lits.now }
    ensures found { IfOk result (IsFound false kernel.new lits.now) }
    ensures small { IfOk result HasSmallNumbers }
    ensures grown { HasGrown kernel.old kernel.new }
    ensures stopped { IsErrOf result Stopped → Rose (H.yeses halt.old) (H.yeses halt.new) }
    ensures never_falls { H.yeses halt.old ≤ H.yeses halt.new }
    ensures follows { H.follows halt.old halt.new }
    ensures unstopped { IsErrOf result Stopped ⊎ (H.yeses halt.new ≡ H.yeses halt.old) }
{
    kernel.every_line_follows();
    let edges = edges_of(alloc, kernel.query(), lits)?;
    let mut vertices = start(alloc, kernel.query().vars as usize + 1, values)?;
    match settle(alloc, &mut vertices, &edges, halt)? {
        None => {
            keep(values, &vertices)?;
            Ok(Found::Model(numbers(alloc, &vertices)?))
        }
        Some(cycle) => Ok(Found::Line(refute(alloc, kernel, &cycle)?)),
    }
}
