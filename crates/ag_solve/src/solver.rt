//! The solver.
ghost use Rattle.std.specs.Prelude.{◌≤◌, ◌^◌, length, All, IfOk, IsErrOf, false, ◌≡◌, ◌⊎◌};
ghost use Rattle.ag_base.specs.Outside.{Rose};
ghost use Rattle.ag_base.specs.declared.Halted.TheVariants.{Stopped};
ghost use Rattle.ag_diff.specs.Differences.{IsDifferenceQuery};
ghost use Rattle.ag_solve.specs.Decides.{IsNoLeaf};
ghost use Rattle.ag_tree.specs.Answers.{IsAtLimit, IsSolved, IsWithinWork};
ghost use Rattle.ag_tree.specs.Facts.{HasNoneBothWays, open_atoms};

use ag_base::{Halt, Halted, Limits};
use ag_diff::DiffEngine;
use ag_query::Query;
use ag_tree::{Solved, search};
use std::alloc::Global;

/// Searches for a valuation that meets the query, and keeps at most as many facts as the limits
/// allow.
pub fn solve<H: Halt>(
    alloc: Global,
    query: &Query,
    limits: &Limits,
    halt: &mut H,
) -> Result<Solved, Halted>
    requires difference { IsDifferenceQuery query.now }
    requires plain { All (λ c. HasNoneBothWays c.lits) query.now.clauses }
    ensures solved { IfOk result (IsSolved false limits.now.work query.now) }
    ensures no_leaf { IfOk result IsNoLeaf }
    ensures limit { IfOk result (IsAtLimit limits.now.work query.now) }
    // A budget of 3 to the number of open atoms is never spent, where these are ten at most.
    ensures budget { length (open_atoms query.now) ≤ 10 → 3 ^ length (open_atoms query.now) ≤ limits.now.work → IfOk result IsWithinWork }
    // It stops only where the halt said so.
    ensures stopped { IsErrOf result Stopped → Rose (H.yeses halt.old) (H.yeses halt.new) }
    ensures never_falls { H.yeses halt.old ≤ H.yeses halt.new }
    ensures follows { H.follows halt.old halt.new }
    ensures unstopped { IsErrOf result Stopped ⊎ (H.yeses halt.new ≡ H.yeses halt.old) }
{
    let mut theory = DiffEngine::make(alloc);
    search(alloc, query, &mut theory, limits.work, halt)
}
