//! The search: rounds until one decides.
ghost use Rattle.std.specs.Prelude.{◌≡◌, ◌<◌, ◌≤◌, ◌^◌, ◌↔◌, ℕ, List, length, All, IfOk, IsErrOf, ◌⊎◌};
ghost use Rattle.ag_base.specs.Outside.{Rose};
ghost use Rattle.ag_base.specs.declared.Halted.TheVariants.{Stopped};
ghost use Rattle.ag_query.specs.declared.clauses.Lit.{Lit};
ghost use Rattle.ag_query.specs.declared.query.Query.{Query};
ghost use Rattle.ag_tree.specs.Facts.{HasNoneBothWays, open_atoms};
ghost use Rattle.ag_tree.specs.Answers.{IsAtLimit, IsSolved, IsWithinWork};
ghost use Rattle.ag_tree.specs.Going.{IsGoing, IsReady};

use crate::rounds::{Progress, Round};
use crate::solved::Solved;
use ag_base::{Halt, Halted};
use ag_kernel::Theory;
use ag_query::Query;
use std::alloc::Global;

/// Searches for a valuation that meets the query, and keeps at most `work` facts. It chooses an atom
/// of the first clause without a true literal: an atom with a row as the numbers have it that the
/// theory found last, any other as one that doesn't hold. It asks the halt at each fact, and the theory
/// where the literals are at rest and a new one of them says a row, or each clause has a true one.
///
/// Of a leaf the contract doesn't say yet that trying its rows goes past the theory's limit. A query
/// of more atoms than u32 can number is answered by `OutOfMemory`.
pub fn search<T: Theory, H: Halt>(
    alloc: Global,
    query: &Query,
    theory: &mut T,
    work: u32,
    halt: &mut H,
) -> Result<Solved, Halted>
    requires fits { (lits : List Lit) → All (λ l. l.atom < length query.now.atoms) lits → T.fits theory.old query.now lits }
    requires plain { All (λ c. HasNoneBothWays c.lits) query.now.clauses }
    ensures solved { IfOk result (IsSolved (T.leaves theory.old) work query.now) }
    ensures limit { IfOk result (IsAtLimit work query.now) }
    // A budget of 3 to the number of open atoms is never spent, where these are ten at most.
    ensures budget { length (open_atoms query.now) ≤ 10 → 3 ^ length (open_atoms query.now) ≤ work → IfOk result IsWithinWork }
    // It stops only where the halt said so.
    ensures stopped { IsErrOf result Stopped → Rose (H.yeses halt.old) (H.yeses halt.new) }
    ensures never_falls { H.yeses halt.old ≤ H.yeses halt.new }
    ensures follows { H.follows halt.old halt.new }
    ensures unstopped { IsErrOf result Stopped ⊎ (H.yeses halt.new ≡ H.yeses halt.old) }
    // What the theory takes and how far it goes stay as they are.
    ensures fitting { (query : Query) (lits : List Lit) → T.fits theory.old query lits ↔ T.fits theory.new query lits }
    ensures leaving { T.leaves theory.new ≡ T.leaves theory.old }
    ensures limited { T.limit theory.new ≡ T.limit theory.old }
{
    let progress = Progress::start(alloc, query)?;
    go_on(alloc, progress, theory, work, halt)
}

/// Searches on from the facts that are kept.
fn go_on<T: Theory, H: Halt>(
    alloc: Global,
    mut progress: Progress,
    theory: &mut T,
    work: u32,
    halt: &mut H,
) -> Result<Solved, Halted>
    requires fits { (lits : List Lit) → All (λ l. l.atom < length progress.kernel.query.atoms) lits → T.fits theory.old progress.kernel.query lits }
    requires going { IsGoing progress }
    requires ready { IsReady progress }
    requires few { length progress.facts ≤ work }
    ensures solved { IfOk result (IsSolved (T.leaves theory.old) work progress.kernel.query) }
    ensures stopped { IsErrOf result Stopped → Rose (H.yeses halt.old) (H.yeses halt.new) }
    ensures never_falls { H.yeses halt.old ≤ H.yeses halt.new }
    ensures follows { H.follows halt.old halt.new }
    ensures unstopped { IsErrOf result Stopped ⊎ (H.yeses halt.new ≡ H.yeses halt.old) }
    ensures fitting { (query : Query) (lits : List Lit) → T.fits theory.old query lits ↔ T.fits theory.new query lits }
    ensures leaving { T.leaves theory.new ≡ T.leaves theory.old }
    ensures limited { T.limit theory.new ≡ T.limit theory.old }
{
    loop {
        match progress.round(alloc, theory, work, halt)? {
            Round::Going => {}
            Round::Sat(v) => return Ok(Solved::Sat(v)),
            Round::Unsat => return Ok(Solved::Unsat),
            Round::Spent => return Ok(Solved::Work(progress.facts)),
            Round::Leaf(lits) => return Ok(Solved::Leaf(lits)),
        }
    }
}
