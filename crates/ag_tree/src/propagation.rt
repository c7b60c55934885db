//! Steps that are drawn along lines.
ghost use Rattle.std.specs.Prelude.{◌≡◌, ◌<◌, ◌≤◌, ◌*◌, ℕ, length, All, Contains, None, OnOk, IfOk};
ghost use Rattle.ag_query.specs.declared.clauses.Lit.{Lit};
ghost use Rattle.ag_kernel.specs.Rules.{Adds, CanConclude};
ghost use Rattle.ag_kernel.specs.State.{FollowsAt};
ghost use Rattle.ag_tree.specs.Going.{IsClauseLine, PassesAs, PropagatesAs};
ghost use Rattle.ag_tree.specs.Listing.{listed};
ghost use Rattle.ag_tree.specs.Trail.{AreSound, Draws};

use crate::occurrences::Occurrences;
use crate::trail::{Look, Step, Trail};
use ag_base::OutOfMemory;
use ag_kernel::{Kernel, KernelFault};
use ag_query::Lit;

/// Goes through the steps from a place on, each along the lines that it may leave with one literal.
pub fn propagate(
    kernel: &Kernel,
    occurrences: &Occurrences,
    trail: &mut Trail,
    from: usize,
) -> Result<Option<u32>, OutOfMemory>
    requires lines { (l : Lit) (n : ℕ) → Contains (listed occurrences.now l) n → IsClauseLine kernel.now.lines trail.old.atoms n }
    requires slots { length occurrences.now ≡ 2 * trail.old.atoms }
    requires sound { AreSound kernel.now.lines trail.old.steps }
    requires from { from ≤ length trail.old.steps }
    ensures draws { OnOk result (Draws kernel.now.lines trail.old trail.new) }
    ensures rests { IfOk result (PropagatesAs kernel.now.lines occurrences.now from trail.old trail.new) }
{
    let mut head = from;
    while head < trail.len() {
        let lit = trail.literal(head);
        if let Some(line) = pass(kernel, occurrences.of(lit), trail)? {
            return Ok(Some(line));
        }
        head += 1;
    }
    Ok(None)
}

/// Goes over lines, and draws the last literal of each that leaves one. Answers the first line that
/// is against the trail.
pub fn pass(kernel: &Kernel, numbers: &[u32], trail: &mut Trail) -> Result<Option<u32>, OutOfMemory>
    requires lines { All (IsClauseLine kernel.now.lines trail.old.atoms) numbers.now }
    requires sound { AreSound kernel.now.lines trail.old.steps }
    ensures draws { OnOk result (Draws kernel.now.lines trail.old trail.new) }
    ensures passes { IfOk result (PassesAs kernel.now.lines numbers.now trail.old trail.new) }
{
    for number in numbers {
        match trail.look(kernel.line(*number).lits.as_slice()) {
            Look::Rest => {}
            Look::Last(lit) => trail.push(Step {
                lit,
                reason: Some(*number),
            })?,
            Look::Conflict => return Ok(Some(*number)),
        }
    }
    Ok(None)
}

/// Adds a clause that follows by unit steps along the lines. A few of them are tried first.
pub fn add_line(
    kernel: &mut Kernel,
    clause: &[Lit],
    lines: &[u32],
    few: &[u32],
) -> Result<u32, OutOfMemory>
    requires there { All (λ n. n < length kernel.old.lines) lines.now }
    requires implied { CanConclude kernel.old clause.now lines.now }
    ensures line { IfOk result (λ n. Adds kernel.old kernel.new n (record { lits = clause.now; row = None })) }
    ensures follows { IfOk result (FollowsAt kernel.new) }
{
    match kernel.by_units(clause, few) {
        Ok(number) => Ok(number),
        Err(KernelFault::OutOfMemory) => Err(OutOfMemory),
        Err(KernelFault::NotThere(_)) => along(kernel, clause, lines),
        Err(KernelFault::NotImplied) => along(kernel, clause, lines),
        Err(KernelFault::Wide) => along(kernel, clause, lines),
    }
}

/// Adds a clause that follows by unit steps along the lines.
fn along(kernel: &mut Kernel, clause: &[Lit], lines: &[u32]) -> Result<u32, OutOfMemory>
    requires there { All (λ n. n < length kernel.old.lines) lines.now }
    requires implied { CanConclude kernel.old clause.now lines.now }
    ensures line { IfOk result (λ n. Adds kernel.old kernel.new n (record { lits = clause.now; row = None })) }
    ensures follows { IfOk result (FollowsAt kernel.new) }
{
    match kernel.by_units(clause, lines) {
        Ok(number) => Ok(number),
        Err(KernelFault::OutOfMemory) => Err(OutOfMemory),
        Err(KernelFault::NotThere(_)) => unreachable!(),
        Err(KernelFault::NotImplied) => unreachable!(),
        Err(KernelFault::Wide) => unreachable!(),
    }
}
