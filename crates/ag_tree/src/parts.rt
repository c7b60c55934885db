//! Facts that a later one is a part of.
ghost use Rattle.std.specs.Prelude.{◌≡◌, length, All, Contains, IsTrue, OnOk};
ghost use Rattle.ag_tree.specs.Going.{HasPart, HasSlots};
ghost use Rattle.ag_tree.specs.Listing.{AddsNone, StaysBut};

use crate::occurrences::Occurrences;
use ag_base::OutOfMemory;
use ag_kernel::Kernel;
use ag_query::Lit;
use std::alloc::Global;

/// Takes the last of these lines off the lists, as long as they end with the clause. What is at rest
/// along the clause is at rest along them.
pub fn unlist(
    alloc: Global,
    kernel: &Kernel,
    occurrences: &mut Occurrences,
    numbers: &mut Vec<u32>,
    clause: &[Lit],
) -> Result<(), OutOfMemory>
    requires { All (HasSlots kernel.now.lines (length occurrences.old)) numbers.old.items }
    ensures slots { OnOk result (length occurrences.new ≡ length occurrences.old) }
    ensures kept { OnOk result (StaysBut (HasPart kernel.now.lines clause.now) occurrences.old occurrences.new) }
    ensures only { OnOk result (AddsNone occurrences.old occurrences.new) }
    ensures fewer { OnOk result (All (Contains numbers.old.items) numbers.new.items) }
{
    while let Some(number) = numbers.pop() {
        let line = kernel.line(number).lits.as_slice();
        if !is_end(clause, line) {
            numbers.push(number)?;
            return Ok(());
        }
        occurrences.remove(alloc, line, number);
    }
    Ok(())
}

/// Whether the line ends with the clause.
fn is_end(clause: &[Lit], line: &[Lit]) -> bool
    ensures { IsTrue result → All (Contains line.now) clause.now }
{
    if line.len() < clause.len() {
        return false;
    }
    let before = line.len() - clause.len();
    for place in 0..clause.len() {
        let lit = clause[place];
        let other = line[before + place];
        if lit.atom != other.atom || lit.holds != other.holds {
            return false;
        }
    }
    true
}
