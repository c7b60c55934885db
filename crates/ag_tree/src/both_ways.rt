//! Whether a clause holds an atom both ways.
ghost use Rattle.std.specs.Prelude.{◌≡◌, ◌<◌, ◌↔◌, All, IfOk, IsTrue, OnOk};
ghost use Rattle.ag_tree.specs.Facts.{HasNoneBothWays};

use ag_base::OutOfMemory;
use ag_kernel::Marked;
use ag_query::{Lit, Query};
use std::alloc::Global;

/// Whether no clause of the query holds an atom both ways, as `search` asks. It takes time for each
/// literal once, and memory for each atom.
pub fn has_plain_clauses(alloc: Global, query: &Query) -> Result<bool, OutOfMemory>
    ensures { IfOk result (λ plain. IsTrue plain ↔ All (λ c. HasNoneBothWays c.lits) query.now.clauses) }
{
    let mut seen = Marked::new(alloc, query.atoms.len())?;
    for clause in query.clauses.as_slice() {
        if !has_none_both_ways(&mut seen, clause.lits.as_slice())? {
            return Ok(false);
        }
    }
    Ok(true)
}

/// Goes along the literals, and puts each into the list.
fn has_none_both_ways(seen: &mut Marked, lits: &[Lit]) -> Result<bool, OutOfMemory>
    requires { All (λ l. l.atom < seen.old.atoms) lits.now }
    ensures plain { IfOk result (λ plain. IsTrue plain ↔ HasNoneBothWays lits.now) }
    ensures atoms { OnOk result (seen.new.atoms ≡ seen.old.atoms) }
{
    seen.clear();
    for lit in lits {
        if seen.has(lit.contrary()) {
            return Ok(false);
        }
        seen.add(*lit)?;
    }
    Ok(true)
}
