//! What each clause breaks of the rules on names and types by itself.
ghost use Rattle.std.specs.Prelude.{◌≡◌, IfOk};
ghost use Rattle.std.specs.List.{flat_map};
ghost use Rattle.std.specs.List.Sorted.{IsPermutation};
ghost use Rattle.ag_types.specs.ClauseFaults.{clause_faults, node_sees};
ghost use Rattle.ag_types.specs.Places.{first_broken};

use crate::claims::{claim, constant, equal, streams};
use crate::earliest::Earliest;
use crate::equations::node;
use crate::places::either;
use crate::twice::names_seen;
use ag_base::{OutOfMemory, Refusal};
use ag_symbols::{Site, Vars};
use ag_terms::Clause;
use std::alloc::Global;

/// The first rule that some clauses of a site break.
pub fn clauses(
    alloc: Global,
    targets: &Vars<'_>,
    site: &Site<'_>,
    clauses: &[Clause],
) -> Result<Option<Refusal>, OutOfMemory>
    ensures { IfOk result (λ r. r ≡ first_broken (flat_map (clause_faults targets.now site.now) clauses.now)) }
{
    let sight = site.sight();
    let seen = names_seen(alloc, &sight)?;
    let mut broken = None;
    for part in clauses {
        broken = either(broken, clause(alloc, targets, site, &seen, part)?);
    }
    Ok(broken)
}

fn clause(
    alloc: Global,
    targets: &Vars<'_>,
    site: &Site<'_>,
    seen: &Earliest<'_>,
    clause: &Clause,
) -> Result<Option<Refusal>, OutOfMemory>
    requires { IsPermutation (node_sees site.now) seen.now }
    ensures { IfOk result (λ r. r ≡ first_broken (clause_faults targets.now site.now clause.now)) }
{
    let sight = site.sight();
    match clause {
        Clause::Assume(labelled) => Ok(claim(&sight, labelled)),
        Clause::Guarantee(labelled) => Ok(claim(&sight, labelled)),
        Clause::Lemma(labelled) => Ok(claim(&sight, labelled)),
        Clause::Eq { names, value } => Ok(streams(&sight, names.as_slice(), value)),
        Clause::Assign(equation) => Ok(equal(&sight, targets, equation)),
        Clause::Const { name, value } => Ok(constant(&sight, name, value)),
        Clause::Node(def) => node(alloc, site, seen, def),
    }
}
