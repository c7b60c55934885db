//! The first rule on names and types that the clauses of a scope break, but for circles and numbers.
ghost use Rattle.std.specs.Prelude.{◌≡◌, ◌++◌, IfOk};
ghost use Rattle.std.specs.List.{flat_map};
ghost use Rattle.ag_symbols.specs.Seen.{library_names, frame_names, names_seen, seen_of};
ghost use Rattle.ag_types.specs.ClauseFaults.{faults_of, clause_faults};
ghost use Rattle.ag_types.specs.Places.{first_broken};

use crate::clauses::clauses;
use crate::places::either;
use crate::sources::first_second_source;
use crate::twice::first_declared_twice;
use ag_base::{OutOfMemory, Refusal};
use ag_symbols::{Sites, Vars, assign_targets};
use ag_terms::{Clause, Var};
use std::alloc::Global;

/// The first rule that these clauses break, which have these sites.
pub fn first_fault(
    alloc: Global,
    sites: &Sites<'_>,
    library: &[Clause],
    frame: &[Clause],
    body: &[Clause],
    ports: &[Var],
) -> Result<Option<Refusal>, OutOfMemory>
    requires library { sites.now.library ≡ library_names (seen_of library.now frame.now body.now ports.now) }
    requires frame { sites.now.frame ≡ frame_names (seen_of library.now frame.now body.now ports.now) }
    requires body { sites.now.body ≡ names_seen (seen_of library.now frame.now body.now ports.now) }
    ensures { IfOk result (λ r. r ≡ first_broken (faults_of (seen_of library.now frame.now body.now ports.now))) }
{
    let of_names = first_declared_twice(alloc, library, frame, body, ports)?;
    let targets = assign_targets(alloc, library, frame, body, ports)?;
    let of_clauses = first_of_sites(alloc, &targets, sites, library, frame, body)?;
    let of_sources = first_second_source(alloc, library, frame, body, ports)?;
    Ok(either(of_names, either(of_clauses, of_sources)))
}

// The first rule that a clause breaks by itself.
fn first_of_sites(
    alloc: Global,
    targets: &Vars<'_>,
    sites: &Sites<'_>,
    library: &[Clause],
    frame: &[Clause],
    body: &[Clause],
) -> Result<Option<Refusal>, OutOfMemory>
    ensures { IfOk result (λ r. r ≡ first_broken (flat_map (clause_faults targets.now sites.now.library) library.now ++ (flat_map (clause_faults targets.now sites.now.frame) frame.now ++ flat_map (clause_faults targets.now sites.now.body) body.now))) }
{
    let of_library = clauses(alloc, targets, &sites.library, library)?;
    let of_frame = clauses(alloc, targets, &sites.frame, frame)?;
    let of_body = clauses(alloc, targets, &sites.body, body)?;
    Ok(either(of_library, either(of_frame, of_body)))
}
