//! Streams with two sources.
ghost use Rattle.std.specs.Prelude.{◌≡◌, ◌++◌, [], ◌∷◌, not, is_none, ◌&&◌, ◌||◌, map, OnOk, IfOk, if◌then◌else◌};
ghost use Rattle.std.specs.List.{flat_map};
ghost use Rattle.ag_base.specs.declared.place.Rule.TheVariants.{TwoSources};
ghost use Rattle.ag_symbols.specs.Seen.{value_named, seen_of};
ghost use Rattle.ag_types.specs.ClauseFaults.{assign_in, is_declared_before, second_source, valued_streams_in};
ghost use Rattle.ag_types.specs.Places.{first_broken};

use crate::earliest::Earliest;
use crate::names::assigned_names;
use crate::places::either;
use ag_base::{OutOfMemory, Refusal, Rule};
use ag_symbols::{Vars, assign_targets, push_vars};
use ag_terms::{Clause, Ident, Var};
use std::alloc::Global;

/// The first assign that gives a stream a second source.
pub fn first_second_source(
    alloc: Global,
    library: &[Clause],
    frame: &[Clause],
    body: &[Clause],
    ports: &[Var],
) -> Result<Option<Refusal>, OutOfMemory>
    ensures { IfOk result (λ r. r ≡ first_broken (flat_map (second_source (seen_of library.now frame.now body.now ports.now) (flat_map assign_in (library.now ++ (frame.now ++ body.now)))) (flat_map assign_in (library.now ++ (frame.now ++ body.now))))) }
{
    let targets = assign_targets(alloc, library, frame, body, ports)?;
    let valued = valued_of(alloc, library, frame, body)?;
    let names = assigned_names(alloc, library, frame, body)?;
    let assigns = names.as_slice();
    let assigned = Earliest::make(alloc, assigns)?;
    let mut found = None;
    for name in assigns {
        let name: &Ident = *name;
        found = either(found, source_of(&targets, &valued, &assigned, name));
    }
    Ok(found)
}

// The streams that `eq` gives a value.
fn valued_of<'a>(
    alloc: Global,
    library: &'a [Clause],
    frame: &'a [Clause],
    body: &'a [Clause],
) -> Result<Vars<'a>, OutOfMemory>
    ensures { IfOk result (λ t. t ≡ flat_map valued_streams_in (library.now ++ (frame.now ++ body.now))) }
{
    let mut streams = Vec::new(alloc);
    push_valued_streams(&mut streams, library)?;
    push_valued_streams(&mut streams, frame)?;
    push_valued_streams(&mut streams, body)?;
    Vars::make(alloc, streams)
}

// The rule that an assign breaks, among the streams that may be assigned, those that have a value
// already, and the names that are assigned.
fn source_of(
    targets: &Vars<'_>,
    valued: &Vars<'_>,
    assigned: &Earliest<'_>,
    name: &Ident,
) -> Option<Refusal>
    ensures { result ≡ first_broken (if not (is_none (value_named name.now.text targets.now)) && (not (is_none (value_named name.now.text valued.now)) || is_declared_before assigned.now name.now) then record { place = name.now.place; rule = TwoSources } ∷ [] else []) }
{
    let is_taken = !is_missing(valued, name) || assigned.is_declared_before(name);
    if !is_missing(targets, name) && is_taken {
        Some(Refusal {
            place: name.place,
            rule: Rule::TwoSources,
        })
    } else {
        None
    }
}

// Whether no stream has the name.
fn is_missing(streams: &Vars<'_>, name: &Ident) -> bool
    ensures { result ≡ is_none (value_named name.now.text streams.now) }
{
    match streams.of_name(name.text.as_bytes()) {
        None => true,
        Some(_) => false,
    }
}

// Adds the streams to which a clause gives a value.
fn push_valued_streams_in<'a>(
    streams: &mut Vec<&'a Var>,
    clause: &'a Clause,
) -> Result<(), OutOfMemory>
    ensures { OnOk result (map (λ v. v.now) streams.new.items ≡ map (λ v. v.now) streams.old.items ++ valued_streams_in clause.now) }
{
    match clause {
        Clause::Eq {
            names,
            value: Some(_),
        } => push_vars(streams, names.as_slice()),
        _ => Ok(()),
    }
}

fn push_valued_streams<'a>(
    streams: &mut Vec<&'a Var>,
    clauses: &'a [Clause],
) -> Result<(), OutOfMemory>
    ensures { OnOk result (map (λ v. v.now) streams.new.items ≡ map (λ v. v.now) streams.old.items ++ flat_map valued_streams_in clauses.now) }
{
    for clause in clauses {
        push_valued_streams_in(streams, clause)?;
    }
    Ok(())
}
