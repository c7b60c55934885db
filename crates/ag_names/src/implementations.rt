//! What implementations break.
ghost use Rattle.std.specs.Prelude.{◌≡◌, IfOk, slice_get, Some};
ghost use Rattle.ag_names.specs.Broken.{ImplementationBreaks};
ghost use Rattle.ag_names.specs.Graph.{AreRecursive};
ghost use Rattle.ag_names.specs.Order.{IsFirst, InSome};
ghost use Rattle.ag_names.specs.Passes.{NamesAreTwice, TypeIsMissing};
ghost use Rattle.ag_names.specs.Placed.{implementations};

use crate::ends::Component;
use crate::index::Index;
use crate::order::earlier;
use crate::placed::ImplementationAt;
use crate::refusals::refusal_at;
use crate::subs::first_in_subs;
use crate::twice::{first_connection_twice, first_subcomponent_twice};
use crate::wires::{first_in_wires, first_second_source};
use ag_aadl::packages::Body;
use ag_base::{OutOfMemory, Refusal, Rule};
use std::alloc::Global;

/// The first rule that an implementation breaks.
pub fn first_in_implementations(
    alloc: Global,
    index: &Index<'_>,
    recursive: &[bool],
) -> Result<Option<Refusal>, OutOfMemory>
    requires { AreRecursive index.now recursive.now }
    ensures { IfOk result (IsFirst (InSome (implementations index.now) (ImplementationBreaks index.now))) }
{
    let mut found = None;
    for entry in index.implementations() {
        found = earlier(
            found,
            first_in_implementation(alloc, index, recursive, entry)?,
        );
    }
    Ok(found)
}

fn first_in_implementation<'a>(
    alloc: Global,
    index: &Index<'a>,
    recursive: &[bool],
    entry: &ImplementationAt<'a>,
) -> Result<Option<Refusal>, OutOfMemory>
    requires owner { slice_get index.now entry.now.at.0 ≡ Some entry.now.owner }
    requires circles { AreRecursive index.now recursive.now }
    ensures { IfOk result (IsFirst (ImplementationBreaks index.now entry.now)) }
{
    let component = Component::make(alloc, index, entry)?;
    let names = earlier(typeless(&component), first_name_twice(alloc, entry)?);
    let subs = first_in_subs(index, recursive, entry);
    let wires = earlier(
        first_in_wires(&component),
        first_second_source(alloc, &component)?,
    );
    Ok(earlier(earlier(names, subs), wires))
}

// The type of an implementation isn't there.
fn typeless(component: &Component<'_, '_>) -> Option<Refusal>
    ensures { IsFirst (TypeIsMissing component.now) result }
{
    if component.has_type() {
        return None;
    }
    let entry = component.implementation;
    let body: &Body = entry.body;
    Some(refusal_at(body.frame.place, Rule::NoClassifier))
}

// The first subcomponent or connection of a name that another has before it.
fn first_name_twice(
    alloc: Global,
    entry: &ImplementationAt<'_>,
) -> Result<Option<Refusal>, OutOfMemory>
    ensures { IfOk result (IsFirst (NamesAreTwice entry.now.body)) }
{
    let body: &Body = entry.body;
    let sub = first_subcomponent_twice(alloc, body)?;
    Ok(earlier(sub, first_connection_twice(alloc, body)?))
}
