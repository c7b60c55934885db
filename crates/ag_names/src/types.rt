//! What types break.
ghost use Rattle.std.specs.Prelude.{◌≡◌, IfOk, slice_get, Some};
ghost use Rattle.ag_names.specs.Broken.{TypeBreaks, PortBreaks};
ghost use Rattle.ag_names.specs.Order.{IsFirst, InSome};
ghost use Rattle.ag_names.specs.Placed.{types};

use crate::index::Index;
use crate::order::earlier;
use crate::placed::TypeAt;
use crate::refusals::refusal_at;
use crate::twice::first_port_twice;
use ag_aadl::packages::{Frame, Port};
use ag_base::{OutOfMemory, Refusal, Rule};
use std::alloc::Global;

/// The first rule that a type breaks.
pub fn first_in_types(alloc: Global, index: &Index<'_>) -> Result<Option<Refusal>, OutOfMemory>
    ensures { IfOk result (IsFirst (InSome (types index.now) TypeBreaks)) }
{
    let mut found = None;
    for entry in index.types() {
        found = earlier(found, first_in_type(alloc, index, entry)?);
    }
    Ok(found)
}

fn first_in_type<'a>(
    alloc: Global,
    index: &Index<'a>,
    entry: &TypeAt<'a>,
) -> Result<Option<Refusal>, OutOfMemory>
    requires { slice_get index.now entry.now.at.0 ≡ Some entry.now.owner }
    ensures { IfOk result (IsFirst (TypeBreaks entry.now)) }
{
    let frame: &'a Frame = entry.frame;
    let twice = first_port_twice(alloc, frame)?;
    Ok(earlier(twice, first_port_unimported(index, entry)))
}

// The first type of a port whose package may not be used.
fn first_port_unimported<'a>(index: &Index<'a>, entry: &TypeAt<'a>) -> Option<Refusal>
    requires { slice_get index.now entry.now.at.0 ≡ Some entry.now.owner }
    ensures { IsFirst (InSome entry.now.frame.ports (PortBreaks entry.now)) result }
{
    let frame: &'a Frame = entry.frame;
    let mut found = None;
    for port in frame.ports.as_slice() {
        found = earlier(found, port_unimported(index, entry, port));
    }
    found
}

fn port_unimported<'a>(index: &Index<'a>, entry: &TypeAt<'a>, port: &'a Port) -> Option<Refusal>
    requires { slice_get index.now entry.now.at.0 ≡ Some entry.now.owner }
    ensures { IsFirst (PortBreaks entry.now port.now) result }
{
    let owner = port.carries.as_ref()?.package.as_ref()?;
    if index.may_use(entry.at.0, owner.text.as_bytes()) {
        return None;
    }
    Some(refusal_at(owner.place, Rule::NotImported))
}
