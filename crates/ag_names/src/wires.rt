//! What connections break.
ghost use Rattle.std.specs.Prelude.{◌≡◌, IfOk};
ghost use Rattle.ag_names.specs.Broken.{ConnectionBreaks, ConnectedBreaks};
ghost use Rattle.ag_base.specs.declared.place.Rule.TheVariants.{NoPort};
ghost use Rattle.ag_names.specs.Ends.{end_place};
ghost use Rattle.ag_names.specs.Passes.{HasSecondSource, WiresBreak, end_of};
ghost use Rattle.ag_names.specs.Order.{IsFirst};
ghost use Rattle.ag_names.specs.Tables.{sourced};

use crate::ends::{Component, EndPoint, end_place, is_allowed};
use crate::order::earlier;
use crate::placed::ImplementationAt;
use crate::ports::{has_stream, have_same_stream};
use crate::refusals::refusal_at;
use ag_aadl::packages::{Body, End, Wire};
use ag_base::{OutOfMemory, Refusal, Rule};
use std::alloc::Global;
use std::collections::BTreeSet;

/// The first rule that a connection of an implementation breaks by itself.
pub fn first_in_wires(component: &Component<'_, '_>) -> Option<Refusal>
    ensures { IsFirst (WiresBreak component.now) result }
{
    let mut found = None;
    for wire in wires_of(component) {
        found = earlier(found, first_in_wire(component, wire));
    }
    found
}

fn wires_of<'a>(component: &Component<'a, '_>) -> &'a [Wire]
    ensures { result.now ≡ component.now.implementation.body.wires }
{
    let entry: &ImplementationAt<'a> = component.implementation;
    let body: &'a Body = entry.body;
    body.wires.as_slice()
}

fn first_in_wire<'a>(component: &Component<'a, '_>, wire: &'a Wire) -> Option<Refusal>
    ensures { IsFirst (ConnectionBreaks component.now.all component.now.implementation wire.now) result }
{
    match (
        component.end_point(&wire.from),
        component.end_point(&wire.to),
    ) {
        (Some(source), Some(target)) => connected_refusal(wire, &source, &target),
        (None, Some(_)) => Some(no_port(&wire.from)),
        (Some(_), None) => Some(no_port(&wire.to)),
        (None, None) => earlier(Some(no_port(&wire.from)), Some(no_port(&wire.to))),
    }
}

fn no_port(end: &End) -> Refusal
    ensures { result ≡ record { place = end_place end.now; rule = NoPort } }
{
    refusal_at(end_place(end), Rule::NoPort)
}

// The rule that a connection breaks whose ends are there. Both stand at one place, and the direction comes first.
fn connected_refusal(wire: &Wire, source: &EndPoint<'_>, target: &EndPoint<'_>) -> Option<Refusal>
    ensures { IsFirst (ConnectedBreaks wire.now source.now target.now) result }
{
    let place = end_place(&wire.from);
    if !is_allowed(source, target) {
        return Some(refusal_at(place, Rule::Direction));
    }
    if !have_same_stream(source.port, target.port) {
        return Some(refusal_at(place, Rule::PortType));
    }
    None
}

/// The first connection by which a port with a stream gets a second source.
pub fn first_second_source(
    alloc: Global,
    component: &Component<'_, '_>,
) -> Result<Option<Refusal>, OutOfMemory>
    ensures { IfOk result (IsFirst (HasSecondSource component.now)) }
{
    let mut sourced = BTreeSet::new(alloc);
    let mut found = None;
    for wire in wires_of(component) {
        if let Some(target) = sourced_port(component, wire) {
            if !sourced.insert(target)? {
                let second = refusal_at(wire.name.place, Rule::TwoSources);
                found = earlier(found, Some(second));
            }
        }
    }
    Ok(found)
}

// The port with a stream that gets a source by a connection whose ends are there: its subcomponent's position, or none
// for an own port, and its own.
fn sourced_port<'a>(component: &Component<'a, '_>, wire: &'a Wire) -> Option<(Option<usize>, usize)>
    ensures { result ≡ sourced (end_of component.now wire.now.from) (end_of component.now wire.now.to) }
{
    component.end_point(&wire.from)?;
    let target = component.end_point(&wire.to)?;
    if has_stream(target.port) {
        Some((target.sub, target.at))
    } else {
        None
    }
}
