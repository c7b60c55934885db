//! Making the links.
ghost use Rattle.std.specs.Prelude.{◌≡◌, ◌++◌, Some, IfOk, OnOk};
ghost use Rattle.std.specs.Option.{option_map};
ghost use Rattle.ag_names.specs.Found.{type_named, type_of, implementation_as, implementation_of};
ghost use Rattle.ag_names.specs.Links.{AreLinks, sub_link, sub_links, wire_links, end_link};
ghost use Rattle.ag_names.specs.Tables.{link_of_wire};

use crate::ends::{Component, EndPoint};
use crate::index::{Index, TypeName};
use crate::links::{Links, SubLink, WireLink};
use crate::placed::ImplementationAt;
use crate::subs::implementation_number;
use ag_aadl::packages::{Body, Sub, Wire};
use ag_base::{List, OutOfMemory};
use ag_terms::Path;
use std::alloc::Global;

/// The links of all subcomponents and connections.
pub fn links(alloc: Global, index: &Index<'_>) -> Result<Links, OutOfMemory>
    ensures { IfOk result (AreLinks index.now) }
{
    let mut subs = Vec::new(alloc);
    let mut wires = Vec::new(alloc);
    for entry in index.implementations() {
        push_sub_links(&mut subs, index, entry)?;
        push_wire_links(alloc, &mut wires, index, entry)?;
    }
    Ok(Links {
        subs: List::from_vec(subs),
        wires: List::from_vec(wires),
    })
}

fn push_sub_links<'a>(
    links: &mut Vec<SubLink>,
    index: &Index<'a>,
    entry: &ImplementationAt<'a>,
) -> Result<(), OutOfMemory>
    ensures { OnOk result (links.new.items ≡ links.old.items ++ sub_links index.now entry.now) }
{
    let body: &'a Body = entry.body;
    for (at, sub) in body.subs.as_slice().iter().enumerate() {
        links.push(sub_link(index, entry, at, sub)?)?;
    }
    Ok(())
}

fn sub_link<'a>(
    index: &Index<'a>,
    entry: &ImplementationAt<'a>,
    at: usize,
    sub: &'a Sub,
) -> Result<SubLink, OutOfMemory>
    ensures { IfOk result (λ l. l ≡ sub_link index.now entry.now at sub.now) }
{
    Ok(SubLink {
        package: position(entry.at.0)?,
        item: position(entry.at.1)?,
        sub: position(at)?,
        frame: frame_of(index, entry, sub)?,
        body: body_of(index, entry, sub)?,
    })
}

// Where the type of a subcomponent stands.
fn frame_of<'a>(
    index: &Index<'a>,
    entry: &ImplementationAt<'a>,
    sub: &'a Sub,
) -> Result<Option<(u32, u32)>, OutOfMemory>
    ensures { IfOk result (λ s. s ≡ option_map (λ t. t.at) (type_of index.now entry.now.owner sub.now)) }
{
    match &sub.of {
        None => Ok(None),
        Some(path) => type_at(index, &TypeName::named(entry.owner, sub.category, path)),
    }
}

fn type_at<'a>(index: &Index<'a>, name: &TypeName<'a>) -> Result<Option<(u32, u32)>, OutOfMemory>
    ensures { IfOk result (λ s. s ≡ option_map (λ t. t.at) (type_named index.now name.now)) }
{
    match index.type_number(name) {
        None => Ok(None),
        Some(number) => match index.types().get(number) {
            None => Ok(None),
            Some(entry) => stand(entry.at),
        },
    }
}

// Where the implementation of a subcomponent stands, if it names one.
fn body_of<'a>(
    index: &Index<'a>,
    entry: &ImplementationAt<'a>,
    sub: &'a Sub,
) -> Result<Option<(u32, u32)>, OutOfMemory>
    ensures { IfOk result (λ s. s ≡ option_map (λ j. j.at) (implementation_of index.now entry.now.owner sub.now)) }
{
    match &sub.of {
        None => Ok(None),
        Some(path) => {
            let name = TypeName::named(entry.owner, sub.category, path);
            implementation_at(index, &name, path)
        }
    }
}

fn implementation_at<'a>(
    index: &Index<'a>,
    name: &TypeName<'a>,
    path: &'a Path,
) -> Result<Option<(u32, u32)>, OutOfMemory>
    ensures { IfOk result (λ s. s ≡ option_map (λ j. j.at) (implementation_as index.now name.now path.now.body)) }
{
    match implementation_number(index, name, path) {
        None => Ok(None),
        Some(number) => match index.implementations().get(number) {
            None => Ok(None),
            Some(entry) => stand(entry.at),
        },
    }
}

fn stand(at: (usize, usize)) -> Result<Option<(u32, u32)>, OutOfMemory>
    ensures { IfOk result (λ s. s ≡ Some at) }
{
    Ok(Some((position(at.0)?, position(at.1)?)))
}

fn push_wire_links<'a>(
    alloc: Global,
    links: &mut Vec<WireLink>,
    index: &Index<'a>,
    entry: &ImplementationAt<'a>,
) -> Result<(), OutOfMemory>
    ensures { OnOk result (links.new.items ≡ links.old.items ++ wire_links index.now entry.now) }
{
    let component = Component::make(alloc, index, entry)?;
    let body: &'a Body = entry.body;
    for (at, wire) in body.wires.as_slice().iter().enumerate() {
        push_wire_link(links, &component, at, wire)?;
    }
    Ok(())
}

fn push_wire_link<'a>(
    links: &mut Vec<WireLink>,
    component: &Component<'a, '_>,
    at: usize,
    wire: &'a Wire,
) -> Result<(), OutOfMemory>
    ensures { OnOk result (links.new.items ≡ links.old.items ++ link_of_wire component.now at wire.now) }
{
    let (Some(source), Some(target)) = (
        component.end_point(&wire.from),
        component.end_point(&wire.to),
    ) else {
        return Ok(());
    };
    let entry = component.implementation;
    links.push(WireLink {
        package: position(entry.at.0)?,
        item: position(entry.at.1)?,
        wire: position(at)?,
        from: end_link(&source)?,
        to: end_link(&target)?,
    })?;
    Ok(())
}

fn end_link(end_point: &EndPoint<'_>) -> Result<(Option<u32>, u32), OutOfMemory>
    ensures { IfOk result (λ l. l ≡ end_link end_point.now) }
{
    let sub = match end_point.sub {
        None => None,
        Some(at) => Some(position(at)?),
    };
    Ok((sub, position(end_point.at)?))
}

// A position as a link has it. A file of at most 4,194,304 bytes declares far fewer; a longer list is answered as want
// of memory.
fn position(at: usize) -> Result<u32, OutOfMemory>
    ensures { IfOk result (λ p. p ≡ at) }
{
    u32::try_from(at).map_err(|_| OutOfMemory)
}
