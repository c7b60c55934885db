//! Names that are declared a second time.
ghost use Rattle.std.specs.Prelude.{◌≡◌, ◌++◌, [], ◌∷◌, IfOk, OnOk};
ghost use Rattle.ag_base.specs.declared.place.Rule.TheVariants.{Twice};
ghost use Rattle.std.specs.List.Sorted.{IsSortedBy, IsPermutation};
ghost use Rattle.ag_names.specs.Declaring.{compare_declared, compare_places, is_behind, is_in_front};
ghost use Rattle.ag_names.specs.Order.{IsFirst};
ghost use Rattle.ag_names.specs.Twice.{IsTwice, package_names, type_names, implementation_names, port_names, subcomponent_names, connection_names, simple, implementation_name};

use crate::name::compare;
use crate::order::earlier;
use ag_aadl::packages::{Body, Frame, Item, Package};
use ag_base::{OutOfMemory, Place, Refusal, Rule};
use ag_terms::Ident;
use std::alloc::Global;
use std::cmp::Ordering;
use std::marker::Model;

/// A declared name and its place. That of an implementation has two parts, of which the first is its type's.
#[derive(Drop)]
struct Declared<'a> {
    type_name: &'a [u8],
    name: &'a [u8],
    place: Place,
}

impl<'a> Model for Declared<'a> {
    ghost use Rattle.ag_names.specs.Twice.{Declared};

    ghost Value = { Declared };

    ghost view = { λ d. record { type_name = d.type_name.now; name = d.name.now; place = d.place } };
}

fn simple(name: &Ident) -> Declared<'_>
    ensures { result ≡ simple name.now }
{
    Declared {
        type_name: &[],
        name: name.text.as_bytes(),
        place: name.place,
    }
}

fn implementation_name(body: &Body) -> Declared<'_>
    ensures { result ≡ implementation_name body.now }
{
    Declared {
        type_name: body.frame.text.as_bytes(),
        name: body.name.text.as_bytes(),
        place: body.name.place,
    }
}

/// The first package of a name that another has at an earlier place.
pub fn first_package_twice(
    alloc: Global,
    packages: &[Package],
) -> Result<Option<Refusal>, OutOfMemory>
    ensures { IfOk result (IsFirst (IsTwice (package_names packages.now))) }
{
    let mut names = Vec::new(alloc);
    for package in packages {
        names.push(simple(&package.name))?;
    }
    first_twice(names)
}

#[tactic(auto, using(crate::proofs::DeclaredNames::type_names_more))]
/// The first type of a package of a name that another has at an earlier place.
pub fn first_type_twice(alloc: Global, items: &[Item]) -> Result<Option<Refusal>, OutOfMemory>
    ensures { IfOk result (IsFirst (IsTwice (type_names items.now))) }
{
    let mut names = Vec::new(alloc);
    for item in items {
        push_type_name(&mut names, item)?;
    }
    first_twice(names)
}

#[tactic(auto, using(crate::proofs::DeclaredNames::implementation_names_more))]
/// The first implementation of a package that is of the same type and name as another at an earlier place.
pub fn first_implementation_twice(
    alloc: Global,
    items: &[Item],
) -> Result<Option<Refusal>, OutOfMemory>
    ensures { IfOk result (IsFirst (IsTwice (implementation_names items.now))) }
{
    let mut names = Vec::new(alloc);
    for item in items {
        push_implementation_name(&mut names, item)?;
    }
    first_twice(names)
}

fn push_type_name<'a>(names: &mut Vec<Declared<'a>>, item: &'a Item) -> Result<(), OutOfMemory>
    ensures { OnOk result (names.new.items ≡ names.old.items ++ type_names (item.now ∷ [])) }
{
    match item {
        Item::Frame(frame) => names.push(simple(&frame.name))?,
        Item::Body(_) | Item::Library(_) => {}
    }
    Ok(())
}

fn push_implementation_name<'a>(
    names: &mut Vec<Declared<'a>>,
    item: &'a Item,
) -> Result<(), OutOfMemory>
    ensures { OnOk result (names.new.items ≡ names.old.items ++ implementation_names (item.now ∷ [])) }
{
    match item {
        Item::Body(body) => names.push(implementation_name(body))?,
        Item::Frame(_) | Item::Library(_) => {}
    }
    Ok(())
}

/// The first port of a type of a name that another has at an earlier place.
pub fn first_port_twice(alloc: Global, frame: &Frame) -> Result<Option<Refusal>, OutOfMemory>
    ensures { IfOk result (IsFirst (IsTwice (port_names frame.now))) }
{
    let mut names = Vec::new(alloc);
    for port in frame.ports.as_slice() {
        names.push(simple(&port.name))?;
    }
    first_twice(names)
}

/// The first subcomponent of an implementation of a name that another has at an earlier place.
pub fn first_subcomponent_twice(alloc: Global, body: &Body) -> Result<Option<Refusal>, OutOfMemory>
    ensures { IfOk result (IsFirst (IsTwice (subcomponent_names body.now))) }
{
    let mut names = Vec::new(alloc);
    for sub in body.subs.as_slice() {
        names.push(simple(&sub.name))?;
    }
    first_twice(names)
}

/// The first connection of an implementation of a name that another has at an earlier place.
pub fn first_connection_twice(alloc: Global, body: &Body) -> Result<Option<Refusal>, OutOfMemory>
    ensures { IfOk result (IsFirst (IsTwice (connection_names body.now))) }
{
    let mut names = Vec::new(alloc);
    for wire in body.wires.as_slice() {
        names.push(simple(&wire.name))?;
    }
    first_twice(names)
}

// The first of some names whose place is behind that of the same one. In order by names and places, those that are the
// same stand together.
fn first_twice(names: Vec<Declared<'_>>) -> Result<Option<Refusal>, OutOfMemory>
    ensures { IfOk result (IsFirst (IsTwice names.entry.items)) }
{
    let mut ordered = names;
    sort(&mut ordered)?;
    Ok(first_behind(ordered.as_slice()))
}

fn sort(names: &mut Vec<Declared<'_>>) -> Result<(), OutOfMemory>
    ensures permutation { IsPermutation names.old.items names.new.items }
    ensures sorted { OnOk result (IsSortedBy is_in_front names.new.items) }
{
    names.sort_by(|a, b| order(a, b))?;
    Ok(())
}

// Among names in that order the first that is behind its neighbour.
fn first_behind(names: &[Declared<'_>]) -> Option<Refusal>
    requires { IsSortedBy is_in_front names.now }
    ensures { IsFirst (IsTwice names.now) result }
{
    let mut found = None;
    for at in 1..names.len() {
        let declared = &names[at];
        if is_behind(&names[at - 1], declared) {
            found = earlier(found, Some(twice_at(declared.place)));
        }
    }
    found
}

// By names, and those that are the same by their places.
fn order(a: &Declared<'_>, b: &Declared<'_>) -> Ordering
    ensures { result ≡ compare_declared a.now b.now }
{
    let names = compare(a.type_name, b.type_name).then(compare(a.name, b.name));
    names.then(compare_places(a.place, b.place))
}

fn compare_places(p: Place, q: Place) -> Ordering
    ensures { result ≡ compare_places p q }
{
    let columns = p.column.cmp(&q.column);
    p.file.cmp(&q.file).then(p.line.cmp(&q.line).then(columns))
}

// It is the same name as the last one, at a later place.
#[tactic(auto, unfolding(ag_terms::specs::Names::same))]
fn is_behind(last: &Declared<'_>, declared: &Declared<'_>) -> bool
    ensures { result ≡ is_behind last.now declared.now }
{
    last.type_name.eq_ignore_ascii_case(declared.type_name)
        && last.name.eq_ignore_ascii_case(declared.name)
        && last.place.is_before(declared.place)
}

fn twice_at(place: Place) -> Refusal
    ensures { result ≡ record { place = place; rule = Twice } }
{
    Refusal {
        place,
        rule: Rule::Twice,
    }
}
