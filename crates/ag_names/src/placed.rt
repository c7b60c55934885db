//! The types and implementations of all files but those that have the predeclared types, each with its position.
ghost use Rattle.std.specs.Prelude.{◌≡◌, ◌++◌, IfOk, OnOk};
ghost use Rattle.ag_names.specs.Tables.{AreSetAside};
ghost use Rattle.ag_names.specs.Placed.{types, implementations, types_in, implementations_in, type_at, implementation_at};

use crate::ports::is_base_types;
use ag_aadl::packages::{Body, Frame, Item, Package};
use ag_base::OutOfMemory;
use std::alloc::Global;
use std::collections::BTreeSet;
use std::marker::Model;

/// A type: the position of its package and its own among what that declares, the package, and the type itself.
#[derive(Drop)]
pub struct TypeAt<'a> {
    pub at: (usize, usize),
    pub owner: &'a Package,
    pub frame: &'a Frame,
}

impl<'a> Model for TypeAt<'a> {
    ghost use Rattle.ag_names.specs.Placed.{Type'};

    ghost Value = { Type' };

    ghost view = { λ t. record { at = t.at; owner = t.owner.now; frame = t.frame.now } };
}

/// An implementation, with the same three.
#[derive(Drop)]
pub struct ImplementationAt<'a> {
    pub at: (usize, usize),
    pub owner: &'a Package,
    pub body: &'a Body,
}

impl<'a> Model for ImplementationAt<'a> {
    ghost use Rattle.ag_names.specs.Placed.{Implementation};

    ghost Value = { Implementation };

    ghost view = { λ i. record { at = i.at; owner = i.owner.now; body = i.body.now } };
}

/// The files whose declarations are left out: those that have the package of the predeclared types.
pub fn files_set_aside(alloc: Global, packages: &[Package]) -> Result<BTreeSet<u32>, OutOfMemory>
    ensures { IfOk result (AreSetAside packages.now) }
{
    let mut files = BTreeSet::new(alloc);
    for package in packages {
        if is_base_types(package.name.text.as_bytes()) {
            files.insert(package.name.place.file)?;
        }
    }
    Ok(files)
}

/// All types, in their order.
pub fn types<'a>(
    alloc: Global,
    packages: &'a [Package],
    aside: &BTreeSet<u32>,
) -> Result<Vec<TypeAt<'a>>, OutOfMemory>
    requires { AreSetAside packages.now aside.now }
    ensures { IfOk result (λ v. v.items ≡ types packages.now) }
{
    let mut types = Vec::new(alloc);
    for (at, package) in packages.iter().enumerate() {
        if aside.contains(&package.name.place.file) {
            continue;
        }
        push_types(&mut types, at, package)?;
    }
    Ok(types)
}

// Adds the types of a package.
fn push_types<'a>(
    entries: &mut Vec<TypeAt<'a>>,
    package: usize,
    owner: &'a Package,
) -> Result<(), OutOfMemory>
    ensures { OnOk result (entries.new.items ≡ entries.old.items ++ types_in «package» owner.now) }
{
    for (item, declared) in owner.items.as_slice().iter().enumerate() {
        push_type(entries, (package, item), owner, declared)?;
    }
    Ok(())
}

fn push_type<'a>(
    entries: &mut Vec<TypeAt<'a>>,
    at: (usize, usize),
    owner: &'a Package,
    declared: &'a Item,
) -> Result<(), OutOfMemory>
    ensures { OnOk result (entries.new.items ≡ entries.old.items ++ type_at at owner.now declared.now) }
{
    match declared {
        Item::Frame(frame) => entries.push(TypeAt { at, owner, frame })?,
        Item::Body(_) | Item::Library(_) => {}
    }
    Ok(())
}

/// All implementations, in their order.
pub fn implementations<'a>(
    alloc: Global,
    packages: &'a [Package],
    aside: &BTreeSet<u32>,
) -> Result<Vec<ImplementationAt<'a>>, OutOfMemory>
    requires { AreSetAside packages.now aside.now }
    ensures { IfOk result (λ v. v.items ≡ implementations packages.now) }
{
    let mut implementations = Vec::new(alloc);
    for (at, package) in packages.iter().enumerate() {
        if aside.contains(&package.name.place.file) {
            continue;
        }
        push_implementations(&mut implementations, at, package)?;
    }
    Ok(implementations)
}

// Adds the implementations of a package.
fn push_implementations<'a>(
    entries: &mut Vec<ImplementationAt<'a>>,
    package: usize,
    owner: &'a Package,
) -> Result<(), OutOfMemory>
    ensures { OnOk result (entries.new.items ≡ entries.old.items ++ implementations_in «package» owner.now) }
{
    for (item, declared) in owner.items.as_slice().iter().enumerate() {
        push_implementation(entries, (package, item), owner, declared)?;
    }
    Ok(())
}

fn push_implementation<'a>(
    entries: &mut Vec<ImplementationAt<'a>>,
    at: (usize, usize),
    owner: &'a Package,
    declared: &'a Item,
) -> Result<(), OutOfMemory>
    ensures { OnOk result (entries.new.items ≡ entries.old.items ++ implementation_at at owner.now declared.now) }
{
    match declared {
        Item::Body(body) => entries.push(ImplementationAt { at, owner, body })?,
        Item::Frame(_) | Item::Library(_) => {}
    }
    Ok(())
}
