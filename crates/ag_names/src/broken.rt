//! The first rule on names that packages break.
ghost use Rattle.std.specs.Prelude.{IfOk};
ghost use Rattle.ag_names.specs.Broken.{Breaks, PackageBreaks};
ghost use Rattle.ag_names.specs.Order.{IsFirst, InSome};
ghost use Rattle.ag_names.specs.Passes.{DeclarationsBreak};

use crate::circles::recursive_implementations;
use crate::implementations::first_in_implementations;
use crate::index::Index;
use crate::order::earlier;
use crate::twice::{first_implementation_twice, first_package_twice, first_type_twice};
use crate::types::first_in_types;
use ag_aadl::packages::Package;
use ag_base::{OutOfMemory, Refusal};
use std::alloc::Global;

/// The first rule that is broken, if one is.
pub fn first_broken(alloc: Global, index: &Index<'_>) -> Result<Option<Refusal>, OutOfMemory>
    ensures { IfOk result (IsFirst (Breaks index.now)) }
{
    let names = first_package_twice(alloc, index.packages())?;
    let packages = first_in_packages(alloc, index)?;
    let types = first_in_types(alloc, index)?;
    let recursive = recursive_implementations(alloc, index)?;
    let implementations = first_in_implementations(alloc, index, recursive.as_slice())?;
    Ok(earlier(earlier(names, packages), earlier(types, implementations)))
}

// The first rule that the declarations of packages break.
fn first_in_packages(alloc: Global, index: &Index<'_>) -> Result<Option<Refusal>, OutOfMemory>
    ensures { IfOk result (IsFirst (InSome index.now (DeclarationsBreak index.now))) }
{
    let mut found = None;
    for package in index.packages() {
        found = earlier(found, first_in_declarations(alloc, index, package)?);
    }
    Ok(found)
}

// Those of a package in a file that is looked at.
fn first_in_declarations(
    alloc: Global,
    index: &Index<'_>,
    package: &Package,
) -> Result<Option<Refusal>, OutOfMemory>
    ensures { IfOk result (IsFirst (DeclarationsBreak index.now «package».now)) }
{
    if index.is_set_aside(package.name.place.file) {
        return Ok(None);
    }
    first_in_package(alloc, package)
}

fn first_in_package(alloc: Global, package: &Package) -> Result<Option<Refusal>, OutOfMemory>
    ensures { IfOk result (IsFirst (PackageBreaks «package».now)) }
{
    let items = package.items.as_slice();
    let types = first_type_twice(alloc, items)?;
    Ok(earlier(types, first_implementation_twice(alloc, items)?))
}
