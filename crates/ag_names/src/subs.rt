//! What subcomponents break.
ghost use Rattle.std.specs.Prelude.{◌≡◌, slice_get, Some};
ghost use Rattle.ag_names.specs.Broken.{SubcomponentBreaks, UseBreaks};
ghost use Rattle.ag_names.specs.Graph.{AreRecursive, number_as};
ghost use Rattle.ag_names.specs.Tables.{missing_refusal, recursion_refusal};
ghost use Rattle.ag_names.specs.Found.{use_place};
ghost use Rattle.ag_names.specs.Order.{IsFirst, InSome};

use crate::index::{Index, TypeName};
use crate::order::earlier;
use crate::placed::ImplementationAt;
use crate::refusals::refusal_at;
use ag_aadl::packages::{Body, Sub};
use ag_base::{Place, Refusal, Rule};
use ag_terms::{Ident, Path};

/// The first rule that a subcomponent of an implementation breaks. `recursive` tells of each implementation, by its
/// number, whether it is inside itself.
pub fn first_in_subs<'a>(
    index: &Index<'a>,
    recursive: &[bool],
    entry: &ImplementationAt<'a>,
) -> Option<Refusal>
    requires owner { slice_get index.now entry.now.at.0 ≡ Some entry.now.owner }
    requires circles { AreRecursive index.now recursive.now }
    ensures { IsFirst (InSome entry.now.body.subs (SubcomponentBreaks index.now entry.now.owner)) result }
{
    let body: &'a Body = entry.body;
    let mut found = None;
    for sub in body.subs.as_slice() {
        found = earlier(found, first_in_sub(index, recursive, entry, sub));
    }
    found
}

fn first_in_sub<'a>(
    index: &Index<'a>,
    recursive: &[bool],
    entry: &ImplementationAt<'a>,
    sub: &'a Sub,
) -> Option<Refusal>
    requires owner { slice_get index.now entry.now.at.0 ≡ Some entry.now.owner }
    requires circles { AreRecursive index.now recursive.now }
    ensures { IsFirst (SubcomponentBreaks index.now entry.now.owner sub.now) result }
{
    let path: &'a Path = sub.of.as_ref()?;
    let name = TypeName::named(entry.owner, sub.category, path);
    let package = package_refusal(index, entry, path);
    let classifier = classifier_refusal(index, &name, path);
    let recursive = recursive_refusal(index, recursive, &name, path, sub.name.place);
    earlier(earlier(package, classifier), recursive)
}

// The rule that the use of a package breaks, if it names one: it isn't there, or may not be used.
fn package_refusal<'a>(
    index: &Index<'a>,
    entry: &ImplementationAt<'a>,
    path: &'a Path,
) -> Option<Refusal>
    requires { slice_get index.now entry.now.at.0 ≡ Some entry.now.owner }
    ensures { IsFirst (UseBreaks index.now entry.now.owner (Some path.now)) result }
{
    let owner: &'a Ident = path.package.as_ref()?;
    let name = owner.text.as_bytes();
    if !index.is_package(name) {
        return Some(refusal_at(owner.place, Rule::NoPackage));
    }
    if !index.may_use(entry.at.0, name) {
        return Some(refusal_at(owner.place, Rule::NotImported));
    }
    None
}

// The type or the implementation that is named isn't there.
fn classifier_refusal<'a>(index: &Index<'a>, name: &TypeName<'a>, path: &'a Path) -> Option<Refusal>
    ensures { result ≡ missing_refusal index.now name.now path.now }
{
    let is_there = index.type_number(name).is_some()
        && match &path.body {
            None => true,
            Some(body) => index
                .implementation_number(name, body.text.as_bytes())
                .is_some(),
        };
    if is_there {
        return None;
    }
    Some(refusal_at(use_place(path), Rule::NoClassifier))
}

// The implementation that is named, by a subcomponent at this place, is inside itself.
fn recursive_refusal<'a>(
    index: &Index<'a>,
    recursive: &[bool],
    name: &TypeName<'a>,
    path: &'a Path,
    place: Place,
) -> Option<Refusal>
    ensures { result ≡ recursion_refusal recursive.now (number_as index.now name.now path.now.body) place }
{
    let number = implementation_number(index, name, path)?;
    match recursive.get(number) {
        Some(true) => Some(refusal_at(place, Rule::Recursive)),
        _ => None,
    }
}

/// The number of the implementation that a path names, if it names one that is there; `name` is that of its type.
pub fn implementation_number<'a>(
    index: &Index<'a>,
    name: &TypeName<'a>,
    path: &'a Path,
) -> Option<usize>
    ensures { result ≡ number_as index.now name.now path.now.body }
{
    let body: &'a Ident = path.body.as_ref()?;
    index.implementation_number(name, body.text.as_bytes())
}

/// The first place of a use.
fn use_place(path: &Path) -> Place
    ensures { result ≡ use_place path.now }
{
    match &path.package {
        None => path.name.place,
        Some(owner) => owner.place,
    }
}
