//! Names that are declared twice.
ghost use Rattle.std.specs.Prelude.{◌≡◌, ◌++◌, [], ◌∷◌, map, IfOk, if◌then◌else◌};
ghost use Rattle.std.specs.List.Sorted.{IsPermutation};
ghost use Rattle.ag_base.specs.declared.place.Rule.TheVariants.{Twice};
ghost use Rattle.ag_symbols.specs.Seen.{Names, seen_of};
ghost use Rattle.ag_types.specs.ClauseFaults.{declared, equation_names, is_declared_before, node_sees, node_twice, twice_among};
ghost use Rattle.ag_types.specs.Places.{first_broken};

use crate::earliest::Earliest;
use crate::names::{declared_names, node_names, push_equations, seen_names};
use crate::places::either;
use ag_base::{OutOfMemory, Refusal, Rule};
use ag_symbols::Sight;
use ag_terms::{Clause, Ident, NodeDef, Var};
use std::alloc::Global;

/// The first name of a scope that is declared at an earlier place too.
pub fn first_declared_twice(
    alloc: Global,
    library: &[Clause],
    frame: &[Clause],
    body: &[Clause],
    ports: &[Var],
) -> Result<Option<Refusal>, OutOfMemory>
    ensures { IfOk result (λ r. r ≡ first_broken (twice_among (declared (seen_of library.now frame.now body.now ports.now)) (declared (seen_of library.now frame.now body.now ports.now)))) }
{
    let names = declared_names(alloc, library, frame, body, ports)?;
    first_twice(alloc, names.as_slice(), names.as_slice())
}

/// The first name of a node's equations that has an equation at an earlier place too.
pub fn first_equation_twice(alloc: Global, node: &NodeDef) -> Result<Option<Refusal>, OutOfMemory>
    ensures { IfOk result (λ r. r ≡ first_broken (twice_among (equation_names node.now) (equation_names node.now))) }
{
    let mut names = Vec::new(alloc);
    push_equations(&mut names, node.equations.as_slice())?;
    first_twice(alloc, names.as_slice(), names.as_slice())
}

/// The names that the nodes of a site see beside their own.
pub fn names_seen<'a>(alloc: Global, sight: &Sight<'a>) -> Result<Earliest<'a>, OutOfMemory>
    ensures { IfOk result (λ t. IsPermutation (node_sees sight.now) t) }
{
    let names = seen_names(alloc, sight)?;
    Earliest::make(alloc, names.as_slice())
}

/// The first of a node's names that is also declared at an earlier place in the node or among the names
/// that it sees, and of those that it sees the first that the node declares at an earlier place.
pub fn node_twice_among(
    alloc: Global,
    seen: &Earliest<'_>,
    node: &NodeDef,
) -> Result<Option<Refusal>, OutOfMemory>
    ensures { IfOk result (λ r. (names : Names) → IsPermutation (node_sees names) seen.now → r ≡ first_broken (node_twice names node.now)) }
{
    let own = node_names(alloc, node)?;
    let names = own.as_slice();
    let of_own = Earliest::make(alloc, names)?;
    let found = first_of_two(&of_own, seen, names);
    let later = first_later(seen, names);
    Ok(either(found, later))
}

// The first of some names that stands among others at an earlier place too.
fn first_twice(
    alloc: Global,
    names: &[&Ident],
    others: &[&Ident],
) -> Result<Option<Refusal>, OutOfMemory>
    ensures { IfOk result (λ r. r ≡ first_broken (twice_among (map (λ n. n.now) names.now) (map (λ n. n.now) others.now))) }
{
    let earliest = Earliest::make(alloc, names)?;
    Ok(first_among(&earliest, others))
}

// The same where the earliest of each is known.
fn first_among(names: &Earliest<'_>, others: &[&Ident]) -> Option<Refusal>
    ensures { result ≡ first_broken (twice_among names.now (map (λ n. n.now) others.now)) }
{
    let mut found = None;
    for other in others {
        let other: &Ident = *other;
        found = either(found, twice_if(names.is_declared_before(other), other));
    }
    found
}

// The first of some names that stands among the ones or the others at an earlier place too.
fn first_of_two(ones: &Earliest<'_>, others: &Earliest<'_>, names: &[&Ident]) -> Option<Refusal>
    ensures { result ≡ first_broken (twice_among (ones.now ++ others.now) (map (λ n. n.now) names.now)) }
{
    let mut found = None;
    for name in names {
        let name: &Ident = *name;
        found = either(found, twice_if(is_in_two(ones, others, name), name));
    }
    found
}

// Whether the name stands among the ones or the others at an earlier place.
#[tactic(auto, using(crate::proofs::TwiceNames::before_of_two))]
fn is_in_two(ones: &Earliest<'_>, others: &Earliest<'_>, name: &Ident) -> bool
    ensures { result ≡ is_declared_before (ones.now ++ others.now) name.now }
{
    ones.is_declared_before(name) || others.is_declared_before(name)
}

// The first of those seen that stands among these names at an earlier place too.
fn first_later(seen: &Earliest<'_>, names: &[&Ident]) -> Option<Refusal>
    ensures { result ≡ first_broken (twice_among (map (λ n. n.now) names.now) seen.now) }
{
    let mut later = None;
    for name in names {
        let name: &Ident = *name;
        later = either(later, next_twice(seen, name));
    }
    later
}

fn next_twice(seen: &Earliest<'_>, name: &Ident) -> Option<Refusal>
    ensures { result ≡ first_broken (twice_among (name.now ∷ []) seen.now) }
{
    match seen.next(name) {
        Some(next) => twice_if(true, next),
        None => None,
    }
}

fn twice_if(is_twice: bool, name: &Ident) -> Option<Refusal>
    ensures { result ≡ first_broken (if is_twice then record { place = name.now.place; rule = Twice } ∷ [] else []) }
{
    if is_twice {
        Some(Refusal {
            place: name.place,
            rule: Rule::Twice,
        })
    } else {
        None
    }
}
