//! Names by which the earliest place of each is found, and the next one behind a place.
ghost use Rattle.std.specs.Prelude.{◌≡◌, ◌++◌, map, OnOk, IfOk};
ghost use Rattle.std.specs.List.Sorted.{IsSortedBy, IsPermutation};
ghost use Rattle.std.specs.Option.{option_copied};
ghost use Rattle.std.proofs.Props.{props};
ghost use Rattle.ag_base.specs.declared.place.Place.{Place};
ghost use Rattle.ag_types.specs.ClauseFaults.{is_declared_before};
ghost use Rattle.ag_types.specs.Earliest.{compare_idents, compare_places, is_in_front, stands_before, IsNext};

use ag_base::{OutOfMemory, Place};
use ag_symbols::compare_names;
use ag_terms::Ident;
use std::alloc::Global;
use std::cmp::Ordering;
use std::marker::Model;

/// Names of which each is found at its earliest place, and at its next one behind another. It is seen as
/// their list, in the order of their texts.
#[derive(Drop)]
pub struct Earliest<'a> {
    names: Vec<&'a Ident>,
    ghost ordered: { IsSortedBy (is_in_front (λ n. n.now)) names.items } by { Prim.hlevel props },
}

impl<'a> Model for Earliest<'a> {
    ghost use Rattle.std.specs.Prelude.{List, map};
    ghost use Rattle.std.specs.Coded.{codes};
    ghost use Rattle.ag_terms.specs.declared.names.Ident.{Ident};

    ghost Value = { List Ident };

    ghost coded = { Prim.hlevel codes };

    ghost view = { λ t. map (λ n. n.now) t.names.items };
}

impl<'a> Earliest<'a> {
    pub fn make(alloc: Global, names: &[&'a Ident]) -> Result<Earliest<'a>, OutOfMemory>
        ensures { IfOk result (λ t. IsPermutation (map (λ n. n.now) names.now) t) }
    {
        let mut ordered = Vec::new(alloc);
        push_names(&mut ordered, names)?;
        sort(&mut ordered)?;
        Ok(Earliest { names: ordered })
    }

    // The earliest of a name.
    fn first(&self, name: &[u8]) -> Option<&'a Ident>
        ensures { (place : Place) → stands_before (option_copied result) place ≡ is_declared_before self.now (record { text = name.now; place = place }) }
    {
        let names = self.names.as_slice();
        let at = names.partition_point(|n| compare_names(n.text.as_bytes(), name).is_lt());
        match names.get(at) {
            Some(first) => {
                if compare_names(first.text.as_bytes(), name).is_eq() {
                    Some(*first)
                } else {
                    None
                }
            }
            None => None,
        }
    }

    /// Whether the name stands among these at an earlier place.
    pub fn is_declared_before(&self, name: &Ident) -> bool
        ensures { result ≡ is_declared_before self.now name.now }
    {
        match self.first(name.text.as_bytes()) {
            None => false,
            Some(first) => first.place.is_before(name.place),
        }
    }

    /// The earliest of these that has this name and a later place.
    pub fn next(&self, name: &Ident) -> Option<&'a Ident>
        ensures { IsNext name.now self.now (option_copied result) }
    {
        let names = self.names.as_slice();
        let at = names.partition_point(|n| !compare_idents(name, n).is_lt());
        match names.get(at) {
            Some(next) => {
                if compare_names(name.text.as_bytes(), next.text.as_bytes()).is_eq() {
                    Some(*next)
                } else {
                    None
                }
            }
            None => None,
        }
    }
}

fn push_names<'a>(names: &mut Vec<&'a Ident>, others: &[&'a Ident]) -> Result<(), OutOfMemory>
    ensures { OnOk result (map (λ n. n.now) names.new.items ≡ map (λ n. n.now) names.old.items ++ map (λ n. n.now) others.now) }
{
    for item in others {
        let item: &'a Ident = *item;
        names.push(item)?;
    }
    Ok(())
}

fn sort(names: &mut Vec<&Ident>) -> Result<(), OutOfMemory>
    ensures permutation { IsPermutation names.old.items names.new.items }
    ensures sorted { OnOk result (IsSortedBy (is_in_front (λ n. n.now)) names.new.items) }
{
    names.sort_by(|a, b| compare_idents(a, b))?;
    Ok(())
}

fn compare_idents(a: &Ident, b: &Ident) -> Ordering
    ensures { result ≡ compare_idents a.now b.now }
{
    compare_names(a.text.as_bytes(), b.text.as_bytes()).then(compare_places(a.place, b.place))
}

fn compare_places(p: Place, q: Place) -> Ordering
    ensures { result ≡ compare_places p q }
{
    let columns = p.column.cmp(&q.column);
    p.file.cmp(&q.file).then(p.line.cmp(&q.line).then(columns))
}
