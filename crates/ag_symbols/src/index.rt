//! Names in order, so that a lookup halves them instead of going over all.
ghost use Rattle.std.specs.Prelude.{◌≡◌, ◌++◌, ℕ, List, codes, OnOk};
ghost use Rattle.std.specs.List.Sorted.{IsSortedBy, IsPermutation};
ghost use Rattle.ag_symbols.specs.Indexed.{compare_names, is_below, first_by};
ghost use Rattle.ag_symbols.specs.Seen.{dotted};

use ag_base::OutOfMemory;
use ag_terms::Path;
use std::cmp::Ordering;

/// A name, and the position of what has it.
#[derive(Clone, Copy)]
pub struct Slot<'a> {
    pub name: &'a [u8],
    pub at: usize,
}

/// Puts names into their order. Those that are the same stay in the order that they had.
pub fn sort_names(slots: &mut Vec<Slot<'_>>) -> Result<(), OutOfMemory>
    ensures permutation { IsPermutation slots.old.items slots.new.items }
    ensures sorted { OnOk result (IsSortedBy (is_below (λ e. e.name.now)) slots.new.items) }
    ensures named { OnOk result ((name : List ℕ) → first_by (λ e. e.name.now) (λ e. e.at) name slots.new.items ≡ first_by (λ e. e.name.now) (λ e. e.at) name slots.old.items) }
{
    slots.sort_by(|a, b| compare_names(a.name, b.name))?;
    Ok(())
}

/// The position of the name `x` or `c.x` that a path without package has.
pub fn find(slots: &[Slot<'_>], path: &Path) -> Option<usize>
    requires { IsSortedBy (is_below (λ e. e.name.now)) slots.now }
    ensures { result ≡ first_by (λ e. e.name.now) (λ e. e.at) (dotted path.now.name.text path.now.body) slots.now }
{
    let at = slots.partition_point(|slot| order(slot.name, path).is_lt());
    match slots.get(at) {
        Some(slot) => {
            if order(slot.name, path).is_eq() {
                Some(slot.at)
            } else {
                None
            }
        }
        None => None,
    }
}

/// The position of a name.
pub fn find_name(slots: &[Slot<'_>], name: &[u8]) -> Option<usize>
    requires { IsSortedBy (is_below (λ e. e.name.now)) slots.now }
    ensures { result ≡ first_by (λ e. e.name.now) (λ e. e.at) name.now slots.now }
{
    let at = slots.partition_point(|slot| compare_names(slot.name, name).is_lt());
    match slots.get(at) {
        Some(slot) => {
            if compare_names(slot.name, name).is_eq() {
                Some(slot.at)
            } else {
                None
            }
        }
        None => None,
    }
}

/// Texts in the order of their bytes in small letters.
pub fn compare_names(a: &[u8], b: &[u8]) -> Ordering
    ensures { result ≡ compare_names a.now b.now }
{
    let mut left = b;
    for x in a {
        match left {
            [] => return Ordering::Greater,
            [y, rest @ ..] => match x.to_ascii_lowercase().cmp(&y.to_ascii_lowercase()) {
                Ordering::Equal => left = rest,
                other => return other,
            },
        }
    }
    if left.is_empty() {
        Ordering::Equal
    } else {
        Ordering::Less
    }
}

// The order of a text and of the name `x` or `c.x` that a path without package has.
fn order(text: &[u8], path: &Path) -> Ordering
    ensures { result ≡ compare_names text.now (dotted path.now.name.text path.now.body) }
{
    let name = path.name.text.as_bytes();
    match &path.body {
        None => compare_names(text, name),
        Some(body) => compare_joined(text, name, body.text.as_bytes()),
    }
}

// The order of a text and of two that a dot joins.
fn compare_joined(text: &[u8], name: &[u8], body: &[u8]) -> Ordering
    ensures { result ≡ compare_names text.now (name.now ++ (codes "." ++ body.now)) }
{
    let at = name.len();
    if text.len() <= at {
        return compare_names(text, name).then(Ordering::Less);
    }
    let before = compare_names(&text[..at], name);
    let dot = text[at].to_ascii_lowercase().cmp(&b'.');
    before.then(dot.then(compare_names(&text[at + 1..], body)))
}
