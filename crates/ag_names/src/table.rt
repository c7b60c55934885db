//! Tables in which the position of a key is found by halving them.
ghost use Rattle.std.specs.Prelude.{◌≡◌, ◌++◌, ◌∷◌, [], IfOk, OnOk};
ghost use Rattle.std.specs.List.Sorted.{IsSortedBy, IsPermutation};
ghost use Rattle.ag_names.specs.Keys.{compare_keys, first_at, is_ahead, name_key, FindsAs};

use crate::name::compare;
use ag_base::OutOfMemory;
use std::cmp::Ordering;
use std::marker::Model;

/// A number and up to three names.
#[derive(Drop)]
pub struct Key<'a> {
    pub number: usize,
    pub name: &'a [u8],
    pub owner: &'a [u8],
    pub second: &'a [u8],
}

impl<'a> Model for Key<'a> {
    ghost use Rattle.ag_names.specs.Keys.{Key};

    ghost Value = { Key };

    ghost view = { λ k. record { number = k.number; name = k.name.now; owner = k.owner.now; second = k.second.now } };
}

impl<'a> Key<'a> {
    /// The key of a name among those of one number.
    pub fn name(number: usize, name: &'a [u8]) -> Key<'a>
        ensures { result ≡ name_key number name.now }
    {
        Key {
            number,
            name,
            owner: &[],
            second: &[],
        }
    }

    // By all parts, one after another.
    fn order(&self, other: &Key<'_>) -> Ordering
        ensures { result ≡ compare_keys self.now other.now }
    {
        let front = self
            .number
            .cmp(&other.number)
            .then(compare(self.name, other.name));
        let behind = compare(self.owner, other.owner).then(compare(self.second, other.second));
        front.then(behind)
    }
}

/// A key, and the position of what has it.
#[derive(Drop)]
pub struct Entry<'a> {
    pub key: Key<'a>,
    pub at: usize,
}

impl<'a> Model for Entry<'a> {
    ghost use Rattle.ag_names.specs.Keys.{Entry};

    ghost Value = { Entry };

    ghost view = { λ e. record { key = e.key; at = e.at } };
}

/// Entries in the order of their keys.
#[derive(Drop)]
pub struct Table<'a> {
    entries: Vec<Entry<'a>>,
}

impl<'a> Model for Table<'a> {
    ghost use Rattle.std.specs.Prelude.{List};
    ghost use Rattle.std.specs.List.Sorted.{IsSortedBy};
    ghost use Rattle.ag_names.specs.Keys.{Entry, is_ahead};

    ghost Value = { List Entry };

    ghost view = { λ t. t.entries.items };

    ghost invariant = { λ t. IsSortedBy is_ahead t.entries.items };
}

impl<'a> Table<'a> {
    /// The table of some entries. Of those with one key the first is found.
    pub fn make(entries: Vec<Entry<'a>>) -> Result<Table<'a>, OutOfMemory>
        ensures { IfOk result (FindsAs entries.entry.items) }
    {
        let mut ordered = entries;
        sort(&mut ordered)?;
        Ok(Table { entries: ordered })
    }

    /// The position that the first entry of a key has.
    pub fn find(&self, key: &Key<'_>) -> Option<usize>
        ensures { result ≡ first_at key.now self.now }
    {
        find_in(self.entries.as_slice(), key)
    }
}

fn find_in(entries: &[Entry<'_>], key: &Key<'_>) -> Option<usize>
    requires { IsSortedBy is_ahead entries.now }
    ensures { result ≡ first_at key.now entries.now }
{
    let at = entries.partition_point(|entry| entry.key.order(key).is_lt());
    match entries.get(at) {
        Some(entry) => {
            if entry.key.order(key).is_eq() {
                Some(entry.at)
            } else {
                None
            }
        }
        None => None,
    }
}

// Entries of one key stay in the order that they had.
fn sort(entries: &mut Vec<Entry<'_>>) -> Result<(), OutOfMemory>
    ensures sorted { OnOk result (IsSortedBy is_ahead entries.new.items) }
    ensures found { OnOk result (FindsAs entries.old.items entries.new.items) }
{
    entries.sort_by(|a, b| a.key.order(&b.key))?;
    Ok(())
}
