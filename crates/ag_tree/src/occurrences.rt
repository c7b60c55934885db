//! Which lines are to be looked at when a literal becomes true.
ghost use Rattle.std.specs.Prelude.{◌≡◌, ◌⊎◌, ◌+◌, ◌*◌, ◌<◌, ◌++◌, ◌∷◌, ℕ, [], replicate, length, All, Contains, OnOk, IfOk};
ghost use Rattle.ag_query.specs.declared.clauses.Lit.{Lit};
ghost use Rattle.ag_query.specs.Meaning.{contrary};
ghost use Rattle.ag_tree.specs.Listing.{AddsNone, StaysBut, listed, slot};

use ag_base::{List, OutOfMemory};
use ag_query::Lit;
use std::alloc::Global;
use std::marker::Model;
use std::mem;

/// Numbers of lines by literal.
#[derive(Drop)]
pub struct Occurrences {
    lists: Vec<List<u32>>,
}

impl Model for Occurrences {
    ghost use Rattle.std.specs.Prelude.{List, ℕ};

    ghost Value = { List (List ℕ) };

    ghost view = { λ o. o.lists.items };
}

impl Occurrences {
    /// No lines, with two lists for each of so many atoms.
    pub fn new(alloc: Global, atoms: u32) -> Result<Occurrences, OutOfMemory>
        ensures { IfOk result (λ o. o ≡ replicate (2 * atoms) []) }
    {
        let mut lists = Vec::new(alloc);
        for _ in 0..2 * atoms as usize {
            lists.push(List::new(alloc))?;
        }
        Ok(Occurrences { lists })
    }

    /// The lines that are listed under the literal.
    pub fn of(&self, lit: Lit) -> &[u32]
        requires { slot lit < length self.now }
        ensures { result.now ≡ listed self.now lit }
    {
        self.lists[slot_of(lit)].as_slice()
    }

    /// Lists the line under the contrary of each of its literals.
    pub fn add(&mut self, lits: &[Lit], line: u32) -> Result<(), OutOfMemory>
        requires { All (λ l. slot (contrary l) < length self.old) lits.now }
        ensures slots { OnOk result (length self.new ≡ length self.old) }
        ensures kept { OnOk result ((l : Lit) (n : ℕ) → Contains (listed self.old l) n → Contains (listed self.new l) n) }
        ensures under { OnOk result (All (λ l. Contains (listed self.new (contrary l)) line) lits.now) }
        ensures only { OnOk result ((l : Lit) (n : ℕ) → Contains (listed self.new l) n → Contains (listed self.old l) n ⊎ (n ≡ line)) }
    {
        for lit in lits {
            self.lists[slot_of(lit.contrary())].push(line)?;
        }
        Ok(())
    }

    /// Takes the line off the list of the contrary of each of its literals, where it is the last one.
    pub fn remove(&mut self, alloc: Global, lits: &[Lit], line: u32)
        requires { All (λ l. slot (contrary l) < length self.old) lits.now }
        ensures slots { length self.new ≡ length self.old }
        ensures kept { StaysBut (λ n. n ≡ line) self.old self.new }
        ensures only { AddsNone self.old self.new }
    {
        for lit in lits {
            take_off(alloc, &mut self.lists[slot_of(lit.contrary())], line);
        }
    }
}

/// Takes the line off the numbers, where it is the last one.
fn take_off(alloc: Global, numbers: &mut List<u32>, line: u32)
    ensures { (numbers.new ≡ numbers.old) ⊎ (numbers.old ≡ numbers.new ++ line ∷ []) }
{
    let mut items = mem::replace(numbers, List::new(alloc)).into_vec();
    let count = items.len();
    if count > 0 && items[count - 1] == line {
        items.pop();
    }
    *numbers = List::from_vec(items);
}

fn slot_of(lit: Lit) -> usize
    ensures { result ≡ slot lit }
{
    2 * lit.atom as usize + lit.holds as usize
}
