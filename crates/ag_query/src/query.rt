//! Queries, and valuations of the program that may meet them.
ghost use Rattle.std.specs.Prelude.{◌≡◌, ◌<◌, ◌≤◌, ◌^◌, pos, length, All, IfOk, slice_index_or};
ghost use Rattle.ag_query.specs.Rows.{magnitude, sum_of};
ghost use Rattle.ag_query.specs.Made.{IsAtomOver, IsClauseOver};
ghost use Rattle.ag_query.specs.AtomsOver.{AreAtomsOver-prop};

use crate::clauses::{LClause, Lit};
use crate::rows::{Atom, LTerm};
use ag_base::{List, OutOfMemory};
use std::alloc::Global;

/// Clauses over atoms, which may speak of variables. Variables and atoms are named by their
/// numbers, from 0 on.
///
/// In each row the variables rise, no factor is 0, and the magnitudes of the factors add up to at
/// most 2^63.
#[derive(Drop)]
pub struct Query {
    pub vars: u32,
    pub atoms: List<Atom>,
    pub clauses: List<LClause>,
    pub ghost rows: { All (IsAtomOver vars) atoms } by { AreAtomsOver-prop vars atoms },
    pub ghost literals: { All (IsClauseOver (length atoms)) clauses },
}

/// A whole number for each variable and a truth for each atom, which is read for free atoms alone.
#[derive(Drop)]
pub struct Valuation {
    pub whole: List<i64>,
    pub flags: List<bool>,
}

impl Query {
    ghost use Rattle.std.specs.Prelude.{IsTrue, ◌↔◌};
    ghost use Rattle.ag_query.specs.Meaning.{Meets, one_holds, truth_at};
    ghost use Rattle.ag_query.specs.Answers.{assignment_of};

    pub fn make(vars: u32, atoms: List<Atom>, clauses: List<LClause>) -> Query
        requires rows { All (IsAtomOver vars) atoms }
        requires literals { All (IsClauseOver (length atoms)) clauses }
        ensures vars { result.vars ≡ vars }
        ensures atoms { result.atoms ≡ atoms }
        ensures clauses { result.clauses ≡ clauses }
    {
        Query {
            vars,
            atoms,
            clauses,
        }
    }

    /// The same query once more.
    pub fn copy(&self, alloc: Global) -> Result<Query, OutOfMemory>
        ensures { IfOk result (λ q. q ≡ self.now) }
    {
        let atoms = copy_atoms(alloc, self.atoms.as_slice())?;
        let clauses = copy_clauses(alloc, self.clauses.as_slice())?;
        Ok(Query::make(self.vars, atoms, clauses))
    }

    /// Whether the valuation meets the query.
    pub fn met(&self, v: &Valuation) -> bool
        requires whole { length v.now.whole ≡ self.now.vars }
        requires flags { length v.now.flags ≡ length self.now.atoms }
        ensures { IsTrue result ↔ Meets self.now (assignment_of v.now) }
    {
        self.clauses
            .as_slice()
            .iter()
            .all(|c| self.has_true(v, c.lits.as_slice()))
    }

    fn has_true(&self, v: &Valuation, lits: &[Lit]) -> bool
        requires whole { length v.now.whole ≡ self.now.vars }
        requires flags { length v.now.flags ≡ length self.now.atoms }
        requires there { All (λ l. l.atom < length self.now.atoms) lits.now }
        ensures { result ≡ one_holds self.now.atoms (assignment_of v.now) lits.now }
    {
        for lit in lits {
            if self.truth(v, lit.atom) == lit.holds {
                return true;
            }
        }
        false
    }

    fn truth(&self, v: &Valuation, atom: u32) -> bool
        requires whole { length v.now.whole ≡ self.now.vars }
        requires flags { length v.now.flags ≡ length self.now.atoms }
        requires there { atom < length self.now.atoms }
        ensures { result ≡ truth_at self.now.atoms (assignment_of v.now) atom }
    {
        match &self.atoms.as_slice()[atom as usize] {
            Atom::Free => v.flags.as_slice()[atom as usize],
            Atom::Bound(row) => { sum_at(row.terms.as_slice(), v.whole.as_slice()) <= row.bound }
        }
    }
}

fn copy_atoms(alloc: Global, atoms: &[Atom]) -> Result<List<Atom>, OutOfMemory>
    ensures { IfOk result (λ copy. copy ≡ atoms.now) }
{
    let mut copy = List::new(alloc);
    for atom in atoms {
        copy.push(atom.clone()?)?;
    }
    Ok(copy)
}

fn copy_clauses(alloc: Global, clauses: &[LClause]) -> Result<List<LClause>, OutOfMemory>
    ensures { IfOk result (λ copy. copy ≡ clauses.now) }
{
    let mut copy = List::new(alloc);
    for clause in clauses {
        copy.push(clause.clone()?)?;
    }
    Ok(copy)
}

/// The sum of the terms at these whole numbers. It fits, since the factors are small.
fn sum_at(terms: &[LTerm], whole: &[i64]) -> i128
    requires small { magnitude terms.now ≤ 2 ^ 63 }
    requires there { All (λ t. t.var < length whole.now) terms.now }
    ensures { result ≡ sum_of (λ n. slice_index_or whole.now n (pos 0)) terms.now }
{
    let mut sum: i128 = 0;
    for term in terms {
        sum += term.factor * i128::from(whole[term.var as usize]);
    }
    sum
}
