//! The query, the atoms and the lines, each of which follows.
ghost use Rattle.std.specs.Prelude.{◌≡◌, ◌∷◌, [], true, false, length, map, All, IfOk, OnOk, OnErr};
ghost use Rattle.ag_kernel.specs.State.{IsSound, IsLineOf, FollowsAt, with_line};
ghost use Rattle.ag_kernel.specs.Rules.{Adds, clause_line, with_case};
ghost use Rattle.ag_query.specs.Rows.{AreInOrder};

use crate::line::Line;
use ag_base::OutOfMemory;
use ag_query::{Atom, LClause, LRow, Lit, Lits, Query};
use std::alloc::Global;
use std::marker::Model;

/// What a kernel keeps: that each line follows is a fact of this type.
#[derive(Drop)]
pub struct Lines {
    query: Query,
    atoms: Vec<Atom>,
    lines: Vec<Line>,
}

impl Model for Lines {
    ghost use Rattle.ag_kernel.specs.State.{State};

    ghost Value = { State };

    ghost use Rattle.ag_query.specs.contracts.query.Query as the_query;
    ghost use Rattle.std.specs.Coded.{codes};

    ghost coded = { Prim.hlevel (codes, the_query.the_row.coded) };

    ghost use Rattle.ag_kernel.specs.Keeping.{state_of, IsKept};

    ghost view = { state_of };

    ghost invariant = { IsKept };
}

impl Lines {
    /// The query's clauses as lines.
    pub fn new(alloc: Global, query: &Query) -> Result<Lines, OutOfMemory>
        ensures { IfOk result (λ s. s ≡ record { query = query.now; atoms = query.now.atoms; lines = map clause_line query.now.clauses }) }
    {
        let lines = clause_lines(alloc, query.clauses.as_slice())?;
        let atoms = copy_atoms(alloc, query.atoms.as_slice())?;
        Ok(Lines {
            query: query.copy(alloc)?,
            atoms,
            lines,
        })
    }

    pub fn query(&self) -> &Query
        ensures { result.now ≡ self.now.query }
    {
        &self.query
    }

    pub fn atoms(&self) -> &[Atom]
        ensures value { result.now ≡ self.now.atoms }
        ensures sound { IsSound self.now }
    {
        self.atoms.as_slice()
    }

    pub fn as_slice(&self) -> &[Line]
        ensures value { result.now ≡ self.now.lines }
        ensures sound { IsSound self.now }
    {
        self.lines.as_slice()
    }

    /// Puts a line at the end that follows.
    pub fn push(&mut self, line: Line) -> Result<u32, OutOfMemory>
        requires { IsLineOf self.old line }
        ensures ok { IfOk result (λ n. Adds self.old self.new n line) }
        ensures follows { IfOk result (FollowsAt self.new) }
        ensures err { OnErr result (self.new ≡ self.old) }
    {
        let Ok(number) = u32::try_from(self.lines.len()) else {
            return Err(OutOfMemory);
        };
        self.lines.push(line)?;
        Ok(number)
    }

    /// A new atom for the row, and the line that it holds or doesn't.
    pub fn push_case(&mut self, alloc: Global, row: LRow) -> Result<u32, OutOfMemory>
        requires { AreInOrder self.old.query.vars row.terms }
        ensures number { IfOk result (λ n. n ≡ length self.old.lines) }
        ensures ok { OnOk result (self.new ≡ with_case self.old row) }
        ensures follows { IfOk result (FollowsAt self.new) }
        ensures err { OnErr result (self.new ≡ self.old) }
    {
        let Ok(atom) = u32::try_from(self.atoms.len()) else {
            return Err(OutOfMemory);
        };
        let Ok(number) = u32::try_from(self.lines.len()) else {
            return Err(OutOfMemory);
        };
        let lits = either_way(alloc, atom)?;
        self.atoms.push(Atom::Bound(row))?;
        match self.lines.push(Line { lits, row: None }) {
            Ok(()) => Ok(number),
            Err(_) => {
                self.atoms.pop();
                Err(OutOfMemory)
            }
        }
    }
}

fn either_way(alloc: Global, atom: u32) -> Result<Lits, OutOfMemory>
    ensures { IfOk result (λ lits. lits ≡ record { atom = atom; holds = true } ∷ record { atom = atom; holds = false } ∷ []) }
{
    let yes = Lit { atom, holds: true };
    Lits::make(alloc, &[yes, yes.contrary()])
}

fn clause_lines(alloc: Global, clauses: &[LClause]) -> Result<Vec<Line>, OutOfMemory>
    ensures { IfOk result (λ lines. lines.items ≡ map clause_line clauses.now) }
{
    let mut lines = Vec::new(alloc);
    for clause in clauses {
        lines.push(Line {
            lits: clause.lits.clone()?,
            row: None,
        })?;
    }
    Ok(lines)
}

fn copy_atoms(alloc: Global, atoms: &[Atom]) -> Result<Vec<Atom>, OutOfMemory>
    ensures { IfOk result (λ copy. copy.items ≡ atoms.now) }
{
    let mut copy = Vec::new(alloc);
    for atom in atoms {
        copy.push(atom.clone()?)?;
    }
    Ok(copy)
}
