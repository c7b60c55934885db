//! The rules: each one adds one line that follows, or none.
ghost use Rattle.std.specs.Prelude.{◌≡◌, ◌↔◌, ◌∷◌, ◌<◌, ◌≤◌, [], length, map, Contains, IsTrue, IsSome, IsNone, All, IfOk, IfErr, IfNone, OnOk, OnErr, None, ⊤, slice_get, Some};
ghost use Rattle.std.specs.Option.{option_copied};
ghost use Rattle.ag_query.specs.Rows.{AreInOrder};
ghost use Rattle.ag_kernel.specs.declared.line.Line.{Line};
ghost use Rattle.ag_kernel.specs.Faults.{IsCause, IsAllowed, first_missing};
ghost use Rattle.ag_kernel.specs.Rules.{Adds, clause_line, line_at, row_at, unfolded, FitsUnfolded, with_case, can_resolve, resolved, CanConclude, CanCombine, IsCombined, parts_of, CanDivide, IsDivided};
ghost use Rattle.ag_kernel.specs.State.{IsSound, IsLineOf, FollowsAt, HasNoValuation};
ghost use Rattle.ag_kernel.specs.Sums.{AreMade};

use crate::line::{KernelFault, Line};
use crate::lines::Lines;
use crate::marks::Marked;
use crate::resolve::{is_resolvable, resolve_lines};
use crate::rows::{divide_line, said};
use crate::sums::{are_parts, keep, sum_rows};
use crate::units::{join_lines, refutes};
use ag_base::OutOfMemory;
use ag_query::{Atom, LRow, Lit, Lits, Query};
use std::alloc::Global;
use std::marker::Model;

/// A query, its atoms, and lines that follow from it: in every valuation that meets the query, one
/// of a line's literals or its row is true. The query's clauses are its first lines.
///
/// Lines and atoms are named by their numbers, from 0 on. A kernel whose numbers are used up
/// answers `OutOfMemory`.
#[derive(Drop)]
pub struct Kernel {
    alloc: Global,
    lines: Lines,
    marked: Marked,
}

impl Model for Kernel {
    ghost use Rattle.std.specs.Prelude.{length, ◌≤◌};
    ghost use Rattle.ag_kernel.specs.State.{State};

    ghost Value = { State };

    ghost use Rattle.ag_query.specs.contracts.query.Query as the_query;
    ghost use Rattle.std.specs.Coded.{codes};

    ghost coded = { Prim.hlevel (codes, the_query.the_row.coded) };

    ghost view = { λ k. k.lines };

    ghost invariant = { λ k. length k.lines.atoms ≤ k.marked.atoms };
}

impl Kernel {
    /// The query's clauses as lines.
    pub fn new(alloc: Global, query: &Query) -> Result<Kernel, OutOfMemory>
        ensures { IfOk result (λ k. k ≡ record { query = query.now; atoms = query.now.atoms; lines = map clause_line query.now.clauses }) }
    {
        let lines = Lines::new(alloc, query)?;
        let marked = Marked::new(alloc, lines.atoms().len())?;
        Ok(Kernel {
            alloc,
            lines,
            marked,
        })
    }

    pub fn query(&self) -> &Query
        ensures { result.now ≡ self.now.query }
    {
        self.lines.query()
    }

    /// The line of a number.
    pub fn line(&self, line: u32) -> &Line
        requires { line < length self.now.lines }
        ensures line { slice_get self.now.lines line ≡ Some result.now }
        ensures sound { IsLineOf self.now result.now }
    {
        &self.lines.as_slice()[line as usize]
    }

    /// Whether the line has no literal and no row.
    pub fn is_empty_clause(&self, line: u32) -> bool
        ensures value { IsTrue result ↔ ((line < length self.now.lines) × (line_at self.now.lines line ≡ record { lits = []; row = None })) }
        ensures refutes { IsTrue result → HasNoValuation self.now.query }
    {
        let lines = self.lines.as_slice();
        (line as usize) < lines.len() && is_empty(&lines[line as usize])
    }

    /// Law: every line follows from the query, so that none of its valuations meets a query with
    /// the empty clause among its lines.
    pub fn every_line_follows(&self)
        ensures sound { IsSound self.now }
        ensures empty { Contains self.now.lines (record { lits = []; row = None }) → HasNoValuation self.now.query }
    {
        let _ = self.lines.as_slice();
    }

    /// Adds the contrary of the literal, or its row.
    pub fn unfold(&mut self, lit: Lit) -> Result<u32, KernelFault>
        ensures line { IfOk result (λ n. Adds self.old self.new n (unfolded self.old.atoms lit)) }
        ensures follows { IfOk result (FollowsAt self.new) }
        ensures allowed { OnOk result (IsAllowed None (IsSome (row_at self.old.atoms lit.atom)) (FitsUnfolded self.old.atoms lit)) }
        ensures cause { IfErr result (IsCause None (IsSome (row_at self.old.atoms lit.atom)) (FitsUnfolded self.old.atoms lit)) }
        ensures err { OnErr result (self.new ≡ self.old) }
    {
        let line = self.unfolded(lit)?;
        Ok(self.lines.push(line)?)
    }

    fn unfolded(&self, lit: Lit) -> Result<Line, KernelFault>
        ensures sound { IsSound self.now }
        ensures line { IfOk result (λ line. line ≡ unfolded self.now.atoms lit) }
        ensures allowed { OnOk result (IsAllowed None (IsSome (row_at self.now.atoms lit.atom)) (FitsUnfolded self.now.atoms lit)) }
        ensures cause { IfErr result (IsCause None (IsSome (row_at self.now.atoms lit.atom)) (FitsUnfolded self.now.atoms lit)) }
    {
        let Some(row) = self.row(lit.atom) else {
            return Err(KernelFault::NotImplied);
        };
        let row = said(self.alloc, row, lit.holds)?;
        let lits = Lits::make(self.alloc, &[lit.contrary()])?;
        Ok(Line {
            lits,
            row: Some(row),
        })
    }

    /// Adds what two lines have besides a literal of the atom in the one and its contrary in the
    /// other.
    pub fn resolve(&mut self, a: u32, b: u32, atom: u32) -> Result<u32, KernelFault>
        ensures line { IfOk result (λ n. Adds self.old self.new n (resolved atom (line_at self.old.lines a) (line_at self.old.lines b))) }
        ensures follows { IfOk result (FollowsAt self.new) }
        ensures allowed { OnOk result (IsAllowed (first_missing (length self.old.lines) (a ∷ b ∷ [])) (IsTrue (can_resolve atom (line_at self.old.lines a) (line_at self.old.lines b))) ⊤) }
        ensures cause { IfErr result (IsCause (first_missing (length self.old.lines) (a ∷ b ∷ [])) (IsTrue (can_resolve atom (line_at self.old.lines a) (line_at self.old.lines b))) ⊤) }
        ensures err { OnErr result (self.new ≡ self.old) }
    {
        if let Some(line) = self.missing(&[a, b]) {
            return Err(KernelFault::NotThere(line));
        }
        let lines = self.lines.as_slice();
        let (one, other) = (&lines[a as usize], &lines[b as usize]);
        if !is_resolvable(one, other, atom) {
            return Err(KernelFault::NotImplied);
        }
        let line = resolve_lines(self.alloc, &mut self.marked, one, other, atom)?;
        Ok(self.lines.push(line)?)
    }

    /// Adds the clause, where unit steps along the lines, begun with the contraries of its
    /// literals, come to a conflict.
    pub fn by_units(&mut self, clause: &[Lit], lines: &[u32]) -> Result<u32, KernelFault>
        ensures line { IfOk result (λ n. Adds self.old self.new n (record { lits = clause.now; row = None })) }
        ensures follows { IfOk result (FollowsAt self.new) }
        ensures allowed { OnOk result (IsAllowed (first_missing (length self.old.lines) lines.now) (CanConclude self.old clause.now lines.now) ⊤) }
        ensures cause { IfErr result (IsCause (first_missing (length self.old.lines) lines.now) (CanConclude self.old clause.now lines.now) ⊤) }
        ensures err { OnErr result (self.new ≡ self.old) }
    {
        if let Some(line) = self.missing(lines) {
            return Err(KernelFault::NotThere(line));
        }
        if !self.are_clauses(clause, lines) {
            return Err(KernelFault::NotImplied);
        }
        if !refutes(&mut self.marked, self.lines.as_slice(), clause, lines)? {
            return Err(KernelFault::NotImplied);
        }
        let lits = Lits::make(self.alloc, clause)?;
        Ok(self.lines.push(Line { lits, row: None })?)
    }

    /// Adds the sum of the lines' rows by multipliers that aren't negative, with the literals of the
    /// lines. A sum that says that 0 is at most a negative number is left out.
    pub fn combine(&mut self, lines: &[(u32, i128)]) -> Result<u32, KernelFault>
        ensures line { IfOk result (λ n. (new : Line) × Adds self.old self.new n new × IsCombined self.old lines.now new) }
        ensures follows { IfOk result (FollowsAt self.new) }
        ensures allowed { OnOk result (IsAllowed (first_missing (length self.old.lines) (map (λ p. p.0) lines.now)) (CanCombine self.old lines.now) (AreMade (parts_of self.old.lines lines.now))) }
        ensures cause { IfErr result (IsCause (first_missing (length self.old.lines) (map (λ p. p.0) lines.now)) (CanCombine self.old lines.now) (AreMade (parts_of self.old.lines lines.now))) }
        ensures err { OnErr result (self.new ≡ self.old) }
    {
        if let Some(line) = self.missing_part(lines) {
            return Err(KernelFault::NotThere(line));
        }
        if !are_parts(self.lines.as_slice(), lines) {
            return Err(KernelFault::NotImplied);
        }
        let sum = sum_rows(self.alloc, self.lines.as_slice(), lines)?;
        join_lines(&mut self.marked, self.lines.as_slice(), lines)?;
        let lits = Lits::make(self.alloc, self.marked.as_slice())?;
        let row = keep(sum);
        Ok(self.lines.push(Line { lits, row })?)
    }

    /// Adds the line with its row divided, and the bound rounded down.
    pub fn divide(&mut self, line: u32, by: i128) -> Result<u32, KernelFault>
        ensures line { IfOk result (λ n. (new : Line) × Adds self.old self.new n new × IsDivided by (line_at self.old.lines line) new) }
        ensures follows { IfOk result (FollowsAt self.new) }
        ensures allowed { OnOk result (IsAllowed (first_missing (length self.old.lines) (line ∷ [])) (CanDivide (line_at self.old.lines line) by) ⊤) }
        ensures cause { IfErr result (IsCause (first_missing (length self.old.lines) (line ∷ [])) (CanDivide (line_at self.old.lines line) by) ⊤) }
        ensures err { OnErr result (self.new ≡ self.old) }
    {
        if let Some(line) = self.missing(&[line]) {
            return Err(KernelFault::NotThere(line));
        }
        let new = divide_line(self.alloc, &self.lines.as_slice()[line as usize], by)?;
        Ok(self.lines.push(new)?)
    }

    /// Adds an atom for the row, and the line that it holds or doesn't.
    pub fn cases(&mut self, row: LRow) -> Result<u32, KernelFault>
        ensures number { IfOk result (λ n. n ≡ length self.old.lines) }
        ensures line { OnOk result (self.new ≡ with_case self.old row) }
        ensures follows { IfOk result (FollowsAt self.new) }
        ensures allowed { OnOk result (IsAllowed None (AreInOrder self.old.query.vars row.terms) ⊤) }
        ensures cause { IfErr result (IsCause None (AreInOrder self.old.query.vars row.terms) ⊤) }
        ensures err { OnErr result (self.new ≡ self.old) }
    {
        if !row.is_in_order(self.lines.query().vars) {
            return Err(KernelFault::NotImplied);
        }
        if self.marked.atoms() == self.lines.atoms().len() {
            self.marked.grow()?;
        }
        Ok(self.lines.push_case(self.alloc, row)?)
    }

    /// The first of these numbers that no line has.
    fn missing(&self, named: &[u32]) -> Option<u32>
        ensures missing { result ≡ first_missing (length self.now.lines) named.now }
        ensures there { IfNone result (All (λ n. n < length self.now.lines) named.now) }
    {
        let count = self.lines.as_slice().len();
        named.iter().copied().find(|n| count <= *n as usize)
    }

    /// The first number of a part that no line has.
    fn missing_part(&self, parts: &[(u32, i128)]) -> Option<u32>
        ensures missing { result ≡ first_missing (length self.now.lines) (map (λ p. p.0) parts.now) }
        ensures there { IfNone result (All (λ p. p.0 < length self.now.lines) parts.now) }
    {
        let count = self.lines.as_slice().len();
        parts.iter().map(|p| p.0).find(|n| count <= *n as usize)
    }

    /// Whether the clause's atoms are there, and no line has a row.
    fn are_clauses(&self, clause: &[Lit], named: &[u32]) -> bool
        requires { All (λ n. n < length self.now.lines) named.now }
        ensures { IsTrue result ↔ (All (λ l. l.atom < length self.now.atoms) clause.now × All (λ n. IsNone (line_at self.now.lines n).row) named.now) }
    {
        let atoms = self.lines.atoms().len();
        are_below(clause, atoms) && have_no_rows(self.lines.as_slice(), named)
    }

    /// The row of an atom, if it has one.
    fn row(&self, atom: u32) -> Option<&LRow>
        ensures row { option_copied result ≡ row_at self.now.atoms atom }
        ensures sound { IsSound self.now }
    {
        match self.lines.atoms().get(atom as usize) {
            Some(Atom::Bound(row)) => Some(row),
            _ => None,
        }
    }
}

fn is_empty(line: &Line) -> bool
    ensures { IsTrue result ↔ (line.now ≡ record { lits = []; row = None }) }
{
    line.lits.as_slice().is_empty() && line.row.is_none()
}

fn are_below(clause: &[Lit], atoms: usize) -> bool
    ensures { IsTrue result ↔ All (λ l. l.atom < atoms) clause.now }
{
    clause.iter().all(|l| (l.atom as usize) < atoms)
}

fn lacks_row(lines: &[Line], line: u32) -> bool
    requires { line < length lines.now }
    ensures { IsTrue result ↔ IsNone (line_at lines.now line).row }
{
    lines[line as usize].row.is_none()
}

fn have_no_rows(lines: &[Line], named: &[u32]) -> bool
    requires { All (λ n. n < length lines.now) named.now }
    ensures { IsTrue result ↔ All (λ n. IsNone (line_at lines.now n).row) named.now }
{
    for n in named {
        if !lacks_row(lines, *n) {
            return false;
        }
    }
    true
}
