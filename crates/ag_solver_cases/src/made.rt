//! Queries that are told by their rows and clauses.
ghost use Rattle.std.specs.Prelude.{◌≡◌, ◌≤◌, ◌^◌, ◌<◌, All, IsTrue, IfOk, length};
ghost use Rattle.ag_query.specs.Made.{IsAtomOver, IsClauseOver};
ghost use Rattle.ag_query.specs.Rows.{magnitude};

use ag_base::List;
use ag_query::{Atom, LClause, LRow, LTerm, Lit, Lits, Query, Terms};
use std::alloc::Global;
use std::test::Fail;

/// The terms of a row and its bound.
pub type Row<'a> = (&'a [LTerm], i128);

/// The variable 0.
pub const X: LTerm = LTerm { var: 0, factor: 1 };

/// The variable 1.
pub const Y: LTerm = LTerm { var: 1, factor: 1 };

/// The variable 2.
pub const Z: LTerm = LTerm { var: 2, factor: 1 };

/// The variable 0, negated.
pub const LESS_X: LTerm = LTerm { var: 0, factor: -1 };

/// The variable 1, negated.
pub const LESS_Y: LTerm = LTerm { var: 1, factor: -1 };

/// The variable 2, negated.
pub const LESS_Z: LTerm = LTerm { var: 2, factor: -1 };

/// The literals that one of the atoms 0 to 8 holds.
pub const A: Lit = Lit {
    atom: 0,
    holds: true,
};

pub const B: Lit = Lit {
    atom: 1,
    holds: true,
};

pub const C: Lit = Lit {
    atom: 2,
    holds: true,
};

pub const D: Lit = Lit {
    atom: 3,
    holds: true,
};

pub const E: Lit = Lit {
    atom: 4,
    holds: true,
};

pub const F: Lit = Lit {
    atom: 5,
    holds: true,
};

pub const G: Lit = Lit {
    atom: 6,
    holds: true,
};

pub const H: Lit = Lit {
    atom: 7,
    holds: true,
};

pub const I: Lit = Lit {
    atom: 8,
    holds: true,
};

/// The literals that one of them doesn't hold.
pub const NOT_A: Lit = Lit {
    atom: 0,
    holds: false,
};

pub const NOT_B: Lit = Lit {
    atom: 1,
    holds: false,
};

pub const NOT_C: Lit = Lit {
    atom: 2,
    holds: false,
};

pub const NOT_D: Lit = Lit {
    atom: 3,
    holds: false,
};

pub const NOT_E: Lit = Lit {
    atom: 4,
    holds: false,
};

pub const NOT_G: Lit = Lit {
    atom: 6,
    holds: false,
};

pub const NOT_H: Lit = Lit {
    atom: 7,
    holds: false,
};

/// Whether a row has two terms at most, with small factors.
fn is_small(terms: &[LTerm]) -> bool
    ensures { IsTrue result → magnitude terms.now ≤ 2 ^ 63 }
{
    match terms {
        [] => true,
        [one] => one.factor.unsigned_abs() < 1000,
        [one, other] => { one.factor.unsigned_abs() < 1000 && other.factor.unsigned_abs() < 1000 }
        _ => false,
    }
}

/// The atom of a row, or a free one.
fn atom_of(alloc: Global, vars: u32, row: Option<Row>) -> Result<Atom, Fail>
    ensures { IfOk result (IsAtomOver vars) }
{
    let Some((terms, bound)) = row else {
        return Ok(Atom::Free);
    };
    if !is_small(terms) {
        return Err(Fail::from("the row is small"));
    }
    let terms = Terms::make(alloc, terms)?;
    let row = LRow { terms, bound };
    if !row.is_in_order(vars) {
        return Err(Fail::from("the row is in order"));
    }
    Ok(Atom::Bound(row))
}

/// An atom for each row, and a free one for each that is wanting.
fn atoms_of(alloc: Global, vars: u32, rows: &[Option<Row>]) -> Result<List<Atom>, Fail>
    ensures over { IfOk result (All (IsAtomOver vars)) }
    ensures count { IfOk result (λ atoms. length atoms ≡ length rows.now) }
{
    let mut atoms = List::new(alloc);
    for row in rows {
        atoms.push(atom_of(alloc, vars, *row)?)?;
    }
    Ok(atoms)
}

/// Whether each literal is of one of the first so many atoms.
pub fn are_of(lits: &[Lit], atoms: usize) -> bool
    ensures { IsTrue result → All (λ l. l.atom < atoms) lits.now }
{
    for lit in lits {
        if lit.atom as usize >= atoms {
            return false;
        }
    }
    true
}

/// A clause of these literals.
fn clause_of(alloc: Global, atoms: usize, lits: &[Lit]) -> Result<LClause, Fail>
    ensures { IfOk result (IsClauseOver atoms) }
{
    if !are_of(lits, atoms) {
        return Err(Fail::from("the atoms are there"));
    }
    let lits = Lits::make(alloc, lits)?;
    Ok(LClause { lits })
}

/// A clause for each list of literals.
fn clauses_of(alloc: Global, atoms: usize, clauses: &[&[Lit]]) -> Result<List<LClause>, Fail>
    ensures { IfOk result (All (IsClauseOver atoms)) }
{
    let mut made = List::new(alloc);
    for lits in clauses {
        made.push(clause_of(alloc, atoms, lits)?)?;
    }
    Ok(made)
}

/// A query with these rows and clauses.
pub fn query(
    alloc: Global,
    vars: u32,
    rows: &[Option<Row>],
    clauses: &[&[Lit]],
) -> Result<Query, Fail>
    ensures vars { IfOk result (λ q. q.vars ≡ vars) }
    ensures atoms { IfOk result (λ q. length q.atoms ≡ length rows.now) }
{
    let clauses = clauses_of(alloc, rows.len(), clauses)?;
    let atoms = atoms_of(alloc, vars, rows)?;
    Ok(Query::make(vars, atoms, clauses))
}
