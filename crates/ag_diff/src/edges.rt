//! Edges between variables, one for each row that a literal says.
ghost use Rattle.std.specs.Prelude.{◌≡◌, ◌≤◌, ◌+◌, All, Contains, IfOk, ℕ, ℤ, pos};
ghost use Rattle.ag_query.specs.Rows.{AreInOrder};
ghost use Rattle.ag_kernel.specs.Rules.{row_said};
ghost use Rattle.ag_kernel.specs.Theories.{RowIsAsSaid};
ghost use Rattle.ag_diff.specs.Differences.{IsDifference, IsDifferenceRow, IsFitting};
ghost use Rattle.ag_diff.specs.Edges.{AreEnds, IsEdgeOf, IsWithin, IsSaid, HoldsAt};

use ag_base::OutOfMemory;
use ag_query::{Atom, LRow, LTerm, Lit, Query};
use std::alloc::Global;

/// Says that the value of `to` is at most that of `from` and the weight. Vertices are the variables
/// by number, and one more behind them that is worth 0.
#[derive(Clone, Copy)]
pub struct Edge {
    pub from: u32,
    pub to: u32,
    pub weight: i64,
    /// The literal that says so.
    pub lit: Lit,
}

/// The edges of the literals' rows.
pub fn edges_of(alloc: Global, query: &Query, lits: &[Lit]) -> Result<Vec<Edge>, OutOfMemory>
    requires { IsFitting query.now lits.now }
    ensures said { IfOk result (λ edges. All (IsSaid query.now.vars query.now.atoms) edges.items) }
    ensures lits { IfOk result (λ edges. All (λ e. Contains lits.now e.lit) edges.items) }
    // Numbers at which all edges hold satisfy every row.
    ensures whole { IfOk result (λ edges. (x : ℕ → ℤ) → x query.now.vars ≡ pos 0 → All (HoldsAt x) edges.items → All (RowIsAsSaid query.now.atoms x) lits.now) }
{
    let mut edges = Vec::new(alloc);
    for lit in lits {
        if let Atom::Bound(row) = &query.atoms.as_slice()[lit.atom as usize] {
            edges.push(edge_of(query.vars, row, *lit))?;
        }
    }
    Ok(edges)
}

/// The edge of a literal's row, or of what holds where the row doesn't.
fn edge_of(zero: u32, row: &LRow, lit: Lit) -> Edge
    requires vars { zero ≤ 8192 }
    requires difference { IsDifferenceRow row.now }
    requires order { AreInOrder zero row.now.terms }
    ensures lit { result.lit ≡ lit }
    ensures within { IsWithin (zero + 1) result }
    ensures says { IsEdgeOf zero (row_said lit row.now) result }
{
    let (to, from) = ends(zero, row.terms.as_slice());
    let bound = row.bound as i64;
    if lit.holds {
        return Edge {
            from,
            to,
            weight: bound,
            lit,
        };
    }
    Edge {
        from: to,
        to: from,
        weight: -bound - 1,
        lit,
    }
}

/// The vertices whose difference the terms are, the one that is taken away last.
fn ends(zero: u32, terms: &[LTerm]) -> (u32, u32)
    requires difference { IsDifference terms.now }
    requires order { AreInOrder zero terms.now }
    ensures { AreEnds zero terms.now result.0 result.1 }
{
    match terms {
        [] => (zero, zero),
        [term] if term.factor > 0 => (term.var, zero),
        [term] => (zero, term.var),
        [one, other, ..] if one.factor > 0 => (one.var, other.var),
        [one, other, ..] => (other.var, one.var),
    }
}
