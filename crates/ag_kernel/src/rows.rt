//! Rows turned and divided, in 128 bits.
ghost use Rattle.std.specs.Prelude.{◌≡◌, ◌≤ℤ◌, ◌<ℤ◌, ◌+ℤ◌, ◌*ℤ◌, neg_ℤ, pos, map, All, IfOk, IfErr, OnOk, IsTrue, ◌↔◌, FitsSigned, None, false, ⊤, if◌then◌else◌};
ghost use Rattle.std.specs.Option.{SomeIff};
ghost use Rattle.std.specs.Int.{w128};
ghost use Rattle.std.specs.Int.RustNames.{int_rem, int_div};
ghost use Rattle.ag_kernel.specs.Faults.{IsCause};
ghost use Rattle.ag_kernel.specs.Rules.{FitsRow, negated, opposite, times, IsQuotient, CanDivide, IsDivided};

use crate::line::{KernelFault, Line};
use ag_base::OutOfMemory;
use ag_query::{LRow, LTerm, Terms};
use std::alloc::Global;

/// The term with the other sign, where that fits.
fn negate(term: &LTerm) -> Option<LTerm>
    ensures { SomeIff result (FitsSigned w128 (neg_ℤ term.now.factor)) (negated term.now) }
{
    Some(LTerm {
        var: term.var,
        factor: term.factor.checked_neg()?,
    })
}

fn negate_all(alloc: Global, terms: &[LTerm]) -> Result<Terms, KernelFault>
    ensures terms { IfOk result (λ new. new ≡ map negated terms.now) }
    ensures fits { IfOk result (λ new. All (λ t. FitsSigned w128 (neg_ℤ t.factor)) terms.now) }
    ensures cause { IfErr result (IsCause None ⊤ (All (λ t. FitsSigned w128 (neg_ℤ t.factor)) terms.now)) }
{
    let mut new = Terms::new(alloc);
    for term in terms {
        match negate(term) {
            Some(other) => new.push(other)?,
            None => return Err(KernelFault::Wide),
        }
    }
    Ok(new)
}

/// The row that holds exactly where this one doesn't.
fn turn(alloc: Global, row: &LRow) -> Result<LRow, KernelFault>
    ensures ok { IfOk result (λ new. (new ≡ opposite row.now) × FitsRow (opposite row.now)) }
    ensures cause { IfErr result (IsCause None ⊤ (FitsRow (opposite row.now))) }
{
    let terms = negate_all(alloc, row.terms.as_slice())?;
    Ok(LRow {
        terms,
        bound: -1 - row.bound,
    })
}

/// Whether the divisor divides the term's factor.
fn divides(term: &LTerm, by: i128) -> bool
    requires { pos 1 ≤ℤ by }
    ensures { IsTrue result ↔ (int_rem term.now.factor by ≡ pos 0) }
{
    term.factor % by == 0
}

/// Whether the divisor divides each factor.
fn divides_all(terms: &[LTerm], by: i128) -> bool
    requires { pos 1 ≤ℤ by }
    ensures { IsTrue result ↔ All (λ t. int_rem t.factor by ≡ pos 0) terms.now }
{
    for term in terms {
        if !divides(term, by) {
            return false;
        }
    }
    true
}

fn divide(term: &LTerm, by: i128) -> LTerm
    requires positive { pos 1 ≤ℤ by }
    requires divides { int_rem term.now.factor by ≡ pos 0 }
    ensures { times by result ≡ term.now }
{
    LTerm {
        var: term.var,
        factor: term.factor / by,
    }
}

fn divide_terms(alloc: Global, terms: &[LTerm], by: i128) -> Result<Terms, OutOfMemory>
    requires positive { pos 1 ≤ℤ by }
    requires divides { All (λ t. int_rem t.factor by ≡ pos 0) terms.now }
    ensures { IfOk result (λ new. map (times by) new ≡ terms.now) }
{
    let mut new = Terms::new(alloc);
    for term in terms {
        new.push(divide(term, by))?;
    }
    Ok(new)
}

/// The row divided, with its bound rounded down.
fn quotient(alloc: Global, row: &LRow, by: i128) -> Result<LRow, OutOfMemory>
    requires positive { pos 1 ≤ℤ by }
    requires divides { All (λ t. int_rem t.factor by ≡ pos 0) row.now.terms }
    ensures { IfOk result (λ new. IsQuotient by row.now new) }
{
    let terms = divide_terms(alloc, row.terms.as_slice(), by)?;
    Ok(LRow {
        terms,
        bound: round_down(row.bound, by),
    })
}

/// The greatest number that times the divisor is at most the bound.
fn round_down(bound: i128, by: i128) -> i128
    requires { pos 1 ≤ℤ by }
    ensures below { (by *ℤ result) ≤ℤ bound }
    ensures above { bound <ℤ (by *ℤ result +ℤ by) }
{
    bound.div_euclid(by)
}

/// The row, or the one that holds exactly where it doesn't.
pub fn said(alloc: Global, row: &LRow, holds: bool) -> Result<LRow, KernelFault>
    ensures row { IfOk result (λ new. new ≡ (if holds then row.now else opposite row.now)) }
    ensures fits { OnOk result (holds ≡ false → FitsRow (opposite row.now)) }
    ensures cause { IfErr result (IsCause None ⊤ (holds ≡ false → FitsRow (opposite row.now))) }
{
    if holds {
        return Ok(row.clone()?);
    }
    turn(alloc, row)
}

pub fn divide_line(alloc: Global, line: &Line, by: i128) -> Result<Line, KernelFault>
    ensures line { IfOk result (IsDivided by line.now) }
    ensures allowed { OnOk result (CanDivide line.now by) }
    ensures cause { IfErr result (IsCause None (CanDivide line.now by) ⊤) }
{
    let Some(row) = &line.row else {
        return Err(KernelFault::NotImplied);
    };
    if by < 1 {
        return Err(KernelFault::NotImplied);
    }
    if !divides_all(row.terms.as_slice(), by) {
        return Err(KernelFault::NotImplied);
    }
    let lits = line.lits.clone()?;
    let row = quotient(alloc, row, by)?;
    Ok(Line {
        lits,
        row: Some(row),
    })
}
