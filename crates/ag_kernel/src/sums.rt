//! Sums of rows by multipliers, in 128 bits.
ghost use Rattle.std.specs.Prelude.{◌≡◌, ◌<◌, ◌≤◌, ◌≤ℤ◌, pos, ◌+◌, ◌++◌, ℕ, ℤ, ◌+ℤ◌, ◌*ℤ◌, IsTrue, IsSome, ◌↔◌, length, take, drop, All, IfOk, IfErr, OnOk, FitsSigned, None, ⊤, slice_index_or};
ghost use Rattle.std.specs.Option.{SomeIff};
ghost use Rattle.std.specs.Int.{w128};
ghost use Rattle.ag_query.specs.declared.rows.LTerm.{LTerm};
ghost use Rattle.ag_query.specs.Rows.{AreInOrder, sum_of};
ghost use Rattle.ag_kernel.specs.Faults.{IsCause};
ghost use Rattle.ag_kernel.specs.Rules.{times, line_at, row_in, parts_of};
ghost use Rattle.ag_kernel.specs.Sums.{AreMade, AreRowsIn, kept, FitTerms, FitsAdded, IsMerging, IsSumOf, unit};

use crate::line::{KernelFault, Line};
use ag_base::OutOfMemory;
use ag_query::{LRow, LTerm, Terms};
use std::alloc::Global;

/// The term times a number, where that fits.
fn multiply(term: &LTerm, by: i128) -> Option<LTerm>
    ensures { SomeIff result (FitsSigned w128 (by *ℤ term.now.factor)) (times by term.now) }
{
    Some(LTerm {
        var: term.var,
        factor: by.checked_mul(term.factor)?,
    })
}

/// The sum of two terms of one variable, where that fits.
fn add(left: &LTerm, right: &LTerm) -> Option<LTerm>
    ensures { SomeIff result (FitsSigned w128 (left.now.factor +ℤ right.now.factor)) (record { var = left.now.var; factor = left.now.factor +ℤ right.now.factor }) }
{
    Some(LTerm {
        var: left.var,
        factor: left.factor.checked_add(right.factor)?,
    })
}

/// The term once more. Its factor fits, as that of any term does.
fn copy(term: &LTerm) -> LTerm
    ensures same { result ≡ term.now }
    ensures fits { FitsSigned w128 result.factor }
{
    LTerm {
        var: term.var,
        factor: term.factor,
    }
}

/// Puts the term at the end, unless its factor is 0.
fn push_nonzero(sum: &mut Terms, term: LTerm) -> Result<(), OutOfMemory>
    ensures value { OnOk result ((x : ℕ → ℤ) → sum_of x sum.new ≡ sum_of x sum.old +ℤ term.factor *ℤ x term.var) }
    ensures order { OnOk result ((vars : ℕ) → AreInOrder vars sum.old → All (λ t. t.var < term.var) sum.old → term.var < vars → AreInOrder vars sum.new × All (λ t. t.var < term.var + 1) sum.new) }
    ensures fits { OnOk result (All (λ t. FitsSigned w128 t.factor) sum.old → All (λ t. FitsSigned w128 t.factor) sum.new) }
{
    if term.factor != 0 {
        sum.push(term)?;
    }
    Ok(())
}

/// Puts the first terms at the end, those of smaller variables, and tells how many they are.
fn copy_before(sum: &mut Terms, rest: &[LTerm], var: u32) -> Result<usize, OutOfMemory>
    ensures count { IfOk result (λ n. n ≤ length rest.now) }
    ensures sum { IfOk result (λ n. sum.new ≡ sum.old ++ take n rest.now) }
    ensures before { IfOk result (λ n. All (λ t. t.var < var) (take n rest.now)) }
    ensures after { IfOk result (λ n. (d : LTerm) → n < length rest.now → var ≤ (slice_index_or rest.now n d).var) }
    ensures fits { OnOk result (All (λ t. FitsSigned w128 t.factor) sum.old → All (λ t. FitsSigned w128 t.factor) sum.new) }
{
    for (n, term) in rest.iter().enumerate() {
        if term.var >= var {
            return Ok(n);
        }
        sum.push(copy(term))?;
    }
    Ok(rest.len())
}

/// Whether the term at this place is of the variable.
fn stands_at(rest: &[LTerm], at: usize, var: u32) -> bool
    ensures { IsTrue result ↔ ((at < length rest.now) × ((d : LTerm) → (slice_index_or rest.now at d).var ≡ var)) }
{
    at < rest.len() && rest[at].var == var
}

/// Puts the first terms and this one at the end, joined with that of its variable, and tells how
/// many of the rest were taken.
fn add_term(sum: &mut Terms, rest: &[LTerm], term: &LTerm) -> Result<usize, KernelFault>
    ensures count { IfOk result (λ n. n ≤ length rest.now) }
    ensures value { IfOk result (λ n. (x : ℕ → ℤ) → sum_of x sum.new +ℤ sum_of x (drop n rest.now) ≡ (sum_of x sum.old +ℤ sum_of x rest.now) +ℤ term.now.factor *ℤ x term.now.var) }
    ensures merging { IfOk result (λ n. (low vars : ℕ) → IsMerging low vars sum.old rest.now → low ≤ term.now.var → term.now.var < vars → IsMerging (term.now.var + 1) vars sum.new (drop n rest.now)) }
    ensures fits { OnOk result (FitsSigned w128 term.now.factor → All (λ t. FitsSigned w128 t.factor) sum.old → All (λ t. FitsSigned w128 t.factor) sum.new) }
    ensures cause { (low vars : ℕ) → IsMerging low vars sum.old rest.now → low ≤ term.now.var → IfErr result (IsCause None ⊤ (FitsSigned w128 ((sum_of (unit term.now.var) sum.old +ℤ sum_of (unit term.now.var) rest.now) +ℤ term.now.factor))) }
{
    let before = copy_before(sum, rest, term.var)?;
    if stands_at(rest, before, term.var) {
        let Some(both) = add(&rest[before], term) else {
            return Err(KernelFault::Wide);
        };
        push_nonzero(sum, both)?;
        return Ok(before + 1);
    }
    push_nonzero(sum, *term)?;
    Ok(before)
}

/// Puts the terms at the end.
fn copy_all(sum: &mut Terms, rest: &[LTerm]) -> Result<(), OutOfMemory>
    ensures sum { OnOk result (sum.new ≡ sum.old ++ rest.now) }
    ensures fits { OnOk result (All (λ t. FitsSigned w128 t.factor) sum.old → All (λ t. FitsSigned w128 t.factor) sum.new) }
{
    for term in rest {
        sum.push(copy(term))?;
    }
    Ok(())
}

/// The terms of the first list and those of the second by a multiplier.
fn add_times(alloc: Global, left: &[LTerm], right: &[LTerm], by: i128) -> Result<Terms, KernelFault>
    ensures value { IfOk result (λ sum. (x : ℕ → ℤ) → sum_of x sum ≡ sum_of x left.now +ℤ by *ℤ sum_of x right.now) }
    ensures order { IfOk result (λ sum. (vars : ℕ) → AreInOrder vars left.now → AreInOrder vars right.now → AreInOrder vars sum) }
    ensures fits { IfOk result (λ sum. All (λ t. FitsSigned w128 t.factor) sum) }
    ensures products { OnOk result (All (λ t. FitsSigned w128 (by *ℤ t.factor)) right.now) }
    ensures cause { (vars : ℕ) → AreInOrder vars left.now → AreInOrder vars right.now → IfErr result (IsCause None ⊤ (FitTerms left.now right.now by)) }
{
    let mut sum = Terms::new(alloc);
    let mut rest = left;
    for term in right {
        let Some(product) = multiply(term, by) else {
            return Err(KernelFault::Wide);
        };
        let used = add_term(&mut sum, rest, &product)?;
        rest = &rest[used..];
    }
    copy_all(&mut sum, rest)?;
    Ok(sum)
}

/// The bound, with that of a row by a multiplier.
fn add_bound(sum: &LRow, row: &LRow, by: i128) -> Option<i128>
    ensures { SomeIff result (FitsSigned w128 (by *ℤ row.now.bound) × FitsSigned w128 (sum.now.bound +ℤ by *ℤ row.now.bound)) (sum.now.bound +ℤ by *ℤ row.now.bound) }
{
    sum.bound.checked_add(by.checked_mul(row.bound)?)
}

/// The sum, with a row by a multiplier.
fn add_row(alloc: Global, sum: &LRow, row: &LRow, by: i128) -> Result<LRow, KernelFault>
    ensures terms { IfOk result (λ new. (x : ℕ → ℤ) → sum_of x new.terms ≡ sum_of x sum.now.terms +ℤ by *ℤ sum_of x row.now.terms) }
    ensures bound { IfOk result (λ new. new.bound ≡ sum.now.bound +ℤ by *ℤ row.now.bound) }
    ensures order { IfOk result (λ new. (vars : ℕ) → AreInOrder vars sum.now.terms → AreInOrder vars row.now.terms → AreInOrder vars new.terms × FitsAdded sum.now row.now by) }
    ensures cause { (vars : ℕ) → AreInOrder vars sum.now.terms → AreInOrder vars row.now.terms → IfErr result (IsCause None ⊤ (FitsAdded sum.now row.now by)) }
{
    let terms = add_times(alloc, sum.terms.as_slice(), row.terms.as_slice(), by)?;
    let Some(bound) = add_bound(sum, row, by) else {
        return Err(KernelFault::Wide);
    };
    Ok(LRow { terms, bound })
}

/// The sum of the rows of lines by their multipliers.
pub fn sum_rows(alloc: Global, lines: &[Line], named: &[(u32, i128)]) -> Result<LRow, KernelFault>
    requires there { All (λ p. p.0 < length lines.now) named.now }
    requires rows { All (λ p. IsSome (line_at lines.now p.0).row) named.now }
    ensures sum { IfOk result (λ row. (vars : ℕ) → AreRowsIn vars lines.now → IsSumOf vars (parts_of lines.now named.now) row × AreMade (parts_of lines.now named.now)) }
    ensures cause { (vars : ℕ) → AreRowsIn vars lines.now → IfErr result (IsCause None ⊤ (AreMade (parts_of lines.now named.now))) }
{
    let mut sum = LRow {
        terms: Terms::new(alloc),
        bound: 0,
    };
    for (n, by) in named {
        sum = add_row(alloc, &sum, row_of(&lines[*n as usize]), *by)?;
    }
    Ok(sum)
}

/// The row of a line that has one.
fn row_of(line: &Line) -> &LRow
    requires { IsSome line.now.row }
    ensures { result.now ≡ row_in line.now }
{
    match &line.row {
        Some(row) => row,
        None => unreachable!(),
    }
}

/// Whether each line has a row, and no multiplier is negative.
pub fn are_parts(lines: &[Line], parts: &[(u32, i128)]) -> bool
    requires { All (λ p. p.0 < length lines.now) parts.now }
    ensures { IsTrue result ↔ All (λ p. IsSome (line_at lines.now p.0).row × (pos 0 ≤ℤ p.1)) parts.now }
{
    for part in parts {
        if !is_part(lines, part) {
            return false;
        }
    }
    true
}

fn is_part(lines: &[Line], part: &(u32, i128)) -> bool
    requires { part.now.0 < length lines.now }
    ensures { IsTrue result ↔ (IsSome (line_at lines.now part.now.0).row × (pos 0 ≤ℤ part.now.1)) }
{
    part.1 >= 0 && lines[part.0 as usize].row.is_some()
}

/// The row, unless it says that 0 is at most a negative number.
pub fn keep(row: LRow) -> Option<LRow>
    ensures { result ≡ kept row }
{
    if row.terms.as_slice().is_empty() && row.bound < 0 {
        None
    } else {
        Some(row)
    }
}
