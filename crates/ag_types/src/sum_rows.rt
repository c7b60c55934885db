//! The row of an integer expression that is a sum of streams.
ghost use Rattle.std.specs.Prelude.{◌≡◌, ◌≤◌, length, map, Err, IsTrue, IfOk, IfErr, All, Some};
ghost use Rattle.ag_base.specs.declared.place.Refusal.{Refusal};
ghost use Rattle.ag_base.specs.declared.place.Refused.TheVariants.{Model};
ghost use Rattle.ag_symbols.specs.Seen.{names_seen};
ghost use Rattle.ag_linear.specs.Values.{is_within};
ghost use Rattle.ag_linear.specs.RowOrder.{AreInOrder};
ghost use Rattle.ag_types.specs.Constants.{AreKept};
ghost use Rattle.ag_types.specs.Places.{first_broken};
ghost use Rattle.ag_types.specs.Sums.{is_sum, whole_streams, sum_faults, IsRowOf, IsNoRow};
ghost use Rattle.ag_types.specs.SumRows.{HaveValues, IsSumRow, IsTerm, numbered, numbered_row};

use crate::numbers::numbered;
use crate::places::either;
use crate::scope::Scope;
use crate::sums;
use crate::types::{mismatch, typing};
use ag_base::{List, OutOfMemory, Refusal, Refused};
use ag_linear::{Factor, Linear, Value};
use ag_stream::problem::{Row, RowTerm};
use ag_symbols::Sight;
use ag_terms::{Term, Ty};
use std::alloc::Global;

/// Whether an expression is a sum: where it isn't constant, it has no `if`, arrow, quotient, remainder or call,
/// and `pre` of a stream alone. It takes no memory.
pub fn is_sum(scope: &Scope<'_>, term: &Term) -> bool
    ensures { result ≡ is_sum (names_seen scope.now) term.now }
{
    sums::is_sum(&scope.sight(), term)
}

/// The row of an integer expression that is a sum, or the first rule that it breaks. Streams are numbered by
/// their position among the scope's integer streams: those of ports, then those that `eq` declares, in order.
/// A row's constant has a magnitude of at most 2^48, its factors have one of at most 2^31, and it has at most
/// 1,024 terms; a constant expression has a number alone, of a magnitude of at most 2^62.
pub fn linear(alloc: Global, scope: &Scope<'_>, term: &Term) -> Result<Row, Refused>
    requires sum { IsTrue (is_sum (names_seen scope.now) term.now) }
    requires streams { length (whole_streams (names_seen scope.now)) ≤ 65536 }
    ensures ok { IfOk result (λ row. IsRowOf scope.now term.now row) }
    ensures refused { (r : Refusal) → result ≡ Err (Model r) → IsNoRow scope.now term.now r }
{
    match row_or_refusal(alloc, scope, term) {
        Ok(Ok(row)) => Ok(row),
        Ok(Err(refusal)) => Err(Refused::Model(refusal)),
        Err(OutOfMemory) => Err(Refused::OutOfMemory),
    }
}

fn row_or_refusal(
    alloc: Global,
    scope: &Scope<'_>,
    term: &Term,
) -> Result<Result<Row, Refusal>, OutOfMemory>
    requires sum { IsTrue (is_sum (names_seen scope.now) term.now) }
    requires streams { length (whole_streams (names_seen scope.now)) ≤ 65536 }
    ensures ok { IfOk result (λ answer. IfOk answer (λ row. IsRowOf scope.now term.now row)) }
    ensures refused { IfOk result (λ answer. IfErr answer (λ r. IsNoRow scope.now term.now r)) }
{
    match sum_row(alloc, &scope.sight(), scope.values(), term)? {
        Ok(row) => Ok(Ok(numbered_row(alloc, scope, &row)?)),
        Err(refusal) => Ok(Err(refusal)),
    }
}

// The row by the streams that are seen.
fn sum_row(
    alloc: Global,
    sight: &Sight<'_>,
    values: &[Option<Value>],
    term: &Term,
) -> Result<Result<Linear, Refusal>, OutOfMemory>
    requires sum { IsTrue (is_sum sight.now term.now) }
    requires kept { AreKept values.now }
    requires typed { HaveValues sight.now.constants values.now }
    ensures ok { IfOk result (λ answer. IfOk answer (λ row. IsSumRow sight.now values.now term.now row)) }
    ensures refused { IfOk result (λ answer. IfErr answer (λ r. first_broken (sum_faults sight.now values.now term.now) ≡ Some r)) }
{
    let typing = typing(sight, term);
    let numbered = numbered(alloc, sight, values, term)?;
    let of_type = mismatch(Some(Ty::Int), typing.ty, typing.first);
    let broken = either(typing.broken, either(of_type, numbered.broken));
    match (broken, numbered.row) {
        (Some(refusal), _) => Ok(Err(refusal)),
        (None, Some(row)) => Ok(Ok(row)),
        (None, None) => unreachable!(),
    }
}

fn numbered_row(alloc: Global, scope: &Scope<'_>, row: &Linear) -> Result<Row, OutOfMemory>
    requires streams { length (whole_streams (names_seen scope.now)) ≤ 65536 }
    requires kept { IsTrue (is_within row.now.constant) }
    requires terms { All (IsTerm (names_seen scope.now).streams) row.now.factors }
    ensures ok { IfOk result (λ r. r ≡ numbered_row (names_seen scope.now) row.now) }
    // The type of rows keeps their factors in order.
    ensures order { AreInOrder row.now.factors }
{
    let terms = numbered_terms(alloc, scope, row.factors())?;
    Ok(Row {
        terms,
        constant: row.offset() as i64,
    })
}

fn numbered_terms(
    alloc: Global,
    scope: &Scope<'_>,
    factors: &[Factor],
) -> Result<List<RowTerm>, OutOfMemory>
    requires streams { length (whole_streams (names_seen scope.now)) ≤ 65536 }
    requires terms { All (IsTerm (names_seen scope.now).streams) factors.now }
    ensures { IfOk result (λ ts. ts ≡ map (numbered (names_seen scope.now)) factors.now) }
{
    let mut terms = Vec::with_capacity(alloc, factors.len())?;
    for factor in factors {
        terms.push(numbered_term(scope, factor))?;
    }
    Ok(List::from_vec(terms))
}

fn numbered_term(scope: &Scope<'_>, factor: &Factor) -> RowTerm
    requires streams { length (whole_streams (names_seen scope.now)) ≤ 65536 }
    requires is_term { IsTerm (names_seen scope.now).streams factor.now }
    ensures { result ≡ numbered (names_seen scope.now) factor.now }
{
    RowTerm {
        stream: scope.integers_before(factor.stream) as u16,
        before: factor.before,
        factor: factor.factor as i64,
    }
}
