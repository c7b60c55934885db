//! The rows of expressions by those of their operands.
ghost use Rattle.std.specs.Prelude.{◌≡◌, negsuc, true, IfOk, None};
ghost use Rattle.ag_linear.specs.Rows.{plus, minus};
ghost use Rattle.ag_types.specs.Numbered.{held, row_before, exact_of_unary, exact_of_product, exact_of_binary};
ghost use Rattle.ag_types.specs.Rows.{both, scaled, row_of_hidden, row_of_stream};

use crate::numbered::Numbered;
use ag_base::OutOfMemory;
use ag_linear::{Kept, Linear, Value, minus, plus, times};
use ag_terms::{Binary, Ty, Unary};
use std::alloc::Global;

/// An operator before one operand, which names this integer stream or none.
pub fn row_of_unary(
    alloc: Global,
    op: Unary,
    stream: Option<usize>,
    arg: Numbered,
) -> Result<Kept, OutOfMemory>
    ensures { IfOk result (λ k. k ≡ held (exact_of_unary op stream arg)) }
{
    match (op, stream) {
        (Unary::Minus, _) => Ok(scaled(alloc, Some(Value::Whole(-1)), arg.row)),
        (Unary::Not, _) => Ok(no_row()),
        (Unary::Pre, Some(stream)) => row_of_stream(alloc, true, Some(stream)),
        (Unary::Pre, None) => row_of_hidden(alloc, arg.ty),
    }
}

/// An operator between two operands.
pub fn row_of_binary(
    alloc: Global,
    op: Binary,
    left: Numbered,
    right: Numbered,
) -> Result<Kept, OutOfMemory>
    ensures { IfOk result (λ k. k ≡ held (exact_of_binary op left right)) }
{
    match op {
        Binary::Plus => sum_of(alloc, left.row, right.row),
        Binary::Minus => difference_of(alloc, left.row, right.row),
        Binary::Times => Ok(product_of(alloc, left, right)),
        Binary::Div | Binary::Mod => row_of_hidden(alloc, Some(Ty::Int)),
        Binary::Arrow => row_of_hidden(alloc, left.ty),
        _ => Ok(no_row()),
    }
}

fn sum_of(alloc: Global, left: Option<Linear>, right: Option<Linear>) -> Result<Kept, OutOfMemory>
    ensures { IfOk result (λ k. k ≡ held (both plus left right)) }
{
    match (left, right) {
        (Some(left), Some(right)) => plus(alloc, left, right),
        _ => Ok(no_row()),
    }
}

fn difference_of(
    alloc: Global,
    left: Option<Linear>,
    right: Option<Linear>,
) -> Result<Kept, OutOfMemory>
    ensures { IfOk result (λ k. k ≡ held (both minus left right)) }
{
    match (left, right) {
        (Some(left), Some(right)) => minus(alloc, left, right),
        _ => Ok(no_row()),
    }
}

// Of a product one factor is constant.
fn product_of(alloc: Global, left: Numbered, right: Numbered) -> Kept
    ensures { result ≡ held (exact_of_product left right) }
{
    if !left.varies {
        scaled(alloc, left.value, right.row)
    } else if !right.varies {
        scaled(alloc, right.value, left.row)
    } else {
        no_row()
    }
}

fn scaled(alloc: Global, by: Option<Value>, row: Option<Linear>) -> Kept
    ensures { result ≡ held (scaled by row) }
{
    match (by, row) {
        (Some(Value::Whole(by)), Some(row)) => times(alloc, by, row),
        _ => no_row(),
    }
}

/// The row of what has none.
pub fn no_row() -> Kept
    ensures { result ≡ held None }
{
    Kept {
        row: None,
        passes: false,
    }
}

/// A stream, or its value one instant earlier.
pub fn row_of_stream(
    alloc: Global,
    before: bool,
    stream: Option<usize>,
) -> Result<Kept, OutOfMemory>
    ensures { IfOk result (λ k. k ≡ held (row_of_stream before stream)) }
{
    match stream {
        None => Ok(no_row()),
        Some(stream) => Ok(Kept {
            row: Some(Linear::stream(alloc, stream, before)?),
            passes: false,
        }),
    }
}

/// What is no sum stands in a row as a stream of its own.
pub fn row_of_hidden(alloc: Global, ty: Option<Ty>) -> Result<Kept, OutOfMemory>
    ensures { IfOk result (λ k. k ≡ held (row_of_hidden ty)) }
{
    match ty {
        Some(Ty::Int) => Ok(Kept {
            row: Some(Linear::hidden(alloc)?),
            passes: false,
        }),
        _ => Ok(no_row()),
    }
}
