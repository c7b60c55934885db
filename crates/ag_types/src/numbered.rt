//! What is known of an expression of the rules on numbers.
ghost use Rattle.std.specs.Prelude.{◌≡◌};
ghost use Rattle.ag_types.specs.NumberFaults.{coefficient};
ghost use Rattle.ag_types.specs.Numbered.{closed, row_as, broken_as, is_whole, own_equation, with_argument};
ghost use Rattle.ag_types.specs.Places.{first_broken};
ghost use Rattle.ag_types.specs.Rows.{row_of_value};

use crate::places::either;
use ag_base::{Place, Refusal, Rule};
use ag_linear::{Kept, Linear, Value, keeps_limits};
use ag_terms::Ty;
use std::alloc::Global;

/// What is known of an expression: its type, whether it isn't constant, the place of its first token, its
/// value and its row, and the first rules that it breaks as a constant and in a clause.
#[derive(Drop)]
pub struct Numbered {
    pub ty: Option<Ty>,
    pub varies: bool,
    pub first: Place,
    pub value: Option<Value>,
    pub row: Option<Linear>,
    pub of_constant: Option<Refusal>,
    pub broken: Option<Refusal>,
}

/// What an expression is beside its row.
#[derive(Clone, Copy)]
pub struct Head {
    pub ty: Option<Ty>,
    pub varies: bool,
    pub first: Place,
    pub value: Option<Value>,
}

/// The first rules that an expression breaks as a constant, and in its parts.
#[derive(Clone, Copy)]
pub struct Faults {
    pub of_constant: Option<Refusal>,
    pub of_parts: Option<Refusal>,
}

/// Where nothing is broken.
pub const UNBROKEN: Faults = Faults {
    of_constant: None,
    of_parts: None,
};

/// An expression by what it is, its exact row, and what its parts break.
pub fn closed(alloc: Global, head: Head, exact: Kept, faults: Faults) -> Numbered
    ensures { result ≡ closed head exact faults }
{
    Numbered {
        ty: head.ty,
        varies: head.varies,
        first: head.first,
        value: head.value,
        of_constant: faults.of_constant,
        broken: broken_as(head, exact.passes, faults),
        row: row_as(alloc, head, exact),
    }
}

// The row of a constant is its value.
fn row_as(alloc: Global, head: Head, exact: Kept) -> Option<Linear>
    ensures { result ≡ row_as head exact }
{
    if head.varies {
        exact.row
    } else {
        row_of_value(alloc, head.value)
    }
}

fn row_of_value(alloc: Global, value: Option<Value>) -> Option<Linear>
    ensures { result ≡ row_of_value value }
{
    match value {
        Some(Value::Whole(value)) => Some(Linear::constant(alloc, value)),
        _ => None,
    }
}

fn broken_as(head: Head, passes: bool, faults: Faults) -> Option<Refusal>
    ensures { result ≡ broken_as head (record { row = None; passes = passes }) faults }
{
    if !head.varies && is_whole(head.ty) {
        faults.of_constant
    } else {
        let own = coefficient(head.varies && passes, head.first);
        either(own, faults.of_parts)
    }
}

fn is_whole(ty: Option<Ty>) -> bool
    ensures { result ≡ is_whole ty }
{
    match ty {
        Some(Ty::Int) => true,
        _ => false,
    }
}

/// What passes a limit is refused at its place.
pub fn coefficient(passes: bool, place: Place) -> Option<Refusal>
    ensures { result ≡ first_broken (coefficient passes place) }
{
    if passes {
        Some(Refusal {
            place,
            rule: Rule::Coefficient,
        })
    } else {
        None
    }
}

/// An expression that has an equation of its own: a constant too keeps a row's limits there.
pub fn own_equation(part: &Numbered) -> Option<Refusal>
    ensures { result ≡ first_broken (own_equation part.now) }
{
    match &part.row {
        None => None,
        Some(row) => coefficient(!keeps_limits(row), part.first),
    }
}

/// One more argument of a call.
pub fn with_argument(faults: Faults, part: &Numbered) -> Faults
    ensures { result ≡ with_argument faults part.now }
{
    Faults {
        of_constant: either(faults.of_constant, part.of_constant),
        of_parts: either(faults.of_parts, either(own_equation(part), part.broken)),
    }
}
