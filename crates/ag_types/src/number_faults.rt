//! The rules on numbers that an operator breaks with its operands.
ghost use Rattle.std.specs.Prelude.{◌≡◌};
ghost use Rattle.ag_types.specs.NumberFaults.{divides, is_bad_divisor};
ghost use Rattle.ag_types.specs.Numbered.{pre_of, product_of, divisor_of, compared_of, operands_of};
ghost use Rattle.ag_types.specs.Places.{first_broken};

use crate::numbered::{Numbered, coefficient, own_equation};
use crate::places::either;
use ag_base::{Place, Refusal, Rule};
use ag_linear::{Value, comparison_passes};
use ag_terms::{Binary, Unary};

/// The operand of a `pre` has an equation of its own.
pub fn pre_of(op: Unary, arg: &Numbered) -> Option<Refusal>
    ensures { result ≡ first_broken (pre_of op arg.now) }
{
    match op {
        Unary::Pre => own_equation(arg),
        _ => None,
    }
}

/// A product of two factors that aren't constant.
pub fn product_of(op: Binary, place: Place, left: &Numbered, right: &Numbered) -> Option<Refusal>
    ensures { result ≡ first_broken (product_of op place left.now right.now) }
{
    if op == Binary::Times && left.varies && right.varies {
        Some(Refusal {
            place,
            rule: Rule::NotLinear,
        })
    } else {
        None
    }
}

/// A divisor that isn't constant, or is 0.
pub fn divisor_of(op: Binary, divisor: &Numbered) -> Option<Refusal>
    ensures { result ≡ first_broken (divisor_of op divisor.now) }
{
    if divides(op) && is_bad_divisor(divisor.varies, divisor.value) {
        Some(Refusal {
            place: divisor.first,
            rule: Rule::BadDivisor,
        })
    } else {
        None
    }
}

fn divides(op: Binary) -> bool
    ensures { result ≡ divides op }
{
    match op {
        Binary::Div | Binary::Mod => true,
        _ => false,
    }
}

/// A comparison whose difference passes the limits.
pub fn compared_of(op: Binary, left: &Numbered, right: &Numbered) -> Option<Refusal>
    ensures { result ≡ first_broken (compared_of op left.now right.now) }
{
    match (&left.row, &right.row) {
        (Some(a), Some(b)) => coefficient(comparison_passes(op, a, b), left.first),
        _ => None,
    }
}

/// Operands that have an equation of their own: of an arrow both, of a division the first.
pub fn operands_of(op: Binary, left: &Numbered, right: &Numbered) -> Option<Refusal>
    ensures { result ≡ first_broken (operands_of op left.now right.now) }
{
    match op {
        Binary::Arrow => either(own_equation(left), own_equation(right)),
        Binary::Div | Binary::Mod => own_equation(left),
        _ => None,
    }
}

// Whether a divisor isn't constant, or is 0.
fn is_bad_divisor(varies: bool, value: Option<Value>) -> bool
    ensures { result ≡ is_bad_divisor varies value }
{
    varies || matches!(value, Some(Value::Whole(0)))
}
