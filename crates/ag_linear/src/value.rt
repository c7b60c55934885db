//! Values of constants, and the parts of rows.
ghost use Rattle.std.specs.Prelude.{◌≡◌, ◌≢◌, ◌+ℤ◌, ◌-ℤ◌, ◌*ℤ◌, pos, true, false, not, IsTrue, None, Some};
ghost use Rattle.std.specs.Int.{int_div_euclid, int_rem_euclid};
ghost use Rattle.std.specs.Option.{SomeIff};
ghost use Rattle.ag_linear.specs.Values.{is_carried, is_within, carried, value_of_unary, value_of_binary, value_of_wholes, value_of_truths, value_of_choice, passes_limit};
ghost use Rattle.ag_linear.specs.declared.value.Value.TheVariants.{Whole, Truth};

use ag_terms::{Binary, Unary};

/// The value of a constant expression.
#[derive(Clone, Copy)]
pub enum Value {
    Whole(i128),
    Truth(bool),
}

/// A stream times a factor. The stream is a number that the caller gives; `before` asks for its value of one
/// instant earlier.
#[derive(Clone, Copy)]
pub struct Factor {
    pub stream: usize,
    pub before: bool,
    pub factor: i128,
}

// The greatest magnitude of a constant, 2^62.
const GREATEST_VALUE: u128 = 4_611_686_018_427_387_904;

/// A value of 128 bits, if there is one, and whether the exact one passes the limit of constants.
#[derive(Clone, Copy)]
pub struct Valued {
    pub value: Option<Value>,
    pub passes: bool,
}

/// The value of a literal.
pub fn literal_value(value: i64) -> Valued
    ensures value { result.value ≡ carried (Some (Whole value)) }
    ensures passes { result.passes ≡ passes_limit (Some (Whole value)) }
{
    whole(Some(i128::from(value)))
}

/// Whether a value passes the limit of constants.
pub fn passes_limit(value: Option<Value>) -> bool
    ensures { result ≡ passes_limit value }
{
    match value {
        Some(Value::Whole(z)) => z.unsigned_abs() > GREATEST_VALUE,
        _ => false,
    }
}

/// The value of an operator before an operand that has this value.
pub fn unary_value(op: Unary, arg: Option<Value>) -> Valued
    ensures value { result.value ≡ carried (value_of_unary op arg) }
    ensures passes { result.passes ≡ passes_limit (value_of_unary op arg) }
{
    match (op, arg) {
        (Unary::Minus, Some(Value::Whole(z))) => whole(difference(0, z)),
        (Unary::Not, Some(Value::Truth(b))) => truth(!b),
        _ => none(),
    }
}

/// The value of an operator between operands that have these values. There is none where an operand has none or
/// one of the wrong kind, and for a divisor of 0.
pub fn binary_value(op: Binary, left: Option<Value>, right: Option<Value>) -> Valued
    ensures value { result.value ≡ carried (value_of_binary op left right) }
    ensures passes { result.passes ≡ passes_limit (value_of_binary op left right) }
{
    match (left, right) {
        (Some(Value::Whole(a)), Some(Value::Whole(b))) => of_wholes(op, a, b),
        (Some(Value::Truth(a)), Some(Value::Truth(b))) => of_truths(op, a, b),
        _ => none(),
    }
}

/// The value of a choice, whose test and branches have these values.
pub fn choice_value(test: Option<Value>, yes: Option<Value>, no: Option<Value>) -> Option<Value>
    ensures { result ≡ value_of_choice test yes no }
{
    match test {
        Some(Value::Truth(true)) => yes,
        Some(Value::Truth(false)) => no,
        _ => None,
    }
}

fn of_wholes(op: Binary, a: i128, b: i128) -> Valued
    ensures value { result.value ≡ carried (value_of_wholes op a b) }
    ensures passes { result.passes ≡ passes_limit (value_of_wholes op a b) }
{
    match op {
        Binary::Plus => whole(sum(a, b)),
        Binary::Minus => whole(difference(a, b)),
        Binary::Times => whole(product(a, b)),
        Binary::Div if b != 0 => whole(quotient(a, b)),
        Binary::Mod if b != 0 => whole(remainder(a, b)),
        Binary::Less => truth(a < b),
        Binary::AtMost => truth(a <= b),
        Binary::More => truth(a > b),
        Binary::AtLeast => truth(a >= b),
        Binary::Same => truth(a == b),
        Binary::Differs => truth(a != b),
        _ => none(),
    }
}

fn of_truths(op: Binary, a: bool, b: bool) -> Valued
    ensures value { result.value ≡ carried (value_of_truths op a b) }
    ensures passes { result.passes ≡ passes_limit (value_of_truths op a b) }
{
    match op {
        Binary::Implies => truth(!a || b),
        Binary::Iff | Binary::Same => truth(a == b),
        Binary::Or => truth(a || b),
        Binary::And => truth(a && b),
        Binary::Differs => truth(a != b),
        _ => none(),
    }
}

/// A sum that has 128 bits.
pub(crate) fn sum(a: i128, b: i128) -> Option<i128>
    ensures { SomeIff result (IsTrue (is_carried (a +ℤ b))) (a +ℤ b) }
{
    match a.checked_add(b) {
        None => None,
        Some(z) => of_128_bits(z),
    }
}

/// A difference that has 128 bits.
pub(crate) fn difference(a: i128, b: i128) -> Option<i128>
    ensures { SomeIff result (IsTrue (is_carried (a -ℤ b))) (a -ℤ b) }
{
    match a.checked_sub(b) {
        None => None,
        Some(z) => of_128_bits(z),
    }
}

/// A product that has 128 bits.
pub(crate) fn product(a: i128, b: i128) -> Option<i128>
    ensures { SomeIff result (IsTrue (is_carried (a *ℤ b))) (a *ℤ b) }
{
    match a.checked_mul(b) {
        None => None,
        Some(z) => of_128_bits(z),
    }
}

fn quotient(a: i128, b: i128) -> Option<i128>
    requires { b ≢ pos 0 }
    ensures { SomeIff result (IsTrue (is_carried (int_div_euclid a b))) (int_div_euclid a b) }
{
    if b == -1 {
        return difference(0, a);
    }
    of_128_bits(a.div_euclid(b))
}

fn remainder(a: i128, b: i128) -> Option<i128>
    requires { b ≢ pos 0 }
    ensures { SomeIff result (IsTrue (is_carried (int_rem_euclid a b))) (int_rem_euclid a b) }
{
    if b == -1 {
        return Some(0);
    }
    of_128_bits(a.rem_euclid(b))
}

// -2^127 isn't counted, so that with a number its opposite has 128 bits too.
fn of_128_bits(z: i128) -> Option<i128>
    ensures { SomeIff result (IsTrue (is_carried z)) z }
{
    if z == i128::MIN { None } else { Some(z) }
}

fn whole(exact: Option<i128>) -> Valued
    ensures value { result.value ≡ elim exact [ None ↦ None | Some z ↦ Some (Whole z) ] }
    ensures passes { result.passes ≡ elim exact [ None ↦ true | Some z ↦ not (is_within z) ] }
{
    match exact {
        None => Valued {
            value: None,
            passes: true,
        },
        Some(z) => Valued {
            value: Some(Value::Whole(z)),
            passes: z.unsigned_abs() > GREATEST_VALUE,
        },
    }
}

fn truth(b: bool) -> Valued
    ensures value { result.value ≡ Some (Truth b) }
    ensures passes { result.passes ≡ false }
{
    Valued {
        value: Some(Value::Truth(b)),
        passes: false,
    }
}

fn none() -> Valued
    ensures value { result.value ≡ None }
    ensures passes { result.passes ≡ false }
{
    Valued {
        value: None,
        passes: false,
    }
}
