//! Integer expressions as rows: sums of streams times factors, and a constant.
ghost use Rattle.std.specs.Prelude.{◌≡◌, [], pos, negsuc, ◌+ℤ◌, ◌-ℤ◌, ◌*ℤ◌, map, length, true, not, ◌&&◌, ◌≤◌, ◌+◌, if◌then◌else◌, IsTrue, IsFalse, IfOk, IfNone, IfSome, None, Some, nat_lt, unsigned_abs};
ghost use Rattle.std.specs.List.{list_all};
ghost use Rattle.ag_linear.specs.Values.{is_carried};
ghost use Rattle.ag_linear.specs.Rows.{compared, passes_limits, carried_row, constant_row, hidden_row, is_factor, keeps_row, minus, plus, plus_factors, precedes, stream_row, times, times_factor};
ghost use Rattle.ag_linear.specs.RowOrder.{AreInOrder, AreParts, AreRows, IsHeld, are_carried, count_of, joined_row};

use crate::value::{Factor, difference, product, sum};
use ag_base::OutOfMemory;
use ag_terms::Binary;
use std::alloc::Global;
use std::marker::Model;

// The greatest magnitudes of a row's constant, 2^48, and of its factors, 2^31, and how many terms it has at most.
const GREATEST_CONSTANT: u128 = 281_474_976_710_656;

const GREATEST_FACTOR: u128 = 2_147_483_648;

const MOST_TERMS: usize = 1024;

/// A constant, factors of streams in order and none of them 0, and the factors of hidden streams: what is no sum
/// stands in a row as one of these.
#[derive(Drop)]
pub struct Linear {
    constant: i128,
    factors: Vec<Factor>,
    hidden: Vec<i128>,
}

impl Model for Linear {
    ghost use Rattle.ag_linear.specs.RowOrder.{IsHeld};
    ghost use Rattle.ag_linear.specs.Rows.{Linear as Row};

    ghost Value = { Row };

    ghost view = { λ r. record { constant = r.constant; factors = r.factors.items; hidden = r.hidden.items } };

    ghost invariant = { λ r. IsHeld (record { constant = r.constant; factors = r.factors.items; hidden = r.hidden.items }) };
}

impl Linear {
    /// A constant alone, which takes no memory.
    pub fn constant(alloc: Global, value: i128) -> Linear
        ensures { result ≡ constant_row value }
    {
        Linear {
            constant: value,
            factors: Vec::new(alloc),
            hidden: Vec::new(alloc),
        }
    }

    /// A stream's value of now, or of one instant earlier.
    pub fn stream(alloc: Global, stream: usize, before: bool) -> Result<Linear, OutOfMemory>
        ensures { IfOk result (λ r. r ≡ stream_row stream before) }
    {
        let mut factors = Vec::new(alloc);
        factors.push(Factor {
            stream,
            before,
            factor: 1,
        })?;
        Ok(Linear {
            constant: 0,
            factors,
            hidden: Vec::new(alloc),
        })
    }

    /// A hidden stream.
    pub fn hidden(alloc: Global) -> Result<Linear, OutOfMemory>
        ensures { IfOk result (λ r. r ≡ hidden_row) }
    {
        let mut hidden = Vec::new(alloc);
        hidden.push(1)?;
        Ok(Linear {
            constant: 0,
            factors: Vec::new(alloc),
            hidden,
        })
    }

    /// The factors of streams, in order.
    pub fn factors(&self) -> &[Factor]
        ensures value { result.now ≡ self.now.factors }
        ensures order { AreInOrder self.now.factors }
    {
        self.factors.as_slice()
    }

    /// The constant.
    pub fn offset(&self) -> i128
        ensures { result ≡ self.now.constant }
    {
        self.constant
    }
}

/// A row whose numbers have 128 bits, if there is one, and whether the exact one passes its limits.
#[derive(Drop)]
pub struct Kept {
    pub row: Option<Linear>,
    pub passes: bool,
}

/// The sum of two rows.
pub fn plus(alloc: Global, left: Linear, right: Linear) -> Result<Kept, OutOfMemory>
    ensures row { IfOk result (λ k. k.row ≡ carried_row (Some (plus left right))) }
    ensures passes { IfOk result (λ k. k.passes ≡ not (keeps_row (plus left right))) }
{
    let Some(constant) = sum(left.constant, right.constant) else {
        return Ok(past_128_bits());
    };
    add(alloc, constant, left, right)
}

/// The difference of two rows.
pub fn minus(alloc: Global, left: Linear, right: Linear) -> Result<Kept, OutOfMemory>
    ensures row { IfOk result (λ k. k.row ≡ carried_row (Some (minus left right))) }
    ensures passes { IfOk result (λ k. k.passes ≡ not (keeps_row (minus left right))) }
{
    let Some(constant) = difference(left.constant, right.constant) else {
        return Ok(past_128_bits());
    };
    add(alloc, constant, left, negated(right))
}

/// A row times a constant, which takes no memory.
pub fn times(alloc: Global, by: i128, row: Linear) -> Kept
    ensures row { result.row ≡ carried_row (Some (times by row)) }
    ensures passes { result.passes ≡ not (keeps_row (times by row)) }
{
    if by == 0 {
        return Kept {
            row: Some(Linear::constant(alloc, 0)),
            passes: false,
        };
    }
    let Linear {
        constant,
        mut factors,
        mut hidden,
    } = row;
    let Some(constant) = product(by, constant) else {
        return past_128_bits();
    };
    if !have_128_bits_times(by, factors.as_slice(), hidden.as_slice()) {
        return past_128_bits();
    }
    scale_factors(by, &mut factors);
    scale_hidden(by, &mut hidden);
    keep(constant, factors, hidden)
}

/// Whether the row of a comparison passes its limits.
pub fn comparison_passes(op: Binary, left: &Linear, right: &Linear) -> bool
    ensures { result ≡ passes_limits (compared op left.now right.now) }
{
    match op {
        Binary::Less => passes_less(left, right, true),
        Binary::AtMost | Binary::Same | Binary::Differs => passes_less(left, right, false),
        Binary::More => passes_less(right, left, true),
        Binary::AtLeast => passes_less(right, left, false),
        _ => false,
    }
}

/// Whether a row keeps its limits.
pub fn keeps_limits(row: &Linear) -> bool
    ensures { result ≡ keeps_row row.now }
{
    keeps(row.constant, row.factors.as_slice(), row.hidden.as_slice())
}

// The sum of the factors of two rows, beside this constant.
fn add(alloc: Global, constant: i128, left: Linear, right: Linear) -> Result<Kept, OutOfMemory>
    requires { IsTrue (is_carried constant) }
    ensures row { IfOk result (λ k. k.row ≡ carried_row (Some (joined_row constant left right))) }
    ensures passes { IfOk result (λ k. k.passes ≡ not (keeps_row (joined_row constant left right))) }
{
    let Some(factors) = merged(alloc, left.factors.as_slice(), right.factors.as_slice())? else {
        return Ok(past_128_bits());
    };
    let mut hidden = left.hidden;
    hidden.extend_from_slice(right.hidden.as_slice())?;
    Ok(keep(constant, factors, hidden))
}

// A number of more than 128 bits passes every limit.
fn past_128_bits() -> Kept
    ensures row { result.row ≡ None }
    ensures passes { result.passes ≡ true }
{
    Kept {
        row: None,
        passes: true,
    }
}

// A row from its parts.
fn keep(constant: i128, factors: Vec<Factor>, hidden: Vec<i128>) -> Kept
    requires { IsHeld (record { constant = constant; factors = factors.items; hidden = hidden.items }) }
    ensures row { result.row ≡ Some (record { constant = constant; factors = factors.items; hidden = hidden.items }) }
    ensures passes { result.passes ≡ not (keeps_row (record { constant = constant; factors = factors.items; hidden = hidden.items })) }
{
    let passes = !keeps(constant, factors.as_slice(), hidden.as_slice());
    Kept {
        row: Some(Linear {
            constant,
            factors,
            hidden,
        }),
        passes,
    }
}

fn keeps(constant: i128, factors: &[Factor], hidden: &[i128]) -> bool
    ensures { result ≡ keeps_row (record { constant = constant; factors = factors.now; hidden = hidden.now }) }
{
    constant.unsigned_abs() <= GREATEST_CONSTANT
        && are_small(factors)
        && are_factors(hidden)
        && factors.len() + hidden.len() <= MOST_TERMS
}

fn are_small(factors: &[Factor]) -> bool
    ensures { result ≡ list_all (λ f. is_factor f.factor) factors.now }
{
    factors.iter().all(|f| is_factor(f.factor))
}

fn are_factors(hidden: &[i128]) -> bool
    ensures { result ≡ list_all (λ h. is_factor h) hidden.now }
{
    hidden.iter().all(|h| is_factor(*h))
}

fn is_factor(z: i128) -> bool
    ensures { result ≡ is_factor z }
{
    z.unsigned_abs() <= GREATEST_FACTOR
}

// A row times -1, but for its constant.
fn negated(row: Linear) -> Linear
    ensures factors { result.factors ≡ map (times_factor (negsuc 0)) row.factors }
    ensures hidden { result.hidden ≡ map (λ h. negsuc 0 *ℤ h) row.hidden }
{
    let Linear {
        constant,
        mut factors,
        mut hidden,
    } = row;
    scale_factors(-1, &mut factors);
    scale_hidden(-1, &mut hidden);
    Linear {
        constant,
        factors,
        hidden,
    }
}

// Whether each factor has 128 bits once it is multiplied.
fn have_128_bits_times(by: i128, factors: &[Factor], hidden: &[i128]) -> bool
    ensures { result ≡ (list_all (λ f. is_carried (by *ℤ f.factor)) factors.now && list_all (λ h. is_carried (by *ℤ h)) hidden.now) }
{
    factors_have_128_bits_times(by, factors) && hidden_have_128_bits_times(by, hidden)
}

fn factors_have_128_bits_times(by: i128, factors: &[Factor]) -> bool
    ensures { result ≡ list_all (λ f. is_carried (by *ℤ f.factor)) factors.now }
{
    factors.iter().all(|f| has_128_bits_times(by, f.factor))
}

fn hidden_have_128_bits_times(by: i128, hidden: &[i128]) -> bool
    ensures { result ≡ list_all (λ h. is_carried (by *ℤ h)) hidden.now }
{
    hidden.iter().all(|h| has_128_bits_times(by, *h))
}

fn has_128_bits_times(by: i128, z: i128) -> bool
    ensures { result ≡ is_carried (by *ℤ z) }
{
    product(by, z).is_some()
}

fn scale_factors(by: i128, factors: &mut Vec<Factor>)
    requires { IsTrue (list_all (λ f. is_carried (by *ℤ f.factor)) factors.old.items) }
    ensures { factors.new.items ≡ map (times_factor by) factors.old.items }
{
    for i in 0..factors.len() {
        let scaled = &mut factors[i];
        scaled.factor = exact_product(by, scaled.factor);
    }
}

fn scale_hidden(by: i128, hidden: &mut Vec<i128>)
    requires { IsTrue (list_all (λ h. is_carried (by *ℤ h)) hidden.old.items) }
    ensures { hidden.new.items ≡ map (λ h. by *ℤ h) hidden.old.items }
{
    for i in 0..hidden.len() {
        hidden[i] = exact_product(by, hidden[i]);
    }
}

fn exact_product(by: i128, z: i128) -> i128
    requires { IsTrue (is_carried (by *ℤ z)) }
    ensures { result ≡ by *ℤ z }
{
    by * z
}

// The parts that two rows have in the first factor of their sum or difference, and what is left of both.
#[derive(Clone, Copy)]
struct Parts<'a> {
    stream: usize,
    before: bool,
    left: i128,
    right: i128,
    more: &'a [Factor],
    others: &'a [Factor],
}

fn next_parts<'a>(left: &'a [Factor], right: &'a [Factor]) -> Option<Parts<'a>>
    requires { AreRows left.now right.now }
    ensures none { IfNone result ((left.now ≡ []) × (right.now ≡ [])) }
    ensures parts { IfSome result (λ p. AreParts left.now right.now p.stream p.before p.left p.right p.more.now p.others.now) }
    ensures rows { IfSome result (λ p. AreRows p.more.now p.others.now) }
{
    match (left, right) {
        ([], []) => None,
        ([f, more @ ..], []) => Some(of_left(f, more, right)),
        ([], [g, others @ ..]) => Some(of_right(g, left, others)),
        ([f, more @ ..], [g, others @ ..]) => {
            if precedes(f, g) {
                Some(of_left(f, more, right))
            } else if precedes(g, f) {
                Some(of_right(g, left, others))
            } else {
                Some(Parts {
                    stream: g.stream,
                    before: g.before,
                    left: f.factor,
                    right: g.factor,
                    more,
                    others,
                })
            }
        }
    }
}

fn of_left<'a>(f: &Factor, more: &'a [Factor], others: &'a [Factor]) -> Parts<'a>
    ensures place { (result.stream ≡ f.now.stream) × (result.before ≡ f.now.before) }
    ensures parts { (result.left ≡ f.now.factor) × (result.right ≡ pos 0) }
    ensures rest { (result.more.now ≡ more.now) × (result.others.now ≡ others.now) }
{
    Parts {
        stream: f.stream,
        before: f.before,
        left: f.factor,
        right: 0,
        more,
        others,
    }
}

fn of_right<'a>(g: &Factor, more: &'a [Factor], others: &'a [Factor]) -> Parts<'a>
    ensures place { (result.stream ≡ g.now.stream) × (result.before ≡ g.now.before) }
    ensures parts { (result.left ≡ pos 0) × (result.right ≡ g.now.factor) }
    ensures rest { (result.more.now ≡ more.now) × (result.others.now ≡ others.now) }
{
    Parts {
        stream: g.stream,
        before: g.before,
        left: 0,
        right: g.factor,
        more,
        others,
    }
}

fn precedes(f: &Factor, g: &Factor) -> bool
    ensures { result ≡ precedes f.now g.now }
{
    f.stream < g.stream || f.stream == g.stream && !f.before && g.before
}

// The factors of a sum, in order, if each has 128 bits.
fn merged(
    alloc: Global,
    left: &[Factor],
    right: &[Factor],
) -> Result<Option<Vec<Factor>>, OutOfMemory>
    requires { AreRows left.now right.now }
    ensures some { IfOk result (λ o. IfSome o (λ v. (v.items ≡ plus_factors left.now right.now) × IsTrue (are_carried (plus_factors left.now right.now)))) }
    ensures none { IfOk result (λ o. IfNone o (IsFalse (are_carried (plus_factors left.now right.now)))) }
{
    let mut factors = Vec::new(alloc);
    let mut left = left;
    let mut right = right;
    while let Some(next) = next_parts(left, right) {
        let Some(factor) = sum(next.left, next.right) else {
            return Ok(None);
        };
        if factor != 0 {
            factors.push(Factor {
                stream: next.stream,
                before: next.before,
                factor,
            })?;
        }
        left = next.more;
        right = next.others;
    }
    Ok(Some(factors))
}

// How many factors a difference has, if each keeps the limit.
fn count_of_difference(left: &[Factor], right: &[Factor]) -> Option<usize>
    requires { AreRows left.now right.now }
    ensures count { result ≡ count_of (plus_factors left.now (map (times_factor (negsuc 0)) right.now)) }
    ensures bound { IfSome result (λ n. n ≤ length left.now + length right.now) }
{
    let mut count = 0;
    let mut left = left;
    let mut right = right;
    while let Some(next) = next_parts(left, right) {
        let Some(factor) = difference(next.left, next.right) else {
            return None;
        };
        if !is_factor(factor) {
            return None;
        }
        if factor != 0 {
            count += 1;
        }
        left = next.more;
        right = next.others;
    }
    Some(count)
}

// Whether a difference, and 1 more where the comparison is strict, passes the limits of rows.
fn passes_less(left: &Linear, right: &Linear, strict: bool) -> bool
    ensures { result ≡ not (keeps_row (if strict then plus (minus left.now right.now) (constant_row (pos 1)) else minus left.now right.now)) }
{
    let keeps = rest_keeps(left, right, strict);
    let hidden = left.hidden.as_slice().len() + right.hidden.as_slice().len();
    match count_of_difference(left.factors.as_slice(), right.factors.as_slice()) {
        Some(count) if keeps => count + hidden > MOST_TERMS,
        _ => true,
    }
}

// Whether all but the factors that are declared keep the limits.
fn rest_keeps(left: &Linear, right: &Linear, strict: bool) -> bool
    ensures { result ≡ (not (nat_lt 281474976710656 (unsigned_abs (left.now.constant -ℤ right.now.constant +ℤ pos (if strict then 1 else 0)))) && (list_all is_factor left.now.hidden && list_all is_factor right.now.hidden)) }
{
    is_small_difference(left.constant, right.constant, strict)
        && are_factors(left.hidden.as_slice())
        && are_factors(right.hidden.as_slice())
}

fn is_small_difference(a: i128, b: i128, strict: bool) -> bool
    ensures { result ≡ not (nat_lt 281474976710656 (unsigned_abs (a -ℤ b +ℤ pos (if strict then 1 else 0)))) }
{
    let Some(difference) = difference(a, b) else {
        return false;
    };
    match sum(difference, gap(strict)) {
        None => false,
        Some(z) => z.unsigned_abs() <= GREATEST_CONSTANT,
    }
}

// By how much the left side of a comparison is below the right one at least.
fn gap(strict: bool) -> i128
    ensures { result ≡ pos (if strict then 1 else 0) }
{
    if strict { 1 } else { 0 }
}
