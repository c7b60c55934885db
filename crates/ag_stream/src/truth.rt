//! What the parts of a plain problem say where its Boolean streams have given values.
ghost use Rattle.std.specs.Prelude.{◌≡◌, ◌<◌, ◌↔◌, IsTrue, All, length, Some, true, slice_get};
ghost use Rattle.ag_stream.specs.Work.{IsPlainForm, IsPartAt, IsAt, holds_in, alone};
ghost use Rattle.ag_stream.specs.Runs.{KeepsEquations, AllHold};

use crate::problem::{Equation, Part, ProblemDraft};

/// The part of that number.
pub fn part_at(draft: &ProblemDraft, part: u16) -> &Part
    requires form { IsPlainForm draft.now }
    requires part { part < length draft.now.parts }
    ensures { IsPartAt draft.now part result.now }
{
    &draft.parts.as_slice()[part as usize]
}

/// Whether the part holds.
pub fn truth(draft: &ProblemDraft, flags: &[bool], part: u16) -> bool
    requires form { IsPlainForm draft.now }
    requires size { length flags.now ≡ draft.now.flags }
    requires part { part < length draft.now.parts }
    ensures { result ≡ holds_in draft.now flags.now part }
{
    match part_at(draft, part) {
        Part::Truth(value) => *value,
        Part::Flag { stream, .. } => flags[*stream as usize],
        Part::Compare(row) => row.constant <= 0,
        Part::Not(a) => !truth(draft, flags, *a),
        Part::And(a, b) => truth(draft, flags, *a) && truth(draft, flags, *b),
        Part::Or(a, b) => truth(draft, flags, *a) || truth(draft, flags, *b),
        Part::Same(a, b) => truth(draft, flags, *a) == truth(draft, flags, *b),
        Part::Choice(test, one, other) => {
            if truth(draft, flags, *test) {
                truth(draft, flags, *one)
            } else {
                truth(draft, flags, *other)
            }
        }
        Part::Arrow(..) => unreachable!(),
    }
}

/// The stream and the part of an equation.
pub fn flag_equation(draft: &ProblemDraft, k: usize) -> (u16, u16)
    requires form { IsPlainForm draft.now }
    requires within { k < length draft.now.equations }
    ensures is { IsAt draft.now k result.0 result.1 }
    ensures stream { result.0 < draft.now.flags }
    ensures part { result.1 < length draft.now.parts }
{
    match &draft.equations.as_slice()[k] {
        Equation::Flag { stream, part } => (*stream, *part),
        _ => unreachable!(),
    }
}

/// Whether each stream that has an equation is what its part says.
pub fn keeps_equations(draft: &ProblemDraft, flags: &[bool]) -> bool
    requires form { IsPlainForm draft.now }
    requires size { length flags.now ≡ draft.now.flags }
    ensures { IsTrue result ↔ KeepsEquations draft.now (alone flags.now) }
{
    for k in 0..draft.equations.len() {
        let (stream, part) = flag_equation(draft, k);
        if flags[stream as usize] != truth(draft, flags, part) {
            return false;
        }
    }
    true
}

/// Whether all these parts hold.
pub fn all_hold(draft: &ProblemDraft, flags: &[bool], parts: &[u16]) -> bool
    requires form { IsPlainForm draft.now }
    requires size { length flags.now ≡ draft.now.flags }
    requires within { All (λ p. p < length draft.now.parts) parts.now }
    ensures { IsTrue result ↔ AllHold draft.now parts.now (alone flags.now) }
{
    for part in parts {
        if !truth(draft, flags, *part) {
            return false;
        }
    }
    true
}
