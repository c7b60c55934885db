//! The order in which the equations of a plain problem can be settled, and the first stream that
//! depends on itself where there is none.
ghost use Rattle.std.specs.Prelude.{◌≡◌, ◌+◌, ◌<◌, ◌↔◌, IsTrue, IfOk, OnOk, MatchBool, MatchOption, All, length, slice_index_or, false, ℕ};
ghost use Rattle.ag_stream.specs.Work.{IsPlainForm, IsAt, IsMarked, NamesMarked, IsOwned, IsOrder, IsArranging, IsStuck, waiting};
ghost use Rattle.ag_stream.specs.Plans.{IsPlanOf};
ghost use Rattle.ag_stream.specs.Spreading.{IsSpreading, SpreadsAs};
ghost use Rattle.ag_stream.specs.Dependence.{PartNames, DependsOn, Leads, IsFirstOnCycle};

use crate::problem::{Part, ProblemDraft};
use crate::truth::{flag_equation, part_at};
use ag_base::OutOfMemory;
use std::alloc::Global;

/// What a pass over the equations came to.
#[derive(Clone, Copy)]
pub enum Spread {
    Met,
    Moved,
    Rest,
}

/// Either the equations' numbers in an order of dependence, or the first stream on a cycle.
#[derive(Drop)]
pub enum Plan {
    Order(Vec<usize>),
    Cycle(u16),
}

/// A stream with a mark that the part names.
pub fn marked(draft: &ProblemDraft, marks: &[bool], part: u16) -> Option<u16>
    requires form { IsPlainForm draft.now }
    requires size { length marks.now ≡ draft.now.flags }
    requires part { part < length draft.now.parts }
    ensures { MatchOption result (NamesMarked draft.now marks.now part → ⊥) (λ s. IsMarked marks.now s × PartNames draft.now (draft.now.ints + s) part) }
{
    match part_at(draft, part) {
        Part::Truth(_) | Part::Compare(_) => None,
        Part::Flag { stream, .. } => {
            if marks[*stream as usize] {
                Some(*stream)
            } else {
                None
            }
        }
        Part::Not(a) => marked(draft, marks, *a),
        Part::And(a, b) | Part::Or(a, b) | Part::Same(a, b) => match marked(draft, marks, *a) {
            Some(stream) => Some(stream),
            None => marked(draft, marks, *b),
        },
        Part::Choice(test, one, other) => match marked(draft, marks, *test) {
            Some(stream) => Some(stream),
            None => match marked(draft, marks, *one) {
                Some(stream) => Some(stream),
                None => marked(draft, marks, *other),
            },
        },
        Part::Arrow(..) => unreachable!(),
    }
}

/// Whether the part names a stream with a mark.
fn names_marked(draft: &ProblemDraft, marks: &[bool], part: u16) -> bool
    requires form { IsPlainForm draft.now }
    requires size { length marks.now ≡ draft.now.flags }
    requires part { part < length draft.now.parts }
    ensures { IsTrue result ↔ NamesMarked draft.now marks.now part }
{
    marked(draft, marks, part).is_some()
}

/// Whether each stream with an equation waits for it: at the start all of them do.
pub fn all_waiting(alloc: Global, draft: &ProblemDraft) -> Result<Vec<bool>, OutOfMemory>
    requires form { IsPlainForm draft.now }
    ensures size { IfOk result (λ waits. length waits.items ≡ draft.now.flags) }
    ensures each { IfOk result (λ waits. (k s p : ℕ) → IsAt draft.now k s p → IsMarked waits.items s) }
    ensures owned { IfOk result (λ waits. (s : ℕ) → IsMarked waits.items s → IsOwned draft.now s) }
{
    let mut waits = vec![in alloc; false; draft.flags as usize]?;
    for k in 0..draft.equations.len() {
        let (stream, _) = flag_equation(draft, k);
        waits[stream as usize] = true;
    }
    Ok(waits)
}

/// Goes once over the equations, and places each that names no stream that waits. Whether it
/// placed one.
fn place_ready(
    draft: &ProblemDraft,
    order: &mut Vec<usize>,
    waits: &mut Vec<bool>,
) -> Result<bool, OutOfMemory>
    requires form { IsPlainForm draft.now }
    requires arranging { IsArranging draft.now order.old.items waits.old.items }
    ensures arranging { OnOk result (IsArranging draft.now order.new.items waits.new.items) }
    ensures moved { IfOk result (λ moved. MatchBool moved (waiting waits.new.items < waiting waits.old.items) (IsStuck draft.now waits.new.items)) }
{
    let mut moved = false;
    for k in 0..draft.equations.len() {
        let (stream, part) = flag_equation(draft, k);
        if waits[stream as usize] && !names_marked(draft, waits, part) {
            order.push(k)?;
            waits[stream as usize] = false;
            moved = true;
        }
    }
    Ok(moved)
}

/// Places equations until no other can be. What waits then is all that is in the way.
pub fn arrange(alloc: Global, draft: &ProblemDraft) -> Result<(Vec<usize>, Vec<bool>), OutOfMemory>
    requires form { IsPlainForm draft.now }
    ensures arranging { IfOk result (λ made. IsArranging draft.now made.0.items made.1.items) }
    ensures stuck { IfOk result (λ made. IsStuck draft.now made.1.items) }
{
    let mut order = Vec::new(alloc);
    let mut waits = all_waiting(alloc, draft)?;
    while place_ready(draft, &mut order, &mut waits)? {}
    Ok((order, waits))
}

/// A stream that waits, on which one that waits depends.
fn next_waiting(draft: &ProblemDraft, waits: &[bool], stream: u16) -> u16
    requires form { IsPlainForm draft.now }
    requires size { length waits.now ≡ draft.now.flags }
    requires stuck { IsStuck draft.now waits.now }
    requires owned { IsOwned draft.now stream }
    requires waits { IsMarked waits.now stream }
    ensures waits { IsMarked waits.now result }
    ensures depends { DependsOn draft.now (draft.now.ints + stream) (draft.now.ints + result) }
{
    for k in 0..draft.equations.len() {
        let (target, part) = flag_equation(draft, k);
        if target == stream {
            if let Some(next) = marked(draft, waits, part) {
                return next;
            }
        }
    }
    unreachable!()
}

/// A stream that depends on itself, where one waits and all that wait name one that waits.
pub fn on_cycle(
    alloc: Global,
    draft: &ProblemDraft,
    waits: &[bool],
    from: u16,
) -> Result<u16, OutOfMemory>
    requires form { IsPlainForm draft.now }
    requires size { length waits.now ≡ draft.now.flags }
    requires stuck { IsStuck draft.now waits.now }
    requires owned { (s : ℕ) → IsMarked waits.now s → IsOwned draft.now s }
    requires waits { IsMarked waits.now from }
    ensures below { IfOk result (λ s. s < draft.now.flags) }
    ensures itself { IfOk result (λ s. Leads draft.now (draft.now.ints + s) (draft.now.ints + s)) }
{
    let mut seen = vec![in alloc; false; draft.flags as usize]?;
    let mut stream = from;
    while !seen[stream as usize] {
        seen[stream as usize] = true;
        stream = next_waiting(draft, waits, stream);
    }
    Ok(stream)
}

/// Goes once over the equations, and marks each stream whose part names one with a mark. What
/// came of it: a mark that `stream` itself was to get, marks that were added, or none.
fn mark_dependents(draft: &ProblemDraft, marks: &mut [bool], stream: u16) -> Spread
    requires form { IsPlainForm draft.now }
    requires spreading { IsSpreading draft.now stream marks.old }
    ensures spreading { IsSpreading draft.now stream marks.new }
    ensures spread { SpreadsAs draft.now stream marks.old marks.new result }
{
    let mut came = Spread::Rest;
    for k in 0..draft.equations.len() {
        let (target, part) = flag_equation(draft, k);
        if names_marked(draft, marks, part) {
            if target == stream {
                return Spread::Met;
            }
            if !marks[target as usize] {
                marks[target as usize] = true;
                came = Spread::Moved;
            }
        }
    }
    came
}

/// Whether the stream depends on itself.
pub fn depends_on_itself(
    alloc: Global,
    draft: &ProblemDraft,
    stream: u16,
) -> Result<bool, OutOfMemory>
    requires form { IsPlainForm draft.now }
    requires stream { stream < draft.now.flags }
    ensures { IfOk result (λ yes. IsTrue yes ↔ Leads draft.now (draft.now.ints + stream) (draft.now.ints + stream)) }
{
    let mut marks = vec![in alloc; false; draft.flags as usize]?;
    marks[stream as usize] = true;
    loop {
        match mark_dependents(draft, &mut marks, stream) {
            Spread::Met => return Ok(true),
            Spread::Rest => return Ok(false),
            Spread::Moved => {}
        }
    }
}

/// The first stream that depends on itself, where one is known that does.
pub fn first_on_cycle(alloc: Global, draft: &ProblemDraft, known: u16) -> Result<u16, OutOfMemory>
    requires form { IsPlainForm draft.now }
    requires known { known < draft.now.flags }
    requires itself { Leads draft.now (draft.now.ints + known) (draft.now.ints + known) }
    ensures { IfOk result (λ s. (s < draft.now.flags) × IsFirstOnCycle draft.now (draft.now.ints + s)) }
{
    for stream in 0..known {
        if depends_on_itself(alloc, draft, stream)? {
            return Ok(stream);
        }
    }
    Ok(known)
}

/// The first stream that waits.
fn first_waiting(waits: &[bool], flags: u16) -> Option<u16>
    requires size { length waits.now ≡ flags }
    ensures { MatchOption result ((s : ℕ) → IsMarked waits.now s → ⊥) (IsMarked waits.now) }
{
    for stream in 0..flags {
        if waits[stream as usize] {
            return Some(stream);
        }
    }
    None
}

/// Puts the equations into an order of dependence, or finds the first stream on a cycle.
pub fn plan_of(alloc: Global, draft: &ProblemDraft) -> Result<Plan, OutOfMemory>
    requires form { IsPlainForm draft.now }
    ensures { IfOk result (IsPlanOf draft.now) }
{
    let (order, waits) = arrange(alloc, draft)?;
    match first_waiting(&waits, draft.flags) {
        None => Ok(Plan::Order(order)),
        Some(from) => {
            let known = on_cycle(alloc, draft, &waits, from)?;
            Ok(Plan::Cycle(first_on_cycle(alloc, draft, known)?))
        }
    }
}
