//! What ends with an operand: operators before it, operators that bind tighter, and choices.
ghost use Rattle.std.specs.Prelude.{◌≡◌, IfOk};
ghost use Rattle.ag_terms.specs.declared.terms.Term.TheViews as term;
ghost use Rattle.ag_annex.specs.Expressions.{ends_before, close_before, close_all};

use crate::frames::Frame;
use crate::operators::{COMPARISON, LAST_RIGHT, rank};
use crate::stack::Stack;
use ag_base::{OutOfMemory, Place};
use ag_terms::{Binary, Term, Unary};
use sqlite_items::Boxed;
use std::alloc::Global;

// An operand on the heap.
fn boxed(alloc: Global, operand: Term) -> Result<Boxed<Term>, OutOfMemory>
    ensures { IfOk result (λ b. b ≡ operand) }
{
    match Boxed::new(alloc, operand) {
        Ok(operand) => Ok(operand),
        Err(_) => Err(OutOfMemory),
    }
}

/// An operator before its one operand.
pub fn unary(alloc: Global, op: Unary, place: Place, arg: Term) -> Result<Term, OutOfMemory>
    ensures { IfOk result (λ t. t ≡ term.Unary op place arg) }
{
    let arg = boxed(alloc, arg)?;
    Ok(Term::Unary { op, place, arg })
}

/// An operator between its two operands.
pub fn binary(
    alloc: Global,
    op: Binary,
    place: Place,
    left: Term,
    right: Term,
) -> Result<Term, OutOfMemory>
    ensures { IfOk result (λ t. t ≡ term.Binary op place left right) }
{
    let left = boxed(alloc, left)?;
    let right = boxed(alloc, right)?;
    Ok(Term::Binary {
        op,
        place,
        left,
        right,
    })
}

// An `if` of which the last operand isn't on the heap yet.
fn last_boxed(
    alloc: Global,
    place: Place,
    test: Boxed<Term>,
    yes: Boxed<Term>,
    no: Term,
) -> Result<Term, OutOfMemory>
    ensures { IfOk result (λ t. t ≡ term.Choice place test yes no) }
{
    let no = boxed(alloc, no)?;
    Ok(Term::Choice {
        place,
        test,
        yes,
        no,
    })
}

// An `if` of which the first operand alone is on the heap.
fn rest_boxed(
    alloc: Global,
    place: Place,
    test: Boxed<Term>,
    yes: Term,
    no: Term,
) -> Result<Term, OutOfMemory>
    ensures { IfOk result (λ t. t ≡ term.Choice place test yes no) }
{
    let yes = boxed(alloc, yes)?;
    last_boxed(alloc, place, test, yes, no)
}

// An `if` with its three operands.
fn choice(alloc: Global, place: Place, test: Term, yes: Term, no: Term) -> Result<Term, OutOfMemory>
    ensures { IfOk result (λ t. t ≡ term.Choice place test yes no) }
{
    let test = boxed(alloc, test)?;
    rest_boxed(alloc, place, test, yes, no)
}

/// All that ends with `last` as its last operand, before a `)`, a `,`, a `then`, an `else`, or the expression's end.
pub fn close_all(alloc: Global, frames: &mut Stack<Frame>, last: Term) -> Result<Term, OutOfMemory>
    ensures { IfOk result (λ t. (frames.new, t) ≡ close_all frames.old last) }
{
    let mut closed = last;
    while let Some(frame) = frames.pop() {
        match frame {
            Frame::Prefix { op, place } => {
                closed = unary(alloc, op, place, closed)?;
            }
            Frame::Infix { op, place, left } => {
                closed = binary(alloc, op, place, left, closed)?;
            }
            Frame::No { place, test, yes } => {
                closed = choice(alloc, place, test, yes, closed)?;
            }
            other => {
                frames.push(other)?;
                return Ok(closed);
            }
        }
    }
    Ok(closed)
}

// Whether an operator with its right operand whole ends before an operator of this rank.
fn ends_before(op: Binary, next: u8) -> bool
    ensures { result ≡ ends_before op next }
{
    next < rank(op) || (rank(op) == next && LAST_RIGHT < next)
}

/// What ends before an operator of this rank, with `last` as its last operand.
pub fn close_before(
    alloc: Global,
    next: u8,
    frames: &mut Stack<Frame>,
    last: Term,
) -> Result<Term, OutOfMemory>
    ensures { IfOk result (λ t. (frames.new, t) ≡ close_before next frames.old last) }
{
    let mut closed = last;
    // A second comparison ends the operand behind the innermost `else`.
    let mut choosing = false;
    while let Some(frame) = frames.pop() {
        match frame {
            Frame::Prefix { op, place } => {
                closed = unary(alloc, op, place, closed)?;
            }
            Frame::Infix { op, place, left } if choosing || ends_before(op, next) => {
                choosing = choosing || (next == COMPARISON && rank(op) == COMPARISON);
                closed = binary(alloc, op, place, left, closed)?;
            }
            Frame::No { place, test, yes } if choosing => {
                choosing = false;
                closed = choice(alloc, place, test, yes, closed)?;
            }
            other => {
                frames.push(other)?;
                return Ok(closed);
            }
        }
    }
    Ok(closed)
}
