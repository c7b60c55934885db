//! What begins, goes on and ends at brackets, at `pre`, `prev` and calls, and at the words of an `if`.
ghost use Rattle.std.specs.Prelude.{◌≡◌, ◌∷◌, IfOk};
ghost use Rattle.ag_annex.specs.declared.frames.Operand.{Operand};
ghost use Rattle.ag_annex.specs.declared.frames.Operand.TheVariants.{Nothing, Whole};
ghost use Rattle.ag_annex.specs.Expressions.{is_nothing, with_last, behind_close, behind_comma, behind_test, behind_yes, called, behind_name};

use crate::closing::{binary, unary};
use crate::frames::{Frame, Operand, Reading};
use crate::stack::Stack;
use ag_aadl::path_of;
use ag_base::OutOfMemory;
use ag_terms::{Binary, Path, Term, Unary};
use sqlite_items::Items;
use std::alloc::Global;

/// Behind a token that waits for an operand.
pub fn waiting(frames: Stack<Frame>, frame: Frame) -> Result<Reading, OutOfMemory>
    ensures { IfOk result (λ r. r ≡ record { frames = frame ∷ frames; operand = Nothing }) }
{
    let mut frames = frames;
    frames.push(frame)?;
    Ok(Reading {
        frames,
        operand: Operand::Nothing,
    })
}

/// Behind the end of an operand.
pub fn whole(frames: Stack<Frame>, term: Term) -> Reading
    ensures { result ≡ record { frames = frames; operand = Whole term } }
{
    Reading {
        frames,
        operand: Operand::Whole(term),
    }
}

// Behind a token with which nothing begins to wait.
fn idle(frames: Stack<Frame>) -> Reading
    ensures { result ≡ record { frames = frames; operand = Nothing } }
{
    Reading {
        frames,
        operand: Operand::Nothing,
    }
}

// The arguments of a call with the last one, if there is one.
fn with_last(args: Items<Term>, is_empty: bool, last: Term) -> Result<Items<Term>, OutOfMemory>
    ensures { (o : Operand) → is_nothing o ≡ is_empty → IfOk result (λ all. all ≡ with_last args o last) }
{
    if is_empty {
        return Ok(args);
    }
    let mut args = args;
    match args.push(last) {
        Ok(()) => Ok(args),
        Err(_) => Err(OutOfMemory),
    }
}

/// Behind a `)`: `last` is the last operand in the bracket, if there was one.
pub fn behind_close(
    alloc: Global,
    is_empty: bool,
    frames: Stack<Frame>,
    last: Term,
) -> Result<Reading, OutOfMemory>
    ensures { (o : Operand) → is_nothing o ≡ is_empty → IfOk result (λ r. r ≡ behind_close o (frames, last)) }
{
    let mut frames = frames;
    let Some(frame) = frames.pop() else {
        return Ok(whole(frames, last));
    };
    match frame {
        Frame::Group => Ok(whole(frames, last)),
        Frame::Pre { place } => {
            let term = unary(alloc, Unary::Pre, place, last)?;
            Ok(whole(frames, term))
        }
        Frame::Start { place, arg } => {
            let before = unary(alloc, Unary::Pre, place, arg)?;
            let term = binary(alloc, Binary::Arrow, place, last, before)?;
            Ok(whole(frames, term))
        }
        Frame::Call { path, args } => {
            let args = with_last(args, is_empty, last)?;
            Ok(whole(frames, Term::Call { path, args }))
        }
        other => {
            frames.push(other)?;
            Ok(whole(frames, last))
        }
    }
}

/// Behind a `,`: `last` is the operand before it.
pub fn behind_comma(frames: Stack<Frame>, last: Term) -> Result<Reading, OutOfMemory>
    ensures { IfOk result (λ r. r ≡ behind_comma (frames, last)) }
{
    let mut frames = frames;
    let Some(frame) = frames.pop() else {
        return Ok(idle(frames));
    };
    match frame {
        Frame::Prev { place } => waiting(frames, Frame::Start { place, arg: last }),
        Frame::Call { path, mut args } => match args.push(last) {
            Ok(()) => waiting(frames, Frame::Call { path, args }),
            Err(_) => Err(OutOfMemory),
        },
        other => waiting(frames, other),
    }
}

/// Behind a `then`: `last` is what is tested.
pub fn behind_test(frames: Stack<Frame>, last: Term) -> Result<Reading, OutOfMemory>
    ensures { IfOk result (λ r. r ≡ behind_test (frames, last)) }
{
    let mut frames = frames;
    let Some(frame) = frames.pop() else {
        return Ok(idle(frames));
    };
    match frame {
        Frame::Test { place } => waiting(frames, Frame::Yes { place, test: last }),
        other => waiting(frames, other),
    }
}

/// Behind an `else`: `last` is the operand behind `then`.
pub fn behind_yes(frames: Stack<Frame>, last: Term) -> Result<Reading, OutOfMemory>
    ensures { IfOk result (λ r. r ≡ behind_yes (frames, last)) }
{
    let mut frames = frames;
    let Some(frame) = frames.pop() else {
        return Ok(idle(frames));
    };
    match frame {
        Frame::Yes { place, test } => waiting(
            frames,
            Frame::No {
                place,
                test,
                yes: last,
            },
        ),
        other => waiting(frames, other),
    }
}

// The name of a node before the `(` of a call.
fn called(alloc: Global, bytes: &[u8], operand: &Operand) -> Result<Option<Path>, OutOfMemory>
    ensures { IfOk result (λ path. path ≡ called bytes.now operand.now) }
{
    match operand {
        Operand::Name { parts, bodies } => {
            let path = path_of(alloc, bytes, parts.as_slice(), bodies.as_slice())?;
            Ok(path)
        }
        Operand::Nothing | Operand::Whole(_) => Ok(None),
    }
}

/// Behind the `(` of a call: the name before it is that of the node.
pub fn behind_name(
    alloc: Global,
    bytes: &[u8],
    frames: Stack<Frame>,
    operand: &Operand,
) -> Result<Reading, OutOfMemory>
    ensures { IfOk result (λ r. r ≡ behind_name bytes.now frames operand.now) }
{
    match called(alloc, bytes, operand)? {
        None => Ok(idle(frames)),
        Some(path) => {
            let args = Items::new(alloc);
            waiting(frames, Frame::Call { path, args })
        }
    }
}
