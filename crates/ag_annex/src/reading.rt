//! The expression that marked tokens state, from the left to the right.
ghost use Rattle.std.specs.Prelude.{◌≡◌, ◌≤◌, ◌^◌, ◌∷◌, [], pos, IfOk};
ghost use Rattle.ag_lex.specs.Rules.{decimal};
ghost use Rattle.ag_aadl.specs.Marked.{own};
ghost use Rattle.ag_annex.specs.declared.frames.Operand.TheVariants.{Name, Whole};
ghost use Rattle.ag_terms.specs.declared.terms.Term.{Number, Truth};
ghost use Rattle.ag_annex.specs.Expressions.{operand_term, with_part, with_body, behind_infix, behind_close, behind_comma, behind_test, behind_yes, behind_name, behind_operand, behind_opening, behind_other, close_before, close_all, read_token, finished, term_of, IsNumberFit, AreNumbersFit};
ghost use Rattle.ag_annex.specs.Operators.{rank};

use crate::brackets::{
    behind_close, behind_comma, behind_name, behind_test, behind_yes, waiting, whole,
};
use crate::closing::{close_all, close_before};
use crate::frames::{Frame, Operand, Reading};
use crate::marks::{
    ARGUMENT_MARK, CALL_MARK, CLOSE_MARK, ELSE_MARK, FALSE_MARK, GROUP_MARK, IF_MARK,
    NEGATIVE_MARK, NOT_MARK, NUMBER_MARK, PART_MARK, PATH_BODY_MARK, PATH_MARK, PRE_MARK,
    PREV_MARK, THEN_MARK, TRUE_MARK,
};
use crate::numbers::number_of;
use crate::operands::{is_nothing, operand_term, with_body, with_part};
use crate::operators::{binary_of, rank};
use crate::stack::Stack;
use ag_aadl::marked::Marked;
use ag_aadl::own_bytes;
use ag_base::{List, OutOfMemory};
use ag_lex::Token;
use ag_terms::{Binary, Term, Unary};
use std::alloc::Global;

// What still waits where all that can end does, as before a `)`, a `,`, a `then`, an `else`, or the expression's end,
// and the operand that is whole there.
fn closed(
    alloc: Global,
    bytes: &[u8],
    reading: Reading,
) -> Result<(Stack<Frame>, Term), OutOfMemory>
    ensures { IfOk result (λ c. c ≡ close_all reading.frames (operand_term bytes.now reading.operand)) }
{
    let Reading {
        mut frames,
        operand,
    } = reading;
    let last = operand_term(alloc, bytes, operand)?;
    let last = close_all(alloc, &mut frames, last)?;
    Ok((frames, last))
}

// Behind an operator between two operands.
fn behind_infix(
    alloc: Global,
    bytes: &[u8],
    reading: Reading,
    op: Binary,
    token: &Token,
) -> Result<Reading, OutOfMemory>
    ensures { IfOk result (λ r. r ≡ behind_infix op token.now.place (close_before (rank op) reading.frames (operand_term bytes.now reading.operand))) }
{
    let Reading {
        mut frames,
        operand,
    } = reading;
    let last = operand_term(alloc, bytes, operand)?;
    let left = close_before(alloc, rank(op), &mut frames, last)?;
    waiting(
        frames,
        Frame::Infix {
            op,
            place: token.place,
            left,
        },
    )
}

// Behind a `)`.
fn at_close(alloc: Global, bytes: &[u8], reading: Reading) -> Result<Reading, OutOfMemory>
    ensures { IfOk result (λ r. r ≡ behind_close reading.operand (close_all reading.frames (operand_term bytes.now reading.operand))) }
{
    let is_empty = is_nothing(&reading.operand);
    let (frames, last) = closed(alloc, bytes, reading)?;
    behind_close(alloc, is_empty, frames, last)
}

// Behind a `,`.
fn at_comma(alloc: Global, bytes: &[u8], reading: Reading) -> Result<Reading, OutOfMemory>
    ensures { IfOk result (λ r. r ≡ behind_comma (close_all reading.frames (operand_term bytes.now reading.operand))) }
{
    let (frames, last) = closed(alloc, bytes, reading)?;
    behind_comma(frames, last)
}

// Behind a `then`.
fn at_then(alloc: Global, bytes: &[u8], reading: Reading) -> Result<Reading, OutOfMemory>
    ensures { IfOk result (λ r. r ≡ behind_test (close_all reading.frames (operand_term bytes.now reading.operand))) }
{
    let (frames, last) = closed(alloc, bytes, reading)?;
    behind_test(frames, last)
}

// Behind an `else`.
fn at_else(alloc: Global, bytes: &[u8], reading: Reading) -> Result<Reading, OutOfMemory>
    ensures { IfOk result (λ r. r ≡ behind_yes (close_all reading.frames (operand_term bytes.now reading.operand))) }
{
    let (frames, last) = closed(alloc, bytes, reading)?;
    behind_yes(frames, last)
}

// Behind a name of one part.
fn at_path(alloc: Global, frames: Stack<Frame>, token: Token) -> Result<Reading, OutOfMemory>
    ensures { IfOk result (λ r. r ≡ record { frames = frames; operand = Name (token ∷ []) [] }) }
{
    let mut parts = List::new(alloc);
    parts.push(token)?;
    Ok(Reading {
        frames,
        operand: Operand::Name {
            parts,
            bodies: List::new(alloc),
        },
    })
}

// Behind a number.
fn at_number(bytes: &[u8], frames: Stack<Frame>, token: &Token) -> Reading
    requires { decimal (own bytes.now token.now) ≤ 2 ^ 47 }
    ensures { result ≡ record { frames = frames; operand = Whole (Number (pos (decimal (own bytes.now token.now))) token.now.place) } }
{
    let value = number_of(own_bytes(bytes, token));
    whole(
        frames,
        Term::Number {
            value,
            place: token.place,
        },
    )
}

// Behind a further part of a name.
fn at_part(reading: Reading, token: Token) -> Result<Reading, OutOfMemory>
    ensures { IfOk result (λ r. r ≡ record { frames = reading.frames; operand = with_part reading.operand token }) }
{
    let Reading { frames, operand } = reading;
    let operand = with_part(operand, token)?;
    Ok(Reading { frames, operand })
}

// Behind the name after the dot of a name.
fn at_body(reading: Reading, token: Token) -> Result<Reading, OutOfMemory>
    ensures { IfOk result (λ r. r ≡ record { frames = reading.frames; operand = with_body reading.operand token }) }
{
    let Reading { frames, operand } = reading;
    let operand = with_body(operand, token)?;
    Ok(Reading { frames, operand })
}

// Behind a word for a truth value.
fn at_truth(frames: Stack<Frame>, value: bool, token: &Token) -> Reading
    ensures { result ≡ record { frames = frames; operand = Whole (Truth value token.now.place) } }
{
    whole(
        frames,
        Term::Truth {
            value,
            place: token.place,
        },
    )
}

// Behind a token that begins or goes on an operand.
fn behind_operand(
    alloc: Global,
    bytes: &[u8],
    reading: Reading,
    marked: &Marked,
) -> Result<Reading, OutOfMemory>
    requires { IsNumberFit bytes.now marked.now }
    ensures { IfOk result (λ r. r ≡ behind_operand bytes.now reading marked.now) }
{
    let token = &marked.token;
    match marked.mark {
        NUMBER_MARK => Ok(at_number(bytes, reading.frames, token)),
        TRUE_MARK => Ok(at_truth(reading.frames, true, token)),
        FALSE_MARK => Ok(at_truth(reading.frames, false, token)),
        PATH_MARK => at_path(alloc, reading.frames, *token),
        PART_MARK => at_part(reading, *token),
        PATH_BODY_MARK => at_body(reading, *token),
        _ => Ok(reading),
    }
}

// Behind the `(` of a call.
fn at_call(alloc: Global, bytes: &[u8], reading: Reading) -> Result<Reading, OutOfMemory>
    ensures { IfOk result (λ r. r ≡ behind_name bytes.now reading.frames reading.operand) }
{
    let Reading { frames, operand } = reading;
    behind_name(alloc, bytes, frames, &operand)
}

// Behind a token that something waits for operands with.
fn behind_opening(
    alloc: Global,
    bytes: &[u8],
    reading: Reading,
    marked: &Marked,
) -> Result<Reading, OutOfMemory>
    requires { IsNumberFit bytes.now marked.now }
    ensures { IfOk result (λ r. r ≡ behind_opening bytes.now reading marked.now) }
{
    let place = marked.token.place;
    match marked.mark {
        NEGATIVE_MARK => {
            let op = Unary::Minus;
            waiting(reading.frames, Frame::Prefix { op, place })
        }
        NOT_MARK => {
            let op = Unary::Not;
            waiting(reading.frames, Frame::Prefix { op, place })
        }
        GROUP_MARK => waiting(reading.frames, Frame::Group),
        PRE_MARK => waiting(reading.frames, Frame::Pre { place }),
        PREV_MARK => waiting(reading.frames, Frame::Prev { place }),
        CALL_MARK => at_call(alloc, bytes, reading),
        IF_MARK => waiting(reading.frames, Frame::Test { place }),
        _ => behind_operand(alloc, bytes, reading, marked),
    }
}

// Behind a token that isn't an operator between two operands.
fn behind_other(
    alloc: Global,
    bytes: &[u8],
    reading: Reading,
    marked: &Marked,
) -> Result<Reading, OutOfMemory>
    requires { IsNumberFit bytes.now marked.now }
    ensures { IfOk result (λ r. r ≡ behind_other bytes.now reading marked.now) }
{
    match marked.mark {
        CLOSE_MARK => at_close(alloc, bytes, reading),
        ARGUMENT_MARK => at_comma(alloc, bytes, reading),
        THEN_MARK => at_then(alloc, bytes, reading),
        ELSE_MARK => at_else(alloc, bytes, reading),
        _ => behind_opening(alloc, bytes, reading, marked),
    }
}

// What is known behind a token.
fn read_token(
    alloc: Global,
    bytes: &[u8],
    reading: Reading,
    marked: &Marked,
) -> Result<Reading, OutOfMemory>
    requires { IsNumberFit bytes.now marked.now }
    ensures { IfOk result (λ r. r ≡ read_token bytes.now reading marked.now) }
{
    match binary_of(marked.mark) {
        None => behind_other(alloc, bytes, reading, marked),
        Some(op) => behind_infix(alloc, bytes, reading, op, &marked.token),
    }
}

// The expression at the end of its tokens.
fn finished(alloc: Global, bytes: &[u8], reading: Reading) -> Result<Term, OutOfMemory>
    ensures { IfOk result (λ t. t ≡ finished bytes.now reading) }
{
    let (_waiting, last) = closed(alloc, bytes, reading)?;
    Ok(last)
}

/// The expression that these tokens state.
pub fn term_of(alloc: Global, bytes: &[u8], marked: &[Marked]) -> Result<Term, OutOfMemory>
    requires { AreNumbersFit bytes.now marked.now }
    ensures { IfOk result (λ t. t ≡ term_of bytes.now marked.now) }
{
    let mut reading = Reading {
        frames: Stack::new(alloc),
        operand: Operand::Nothing,
    };
    for m in marked {
        reading = read_token(alloc, bytes, reading, m)?;
    }
    finished(alloc, bytes, reading)
}
