//! Names and classifiers as packages have them.
ghost use Rattle.std.specs.Prelude.{◌≡◌, ◌++◌, IfOk, OnOk, take};
ghost use Rattle.ag_aadl.specs.Marked.{own, under};
ghost use Rattle.ag_aadl.specs.Meaning.{ident, ident_under, joined, ident_of, some_ident, path_of, class_of, category_of, category_under};

use crate::find::{first_of, first_under, under};
use crate::marked::Marked;
use crate::marks::{CLASS_BODY_MARK, PART_MARK};
use crate::packages::{Category, Ident, Path};
use crate::terminals::{ABSTRACT_WORD, DEVICE_WORD, PROCESS_WORD, THREAD_WORD};
use crate::words::own_bytes;
use ag_base::{OutOfMemory, Text};
use ag_lex::Token;
use std::alloc::Global;

/// A text of bytes that are in UTF-8, as those of names and of texts between quotes are.
pub fn text_of(alloc: Global, bytes: &[u8]) -> Result<Text, OutOfMemory>
    ensures { IfOk result (λ t. t ≡ bytes.now) }
{
    match std::str::from_utf8(bytes) {
        Ok(text) => Text::make(alloc, text),
        Err(_) => Err(OutOfMemory),
    }
}

pub fn ident(alloc: Global, bytes: &[u8], token: Token) -> Result<Ident, OutOfMemory>
    ensures { IfOk result (λ i. i ≡ ident bytes.now token) }
{
    Ok(Ident {
        text: text_of(alloc, own_bytes(bytes, &token))?,
        place: token.place,
    })
}

/// The first name under a mark.
pub fn ident_under(
    alloc: Global,
    bytes: &[u8],
    mark: u8,
    marked: &[Marked],
) -> Result<Ident, OutOfMemory>
    ensures { IfOk result (λ i. i ≡ ident_under bytes.now mark marked.now) }
{
    ident(alloc, bytes, first_under(mark, marked))
}

// The parts of a name, apart by `::`.
fn joined(alloc: Global, bytes: &[u8], parts: &[Token]) -> Result<Vec<u8>, OutOfMemory>
    ensures { IfOk result (λ text. text.items ≡ joined bytes.now parts.now) }
{
    let mut text = Vec::new(alloc);
    let mut left = parts;
    while let Some((part, others)) = left.split_first() {
        text.extend_from_slice(own_bytes(bytes, part))?;
        if !others.is_empty() {
            text.extend_from_slice(b"::")?;
        }
        left = others;
    }
    Ok(text)
}

pub fn ident_of(alloc: Global, bytes: &[u8], parts: &[Token]) -> Result<Ident, OutOfMemory>
    ensures { IfOk result (λ i. i ≡ ident_of bytes.now parts.now) }
{
    let text = joined(alloc, bytes, parts)?;
    Ok(Ident {
        text: text_of(alloc, text.as_slice())?,
        place: first_of(parts).place,
    })
}

/// The name of some parts, if there are any.
pub fn some_ident(
    alloc: Global,
    bytes: &[u8],
    parts: &[Token],
) -> Result<Option<Ident>, OutOfMemory>
    ensures { IfOk result (λ i. i ≡ some_ident bytes.now parts.now) }
{
    if parts.is_empty() {
        return Ok(None);
    }
    Ok(Some(ident_of(alloc, bytes, parts)?))
}

/// The classifier of a name's parts and, behind the dot, perhaps a body.
pub fn path_of(
    alloc: Global,
    bytes: &[u8],
    parts: &[Token],
    bodies: &[Token],
) -> Result<Option<Path>, OutOfMemory>
    ensures { IfOk result (λ p. p ≡ path_of bytes.now parts.now bodies.now) }
{
    let Some((name, packages)) = parts.split_last() else {
        return Ok(None);
    };
    let package = some_ident(alloc, bytes, packages)?;
    let name = ident(alloc, bytes, *name)?;
    let body = some_ident(alloc, bytes, &bodies[..bodies.len().min(1)])?;
    Ok(Some(Path {
        package,
        name,
        body,
    }))
}

/// The classifier that a port or a subcomponent names.
pub fn class_of(alloc: Global, bytes: &[u8], marked: &[Marked]) -> Result<Option<Path>, OutOfMemory>
    ensures { IfOk result (λ p. p ≡ class_of bytes.now marked.now) }
{
    let parts = under(alloc, PART_MARK, marked)?;
    let bodies = under(alloc, CLASS_BODY_MARK, marked)?;
    path_of(alloc, bytes, parts.as_slice(), bodies.as_slice())
}

fn category_of(terminal: u8) -> Category
    ensures { result ≡ category_of terminal }
{
    match terminal {
        PROCESS_WORD => Category::Process,
        THREAD_WORD => Category::Thread,
        DEVICE_WORD => Category::Device,
        ABSTRACT_WORD => Category::Abstract,
        _ => Category::System,
    }
}

/// The category that the first token under a mark names.
pub fn category_under(mark: u8, marked: &[Marked]) -> Category
    ensures { result ≡ category_under mark marked.now }
{
    for token in marked {
        if token.mark == mark {
            return category_of(token.terminal);
        }
    }
    Category::System
}
