//! Looking for tokens by their marks.
ghost use Rattle.std.specs.Prelude.{◌≡◌, IfOk, map};
ghost use Rattle.ag_aadl.specs.Marked.{has_mark, is_among, under, first_of, segments};

use crate::marked::Marked;
use ag_base::{OutOfMemory, Place};
use ag_lex::{Token, TokenKind};
use std::alloc::Global;

// What stands for a token where there is none. The grammar sees to it that it is never asked for.
const NO_TOKEN: Token = Token {
    kind: TokenKind::Name,
    start: 0,
    end: 0,
    place: Place {
        file: 0,
        line: 0,
        column: 0,
    },
};

/// Whether some token has the mark.
pub fn has_mark(mark: u8, marked: &[Marked]) -> bool
    ensures { result ≡ has_mark mark marked.now }
{
    for token in marked {
        if token.mark == mark {
            return true;
        }
    }
    false
}

/// The tokens that have the mark.
pub fn under(alloc: Global, mark: u8, marked: &[Marked]) -> Result<Vec<Token>, OutOfMemory>
    ensures { IfOk result (λ tokens. tokens.items ≡ under mark marked.now) }
{
    let mut found = Vec::new(alloc);
    for token in marked {
        if token.mark == mark {
            found.push(token.token)?;
        }
    }
    Ok(found)
}

/// The first of some tokens.
pub fn first_of(tokens: &[Token]) -> Token
    ensures { result ≡ first_of tokens.now }
{
    match tokens.first() {
        Some(token) => *token,
        None => NO_TOKEN,
    }
}

/// The first token that has the mark.
pub fn first_under(mark: u8, marked: &[Marked]) -> Token
    ensures { result ≡ first_of (under mark marked.now) }
{
    for token in marked {
        if token.mark == mark {
            return token.token;
        }
    }
    NO_TOKEN
}

/// Whether a mark is one of these.
pub fn is_among(marks: &[u8], mark: u8) -> bool
    ensures { result ≡ is_among marks.now mark }
{
    marks.contains(&mark)
}

/// For each token under one of the marks it and those behind it up to the next one.
pub fn segments<'a>(
    alloc: Global,
    marks: &[u8],
    marked: &'a [Marked],
) -> Result<Vec<&'a [Marked]>, OutOfMemory>
    ensures { IfOk result (λ parts. map (λ p. p.now) parts.items ≡ segments marks.now marked.now) }
{
    let mut found = Vec::new(alloc);
    let mut end = marked.len();
    let mut at = marked.len();
    while at > 0 {
        at -= 1;
        if is_among(marks, marked[at].mark) {
            found.push(&marked[at..end])?;
            end = at;
        }
    }
    found.reverse();
    Ok(found)
}
