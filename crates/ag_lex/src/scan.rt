//! From left to right over a text.
ghost use Rattle.std.specs.Prelude.{◌≡◌, ◌^◌, ◌<◌, ◌≤◌, [], take, drop, length, IfOk, IfErr, MatchOption};
ghost use Rattle.std.specs.Str.{IsUtf8};
ghost use Rattle.ag_lex.specs.Places.{place_of};
ghost use Rattle.ag_lex.specs.Scanning.{IsNext, IsStop, IsScanned, StopsFirst, IsEndOfText, earlier_of};

use crate::cursor::Cursor;
use crate::found::piece;
use crate::token::{Language, Token};
use ag_base::{List, OutOfMemory, Refusal, Rule};
use std::alloc::Global;

/// A broken rule, and how many of the file's bytes stand before.
#[derive(Clone, Copy)]
pub struct Fault {
    pub at: usize,
    pub refusal: Refusal,
}

/// Why there are no tokens.
#[derive(Clone, Copy)]
pub enum Stop {
    Broken(Fault),
    OutOfMemory,
}

impl From<OutOfMemory> for Stop {
    ghost use Rattle.std.specs.Prelude.{◌≡◌};
    ghost use Rattle.ag_lex.specs.declared.scan.Stop.TheVariants.{OutOfMemory as Memory};

    ghost from_gives = { λ _ stop. stop ≡ Memory };

    fn from(_e: OutOfMemory) -> Stop {
        Stop::OutOfMemory
    }
}

impl Cursor {
    fn broken(self, rule: Rule) -> Fault
        ensures { result ≡ record { at = self.at; refusal = record { place = self.place; rule = rule } } }
    {
        Fault {
            at: self.at,
            refusal: Refusal {
                place: self.place,
                rule,
            },
        }
    }
}

/// The tokens of the text from `start` to the end of `bytes`.
pub fn scan(
    alloc: Global,
    language: Language,
    bytes: &[u8],
    start: Cursor,
) -> Result<List<Token>, Stop>
    requires short { length bytes.now < 2 ^ 31 }
    requires within { start.at ≤ length bytes.now }
    requires place { start.place ≡ place_of start.place.file (take start.at bytes.now) }
    ensures ok { IfOk result (λ tokens. IsScanned language start bytes.now tokens) }
    ensures err { IfErr result (λ stop. StopsFirst language start bytes.now stop) }
{
    let mut tokens = List::new(alloc);
    let mut cursor = start;
    while cursor.at < bytes.len() {
        cursor = step(language, bytes, cursor, &mut tokens)?;
    }
    Ok(tokens)
}

/// Goes over the piece at the cursor, and puts it with the tokens if it is one.
fn step(
    language: Language,
    bytes: &[u8],
    cursor: Cursor,
    tokens: &mut List<Token>,
) -> Result<Cursor, Stop>
    requires short { length bytes.now < 2 ^ 31 }
    requires within { cursor.at < length bytes.now }
    requires place { cursor.place ≡ place_of cursor.place.file (take cursor.at bytes.now) }
    ensures ok { IfOk result (λ next. IsNext language bytes.now cursor next tokens.old tokens.new) }
    ensures err { IfErr result (λ stop. IsStop language bytes.now cursor stop) }
{
    let here = &bytes[cursor.at..];
    let found = match piece(language, here) {
        Ok(found) => found,
        Err(rule) => return Err(Stop::Broken(cursor.broken(rule))),
    };
    let (own, _) = here.split_at(found.len);
    let next = cursor.after(own);
    if let Some(kind) = found.kind {
        tokens.push(Token {
            kind,
            start: cursor.at as u32,
            end: next.at as u32,
            place: cursor.place,
        })?;
    }
    Ok(next)
}

/// The place where a file stops to be UTF-8.
pub fn no_text(bytes: &[u8], start: Cursor) -> Option<Fault>
    requires short { length bytes.now < 2 ^ 31 }
    requires at { start.at ≡ 0 }
    requires place { start.place ≡ place_of start.place.file [] }
    ensures { MatchOption result (IsUtf8 bytes.now) (λ fault. IsEndOfText start.place.file bytes.now fault) }
{
    match std::str::from_utf8(bytes) {
        Ok(_) => None,
        Err(error) => {
            let end = start.after(&bytes[..error.valid_up_to()]);
            Some(end.broken(Rule::NotUtf8))
        }
    }
}

/// The earlier of two broken rules, and at one place the first.
pub fn earlier(first: Option<Fault>, other: Fault) -> Refusal
    ensures { result ≡ earlier_of first other }
{
    match first {
        Some(fault) if fault.at <= other.at => fault.refusal,
        _ => other.refusal,
    }
}
