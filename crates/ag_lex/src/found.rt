//! What stands at the front of a text.
ghost use Rattle.std.specs.Prelude.{◌≡◌, ◌<◌, ◌≤◌, true, length, nat_eq, codes, map, MatchOption};
ghost use Rattle.std.specs.Char.{is_ascii_alphabetic, is_ascii_digit};
ghost use Rattle.std.specs.List.{prefix_len, starts_with};
ghost use Rattle.ag_lex.specs.declared.token.Language.{Language};
ghost use Rattle.ag_lex.specs.Characters.{begins, is_number_byte};
ghost use Rattle.ag_lex.specs.Spelling.{long_symbols};
ghost use Rattle.ag_lex.specs.Scanning.{Finds, first_front, closes_at, fraction_at};

use crate::class::Class;
use crate::number::is_wide;
use crate::token::{Language, TokenKind};
use ag_base::Rule;

/// The most bytes of a name.
const LONGEST_NAME: usize = 255;

/// A piece at the front of a text: its length, and its kind if it is a token.
#[derive(Clone, Copy)]
pub struct Found {
    pub kind: Option<TokenKind>,
    pub len: usize,
}

impl Found {
    fn token(kind: TokenKind, len: usize) -> Found
        ensures { result ≡ record { kind = Some kind; len = len } }
    {
        Found {
            kind: Some(kind),
            len,
        }
    }
}

/// The piece at the front, or the rule that is broken there.
pub fn piece(language: Language, here: &[u8]) -> Result<Found, Rule>
    requires { 0 < length here.now }
    ensures { Finds language result here.now }
{
    if Class::Space.begins(here) {
        Ok(Found { kind: None, len: 1 })
    } else if here.starts_with(b"--") {
        Ok(Found {
            kind: None,
            len: 2 + Class::Line.front_len(&here[2..]),
        })
    } else if here.starts_with(b"\"") {
        text(here)
    } else if here.starts_with(b"{**") {
        annex(here)
    } else if Class::Letter.begins(here) {
        name(here)
    } else if Class::Digit.begins(here) {
        number(language, here)
    } else if Class::Sign.begins(here) {
        Ok(Found::token(TokenKind::Symbol, symbol_len(here)))
    } else {
        Err(Rule::BadByte)
    }
}

fn text(here: &[u8]) -> Result<Found, Rule>
    requires { starts_with nat_eq here.now (codes "\"") ≡ true }
    ensures { (l : Language) → Finds l result here.now }
{
    let len = Class::Text.front_len(&here[1..]);
    if here[1 + len..].starts_with(b"\"") {
        Ok(Found::token(TokenKind::Text, len + 2))
    } else {
        Err(Rule::OpenString)
    }
}

fn annex(here: &[u8]) -> Result<Found, Rule>
    requires { starts_with nat_eq here.now (codes "{**") ≡ true }
    ensures { (l : Language) → Finds l result here.now }
{
    match close_at(&here[3..]) {
        Some(len) => Ok(Found::token(TokenKind::Annex, len + 6)),
        None => Err(Rule::OpenAnnex),
    }
}

/// Where the first `**}` begins.
fn close_at(bytes: &[u8]) -> Option<usize>
    ensures { result ≡ closes_at bytes.now }
{
    let mut at = 0;
    while at < bytes.len() {
        if bytes[at..].starts_with(b"**}") {
            return Some(at);
        }
        at += 1;
    }
    None
}

fn name(here: &[u8]) -> Result<Found, Rule>
    requires { begins is_ascii_alphabetic here.now ≡ true }
    ensures { (l : Language) → Finds l result here.now }
{
    let len = Class::Word.front_len(here);
    if len > LONGEST_NAME {
        return Err(Rule::LongName);
    }
    Ok(Found::token(TokenKind::Name, len))
}

fn number(language: Language, here: &[u8]) -> Result<Found, Rule>
    requires { begins is_ascii_digit here.now ≡ true }
    ensures { Finds language result here.now }
{
    let len = number_len(language, here);
    let (whole, rest) = here.split_at(len);
    if let Some(fraction) = fraction_len(rest) {
        return Ok(Found::token(TokenKind::Real, len + fraction));
    }
    if is_wide(language, whole) {
        return Err(Rule::WideNumber);
    }
    Ok(Found::token(TokenKind::Number, len))
}

/// How far a number goes, without a fraction.
fn number_len(language: Language, here: &[u8]) -> usize
    ensures value { result ≡ prefix_len (is_number_byte language) here.now }
    ensures within { result ≤ length here.now }
{
    match language {
        Language::Aadl => Class::Based.front_len(here),
        Language::Agree => Class::Digit.front_len(here),
    }
}

/// How far a point and a fraction go, if they follow a number.
fn fraction_len(rest: &[u8]) -> Option<usize>
    ensures value { result ≡ fraction_at rest.now }
    ensures within { MatchOption result (Unit {0}) (λ len. len ≤ length rest.now) }
{
    if rest.starts_with(b".") && Class::Digit.begins(&rest[1..]) {
        Some(1 + Class::Word.front_len(&rest[1..]))
    } else {
        None
    }
}

/// The length of the longest symbol at the front.
#[tactic(auto, unfolding(crate::specs::Spelling::long_symbols))]
fn symbol_len(here: &[u8]) -> usize
    ensures { result ≡ first_front long_symbols here.now }
{
    longest_of(
        &[
            b"<->".as_slice(),
            b"<=>".as_slice(),
            b"::".as_slice(),
            b"=>".as_slice(),
            b"->".as_slice(),
            b"<=".as_slice(),
            b">=".as_slice(),
            b"<>".as_slice(),
            b"!=".as_slice(),
            b"..".as_slice(),
        ],
        here,
    )
}

/// The length of the first of these that stands at the front, or 1.
fn longest_of(symbols: &[&[u8]], here: &[u8]) -> usize
    ensures { result ≡ first_front (map (λ s. s.now) symbols.now) here.now }
{
    for symbol in symbols {
        if here.starts_with(symbol) {
            return symbol.len();
        }
    }
    1
}
