//! The tokens of a text, one by one.
ghost use Rattle.std.specs.Prelude.{◌≤◌, ◌<◌, ◌≢◌, length, IfSome};
ghost use Rattle.ag_small.specs.declared.token.TokenKind.TheVariants.{End};

use crate::class::Class;

/// Where a token begins and ends. Behind the last one there is an empty one at the end of the text.
#[derive(Clone, Copy)]
pub struct Token {
    pub start: usize,
    pub end: usize,
    pub kind: TokenKind,
}

#[derive(Clone, Copy)]
pub enum TokenKind {
    Word,
    Label,
    /// A sign, or a byte that begins no token.
    Sign,
    End,
}

/// The token behind white space.
pub fn token_at(bytes: &[u8], at: usize) -> Token
    requires { at ≤ length bytes.now }
    ensures start { at ≤ result.start }
    ensures order { result.start ≤ result.end }
    ensures end { result.end ≤ length bytes.now }
    ensures some { result.kind ≢ End → result.start < result.end }
{
    let start = at + Class::Space.front_len(&bytes[at..]);
    let rest = &bytes[start..];
    let kind = kind_of(rest);
    let end = start + len_of(rest, kind);
    Token { start, end, kind }
}

fn kind_of(rest: &[u8]) -> TokenKind
    ensures { result ≢ End → 0 < length rest.now }
{
    if rest.is_empty() {
        TokenKind::End
    } else if Class::Letter.begins(rest) {
        TokenKind::Word
    } else if label_len(rest).is_some() {
        TokenKind::Label
    } else {
        TokenKind::Sign
    }
}

/// How many bytes the token has.
fn len_of(rest: &[u8], kind: TokenKind) -> usize
    requires { kind ≢ End → 0 < length rest.now }
    ensures within { result ≤ length rest.now }
    ensures some { kind ≢ End → 0 < result }
{
    match kind {
        TokenKind::End => 0,
        TokenKind::Word => Class::Word.front_len(rest).max(1),
        TokenKind::Label => label_len(rest).unwrap_or(1),
        TokenKind::Sign => sign_len(rest),
    }
}

/// How many bytes a label has with its quotes, if one stands at the front.
fn label_len(rest: &[u8]) -> Option<usize>
    ensures { IfSome result (λ n. (0 < n) × (n ≤ length rest.now)) }
{
    if !Class::Quote.begins(rest) {
        return None;
    }
    let inside = &rest[1..];
    let len = Class::Label.front_len(inside);
    if Class::Quote.begins(&inside[len..]) {
        Some(len + 2)
    } else {
        None
    }
}

/// The longest sign at the front, or one byte.
fn sign_len(rest: &[u8]) -> usize
    requires { 0 < length rest.now }
    ensures within { result ≤ length rest.now }
    ensures some { 0 < result }
{
    if rest.starts_with(b"{**") || rest.starts_with(b"**}") {
        3
    } else if rest.starts_with(b"::") || rest.starts_with(b"=>") || rest.starts_with(b"..") {
        2
    } else {
        1
    }
}
