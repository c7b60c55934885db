//! Tokens, and the two languages that have them.

use ag_base::Place;

/// Which language's tokens a text has: they differ in what a number is.
#[derive(Clone, Copy)]
pub enum Language {
    /// A file of packages (SAE AS5506).
    Aadl,
    /// The text between the marks of an `agree` annex.
    Agree,
}

#[derive(Clone, Copy, Debug, PartialEq, Eq)]
pub enum TokenKind {
    /// A letter, then letters, digits and `_`. Reserved words are names here.
    Name,
    /// A digit, then in a file letters, digits, `_` and `#`, in an annex digits alone.
    Number,
    /// A number, a point, a digit, then letters, digits and `_`.
    Real,
    /// `"`, bytes other than `"` and LF, `"`.
    Text,
    /// `{**`, any bytes, and the first `**}` behind them.
    Annex,
    /// The longest of `<->` `<=>` `::` `=>` `->` `<=` `>=` `<>` `!=` `..`, else one byte.
    Symbol,
}

/// A token of a file: its bytes are those from `start` up to `end`, and `place` is the place of the first.
#[derive(Clone, Copy, Debug, PartialEq, Eq)]
pub struct Token {
    pub kind: TokenKind,
    pub start: u32,
    pub end: u32,
    pub place: Place,
}
