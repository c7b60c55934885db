//! Which terminal of the grammar a token of an annex is.
ghost use Rattle.std.specs.Prelude.{◌≡◌, IfOk};
ghost use Rattle.ag_aadl.specs.Words.{listed};
ghost use Rattle.ag_annex.specs.Terminals.{name, other_token};
ghost use Rattle.ag_annex.specs.Words.{reserved_words, known_symbols, terminal_of, terminals_of};

use crate::terminals::{
    AND_WORD, ARROW, ASSIGN_WORD, ASSUME_WORD, AT_LEAST, AT_MOST, BOOL_WORD, CLOSE_PAREN, COLON,
    COLONS, COMMA, CONST_WORD, DIFFERS, DIV_WORD, DOT, ELSE_WORD, EQ_WORD, EQUALS, FALSE_WORD,
    GUARANTEE_WORD, IF_WORD, IFF, IMPLIES, INT_WORD, LEMMA_WORD, LESS, LET_WORD, MINUS, MOD_WORD,
    MORE, NAME, NODE_WORD, NOT_WORD, NUMBER, OPEN_PAREN, OR_WORD, OTHER_TOKEN, OTHER_WORD, PLUS,
    PRE_WORD, PREV_WORD, RETURNS_WORD, SEMICOLON, TEL_WORD, TEXT, THEN_WORD, TIMES, TRUE_WORD,
    VAR_WORD,
};
use ag_aadl::{listed, own_bytes};
use ag_base::OutOfMemory;
use ag_lex::{Token, TokenKind};
use std::alloc::Global;

#[tactic(auto, unfolding(crate::specs::Words::reserved_words))]
fn word_terminal(own: &[u8]) -> u8
    ensures { result ≡ listed reserved_words name own.now }
{
    listed(
        &[
            ("assume", ASSUME_WORD),
            ("guarantee", GUARANTEE_WORD),
            ("lemma", LEMMA_WORD),
            ("eq", EQ_WORD),
            ("assign", ASSIGN_WORD),
            ("const", CONST_WORD),
            ("node", NODE_WORD),
            ("returns", RETURNS_WORD),
            ("var", VAR_WORD),
            ("let", LET_WORD),
            ("tel", TEL_WORD),
            ("int", INT_WORD),
            ("bool", BOOL_WORD),
            ("true", TRUE_WORD),
            ("false", FALSE_WORD),
            ("pre", PRE_WORD),
            ("prev", PREV_WORD),
            ("if", IF_WORD),
            ("then", THEN_WORD),
            ("else", ELSE_WORD),
            ("and", AND_WORD),
            ("or", OR_WORD),
            ("not", NOT_WORD),
            ("div", DIV_WORD),
            ("mod", MOD_WORD),
            ("real", OTHER_WORD),
            ("event", OTHER_WORD),
            ("assert", OTHER_WORD),
            ("property", OTHER_WORD),
            ("fun", OTHER_WORD),
            ("enum", OTHER_WORD),
            ("struct", OTHER_WORD),
            ("calendar", OTHER_WORD),
            ("synchrony", OTHER_WORD),
            ("linearization", OTHER_WORD),
            ("forall", OTHER_WORD),
            ("exists", OTHER_WORD),
            ("foreach", OTHER_WORD),
        ],
        NAME,
        own,
    )
}

#[tactic(auto, unfolding(crate::specs::Words::known_symbols))]
fn symbol_terminal(own: &[u8]) -> u8
    ensures { result ≡ listed known_symbols other_token own.now }
{
    listed(
        &[
            ("::", COLONS),
            (",", COMMA),
            (";", SEMICOLON),
            (":", COLON),
            (".", DOT),
            ("(", OPEN_PAREN),
            (")", CLOSE_PAREN),
            ("->", ARROW),
            ("=>", IMPLIES),
            ("<=>", IFF),
            ("<", LESS),
            ("<=", AT_MOST),
            (">", MORE),
            (">=", AT_LEAST),
            ("=", EQUALS),
            ("<>", DIFFERS),
            ("!=", DIFFERS),
            ("+", PLUS),
            ("-", MINUS),
            ("*", TIMES),
        ],
        OTHER_TOKEN,
        own,
    )
}

fn terminal(kind: TokenKind, own: &[u8]) -> u8
    ensures { result ≡ terminal_of kind own.now }
{
    match kind {
        TokenKind::Name => word_terminal(own),
        TokenKind::Symbol => symbol_terminal(own),
        TokenKind::Number => NUMBER,
        TokenKind::Text => TEXT,
        TokenKind::Real | TokenKind::Annex => OTHER_TOKEN,
    }
}

/// The terminals of an annex's tokens, one for each, in a file with these bytes.
pub fn terminals(alloc: Global, bytes: &[u8], tokens: &[Token]) -> Result<Vec<u8>, OutOfMemory>
    ensures { IfOk result (λ xs. xs.items ≡ terminals_of bytes.now tokens.now) }
{
    let mut terminals = Vec::new(alloc);
    for token in tokens {
        terminals.push(terminal(token.kind, own_bytes(bytes, token)))?;
    }
    Ok(terminals)
}
