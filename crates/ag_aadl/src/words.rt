//! Which terminal of the grammar a token is.
ghost use Rattle.std.specs.Prelude.{◌≡◌, map, IfOk};
ghost use Rattle.ag_aadl.specs.Marked.{own};
ghost use Rattle.ag_aadl.specs.Terminals.{name, other_token};
ghost use Rattle.ag_aadl.specs.Words.{listed, reserved_words, known_symbols, terminal_of, terminals_of, AreTokensOf};
ghost use Rattle.ag_terms.specs.Names.{same};

use crate::terminals::{
    ABSTRACT_WORD, ANNEX_TEXT, ANNEX_WORD, ARROW, BUS_WORD, CLOSE_BRACE, CLOSE_BRACKET,
    CLOSE_PAREN, COLON, COLONS, COMMA, CONNECTIONS_WORD, DATA_WORD, DEVICE_WORD, DOT, END_WORD,
    EVENT_WORD, FEATURES_WORD, FLOWS_WORD, GIVES, IMPLEMENTATION_WORD, IN_WORD, MEMORY_WORD, NAME,
    NONE_WORD, OPEN_BRACE, OPEN_BRACKET, OPEN_PAREN, OTHER_TOKEN, OTHER_WORD, OUT_WORD,
    PACKAGE_WORD, PARAMETER_WORD, PORT_WORD, PROCESS_WORD, PROCESSOR_WORD, PROPERTIES_WORD,
    PROVIDES_WORD, PUBLIC_WORD, REQUIRES_WORD, SEMICOLON, SUBCOMPONENTS_WORD, SUBPROGRAM_WORD,
    SYSTEM_WORD, THREAD_WORD, WITH_WORD,
};
use ag_base::OutOfMemory;
use ag_lex::{Token, TokenKind};
use std::alloc::Global;

pub fn same(a: &[u8], b: &[u8]) -> bool
    ensures { result ≡ same a.now b.now }
{
    a.eq_ignore_ascii_case(b)
}

/// The terminal beside a text in a list, in any case, or another where the list lacks it.
pub fn listed(entries: &[(&str, u8)], otherwise: u8, own: &[u8]) -> u8
    ensures { result ≡ listed (map (λ e. (e.0.now, e.1)) entries.now) otherwise own.now }
{
    for (text, terminal) in entries {
        if same(own, text.as_bytes()) {
            return *terminal;
        }
    }
    otherwise
}

#[tactic(auto, unfolding(crate::specs::Words::reserved_words))]
fn word_terminal(own: &[u8]) -> u8
    ensures { result ≡ listed reserved_words name own.now }
{
    listed(
        &[
            ("package", PACKAGE_WORD),
            ("public", PUBLIC_WORD),
            ("private", OTHER_WORD),
            ("with", WITH_WORD),
            ("renames", OTHER_WORD),
            ("end", END_WORD),
            ("system", SYSTEM_WORD),
            ("process", PROCESS_WORD),
            ("thread", THREAD_WORD),
            ("device", DEVICE_WORD),
            ("abstract", ABSTRACT_WORD),
            ("data", DATA_WORD),
            ("subprogram", SUBPROGRAM_WORD),
            ("processor", PROCESSOR_WORD),
            ("memory", MEMORY_WORD),
            ("bus", BUS_WORD),
            ("virtual", OTHER_WORD),
            ("implementation", IMPLEMENTATION_WORD),
            ("extends", OTHER_WORD),
            ("features", FEATURES_WORD),
            ("flows", FLOWS_WORD),
            ("modes", OTHER_WORD),
            ("mode", OTHER_WORD),
            ("properties", PROPERTIES_WORD),
            ("property", OTHER_WORD),
            ("subcomponents", SUBCOMPONENTS_WORD),
            ("connections", CONNECTIONS_WORD),
            ("calls", OTHER_WORD),
            ("annex", ANNEX_WORD),
            ("in", IN_WORD),
            ("out", OUT_WORD),
            ("event", EVENT_WORD),
            ("port", PORT_WORD),
            ("feature", OTHER_WORD),
            ("group", OTHER_WORD),
            ("requires", REQUIRES_WORD),
            ("provides", PROVIDES_WORD),
            ("prototypes", OTHER_WORD),
            ("parameter", PARAMETER_WORD),
            ("access", OTHER_WORD),
            ("none", NONE_WORD),
            ("refined", OTHER_WORD),
            ("to", OTHER_WORD),
            ("set", OTHER_WORD),
            ("applies", OTHER_WORD),
        ],
        NAME,
        own,
    )
}

#[tactic(auto, unfolding(crate::specs::Words::known_symbols))]
fn symbol_terminal(own: &[u8]) -> u8
    ensures { result ≡ listed known_symbols other_token own.now }
{
    listed(
        &[
            ("::", COLONS),
            (",", COMMA),
            (";", SEMICOLON),
            (":", COLON),
            (".", DOT),
            ("->", ARROW),
            ("=>", GIVES),
            ("(", OPEN_PAREN),
            (")", CLOSE_PAREN),
            ("[", OPEN_BRACKET),
            ("]", CLOSE_BRACKET),
            ("{", OPEN_BRACE),
            ("}", CLOSE_BRACE),
        ],
        OTHER_TOKEN,
        own,
    )
}

fn terminal(kind: TokenKind, own: &[u8]) -> u8
    ensures { result ≡ terminal_of kind own.now }
{
    match kind {
        TokenKind::Name => word_terminal(own),
        TokenKind::Symbol => symbol_terminal(own),
        TokenKind::Annex => ANNEX_TEXT,
        TokenKind::Number | TokenKind::Real | TokenKind::Text => OTHER_TOKEN,
    }
}

/// The bytes of a token. Where its span isn't one of the file's, what the file has of it.
pub fn own_bytes<'a>(bytes: &'a [u8], token: &Token) -> &'a [u8]
    ensures { result.now ≡ own bytes.now token.now }
{
    let end = (token.end as usize).min(bytes.len());
    let start = (token.start as usize).min(end);
    &bytes[start..end]
}

/// The terminals of a file's tokens, one for each.
pub fn terminals(alloc: Global, bytes: &[u8], tokens: &[Token]) -> Result<Vec<u8>, OutOfMemory>
    ensures { IfOk result (λ xs. xs.items ≡ terminals_of bytes.now tokens.now) }
{
    let mut terminals = Vec::new(alloc);
    for token in tokens {
        terminals.push(terminal(token.kind, own_bytes(bytes, token)))?;
    }
    Ok(terminals)
}
