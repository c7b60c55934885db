//! The tokens of AADL files and of the annexes in them.
//!
//! It promises that the answer is the one list of tokens that the bytes have, or the first rule that
//! they break at its place. Start at `file_tokens`, and at specs/Tokens.antt.
#![tactic(auto)]

ghost use Rattle.std.specs.Prelude.{◌≡◌, ◌⊎◌, ◌^◌, ◌<◌, ◌==◌, ◌||◌, ◌++◌, ℕ, not, List, [], length, Contains, IfOk, IsTrue, Result, Err, codes};
ghost use Rattle.std.specs.List.{list_all};
ghost use Rattle.std.specs.Str.{IsUtf8};
ghost use Rattle.ag_base.specs.declared.place.Refusal.{Refusal};
ghost use Rattle.ag_base.specs.declared.place.Refused.TheVariants.{Model};
ghost use Rattle.ag_lex.specs.declared.token.Language.{Language};
ghost use Rattle.ag_lex.specs.declared.token.Language.TheVariants.{Aadl, Agree};
ghost use Rattle.ag_lex.specs.declared.token.Token.{Token};
ghost use Rattle.ag_lex.specs.declared.token.TokenKind.TheVariants.{Name, Number, Text, Annex, Symbol};
ghost use Rattle.ag_lex.specs.Characters.{begins, is_word_byte, is_number_byte, is_text_byte};
ghost use Rattle.ag_lex.specs.Spelling.{IsToken, is_name, is_number, is_symbol, goes_on, has_close};
ghost use Rattle.ag_lex.specs.Places.{place_of};
ghost use Rattle.ag_lex.specs.Tokens.{Piece, AreRead, AreTokens, StandsIn, tokens_of};
ghost use Rattle.ag_lex.specs.Rules.{IsFirstBroken, KeepsRules, AreFine};
ghost use Rattle.ag_lex.specs.Answers.{AreKept, IsReadUnlessMemory, IsRefusedUnlessMemory, IsAnnexOf, bytes_before, bytes_inside};

mod class;
mod cursor;
mod found;
mod number;
mod scan;
pub mod token;

use ag_base::{List, Place, Refused};
use cursor::Cursor;
use scan::{Stop, earlier, no_text, scan};
use std::alloc::Global;
pub use token::{Language, Token, TokenKind};

/// The tokens of a file. `file` is its position among the files that are read, as places name it. It
/// takes time and memory in proportion to the bytes.
pub fn file_tokens(alloc: Global, file: u32, bytes: &[u8]) -> Result<List<Token>, Refused>
    requires { length bytes.now < 2 ^ 31 }
    // These are the tokens of the bytes, and no rule is broken.
    ensures ok { IfOk result (λ tokens. AreKept Aadl file [] bytes.now tokens) }
    // The refusal is the first broken rule, at its place.
    ensures refused { (r : Refusal) → result ≡ Err (Model r) → IsFirstBroken Aadl file [] bytes.now r }
    // So Ok comes exactly where no rule is broken, and a refusal exactly where one is, unless memory was wanting.
    ensures read { (tokens : List Token) → AreKept Aadl file [] bytes.now tokens → IsReadUnlessMemory result tokens }
    ensures broken { (r : Refusal) → IsFirstBroken Aadl file [] bytes.now r → IsRefusedUnlessMemory result r }
{
    let start = Cursor::of_file(file);
    let no_text = no_text(bytes, start);
    match scan(alloc, Language::Aadl, bytes, start) {
        Err(Stop::OutOfMemory) => Err(Refused::OutOfMemory),
        Err(Stop::Broken(fault)) => Err(Refused::Model(earlier(no_text, fault))),
        Ok(tokens) => match no_text {
            None => Ok(tokens),
            Some(fault) => Err(Refused::Model(fault.refusal)),
        },
    }
}

/// The tokens between the marks of one of the file's annexes, in `bytes` of the whole file. Spans and
/// places are those in the file, and the end of the text is the place of the annex's `**}`.
pub fn annex_tokens(alloc: Global, bytes: &[u8], annex: &Token) -> Result<List<Token>, Refused>
    requires short { length bytes.now < 2 ^ 31 }
    requires annex { IsAnnexOf bytes.now annex.now }
    // These are the tokens of the bytes between the marks, and no rule is broken there.
    ensures ok { IfOk result (λ tokens. AreKept Agree annex.now.place.file (bytes_before bytes.now annex.now) (bytes_inside bytes.now annex.now) tokens) }
    // The refusal is the first broken rule, at its place.
    ensures refused { (r : Refusal) → result ≡ Err (Model r) → IsFirstBroken Agree annex.now.place.file (bytes_before bytes.now annex.now) (bytes_inside bytes.now annex.now) r }
    // So Ok comes exactly where no rule is broken, and a refusal exactly where one is, unless memory was wanting.
    ensures read { (tokens : List Token) → AreKept Agree annex.now.place.file (bytes_before bytes.now annex.now) (bytes_inside bytes.now annex.now) tokens → IsReadUnlessMemory result tokens }
    ensures broken { (r : Refusal) → IsFirstBroken Agree annex.now.place.file (bytes_before bytes.now annex.now) (bytes_inside bytes.now annex.now) r → IsRefusedUnlessMemory result r }
{
    let start = Cursor::of_annex(annex);
    let end = annex.end as usize - 3;
    match scan(alloc, Language::Agree, &bytes[..end], start) {
        Err(Stop::OutOfMemory) => Err(Refused::OutOfMemory),
        Err(Stop::Broken(fault)) => Err(Refused::Model(fault.refusal)),
        Ok(tokens) => Ok(tokens),
    }
}

/// The place behind the last byte of a file.
pub fn end_place(file: u32, bytes: &[u8]) -> Place
    requires { length bytes.now < 2 ^ 31 }
    ensures { result ≡ place_of file bytes.now }
{
    Cursor::of_file(file).after(bytes).place
}

/// A text has one list of tokens at most.
pub fn one_reading()
    ensures { (l : Language) (file : ℕ) (before text : List ℕ) (tokens others : List Token) → AreTokens l file before text tokens → AreTokens l file before text others → tokens ≡ others }
{}

/// A text has one first broken rule at most.
pub fn one_refusal()
    ensures { (l : Language) (file : ℕ) (before text : List ℕ) (r s : Refusal) → IsFirstBroken l file before text r → IsFirstBroken l file before text s → r ≡ s }
{}

/// Each text has tokens and breaks no rule, or it has a first broken rule.
pub fn one_of_the_two()
    ensures { (l : Language) (file : ℕ) (before text : List ℕ) → ((tokens : List Token) × AreKept l file before text tokens) ⊎ ((r : Refusal) × IsFirstBroken l file before text r) }
{}

/// A file that breaks no rule is UTF-8.
pub fn files_are_text()
    ensures { (bytes : List ℕ) → KeepsRules Aadl bytes → IsUtf8 bytes }
{}

/// Each token of a text stands in it: the bytes of its span are a token of its kind.
pub fn tokens_stand()
    ensures { (l : Language) (file : ℕ) (before text : List ℕ) (tokens : List Token) (token : Token) → AreTokens l file before text tokens → Contains tokens token → StandsIn l file before text token }
{}

/// A name is a token where no letter, digit or `_` follows.
pub fn names_end()
    ensures { (l : Language) (own rest : List ℕ) → IsTrue (is_name own) → IsTrue (not (begins is_word_byte rest)) → IsToken l Name own rest }
{}

/// A number is a token where neither what goes on a number nor a point follows.
pub fn numbers_end()
    ensures { (l : Language) (own rest : List ℕ) → IsTrue (is_number l own) → IsTrue (not (begins (λ b. is_number_byte l b || b == 46) rest)) → IsToken l Number own rest }
{}

/// A text between quotes is a token, whatever follows.
pub fn texts_end()
    ensures { (l : Language) (text rest : List ℕ) → IsTrue (list_all is_text_byte text) → IsToken l Text (codes "\"" ++ (text ++ codes "\"")) rest }
{}

/// An annex is a token up to its first `**}`, whatever follows.
pub fn annexes_end()
    ensures { (l : Language) (inside rest : List ℕ) → IsTrue (not (has_close (inside ++ codes "**"))) → IsToken l Annex (codes "{**" ++ (inside ++ codes "**}")) rest }
{}

/// A symbol is a token where what follows doesn't go on with it.
pub fn symbols_end()
    ensures { (l : Language) (own rest : List ℕ) → IsTrue (is_symbol own) → IsTrue (not (begins (goes_on own) rest)) → IsToken l Symbol own rest }
{}

/// A text of pieces, of which no name is too long and no number too large, has the tokens among
/// them and breaks no rule, if it is UTF-8 where it is a file.
pub fn pieces_keep()
    ensures { (l : Language) (file : ℕ) (before text : List ℕ) (pieces : List Piece) → AreRead l pieces text [] → AreFine l pieces → (l ≡ Aadl → IsUtf8 text) → AreKept l file before text (tokens_of file before pieces) }
{}
