//! Canonical text of packages and of what their annexes state.
//!
//! It promises that what is printed is the canonical text of packages, and that this text declares the
//! same packages and states the same when it is read. Start at `print_file`, and at specs/Canonical.antt.
#![tactic(auto)]

ghost use Rattle.std.specs.Prelude.{◌≡◌, ℕ, List, [], map};
ghost use Rattle.std.specs.List.{All};
ghost use Rattle.ag_lex.specs.declared.token.Language.TheVariants.{Aadl};
ghost use Rattle.ag_lex.specs.declared.token.Token.{Token};
ghost use Rattle.ag_lex.specs.Answers.{AreKept};
ghost use Rattle.ag_print.specs.Layout.{Word, IsSoundLine, text_bytes, words_of, word_at};

mod annexes;
mod laws;
mod print;
mod rereading;
mod symbol;
mod writer;

use ag_lex::{annexes_end, names_end, pieces_keep, symbols_end};
pub use laws::{canonical_spells, files_are_printable, one_answer};
pub use print::print_file;
pub use rereading::{annexes_reread, canonical_rereads, one_text, words_reread};
pub use symbol::Symbol;
pub use writer::Writer;

/// Lines of names, annexes and the symbols of packages read again: the tokens of their text are their
/// words, and the text breaks no rule. Symbols that would run together may not stand side by side.
pub fn lines_read()
    ensures { (file : ℕ) (lines : List (List Word)) → All IsSoundLine lines → (tokens : List Token) × AreKept Aadl file [] (text_bytes lines) tokens × (map (word_at (text_bytes lines)) tokens ≡ words_of lines) }
{
    names_end();
    symbols_end();
    annexes_end();
    pieces_keep();
}
