//! The tokens of canonical text.
ghost use Rattle.std.specs.Prelude.{ℕ, List, IsTrue};
ghost use Rattle.ag_lex.specs.declared.token.Token.{Token};
ghost use Rattle.ag_terms.specs.declared.clauses.Clause.{Clause};
ghost use Rattle.ag_unparse.specs.Printable.{are_printable_clauses};
ghost use Rattle.ag_unparse.specs.Rereading.{AreRead};

use ag_lex::{names_end, numbers_end, pieces_keep, symbols_end, texts_end};

/// The canonical text of clauses, between the marks of an annex wherever it stands in a file, breaks no
/// rule of tokens, and its tokens are the words of the clauses.
pub fn clauses_are_read()
    ensures { (file : ℕ) (before after : List ℕ) (clauses : List Clause) → IsTrue (are_printable_clauses clauses) → (tokens : List Token) × AreRead file before after clauses tokens }
{
    names_end();
    numbers_end();
    texts_end();
    symbols_end();
    pieces_keep();
}
