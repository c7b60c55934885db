//! What canonical text is read as, and that the annexes of packages have one answer.
ghost use Rattle.std.specs.Prelude.{◌≡◌, ℕ, List, [], IsTrue};
ghost use Rattle.std.specs.List.{All};
ghost use Rattle.ag_base.specs.declared.place.Refusal.{Refusal};
ghost use Rattle.ag_grammar.specs.declared.grammar.Step.{Step};
ghost use Rattle.ag_lex.specs.declared.token.Language.TheVariants.{Aadl};
ghost use Rattle.ag_lex.specs.declared.token.Token.{Token};
ghost use Rattle.ag_lex.specs.Answers.{AreKept};
ghost use Rattle.ag_aadl.specs.declared.packages.Package.{Package};
ghost use Rattle.ag_aadl.specs.Files.{IsFile};
ghost use Rattle.ag_print.specs.Annexes.{Stated, PackagesState, IsAnnexRefused, annexes_of_packages};
ghost use Rattle.ag_print.specs.Printable.{are_printable, StatedMayBePrinted};
ghost use Rattle.ag_print.specs.Shares.{IsOneOf};
ghost use Rattle.ag_print.specs.Spelling.{IsReadCanonical};

use crate::lines_read;
use ag_unparse::{text_is_utf8, text_never_closes};

/// The canonical text of packages and of what their annexes state breaks no rule of tokens, and its tokens
/// are a text of the grammar, each under the mark that its word has.
pub fn canonical_spells()
    ensures { (file : ℕ) (packages : List Package) (stated : Stated) → IsTrue (are_printable packages) → StatedMayBePrinted packages stated → (tokens : List Token) × (steps : List Step) × IsReadCanonical file packages stated tokens steps }
{
    text_never_closes();
    text_is_utf8();
    lines_read();
}

/// The packages of a file are printable, their annexes are annexes of the file, and what these state may
/// be printed.
pub fn files_are_printable()
    ensures packages { (file : ℕ) (bytes : List ℕ) (tokens : List Token) (packages : List Package) → AreKept Aadl file [] bytes tokens → IsFile bytes tokens packages → IsTrue (are_printable packages) }
    ensures annexes { (file : ℕ) (bytes : List ℕ) (tokens : List Token) (packages : List Package) → AreKept Aadl file [] bytes tokens → IsFile bytes tokens packages → All (IsOneOf bytes) (annexes_of_packages packages) }
    ensures stated { (file : ℕ) (bytes : List ℕ) (tokens : List Token) (packages : List Package) (stated : Stated) → AreKept Aadl file [] bytes tokens → IsFile bytes tokens packages → PackagesState bytes packages stated → StatedMayBePrinted packages stated }
{
    ag_unparse::annexes_may_be_printed();
    ag_unparse::labels_are_text();
    ag_lex::files_are_text();
}

/// The annexes of packages state one thing at most and get one refusal at most, and never both.
pub fn one_answer()
    ensures stated { (bytes : List ℕ) (packages : List Package) (a b : Stated) → PackagesState bytes packages a → PackagesState bytes packages b → a ≡ b }
    ensures refused { (bytes : List ℕ) (packages : List Package) (r s : Refusal) → IsAnnexRefused bytes packages r → IsAnnexRefused bytes packages s → r ≡ s }
    ensures not_both { (bytes : List ℕ) (packages : List Package) (a : Stated) (r : Refusal) → PackagesState bytes packages a → IsAnnexRefused bytes packages r → ⊥ }
{
    ag_lex::one_reading();
    ag_lex::one_refusal();
    ag_annex::one_reading();
    ag_annex::one_refusal();
}
