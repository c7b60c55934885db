//! What canonical text declares.
ghost use Rattle.std.specs.Prelude.{◌≡◌, ℕ, List, [], IsTrue};
ghost use Rattle.ag_grammar.specs.declared.grammar.Step.{Step};
ghost use Rattle.ag_lex.specs.declared.token.Language.TheVariants.{Aadl};
ghost use Rattle.ag_lex.specs.declared.token.Token.{Token};
ghost use Rattle.ag_lex.specs.Answers.{AreKept};
ghost use Rattle.ag_aadl.specs.declared.packages.Package.{Package};
ghost use Rattle.ag_aadl.specs.Files.{IsFile};
ghost use Rattle.ag_aadl.specs.Marked.{marked};
ghost use Rattle.ag_aadl.specs.Words.{terminals_of};
ghost use Rattle.ag_print.specs.Annexes.{Stated, PackagesState};
ghost use Rattle.ag_print.specs.Canonical.{canonical_text};
ghost use Rattle.ag_print.specs.Printable.{are_printable, StatedMayBePrinted};
ghost use Rattle.ag_print.specs.Printed.{AllShallow};
ghost use Rattle.ag_print.specs.Rereading.{StandAs, Declare, IsReread, AreStatedAgain};
ghost use Rattle.ag_print.specs.Same.{SamePackages, SameStated, SameAnnexed};
ghost use Rattle.ag_grammar.specs.Texts.{marks_of};
ghost use Rattle.ag_print.specs.Spelling.{canonical_words, marks_of_words};

use crate::laws::{canonical_spells, files_are_printable};

/// The words of packages read back: in any text, and whatever stands between them, the tokens that they
/// stand as break no rule and declare the same packages.
pub fn words_reread()
    ensures { (packages : List Package) (stated : Stated) (bytes : List ℕ) (tokens : List Token) (steps : List Step) → StandAs bytes tokens (canonical_words packages stated) → marks_of steps ≡ marks_of_words (canonical_words packages stated) → Declare bytes (marked (terminals_of bytes tokens) tokens steps) packages }
{}

/// The canonical text of packages is a file that breaks no rule and declares the same packages, which are
/// printed as the same text again.
pub fn canonical_rereads()
    ensures { (file : ℕ) (packages : List Package) (stated : Stated) → IsTrue (are_printable packages) → StatedMayBePrinted packages stated → (tokens : List Token) × (found : List Package) × IsReread file packages stated tokens found }
{
    canonical_spells();
    ag_unparse::one_text();
}

/// The annexes in it state the same clauses, if no level of their text passes the limit. Where one does,
/// not all of them state clauses.
pub fn annexes_reread()
    ensures read { (file : ℕ) (packages : List Package) (stated : Stated) → IsTrue (are_printable packages) → StatedMayBePrinted packages stated → AllShallow stated → AreStatedAgain file packages stated }
    ensures shallow { (file : ℕ) (packages : List Package) (stated : Stated) (tokens : List Token) (found : List Package) (found_stated : Stated) → IsTrue (are_printable packages) → StatedMayBePrinted packages stated → AreKept Aadl file [] (canonical_text packages stated) tokens → IsFile (canonical_text packages stated) tokens found → PackagesState (canonical_text packages stated) found found_stated → AllShallow stated }
{
    canonical_spells();
    files_are_printable();
    ag_unparse::one_text();
    ag_unparse::clauses_reread();
    ag_lex::tokens_stand();
    ag_lex::one_reading();
    ag_aadl::one_reading();
}

/// Packages that are the same, have annexes at the same declarations and state the same have one canonical text,
/// and those that have one are the same.
pub fn one_text()
    ensures text { (packages others : List Package) (stated also : Stated) → SamePackages packages others → SameAnnexed packages others → SameStated stated also → canonical_text packages stated ≡ canonical_text others also }
    ensures same { (packages others : List Package) (stated also : Stated) → IsTrue (are_printable packages) → IsTrue (are_printable others) → StatedMayBePrinted packages stated → StatedMayBePrinted others also → canonical_text packages stated ≡ canonical_text others also → SamePackages packages others }
{
    canonical_rereads();
    ag_unparse::one_text();
    ag_lex::one_reading();
    ag_aadl::one_reading();
}
