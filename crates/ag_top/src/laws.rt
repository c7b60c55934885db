//! That the print of a text has exactly one answer.
ghost use Rattle.std.specs.Prelude.{◌≡◌, ◌⊎◌, ℕ, List};
ghost use Rattle.ag_base.specs.declared.place.Refusal.{Refusal};
ghost use Rattle.ag_top.specs.Printing.{IsPrinted, IsPrintRefused};

/// A text has one canonical text at most and gets one refusal at most, and never both.
pub fn one_print()
    ensures printed { (text a b : List ℕ) → IsPrinted text a → IsPrinted text b → a ≡ b }
    ensures refused { (text : List ℕ) (r s : Refusal) → IsPrintRefused text r → IsPrintRefused text s → r ≡ s }
    ensures not_both { (text a : List ℕ) (r : Refusal) → IsPrinted text a → IsPrintRefused text r → ⊥ }
{
    ag_lex::one_reading();
    ag_lex::one_refusal();
    ag_aadl::one_reading();
    ag_aadl::one_refusal();
    ag_print::one_answer();
}

/// Each text has a canonical text or gets a refusal. With `one_print` it is exactly one of the two.
pub fn one_of_the_two()
    ensures { (text : List ℕ) → ((printed : List ℕ) × IsPrinted text printed)
        ⊎ ((r : Refusal) × IsPrintRefused text r) }
{
    ag_lex::one_of_the_two();
    ag_aadl::one_of_the_two();
    ag_annex::one_of_the_two();
    ag_print::files_are_printable();
    ag_print::canonical_rereads();
    ag_print::annexes_reread();
}
