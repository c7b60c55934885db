//! What the canonical text of clauses is read as.
ghost use Rattle.std.specs.Prelude.{ℕ, List};
ghost use Rattle.ag_lex.specs.declared.token.Language.TheVariants.{Agree};
ghost use Rattle.ag_lex.specs.declared.token.Token.{Token};
ghost use Rattle.ag_lex.specs.Answers.{AreKept};
ghost use Rattle.ag_terms.specs.declared.clauses.Clause.{Clause};
ghost use Rattle.ag_terms.specs.declared.clauses.Site.{Site};
ghost use Rattle.ag_annex.specs.Annexes.{IsAnnex};
ghost use Rattle.ag_unparse.specs.Canonical.{inside_text};
ghost use Rattle.ag_unparse.specs.Depth.{AreShallow};
ghost use Rattle.ag_unparse.specs.Rereading.{MayBePrinted, AreReread, around};

use crate::tokens::clauses_are_read;

/// The canonical text of clauses, between the marks of an annex of their site, is read again as clauses
/// that are the same, if no level in it passes the limit. Where one does, it is read as no clauses at all.
pub fn clauses_reread()
    ensures read { (site : Site) (file : ℕ) (before after : List ℕ) (clauses : List Clause) → MayBePrinted site clauses → AreShallow clauses → (tokens : List Token) × (found : List Clause) × AreReread site file before after clauses tokens found }
    ensures shallow { (site : Site) (file : ℕ) (before after : List ℕ) (clauses : List Clause) (tokens : List Token) (found : List Clause) → MayBePrinted site clauses → AreKept Agree file before (inside_text clauses) tokens → IsAnnex (around before clauses after) tokens site found → AreShallow clauses }
{
    clauses_are_read();
    ag_lex::one_reading();
    ag_grammar::one_derivation();
    ag_annex::annex_is_ll1();
}
