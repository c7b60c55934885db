//! Which clauses have a canonical text.
ghost use Rattle.std.specs.Prelude.{ℕ, List};
ghost use Rattle.ag_lex.specs.declared.token.Token.{Token};
ghost use Rattle.ag_terms.specs.declared.clauses.Clause.{Clause};
ghost use Rattle.ag_terms.specs.declared.clauses.Site.{Site};
ghost use Rattle.ag_annex.specs.Annexes.{AreAnnexTokens, IsAnnex};
ghost use Rattle.ag_unparse.specs.Rereading.{MayBePrinted};

/// The clauses of an annex may stand in an annex of its site, and have a canonical text.
pub fn annexes_may_be_printed()
    ensures { (bytes : List ℕ) (tokens : List Token) (site : Site) (clauses : List Clause) → AreAnnexTokens bytes tokens → IsAnnex bytes tokens site clauses → MayBePrinted site clauses }
{}
