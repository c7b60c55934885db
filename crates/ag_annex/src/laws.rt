//! That tokens are clauses or break a rule.
ghost use Rattle.std.specs.Prelude.{ℕ, List, ◌⊎◌};
ghost use Rattle.ag_base.specs.declared.place.Refusal.{Refusal};
ghost use Rattle.ag_grammar.specs.Founded.{IsFounded};
ghost use Rattle.ag_lex.specs.declared.token.Token.{Token};
ghost use Rattle.ag_terms.specs.declared.clauses.Clause.{Clause};
ghost use Rattle.ag_terms.specs.declared.clauses.Site.{Site};
ghost use Rattle.ag_annex.specs.Annexes.{IsAnnex, IsFirstWrong};
ghost use Rattle.ag_annex.specs.Grammar.{annex};

/// In the grammar of clauses no nonterminal begins with itself.
pub fn annex_is_founded()
    ensures { IsFounded annex }
{}

/// Tokens are those of some clauses, or there is a rule that they break first.
pub fn one_of_the_two()
    ensures { (bytes : List ℕ) (tokens : List Token) (site : Site) → ((clauses : List Clause) × IsAnnex bytes tokens site clauses) ⊎ ((r : Refusal) × IsFirstWrong bytes tokens site r) }
{
    annex_is_founded();
    ag_grammar::one_of_the_two();
}
