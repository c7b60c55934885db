//! What the words of clauses state.
ghost use Rattle.std.specs.Prelude.{◌≡◌, ℕ, List};
ghost use Rattle.ag_grammar.specs.declared.grammar.Step.{Step};
ghost use Rattle.ag_grammar.specs.Texts.{marks_of};
ghost use Rattle.ag_lex.specs.declared.token.Token.{Token};
ghost use Rattle.ag_aadl.specs.Marked.{marked};
ghost use Rattle.ag_terms.specs.declared.clauses.Clause.{Clause};
ghost use Rattle.ag_terms.specs.declared.clauses.Site.{Site};
ghost use Rattle.ag_annex.specs.Words.{terminals_of};
ghost use Rattle.ag_unparse.specs.Depth.{AreShallow};
ghost use Rattle.ag_unparse.specs.Rereading.{MayBePrinted, AreWithin, State};
ghost use Rattle.ag_unparse.specs.Spelling.{StandAs, clauses_words, marks_of_words};

/// The words of clauses read back: in any text, and whatever stands between them, the tokens that they
/// stand as break no rule at the clauses' site, and state the same clauses.
pub fn words_state()
    ensures { (site : Site) (clauses : List Clause) → MayBePrinted site clauses → AreShallow clauses → (bytes : List ℕ) (tokens : List Token) (steps : List Step) → StandAs bytes tokens (clauses_words clauses) → AreWithin bytes tokens → marks_of steps ≡ marks_of_words (clauses_words clauses) → State bytes site (marked (terminals_of bytes tokens) tokens steps) clauses }
{}
