//! Expressions that are read, and those that the lines of their grammar give.
ghost use Rattle.std.specs.Prelude.{ℕ, suc, List, [], ◌∷◌, ◌++◌, ◌≡◌, ◌⊎◌, Err, map, take};
ghost use Rattle.std.specs.List.{All};
ghost use Rattle.ag_base.specs.declared.place.Refusal.{Refusal};
ghost use Rattle.ag_base.specs.declared.place.Rule.TheVariants.{Expected, TooDeep, Misplaced};
ghost use Rattle.ag_grammar.specs.declared.grammar.Step.{Step};
ghost use Rattle.ag_grammar.specs.declared.grammar.Symbol.TheVariants.{Nonterminal};
ghost use Rattle.ag_grammar.specs.Grammar.{Derives};
ghost use Rattle.ag_grammar.specs.Texts.{IsText, marks_of, shifts};
ghost use Rattle.ag_lex.specs.declared.token.Token.{Token};
ghost use Rattle.ag_aadl.specs.declared.marked.Marked.{Marked};
ghost use Rattle.ag_aadl.specs.Marked.{marked};
ghost use Rattle.ag_terms.specs.declared.clauses.Site.{Site};
ghost use Rattle.ag_terms.specs.declared.terms.Term.{Term};
ghost use Rattle.ag_annex.specs.Annexes.{BreaksRule};
ghost use Rattle.ag_annex.specs.Expressions.{term_of};
ghost use Rattle.ag_annex.specs.Grammar.{annex};
ghost use Rattle.ag_annex.specs.Nonterminals.{expression};
ghost use Rattle.ag_annex.specs.Rules.{Obeys, run};
ghost use Rattle.ag_annex.specs.Words.{terminals_of};
ghost use Rattle.ag_lines.specs.Lines.{AreAsMarked, AreByLines, IsRanked, expressions_in};
ghost use Rattle.ag_lines.specs.Reach.{IsStated};

/// Where an annex's tokens break no rule, each of its expressions is one that the lines give them, with each operand
/// behind an `else` as far as it can reach; and each token is the terminal that its mark stands for.
pub fn expressions_by_lines()
    ensures { (bytes : List ℕ) (tokens : List Token) (site : Site) (steps : List Step) → IsText annex (terminals_of bytes tokens) steps → Obeys site (marked (terminals_of bytes tokens) tokens steps) → All (λ ms. IsStated bytes 0 ms (term_of bytes ms) × AreAsMarked ms) (expressions_in (marked (terminals_of bytes tokens) tokens steps)) }
{}

/// Marked tokens state one expression so at most: the one that is read. It is among those that the lines give without
/// saying how far an operand behind an `else` reaches.
pub fn one_expression()
    ensures { (bytes : List ℕ) (ms : List Marked) (t : Term) → IsStated bytes 0 ms t → (term_of bytes ms ≡ t) × IsRanked bytes 0 ms t }
{}

/// The flat grammar derives each expression that the lines give, under the same marks, where each token is the terminal
/// that its mark stands for.
pub fn expressions_are_derived()
    ensures { (bytes : List ℕ) (ms : List Marked) (t : Term) → IsRanked bytes 0 ms t → AreAsMarked ms → (steps : List Step) × Derives annex steps (Nonterminal expression ∷ []) (map (λ m. m.terminal) ms) × (marks_of steps ≡ map (λ m. m.mark) ms) }
{}

/// The first rule that clauses break whose expressions the lines give is that of levels or that of the site, and never that
/// a comparison has no place.
pub fn clauses_obey()
    ensures { (bytes : List ℕ) (tokens : List Token) (site : Site) (steps : List Step) (r : Refusal) → AreByLines bytes tokens steps → run site (marked (terminals_of bytes tokens) tokens steps) ≡ Err r → (r.rule ≡ TooDeep) ⊎ (r.rule ≡ Misplaced) }
{}

/// Where a comparison is refused as it has no place, no such clauses of any file begin with the terminals before it and
/// with it.
pub fn none_begins_so()
    ensures { (bytes : List ℕ) (tokens : List Token) (site : Site) (r : Refusal) (b : BreaksRule bytes tokens site r) → r.rule ≡ Expected → (others : List ℕ) (found : List Token) (rest : List ℕ) (steps : List Step) → terminals_of others found ≡ take (suc (shifts b.before)) (terminals_of bytes tokens) ++ rest → AreByLines others found steps → ⊥ }
{}
