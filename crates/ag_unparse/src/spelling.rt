//! The words of clauses as a text of the grammar.
ghost use Rattle.std.specs.Prelude.{List, IsTrue};
ghost use Rattle.ag_grammar.specs.declared.grammar.Step.{Step};
ghost use Rattle.ag_terms.specs.declared.clauses.Clause.{Clause};
ghost use Rattle.ag_unparse.specs.Printable.{are_printable_clauses};
ghost use Rattle.ag_unparse.specs.Spelling.{IsSpelling, clauses_words};

/// The words of clauses are a text of the grammar of clauses, each under the mark that it has.
pub fn clauses_spell()
    ensures { (clauses : List Clause) → IsTrue (are_printable_clauses clauses) → (steps : List Step) × IsSpelling (clauses_words clauses) steps }
{}
