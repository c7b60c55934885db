//! What canonical text depends on.
ghost use Rattle.std.specs.Prelude.{◌≡◌, List};
ghost use Rattle.ag_terms.specs.declared.clauses.Clause.{Clause};
ghost use Rattle.ag_unparse.specs.Canonical.{clauses_text};
ghost use Rattle.ag_unparse.specs.Same.{SameClauses};

/// Clauses that are the same but for places have one canonical text.
pub fn one_text()
    ensures { (clauses others : List Clause) → SameClauses clauses others → clauses_text clauses ≡ clauses_text others }
{}
