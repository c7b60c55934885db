//! The canonical text of clauses as bytes between the marks of an annex.
ghost use Rattle.std.specs.Prelude.{ℕ, List, ◌++◌, IsTrue, not, codes};
ghost use Rattle.std.specs.Str.{IsUtf8};
ghost use Rattle.ag_lex.specs.Spelling.{has_close};
ghost use Rattle.ag_lex.specs.declared.token.Token.{Token};
ghost use Rattle.ag_terms.specs.declared.clauses.Clause.{Clause};
ghost use Rattle.ag_terms.specs.declared.clauses.Site.{Site};
ghost use Rattle.ag_annex.specs.Annexes.{AreAnnexTokens, IsAnnex};
ghost use Rattle.ag_unparse.specs.Canonical.{inside_text};
ghost use Rattle.ag_unparse.specs.Printable.{are_printable_clauses, AreLabelsText};

/// No annex ends inside the canonical text of clauses.
pub fn text_never_closes()
    ensures { (clauses : List Clause) → IsTrue (are_printable_clauses clauses) → IsTrue (not (has_close (inside_text clauses ++ codes "**"))) }
{}

/// The canonical text of clauses is UTF-8 where their labels are.
pub fn text_is_utf8()
    ensures { (clauses : List Clause) → IsTrue (are_printable_clauses clauses) → AreLabelsText clauses → IsUtf8 (inside_text clauses) }
{}

/// The labels of the clauses of an annex are UTF-8 where its file is.
pub fn labels_are_text()
    ensures { (bytes : List ℕ) (tokens : List Token) (site : Site) (clauses : List Clause) → IsUtf8 bytes → AreAnnexTokens bytes tokens → IsAnnex bytes tokens site clauses → AreLabelsText clauses }
{}
