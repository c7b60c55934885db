//! Writing clauses, a line for each.
ghost use Rattle.std.specs.Prelude.{◌≡◌, ◌++◌, [], ◌∷◌, map, codes, OnOk};
ghost use Rattle.std.specs.List.{flat_map};
ghost use Rattle.std.specs.String.{string_bytes};
ghost use Rattle.ag_annex.specs.Marks.{end_mark, let_mark, tel_mark};
ghost use Rattle.ag_unparse.specs.Canonical.{name_at, sign, sign_at, term_words, vars_words, some_value_words, equal_words, labelled_words, locals_words, node_words, clause_words, clauses_text};
ghost use Rattle.ag_unparse.specs.Written.{with_words, with_lines};

use crate::terms::write_term;
use crate::words::{write_name, write_var, write_vars};
use crate::writer::Writer;
use ag_annex::{Clause, Equal, Labelled, NodeDef, Term, Var};
use ag_base::OutOfMemory;
use std::mem::replace;

/// Writes the canonical text of clauses behind a text, a line for each. After an error a part of them
/// may stand behind the text.
pub fn write_clauses(text: &mut String, clauses: &[Clause]) -> Result<(), OutOfMemory>
    ensures { OnOk result (string_bytes text.new ≡ string_bytes text.old ++ clauses_text clauses.now) }
{
    let nothing = String::new(*text.allocator());
    let mut writer = Writer::new(replace(text, nothing));
    let written = write_lines(&mut writer, clauses);
    *text = writer.into_text();
    written
}

fn write_lines(writer: &mut Writer, clauses: &[Clause]) -> Result<(), OutOfMemory>
    ensures { OnOk result (writer.new ≡ with_lines writer.old (map clause_words clauses.now)) }
{
    for clause in clauses {
        write_clause(writer, clause)?;
        writer.end_line()?;
    }
    Ok(())
}

fn write_clause(writer: &mut Writer, clause: &Clause) -> Result<(), OutOfMemory>
    ensures { OnOk result (writer.new ≡ with_words writer.old (clause_words clause.now)) }
{
    match clause {
        Clause::Assume(claim) => write_claim(writer, "assume", claim),
        Clause::Guarantee(claim) => write_claim(writer, "guarantee", claim),
        Clause::Lemma(claim) => write_claim(writer, "lemma", claim),
        Clause::Eq { names, value } => {
            writer.word("eq")?;
            write_vars(writer, names.as_slice())?;
            write_some_value(writer, value)
        }
        Clause::Assign(equal) => {
            writer.word("assign")?;
            write_equal(writer, equal)
        }
        Clause::Const { name, value } => {
            writer.word("const")?;
            write_var(writer, name)?;
            write_value(writer, "=", value)
        }
        Clause::Node(node) => write_node(writer, node),
    }
}

/// Writes an assumption, a guarantee or a lemma behind its first word.
fn write_claim(writer: &mut Writer, first: &str, claim: &Labelled) -> Result<(), OutOfMemory>
    ensures { OnOk result (writer.new ≡ with_words writer.old (labelled_words (name_at 0 first.now) claim.now)) }
{
    writer.word(first)?;
    writer.quoted(claim.label.as_str())?;
    write_value(writer, ":", &claim.claim)
}

/// Writes an expression between a sign and `;`.
fn write_value(writer: &mut Writer, before: &str, value: &Term) -> Result<(), OutOfMemory>
    ensures { OnOk result (writer.new ≡ with_words writer.old (name_at 0 before.now ∷ (term_words value.now ++ sign_at end_mark (codes ";") ∷ []))) }
{
    writer.word(before)?;
    write_term(writer, value)?;
    writer.back(";")
}

/// Writes the value of an `eq`, if it has one, and its end.
fn write_some_value(writer: &mut Writer, value: &Option<Term>) -> Result<(), OutOfMemory>
    ensures { OnOk result (writer.new ≡ with_words writer.old (some_value_words value.now)) }
{
    match value {
        None => writer.back(";"),
        Some(value) => write_value(writer, "=", value),
    }
}

fn write_equal(writer: &mut Writer, equal: &Equal) -> Result<(), OutOfMemory>
    ensures { OnOk result (writer.new ≡ with_words writer.old (equal_words equal.now)) }
{
    write_name(writer, &equal.name)?;
    write_value(writer, "=", &equal.value)
}

fn write_node(writer: &mut Writer, node: &NodeDef) -> Result<(), OutOfMemory>
    ensures { OnOk result (writer.new ≡ with_words writer.old (node_words node.now)) }
{
    writer.word("node")?;
    write_name(writer, &node.name)?;
    write_between(writer, node.inputs.as_slice())?;
    writer.word("returns")?;
    write_between(writer, node.outputs.as_slice())?;
    writer.back(";")?;
    write_locals(writer, node.locals.as_slice())?;
    write_equations(writer, node.equations.as_slice())
}

/// Writes declared names between parentheses.
fn write_between(writer: &mut Writer, vars: &[Var]) -> Result<(), OutOfMemory>
    ensures { OnOk result (writer.new ≡ with_words writer.old (sign (codes "(") ∷ (vars_words vars.now ++ sign (codes ")") ∷ []))) }
{
    writer.front("(")?;
    write_vars(writer, vars)?;
    writer.back(")")
}

/// Writes the locals of a node under the word `var`, if there are any.
fn write_locals(writer: &mut Writer, locals: &[Var]) -> Result<(), OutOfMemory>
    ensures { OnOk result (writer.new ≡ with_words writer.old (locals_words locals.now)) }
{
    if locals.is_empty() {
        return Ok(());
    }
    writer.word("var")?;
    for local in locals {
        write_var(writer, local)?;
        writer.back(";")?;
    }
    Ok(())
}

/// Writes the equations of a node between `let` and `tel`, and its end.
fn write_equations(writer: &mut Writer, equations: &[Equal]) -> Result<(), OutOfMemory>
    ensures { OnOk result (writer.new ≡ with_words writer.old (name_at let_mark (codes "let")
        ∷ (flat_map equal_words equations.now ++ name_at tel_mark (codes "tel") ∷ sign (codes ";") ∷ []))) }
{
    writer.word("let")?;
    for equal in equations {
        write_equal(writer, equal)?;
    }
    writer.word("tel")?;
    writer.back(";")
}
