//! Writing expressions.
ghost use Rattle.std.specs.Prelude.{◌≡◌, ◌++◌, [], ◌∷◌, codes, OnOk};
ghost use Rattle.ag_unparse.specs.Canonical.{name_at, binary_word, open_word, close_word, truth_word as word_of_truth, term_words};
ghost use Rattle.ag_unparse.specs.Written.{with_words, unary_words, listed_words};

use crate::words::write_path;
use crate::writer::Writer;
use ag_annex::{Binary, Term, Unary};
use ag_base::OutOfMemory;

/// Writes an expression, each application of an operator and each `if` in parentheses.
#[cycle(write_term)]
pub fn write_term(writer: &mut Writer, term: &Term) -> Result<(), OutOfMemory>
    ensures { OnOk result (writer.new ≡ with_words writer.old (term_words term.now)) }
{
    match term {
        Term::Number { value, .. } => writer.number(*value),
        Term::Truth { value, .. } => writer.word(truth_word(*value)),
        Term::Named { path } => write_path(writer, path),
        Term::Unary { op, arg, .. } => {
            begin_unary(writer, *op)?;
            write_last(writer, arg.get())
        }
        Term::Binary {
            op,
            left,
            right,
            ..
        } => {
            writer.front("(")?;
            write_term(writer, left.get())?;
            writer.word(operator_word(*op))?;
            write_last(writer, right.get())
        }
        Term::Choice { test, yes, no, .. } => {
            begin_group(writer, "if")?;
            write_term(writer, test.get())?;
            writer.word("then")?;
            write_term(writer, yes.get())?;
            writer.word("else")?;
            write_last(writer, no.get())
        }
        Term::Call { path, args } => {
            write_path(writer, path)?;
            writer.joint("(")?;
            write_arguments(writer, args.as_slice())?;
            writer.back(")")
        }
    }
}

/// Writes the last operand between parentheses, before the `)`.
#[cycle(write_term)]
fn write_last(writer: &mut Writer, term: &Term) -> Result<(), OutOfMemory>
    ensures { OnOk result (writer.new ≡ with_words writer.old (term_words term.now ++ close_word ∷ [])) }
{
    write_term(writer, term)?;
    writer.back(")")
}

/// Writes what stands before the one operand of an operator.
fn begin_unary(writer: &mut Writer, op: Unary) -> Result<(), OutOfMemory>
    ensures { OnOk result (writer.new ≡ with_words writer.old (unary_words op)) }
{
    match op {
        Unary::Minus => begin_group(writer, "-"),
        Unary::Not => begin_group(writer, "not"),
        Unary::Pre => {
            writer.word("pre")?;
            writer.joint("(")
        }
    }
}

/// Writes the first word between parentheses, behind the `(`.
fn begin_group(writer: &mut Writer, first: &str) -> Result<(), OutOfMemory>
    ensures { OnOk result (writer.new ≡ with_words writer.old (open_word ∷ name_at 0 first.now ∷ [])) }
{
    writer.front("(")?;
    writer.word(first)
}

/// Writes the arguments of a call, apart by `,`.
#[cycle(write_term)]
fn write_arguments(writer: &mut Writer, args: &[Term]) -> Result<(), OutOfMemory>
    ensures { OnOk result (writer.new ≡ with_words writer.old (listed_words [] args.now)) }
{
    let [first, more @ ..] = args else {
        return Ok(());
    };
    write_term(writer, first)?;
    for arg in more {
        writer.back(",")?;
        write_term(writer, arg)?;
    }
    Ok(())
}

fn truth_word(value: bool) -> &'static str
    ensures { result.now ≡ (word_of_truth value).own }
{
    if value { "true" } else { "false" }
}

fn operator_word(op: Binary) -> &'static str
    ensures { result.now ≡ (binary_word op).own }
{
    match op {
        Binary::Arrow => "->",
        Binary::Implies => "=>",
        Binary::Iff => "<=>",
        Binary::Or => "or",
        Binary::And => "and",
        Binary::Less => "<",
        Binary::AtMost => "<=",
        Binary::More => ">",
        Binary::AtLeast => ">=",
        Binary::Same => "=",
        Binary::Differs => "<>",
        Binary::Plus => "+",
        Binary::Minus => "-",
        Binary::Times => "*",
        Binary::Div => "div",
        Binary::Mod => "mod",
    }
}
