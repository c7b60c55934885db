//! Writing names, with and without types.
ghost use Rattle.std.specs.Prelude.{◌≡◌, ◌++◌, [], ◌∷◌, false, OnOk};
ghost use Rattle.ag_unparse.specs.Canonical.{name_at, part_words, package_parts, body_words, path_words, type_word as word_of_type, var_words, vars_words, more_var_words};
ghost use Rattle.ag_unparse.specs.Written.{with_bytes, with_word, with_words};

use crate::writer::Writer;
use ag_aadl::packages::{Ident, Path};
use ag_annex::{Ty, Var};
use ag_base::OutOfMemory;

pub fn write_name(writer: &mut Writer, ident: &Ident) -> Result<(), OutOfMemory>
    ensures { OnOk result (writer.new ≡ with_bytes writer.old false ident.now.text false) }
{
    writer.word(ident.text.as_str())
}

pub fn write_path(writer: &mut Writer, path: &Path) -> Result<(), OutOfMemory>
    ensures { OnOk result (writer.new ≡ with_words writer.old (path_words path.now)) }
{
    write_front(writer, path)?;
    write_body_name(writer, &path.body)
}

/// Writes a path's package, if it has one, and the name behind it.
fn write_front(writer: &mut Writer, path: &Path) -> Result<(), OutOfMemory>
    ensures { OnOk result (writer.new ≡ with_words writer.old
        (part_words (package_parts path.now.«package» ++ path.now.name.text ∷ []))) }
{
    let Some(package) = &path.package else {
        return write_name(writer, &path.name);
    };
    write_name(writer, package)?;
    writer.joint("::")?;
    write_name(writer, &path.name)
}

/// Writes the dot and the name that a path ends with.
fn write_body_name(writer: &mut Writer, body: &Option<Ident>) -> Result<(), OutOfMemory>
    ensures { OnOk result (writer.new ≡ with_words writer.old (body_words body.now)) }
{
    if let Some(body) = body {
        writer.joint(".")?;
        write_name(writer, body)?;
    }
    Ok(())
}

/// Writes declared names apart by `,`.
pub fn write_vars(writer: &mut Writer, vars: &[Var]) -> Result<(), OutOfMemory>
    ensures { OnOk result (writer.new ≡ with_words writer.old (vars_words vars.now)) }
{
    let [first, more @ ..] = vars else {
        return Ok(());
    };
    write_var(writer, first)?;
    write_more_vars(writer, more)
}

/// Writes declared names, each behind a `,`.
fn write_more_vars(writer: &mut Writer, vars: &[Var]) -> Result<(), OutOfMemory>
    ensures { OnOk result (writer.new ≡ with_words writer.old (more_var_words vars.now)) }
{
    for var in vars {
        writer.back(",")?;
        write_var(writer, var)?;
    }
    Ok(())
}

/// Writes a name and its type.
pub fn write_var(writer: &mut Writer, var: &Var) -> Result<(), OutOfMemory>
    ensures { OnOk result (writer.new ≡ with_words writer.old (var_words var.now)) }
{
    write_name(writer, &var.name)?;
    writer.word(":")?;
    writer.word(type_word(var.ty))
}

fn type_word(ty: Ty) -> &'static str
    ensures { result.now ≡ (word_of_type ty).own }
{
    match ty {
        Ty::Int => "int",
        Ty::Bool => "bool",
    }
}
