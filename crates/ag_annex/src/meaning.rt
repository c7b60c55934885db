//! The clauses that an annex's marked tokens state.
ghost use Rattle.std.specs.Prelude.{◌≡◌, ◌∷◌, [], IfOk, map};
ghost use Rattle.ag_aadl.specs.Marked.{segments};
ghost use Rattle.ag_annex.specs.Clauses.{value_of, some_value, type_of, var_of, vars_of, equal_of, label_of, labelled_of, parts_of_node, node_of, clause_under, clauses_of};
ghost use Rattle.ag_annex.specs.Expressions.{AreNumbersFit};
ghost use Rattle.ag_annex.specs.Marks.{target_mark};

use crate::marks::{
    ASSIGN_MARK, ASSUME_MARK, BOOL_MARK, CONST_MARK, END_MARK, EQ_MARK, GUARANTEE_MARK, LABEL_MARK,
    LEMMA_MARK, LET_MARK, LOCALS_MARK, NODE_MARK, NODE_NAME_MARK, RETURNS_MARK, TARGET_MARK,
    VALUE_MARK, VARIABLE_MARK,
};
use crate::reading::term_of;
use crate::spans::{after, first_mark, part_under, up_to};
use ag_aadl::find::{first_under, has_mark, segments};
use ag_aadl::marked::Marked;
use ag_aadl::{ident_under, text_of};
use ag_base::{List, OutOfMemory};
use ag_lex::Token;
use ag_terms::{Clause, Equal, Labelled, NodeDef, Term, Ty, Var};
use std::alloc::Global;

// The expression behind the `:` or `=`.
fn value_of(alloc: Global, bytes: &[u8], marked: &[Marked]) -> Result<Term, OutOfMemory>
    requires { AreNumbersFit bytes.now marked.now }
    ensures { IfOk result (λ t. t ≡ value_of bytes.now marked.now) }
{
    term_of(alloc, bytes, up_to(&[END_MARK], after(VALUE_MARK, marked)))
}

fn some_value(alloc: Global, bytes: &[u8], marked: &[Marked]) -> Result<Option<Term>, OutOfMemory>
    requires { AreNumbersFit bytes.now marked.now }
    ensures { IfOk result (λ t. t ≡ some_value bytes.now marked.now) }
{
    if !has_mark(VALUE_MARK, marked) {
        return Ok(None);
    }
    Ok(Some(value_of(alloc, bytes, marked)?))
}

fn type_of(marked: &[Marked]) -> Ty
    ensures { result ≡ type_of marked.now }
{
    if has_mark(BOOL_MARK, marked) {
        Ty::Bool
    } else {
        Ty::Int
    }
}

fn var_of(alloc: Global, bytes: &[u8], marked: &[Marked]) -> Result<Var, OutOfMemory>
    ensures { IfOk result (λ v. v ≡ var_of bytes.now marked.now) }
{
    Ok(Var {
        name: ident_under(alloc, bytes, VARIABLE_MARK, marked)?,
        ty: type_of(marked),
    })
}

fn vars_of(alloc: Global, bytes: &[u8], marked: &[Marked]) -> Result<List<Var>, OutOfMemory>
    ensures { IfOk result (λ vs. vs ≡ vars_of bytes.now marked.now) }
{
    let parts = segments(alloc, &[VARIABLE_MARK], marked)?;
    let mut vars = List::new(alloc);
    for part in &parts {
        vars.push(var_of(alloc, bytes, part)?)?;
    }
    Ok(vars)
}

fn equal_of(alloc: Global, bytes: &[u8], marked: &[Marked]) -> Result<Equal, OutOfMemory>
    requires { AreNumbersFit bytes.now marked.now }
    ensures { IfOk result (λ e. e ≡ equal_of bytes.now marked.now) }
{
    Ok(Equal {
        name: ident_under(alloc, bytes, TARGET_MARK, marked)?,
        value: value_of(alloc, bytes, marked)?,
    })
}

// The equations among some tokens, in order.
fn equations_of(alloc: Global, bytes: &[u8], marked: &[Marked]) -> Result<List<Equal>, OutOfMemory>
    requires { AreNumbersFit bytes.now marked.now }
    ensures { IfOk result (λ es. es ≡ map (equal_of bytes.now) (segments (target_mark ∷ []) marked.now)) }
{
    let parts = segments(alloc, &[TARGET_MARK], marked)?;
    let mut equations = List::new(alloc);
    for part in &parts {
        equations.push(equal_of(alloc, bytes, part)?)?;
    }
    Ok(equations)
}

// The bytes between the quotes. Where the span isn't one of the file's, what the file has of it.
fn label_of<'a>(bytes: &'a [u8], token: &Token) -> &'a [u8]
    ensures { result.now ≡ label_of bytes.now token.now }
{
    let end = (token.end as usize).saturating_sub(1).min(bytes.len());
    let start = (token.start as usize + 1).min(end);
    &bytes[start..end]
}

fn labelled_of(
    alloc: Global,
    bytes: &[u8],
    mark: u8,
    marked: &[Marked],
) -> Result<Labelled, OutOfMemory>
    requires { AreNumbersFit bytes.now marked.now }
    ensures { IfOk result (λ l. l ≡ labelled_of bytes.now mark marked.now) }
{
    Ok(Labelled {
        label: text_of(alloc, label_of(bytes, &first_under(LABEL_MARK, marked)))?,
        claim: value_of(alloc, bytes, marked)?,
        place: first_under(mark, marked).place,
    })
}

// A node's head, what it returns, its locals, its equations.
fn parts_of_node<'a>(alloc: Global, marked: &'a [Marked]) -> Result<Vec<&'a [Marked]>, OutOfMemory>
    ensures { IfOk result (λ parts. map (λ p. p.now) parts.items ≡ parts_of_node marked.now) }
{
    let marks = [NODE_MARK, RETURNS_MARK, LOCALS_MARK, LET_MARK];
    segments(alloc, &marks, marked)
}

fn node_of(alloc: Global, bytes: &[u8], marked: &[Marked]) -> Result<NodeDef, OutOfMemory>
    requires { AreNumbersFit bytes.now marked.now }
    ensures { IfOk result (λ n. n ≡ node_of bytes.now marked.now) }
{
    let parts = parts_of_node(alloc, marked)?;
    let parts = parts.as_slice();
    Ok(NodeDef {
        name: ident_under(alloc, bytes, NODE_NAME_MARK, marked)?,
        inputs: vars_of(alloc, bytes, part_under(NODE_MARK, parts))?,
        outputs: vars_of(alloc, bytes, part_under(RETURNS_MARK, parts))?,
        locals: vars_of(alloc, bytes, part_under(LOCALS_MARK, parts))?,
        equations: equations_of(alloc, bytes, part_under(LET_MARK, parts))?,
    })
}

// A clause that begins with a word under this mark.
fn clause_under(
    alloc: Global,
    bytes: &[u8],
    mark: u8,
    marked: &[Marked],
) -> Result<Clause, OutOfMemory>
    requires { AreNumbersFit bytes.now marked.now }
    ensures { IfOk result (λ c. c ≡ clause_under bytes.now mark marked.now) }
{
    match mark {
        ASSUME_MARK => Ok(Clause::Assume(labelled_of(alloc, bytes, mark, marked)?)),
        GUARANTEE_MARK => Ok(Clause::Guarantee(labelled_of(alloc, bytes, mark, marked)?)),
        LEMMA_MARK => Ok(Clause::Lemma(labelled_of(alloc, bytes, mark, marked)?)),
        EQ_MARK => Ok(Clause::Eq {
            names: vars_of(alloc, bytes, marked)?,
            value: some_value(alloc, bytes, marked)?,
        }),
        ASSIGN_MARK => Ok(Clause::Assign(equal_of(alloc, bytes, marked)?)),
        CONST_MARK => Ok(Clause::Const {
            name: var_of(alloc, bytes, marked)?,
            value: value_of(alloc, bytes, marked)?,
        }),
        _ => Ok(Clause::Node(node_of(alloc, bytes, marked)?)),
    }
}

/// The clauses that an annex's marked tokens state.
pub fn clauses_of(
    alloc: Global,
    bytes: &[u8],
    marked: &[Marked],
) -> Result<List<Clause>, OutOfMemory>
    requires { AreNumbersFit bytes.now marked.now }
    ensures { IfOk result (λ cs. cs ≡ clauses_of bytes.now marked.now) }
{
    let marks = [
        ASSUME_MARK,
        GUARANTEE_MARK,
        LEMMA_MARK,
        EQ_MARK,
        ASSIGN_MARK,
        CONST_MARK,
        NODE_MARK,
    ];
    let parts = segments(alloc, &marks, marked)?;
    let mut clauses = List::new(alloc);
    for part in &parts {
        clauses.push(clause_under(alloc, bytes, first_mark(part), part)?)?;
    }
    Ok(clauses)
}
