//! Operands of one token, and names.
ghost use Rattle.std.specs.Prelude.{◌≡◌, IfOk};
ghost use Rattle.ag_annex.specs.Expressions.{no_term, named, operand_term, is_nothing, with_part, with_body};

use crate::frames::Operand;
use ag_aadl::path_of;
use ag_base::{OutOfMemory, Place};
use ag_lex::Token;
use ag_terms::{Path, Term};
use std::alloc::Global;

/// Whether there is no operand.
pub fn is_nothing(operand: &Operand) -> bool
    ensures { result ≡ is_nothing operand.now }
{
    match operand {
        Operand::Nothing => true,
        Operand::Name { .. } | Operand::Whole(_) => false,
    }
}

fn no_term() -> Term
    ensures { result ≡ no_term }
{
    let place = Place {
        file: 0,
        line: 0,
        column: 0,
    };
    Term::Truth {
        value: false,
        place,
    }
}

fn named(path: Option<Path>) -> Term
    ensures { result ≡ named path }
{
    match path {
        None => no_term(),
        Some(path) => Term::Named { path },
    }
}

/// The operand as an expression.
pub fn operand_term(alloc: Global, bytes: &[u8], operand: Operand) -> Result<Term, OutOfMemory>
    ensures { IfOk result (λ t. t ≡ operand_term bytes.now operand) }
{
    match operand {
        Operand::Nothing => Ok(no_term()),
        Operand::Name { parts, bodies } => {
            let path = path_of(alloc, bytes, parts.as_slice(), bodies.as_slice())?;
            Ok(named(path))
        }
        Operand::Whole(term) => Ok(term),
    }
}

/// Behind a further part of a name.
pub fn with_part(operand: Operand, part: Token) -> Result<Operand, OutOfMemory>
    ensures { IfOk result (λ o. o ≡ with_part operand part) }
{
    match operand {
        Operand::Name { mut parts, bodies } => {
            parts.push(part)?;
            Ok(Operand::Name { parts, bodies })
        }
        other => Ok(other),
    }
}

/// Behind the name after the dot of a name.
pub fn with_body(operand: Operand, body: Token) -> Result<Operand, OutOfMemory>
    ensures { IfOk result (λ o. o ≡ with_body operand body) }
{
    match operand {
        Operand::Name { parts, mut bodies } => {
            bodies.push(body)?;
            Ok(Operand::Name { parts, bodies })
        }
        other => Ok(other),
    }
}
