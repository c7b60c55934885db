//! Which expressions are sums.
ghost use Rattle.std.specs.Prelude.{◌≡◌};
ghost use Rattle.ag_types.specs.Sums.{adds, is_named_stream, is_sum};

use crate::claims::is_varying;
use ag_symbols::Sight;
use ag_terms::{Binary, Term, Unary};

/// Where it isn't constant, an expression has no `if`, arrow, quotient, remainder or call, and `pre` of a
/// stream alone.
pub fn is_sum(sight: &Sight<'_>, term: &Term) -> bool
    ensures { result ≡ is_sum sight.now term.now }
{
    match term {
        Term::Number { .. } | Term::Truth { .. } | Term::Named { .. } => true,
        Term::Unary { op, arg, .. } => match op {
            Unary::Pre => is_named_stream(sight, arg.get()),
            Unary::Minus => is_sum(sight, arg.get()),
            Unary::Not => is_sum(sight, arg.get()),
        },
        Term::Binary {
            op,
            left,
            right,
            ..
        } => {
            if adds(*op) {
                is_sum(sight, left.get()) && is_sum(sight, right.get())
            } else {
                !is_varying(sight, term)
            }
        }
        Term::Choice { .. } => !is_varying(sight, term),
        Term::Call { .. } => false,
    }
}

fn is_named_stream(sight: &Sight<'_>, term: &Term) -> bool
    ensures { result ≡ is_named_stream sight.now term.now }
{
    match term {
        Term::Named { path } => sight.stream(path).is_some(),
        _ => false,
    }
}

fn adds(op: Binary) -> bool
    ensures { result ≡ adds op }
{
    match op {
        Binary::Arrow | Binary::Div | Binary::Mod => false,
        Binary::Implies | Binary::Iff | Binary::Or | Binary::And => true,
        Binary::Less | Binary::AtMost | Binary::More | Binary::AtLeast => true,
        Binary::Same | Binary::Differs => true,
        Binary::Plus | Binary::Minus | Binary::Times => true,
    }
}
