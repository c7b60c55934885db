//! Whether a query is about differences.
ghost use Rattle.std.specs.Prelude.{◌↔◌, IsTrue};
ghost use Rattle.ag_diff.specs.Differences.{IsDifference, IsDifferenceAtom, IsDifferenceQuery};

use ag_query::{Atom, LTerm, Query};

/// The most variables that a query about differences has.
const MOST_VARIABLES: u32 = 8192;

/// The greatest magnitude of a bound.
const MOST_BOUND: u128 = 1 << 48;

/// Whether the query has at most 8,192 variables, and each of its rows bounds a variable, a negated
/// variable or the difference of two, by a number of magnitude at most 2^48. A row without terms is
/// one of them.
pub fn is_difference_query(query: &Query) -> bool
    ensures { IsTrue result ↔ IsDifferenceQuery query.now }
{
    query.vars <= MOST_VARIABLES && query.atoms.as_slice().iter().all(is_difference_atom)
}

fn is_difference_atom(atom: &Atom) -> bool
    ensures { IsTrue result ↔ IsDifferenceAtom atom.now }
{
    match atom {
        Atom::Free => true,
        Atom::Bound(row) => {
            is_difference(row.terms.as_slice()) && row.bound.unsigned_abs() <= MOST_BOUND
        }
    }
}

fn is_difference(terms: &[LTerm]) -> bool
    ensures { IsTrue result ↔ IsDifference terms.now }
{
    match terms {
        [] => true,
        [term] => term.factor == 1 || term.factor == -1,
        [one, other] => {
            (one.factor == 1 && other.factor == -1) || (one.factor == -1 && other.factor == 1)
        }
        _ => false,
    }
}
