//! The operators between two operands: which mark is whose, and which of two binds tighter.
ghost use Rattle.std.specs.Prelude.{◌≡◌};
ghost use Rattle.ag_annex.specs.Operators.{binary_of, rank, comparison, last_right};

use crate::marks::{
    AND_MARK, ARROW_MARK, AT_LEAST_MARK, AT_MOST_MARK, DIFFERS_MARK, DIV_MARK, IFF_MARK,
    IMPLIES_MARK, LESS_MARK, MINUS_MARK, MOD_MARK, MORE_MARK, OR_MARK, PLUS_MARK, SAME_MARK,
    TIMES_MARK,
};
use ag_terms::Binary;

/// The rank of comparisons, which don't chain.
pub const COMPARISON: u8 = 5;

/// Of the ranks up to this one the operators associate to the right, of the others to the left.
pub const LAST_RIGHT: u8 = 2;

/// The operator that has the mark.
pub fn binary_of(mark: u8) -> Option<Binary>
    ensures { result ≡ binary_of mark }
{
    match mark {
        ARROW_MARK => Some(Binary::Arrow),
        IMPLIES_MARK => Some(Binary::Implies),
        IFF_MARK => Some(Binary::Iff),
        OR_MARK => Some(Binary::Or),
        AND_MARK => Some(Binary::And),
        LESS_MARK => Some(Binary::Less),
        AT_MOST_MARK => Some(Binary::AtMost),
        MORE_MARK => Some(Binary::More),
        AT_LEAST_MARK => Some(Binary::AtLeast),
        SAME_MARK => Some(Binary::Same),
        DIFFERS_MARK => Some(Binary::Differs),
        PLUS_MARK => Some(Binary::Plus),
        MINUS_MARK => Some(Binary::Minus),
        TIMES_MARK => Some(Binary::Times),
        DIV_MARK => Some(Binary::Div),
        MOD_MARK => Some(Binary::Mod),
        _ => None,
    }
}

/// The rank of an operator: one of a greater rank binds tighter.
pub fn rank(op: Binary) -> u8
    ensures { result ≡ rank op }
{
    match op {
        Binary::Arrow => 0,
        Binary::Implies => 1,
        Binary::Iff => 2,
        Binary::Or => 3,
        Binary::And => 4,
        Binary::Less
        | Binary::AtMost
        | Binary::More
        | Binary::AtLeast
        | Binary::Same
        | Binary::Differs => COMPARISON,
        Binary::Plus | Binary::Minus => 6,
        Binary::Times | Binary::Div | Binary::Mod => 7,
    }
}
