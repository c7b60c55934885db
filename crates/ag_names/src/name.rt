//! Names in order, in any case of their letters.
ghost use Rattle.std.specs.Prelude.{◌≡◌};
ghost use Rattle.ag_names.specs.Names.{compare_names};
ghost use Rattle.ag_terms.specs.Names.{same};

use std::cmp::Ordering;

/// Texts in the order of their bytes in small letters.
pub fn compare(a: &[u8], b: &[u8]) -> Ordering
    ensures { result ≡ compare_names a.now b.now }
{
    let mut left = b;
    for x in a {
        match left {
            [] => return Ordering::Greater,
            [y, rest @ ..] => match x.to_ascii_lowercase().cmp(&y.to_ascii_lowercase()) {
                Ordering::Equal => left = rest,
                other => return other,
            },
        }
    }
    if left.is_empty() {
        Ordering::Equal
    } else {
        Ordering::Less
    }
}

#[tactic(auto, unfolding(ag_terms::specs::Names::same))]
/// Whether two texts differ in the case of letters at most.
pub fn is_same(a: &[u8], b: &[u8]) -> bool
    ensures { result ≡ same a.now b.now }
{
    a.eq_ignore_ascii_case(b)
}
