//! Which place comes first in a text, and which of several broken rules.
ghost use Rattle.std.specs.Prelude.{◌≡◌};
ghost use Rattle.ag_types.specs.Places.{earlier, path_place, first_refusal};
ghost use Rattle.ag_types.specs.Firsts.{either};

use ag_base::{Place, Refusal};
use ag_terms::Path;

/// Of two places the one that comes first.
pub fn earlier(p: Place, q: Place) -> Place
    ensures { result ≡ earlier p q }
{
    if q.is_before(p) { q } else { p }
}

/// The first place of a name.
pub fn path_place(path: &Path) -> Place
    ensures { result ≡ path_place path.now }
{
    match &path.package {
        None => path.name.place,
        Some(owner) => owner.place,
    }
}

/// Of two broken rules the one that is answered.
pub fn first_refusal(r: Refusal, s: Refusal) -> Refusal
    ensures { result ≡ first_refusal r s }
{
    if s.comes_before(r) { s } else { r }
}

/// The first of what two parts break.
pub fn either(a: Option<Refusal>, b: Option<Refusal>) -> Option<Refusal>
    ensures { result ≡ either a b }
{
    match (a, b) {
        (Some(r), Some(s)) => Some(first_refusal(r, s)),
        (Some(r), None) => Some(r),
        (None, other) => other,
    }
}
