//! Which of several broken rules is answered.
ghost use Rattle.std.specs.Prelude.{◌≡◌};
ghost use Rattle.ag_names.specs.Order.{earlier};

use ag_base::Refusal;

/// Of two that may be broken the first.
pub fn earlier(r: Option<Refusal>, s: Option<Refusal>) -> Option<Refusal>
    ensures { result ≡ earlier r s }
{
    match (r, s) {
        (None, s) => s,
        (r, None) => r,
        (Some(r), Some(s)) => Some(if s.comes_before(r) { s } else { r }),
    }
}
