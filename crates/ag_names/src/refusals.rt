//! Rules at places.
ghost use Rattle.std.specs.Prelude.{◌≡◌};

use ag_base::{Place, Refusal, Rule};

pub fn refusal_at(place: Place, rule: Rule) -> Refusal
    ensures { result ≡ record { place = place; rule = rule } }
{
    Refusal { place, rule }
}
