//! Numbers of annexes that are too large.
ghost use Rattle.std.specs.Prelude.{◌≡◌, ◌^◌, ◌<◌, ◌↔◌, IsTrue};
ghost use Rattle.ag_lex.specs.Rules.{decimal};
ghost use Rattle.ag_lex.specs.Scanning.{IsWide};

use crate::token::Language;

/// The largest number of an annex.
const MOST: u64 = 1 << 47;

/// Whether these digits are a number over 2^47 of an annex.
pub fn is_wide(language: Language, digits: &[u8]) -> bool
    ensures { IsTrue result ↔ IsWide language digits.now }
{
    match language {
        Language::Aadl => false,
        Language::Agree => exceeds_most(digits),
    }
}

fn exceeds_most(digits: &[u8]) -> bool
    ensures { IsTrue result ↔ (2 ^ 47 < decimal digits.now) }
{
    let mut value: u64 = 0;
    for digit in digits {
        let more = value * 10 + u64::from(digit.saturating_sub(b'0'));
        value = more.min(MOST + 1);
    }
    value > MOST
}
