//! The number that digits write.
ghost use Rattle.std.specs.Prelude.{◌≡◌, ◌≤◌, ◌+◌, ◌-◌, ◌*◌, ◌^◌, pos};
ghost use Rattle.ag_lex.specs.Rules.{decimal};

// The number with one digit more.
fn with_digit(value: u64, digit: u8) -> u64
    requires { value * 10 + (digit - 48) ≤ 2 ^ 47 }
    ensures { result ≡ value * 10 + (digit - 48) }
{
    value * 10 + u64::from(digit.saturating_sub(b'0'))
}

/// The number that these digits write, which is at most 2^47.
pub fn number_of(digits: &[u8]) -> i64
    requires { decimal digits.now ≤ 2 ^ 47 }
    ensures { result ≡ pos (decimal digits.now) }
{
    let mut value: u64 = 0;
    for digit in digits {
        value = with_digit(value, *digit);
    }
    value as i64
}
