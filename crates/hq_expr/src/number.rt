//! Numbers written in digits.
ghost use Rattle.std.specs.Prelude.{◌≡◌, ◌^◌, ◌+◌, ◌-◌, ◌*◌, min};
ghost use Rattle.hq_expr.specs.Lexemes as spec;

/// The number that digits stand for, or 2 ^ 64 - 1 where it is above that.
pub fn digits_value(digits: &[u8]) -> u64
    ensures { result ≡ min (spec.digits_value digits.now) (2 ^ 64 - 1) }
{
    let mut value = 0;
    for digit in digits {
        value = with_digit(value, *digit);
    }
    value
}

// One digit more.
fn with_digit(value: u64, digit: u8) -> u64
    ensures { result ≡ min (10 * value + (digit - 48)) (2 ^ 64 - 1) }
{
    let tens = value.saturating_mul(10);
    tens.saturating_add(u64::from(digit.saturating_sub(b'0')))
}
