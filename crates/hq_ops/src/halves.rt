//! Sums of what partial sums say.
ghost use Rattle.std.specs.Prelude.{◌≡◌, ◌+◌, ◌^◌, ◌<◌, ◌+ℤ◌, ◌≤ℤ◌, neg_ℤ, pos, false, IfSome};
ghost use Rattle.hq_algebra.specs.Eval.{column};
ghost use Rattle.hq_algebra.specs.Steps.{Steps};
ghost use Rattle.hq_meaning.specs.Aggregates.{number, from_number};
ghost use Rattle.hq_meaning.specs.Halves.{whole};
ghost use Rattle.hq_ops.specs.Folds.{whole_of, number_of};

use crate::total::Total;
use hq_value::{Row, Value};

const HALF: i128 = 0x8000_0000_0000_0000;

// 2^125.
const MOST: i128 = 0x2000_0000_0000_0000_0000_0000_0000_0000;

/// The sum, or none where it leaves 64 bits.
pub fn in_64(total: Total) -> Option<i64>
    ensures { Steps result (whole_of total) }
{
    let high = total.high.checked_mul(HALF)?;
    let sum = high.checked_add(total.low)?;
    i64::try_from(sum).ok()
}

/// Both together; none where no such sum is kept, which takes more rows than there are.
pub fn add_totals(total: Total, more: Total) -> Option<Total>
    ensures { IfSome result (λ sum. whole_of sum ≡ whole_of total +ℤ whole_of more) }
{
    let high = total.high + more.high;
    let low = total.low + more.low;
    if is_large(high) || is_large(low) {
        return None;
    }
    Some(Total { high, low })
}

fn is_large(n: i128) -> bool
    ensures { result ≡ false → (neg_ℤ (pos (2 ^ 125)) ≤ℤ n) × (n ≤ℤ pos (2 ^ 125)) }
{
    n < -MOST || n > MOST
}

/// The halves of a partial sum, none where one of them is NULL.
pub fn halves_at(row: &Row, at: u32) -> Option<Total>
    ensures { from_number (number_of result) ≡ whole (column row.now at) (column row.now (at + 1)) }
{
    let high = int_at(row, at as usize)?;
    let low = int_at(row, at as usize + 1)?;
    Some(total_of(high, low))
}

fn total_of(high: i64, low: i64) -> Total
    ensures high { result.high ≡ high }
    ensures low { result.low ≡ low }
{
    Total {
        high: high as i128,
        low: low as i128,
    }
}

fn int_at(row: &Row, at: usize) -> Option<i64>
    ensures { result ≡ number (column row.now at) }
{
    match row.as_slice().get(at) {
        Some(Value::Int(n)) => Some(*n),
        _ => None,
    }
}
