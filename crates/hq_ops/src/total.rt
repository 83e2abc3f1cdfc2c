//! Sums that are kept in two parts.
ghost use Rattle.std.specs.Prelude.{◌^◌, ◌≤ℤ◌, neg_ℤ, pos};

/// A sum as it grows: so often 2^63, and so much more. Neither is more than 2^125 away from 0.
#[derive(Clone, Copy, Debug)]
pub struct Total {
    pub high: i128,
    pub low: i128,
    ghost high_fits: { (neg_ℤ (pos (2 ^ 125)) ≤ℤ high) × (high ≤ℤ pos (2 ^ 125)) },
    ghost low_fits: { (neg_ℤ (pos (2 ^ 125)) ≤ℤ low) × (low ≤ℤ pos (2 ^ 125)) },
}
