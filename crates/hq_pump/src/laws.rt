//! Laws of exchanges.
ghost use Rattle.std.specs.Prelude.{ℕ, List};
ghost use Rattle.hq_pump.specs.Exchange.{Exchange, Run};
ghost use Rattle.hq_pump.specs.Safe.{IsSafe, IsWithin};

/// However a link loses, repeats and reorders, and whatever call fails: what was taken of each stream stays a front of
/// it, all of it once its end was taken, and nothing counts as acknowledged that was not taken.
pub fn exchanges_are_safe()
    ensures { (query motion to : ℕ) (first : ℕ → List ℕ) (s t : Exchange) → IsWithin query motion to
        → Run s t → IsSafe query motion to first s → IsSafe query motion to first t }
{}
