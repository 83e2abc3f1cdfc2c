//! A law of plans in bytes.
ghost use Rattle.std.specs.Prelude.{◌≡◌, ℕ, List};
ghost use Rattle.hq_algebra.specs.declared.plan.Plan.{Plan};
ghost use Rattle.hq_planwire.specs.Wire.{IsPlan};

/// A plan has one spelling, and bytes spell at most one plan.
pub fn plans_have_one_spelling()
    ensures one_spelling { (plan : Plan) (a b : List ℕ) → IsPlan plan a → IsPlan plan b → a ≡ b }
    ensures one_plan { (plan other : Plan) (bytes : List ℕ) → IsPlan plan bytes → IsPlan other bytes → plan ≡ other }
{}
