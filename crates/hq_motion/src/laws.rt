//! The laws of rows on their way.
ghost use Rattle.std.specs.Prelude.{◌≡◌, ◌<◌, ◌++◌, ℕ, List, length};
ghost use Rattle.hq_value.specs.declared.kind.Kind.{Kind as Sort};
ghost use Rattle.hq_value.specs.declared.value.Value.{Value as Datum};
ghost use Rattle.hq_motion.specs.Bytes.{AreRows};

/// Bytes spell at most one list of rows of the same kinds, and a list of rows has one spelling.
pub fn rows_have_one_spelling()
    ensures rows { (kinds : List Sort) (rows others : List (List Datum)) (bytes : List ℕ) → 0 < length kinds → AreRows kinds rows bytes → AreRows kinds others bytes → rows ≡ others }
    ensures bytes { (kinds : List Sort) (rows : List (List Datum)) (a b : List ℕ) → AreRows kinds rows a → AreRows kinds rows b → a ≡ b }
    ensures joined { (kinds : List Sort) (rows others : List (List Datum)) (a b : List ℕ) → AreRows kinds rows a → AreRows kinds others b → AreRows kinds (rows ++ others) (a ++ b) }
{}
