//! Laws of tables by their numbers.
ghost use Rattle.std.specs.Prelude.{ℕ, List, IsTrue};
ghost use Rattle.std.specs.List.{AllByRecursion};
ghost use Rattle.hq_value.specs.Tables.{Definition, IsDefinition};
ghost use Rattle.hq_schema.specs.Numbers.{numbered, are_apart, KeepRules};

/// Of tables that are numbered in order no two have one number, and each keeps the rules that it kept.
pub fn numbers_are_apart()
    ensures apart { (n : ℕ) (tables : List Definition) → IsTrue (are_apart (numbered n tables)) }
    ensures rules { (n : ℕ) (tables : List Definition) → AllByRecursion IsDefinition tables → KeepRules (numbered n tables) }
{}
