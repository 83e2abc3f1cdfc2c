//! Laws of counts.
ghost use Rattle.std.specs.Prelude.{◌≡◌, ◌+◌, ℕ};
ghost use Rattle.hq_value.specs.Causes.{RoseBy, raised};

/// What a count rises by over several calls is what it rises by in each, added up.
pub fn rises_add_up()
    ensures at_least { (before m n now new : ℕ) → RoseBy m before now → RoseBy n now new → RoseBy (m + n) before new }
    ensures exactly { (before m n : ℕ) → raised (raised before m) n ≡ raised before (m + n) }
{}
