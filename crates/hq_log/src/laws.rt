//! Laws of logs.
ghost use Rattle.std.specs.Prelude.{◌≡◌, ◌↔◌, ℕ, ◌++◌, ◌∷◌, [], true, false, List, length};
ghost use Rattle.std.specs.List.{list_any, list_all};
ghost use Rattle.hq_value.specs.declared.entry.Entry.{Entry as LogEntry};
ghost use Rattle.hq_log.specs.Places.{is_unborn, is_clean, is_dirty, is_out, next_place, IsLowest};
ghost use Rattle.hq_log.specs.Pools.{pool, places_after};
ghost use Rattle.hq_log.specs.Marks.{marks, marks_after};
ghost use Rattle.hq_log.specs.Legal.{IsLawful, IsLegal};

use crate::{Next, Place};

/// One entry more changes the places of a table by that entry alone, and there are always 64 of them.
pub fn pools_follow_the_log()
    ensures more { (log : List LogEntry) (e : LogEntry) (t : ℕ) →
        pool (log ++ e ∷ []) t ≡ places_after t (pool log t) e.session e.kind }
    ensures lanes { (log : List LogEntry) (t : ℕ) → length (pool log t) ≡ 64 }
{}

/// The next place is one of its sort, and the lowest. There is none exactly where all places are out.
pub fn the_next_place()
    ensures clean { (places : List Place) (n : ℕ) → next_place places ≡ Next.Clean n → IsLowest is_clean places n }
    ensures dirty { (places : List Place) (n : ℕ) → next_place places ≡ Next.Dirty n →
        IsLowest is_dirty places n × (list_any is_clean places ≡ false) }
    ensures unborn { (places : List Place) (n : ℕ) → next_place places ≡ Next.Unborn n →
        IsLowest is_unborn places n × (list_any is_clean places ≡ false) × (list_any is_dirty places ≡ false) }
    ensures all_out { (places : List Place) → (next_place places ≡ Next.AllOut) ↔ (list_all is_out places ≡ true) }
{}

/// One entry more changes the marks by that entry alone, and there is always one for each node.
pub fn marks_follow_the_log()
    ensures more { (nodes : ℕ) (log : List LogEntry) (e : LogEntry) →
        marks nodes (log ++ e ∷ []) ≡ marks_after (marks nodes log) e.kind }
    ensures nodes { (nodes : ℕ) (log : List LogEntry) → length (marks nodes log) ≡ nodes }
{}

/// A log stays legal by an entry that is lawful over it, and by no other.
pub fn legal_logs_grow()
    ensures { (nodes : ℕ) (log : List LogEntry) (e : LogEntry) →
        IsLegal nodes (log ++ e ∷ []) ↔ (IsLegal nodes log × IsLawful nodes log e.session e.kind) }
{}
