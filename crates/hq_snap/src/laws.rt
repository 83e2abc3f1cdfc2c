//! Laws of looks.
ghost use Rattle.std.specs.Prelude.{◌≡◌, ℕ, true, false, List, Option, IsSome};
ghost use Rattle.hq_store.specs.FileStep.{SealState};
ghost use Rattle.hq_snap.specs.Snaps.{seal_in, is_since, AreSince, AreMerged};

/// What changed since a look, put behind the seals of that look, gives the seals of now: those that did not change are
/// as they were, and each file that changed has a seal.
pub fn what_changed_brings_a_look_up_to_date()
    ensures { (changed : List (List ℕ)) (at : ℕ) (then now some new : List (List (Option SealState))) →
        ((n b : ℕ) → is_since changed at n b ≡ false → seal_in then n b ≡ seal_in now n b) →
        ((n b : ℕ) → is_since changed at n b ≡ true → IsSome (seal_in now n b)) →
        AreSince changed at now some → AreMerged some then new → (n b : ℕ) → seal_in new n b ≡ seal_in now n b }
{}
