//! Laws of histories.
ghost use Rattle.std.specs.Prelude.{◌≡◌, ◌≢◌, ◌≤◌, ◌↔◌, ℕ, ◌++◌, ◌∷◌, [], true, Bool, List, length};
ghost use Rattle.hq_value.specs.declared.entry.FileId.{FileId as File};
ghost use Rattle.hq_history.specs.declared.noted.Noted.{Noted as OneNoted};
ghost use Rattle.hq_history.specs.History.{entries_of, by, AllBelow, StartsWith, Climbs, StandAt};
ghost use Rattle.hq_history.specs.Deposits.{tables_left, tables_after, growths_left, growths_in, length_left, length_after, bytes_left, bytes_of, IsDeposit, IsHistory};

/// One entry more adds to each part of the history what it carries itself.
pub fn histories_grow()
    ensures log { (history : List OneNoted) (n : OneNoted) →
        entries_of (history ++ n ∷ []) ≡ entries_of history ++ n.entry ∷ [] }
    ensures own { (k : ℕ) (history : List OneNoted) (n : OneNoted) → n.entry.session ≡ k →
        by k (history ++ n ∷ []) ≡ by k history ++ n ∷ [] }
    ensures others { (k : ℕ) (history : List OneNoted) (n : OneNoted) → n.entry.session ≢ k →
        by k (history ++ n ∷ []) ≡ by k history }
    ensures tables { (history : List OneNoted) (n : OneNoted) →
        tables_left (history ++ n ∷ []) ≡ tables_after (tables_left history) n.deposit }
    ensures growths { (history : List OneNoted) (n : OneNoted) →
        growths_left (history ++ n ∷ []) ≡ growths_left history ++ growths_in n.deposit }
    ensures deposits { (told : Bool) (history : List OneNoted) (n : OneNoted) →
        IsHistory told (history ++ n ∷ []) ↔ (IsHistory told history × IsDeposit told history n) }
{}

/// One entry more changes a file by its own growths. Where bytes are told, a file has as many as its length says.
pub fn files_follow_the_history()
    ensures length { (history : List OneNoted) (n : OneNoted) (file : File) →
        length_left (history ++ n ∷ []) file ≡ length_after file (length_left history file) (growths_in n.deposit) }
    ensures bytes { (history : List OneNoted) (n : OneNoted) (file : File) →
        bytes_left (history ++ n ∷ []) file ≡ bytes_left history file ++ bytes_of file (growths_in n.deposit) }
    ensures whole { (history : List OneNoted) (file : File) → IsHistory true history →
        length (bytes_left history file) ≡ length_left history file }
{}

/// Of two beginnings of one history the shorter begins the longer.
pub fn beginnings_are_ordered()
    ensures { (history first second : List OneNoted) → StartsWith history first → StartsWith history second →
        length first ≤ length second → StartsWith second first }
{}

/// The entries of a session stand at places of the history that climb.
pub fn entries_have_places()
    ensures { (k : ℕ) (history : List OneNoted) →
        (places : List ℕ) × Climbs 0 places × StandAt history places (by k history) }
{}
