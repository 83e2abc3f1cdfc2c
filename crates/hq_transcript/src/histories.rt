//! Laws of what a catalogue's history says of its sessions. `file_rows` gives the rows of a file's bytes.
ghost use Rattle.std.specs.Prelude.{◌≡◌, ℕ, Bool, true, List, [], ◌∷◌, ◌++◌, length, fold, Option};
ghost use Rattle.std.specs.List.{list_all};
ghost use Rattle.hq_value.specs.declared.kind.Kind.{Kind};
ghost use Rattle.hq_value.specs.declared.value.Value.{Value as Datum};
ghost use Rattle.hq_history.specs.declared.noted.Noted.{Noted};
ghost use Rattle.hq_history.specs.History.{entries_of};
ghost use Rattle.hq_transcript.specs.declared.why.EndWhy.{EndWhy as Why};
ghost use Rattle.hq_transcript.specs.Pieces.{Piece};
ghost use Rattle.hq_transcript.specs.Reading.{pieces_in};
ghost use Rattle.hq_transcript.specs.Binding.{Binder};
ghost use Rattle.hq_transcript.specs.Sights.{Replay, start};
ghost use Rattle.hq_transcript.specs.History.{IsOwn, AreOwn, after_noted, is_within, replay_history};
ghost use Rattle.hq_transcript.specs.Stands.{View, Stands, StandsFor};
ghost use Rattle.hq_transcript.specs.Serves.{Serves, RepliedBy, RepliedOver};

/// What each session was served over the catalogue's history it was served by the log and all inputs alone, where the
/// deposits of each session are what its own input says.
pub fn histories_decide()
    ensures { (binds : Binder) (told : Bool) (file_rows : List Kind → List ℕ → List (List Datum))
        (inputs : ℕ → List ℕ) (nodes : ℕ) (history : List Noted) →
        ((k : ℕ) → AreOwn file_rows binds k (pieces_in (inputs k)) (start nodes) history) →
        (k : ℕ) (why : Why) (left : Option (List ℕ)) (bytes : List ℕ) →
        Serves (RepliedBy binds told k (replay_history file_rows nodes history) (entries_of history) (inputs k))
        why (inputs k) left bytes →
        Serves (RepliedOver binds told nodes inputs (entries_of history) k) why (inputs k) left bytes }
{}

/// The deposits of a session stay its own: with one entry more that is, and over the rest of its input.
pub fn deposits_stay_own()
    ensures entry { (binds : Binder) (k : ℕ) (file_rows : List Kind → List ℕ → List (List Datum))
        (pieces : List Piece) (r : Replay) (history : List Noted) (n : Noted) →
        AreOwn file_rows binds k pieces r history →
        (n.entry.session ≡ k →
        IsOwn file_rows binds k pieces (fold (after_noted file_rows) r history) n n.entry.kind) →
        AreOwn file_rows binds k pieces r (history ++ n ∷ []) }
    ensures input { (binds : Binder) (k : ℕ) (pieces more : List Piece)
        (file_rows : List Kind → List ℕ → List (List Datum)) (r : Replay) (history : List Noted) →
        list_all (is_within k (length pieces)) history ≡ true →
        AreOwn file_rows binds k pieces r history → AreOwn file_rows binds k (pieces ++ more) r history }
{}

/// A catalogue that stands for its history, of which no input is told, stands for the log and the inputs where the
/// deposits of each session are what its input says.
pub fn histories_stand()
    ensures { (binds : Binder) (file_rows : List Kind → List ℕ → List (List Datum)) (inputs : ℕ → List Piece)
        (told : Bool) (v : View) (history : List Noted) →
        StandsFor file_rows told v history →
        ((k : ℕ) → AreOwn file_rows binds k (inputs k) (start v.nodes) history) →
        Stands file_rows binds inputs v (entries_of history) }
{}
