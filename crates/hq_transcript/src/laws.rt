//! Laws of what sessions write, as their statements and the log go on.
ghost use Rattle.std.specs.Prelude.{◌≡◌, ℕ, Bool, true, false, ◌==◌, List, [], ◌∷◌, ◌++◌, Option, Some};
ghost use Rattle.hq_value.specs.declared.entry.Entry.{Entry as LogEntry};
ghost use Rattle.hq_value.specs.declared.kind.Kind.{Kind};
ghost use Rattle.hq_value.specs.declared.value.Value.{Value as Datum};
ghost use Rattle.hq_value.specs.Tables.{Definition};
ghost use Rattle.hq_history.specs.declared.noted.Noted.{Noted};
ghost use Rattle.hq_history.specs.History.{entries_of};
ghost use Rattle.hq_history.specs.Deposits.{IsHistory, tables_left};
ghost use Rattle.hq_log.specs.Marks.{marks};
ghost use Rattle.hq_reply.specs.declared.reply.Reply.{Reply as ReplyType};
ghost use Rattle.hq_transcript.specs.declared.why.EndWhy.{EndWhy as Why};
ghost use Rattle.hq_transcript.specs.Pieces.{Piece};
ghost use Rattle.hq_transcript.specs.Tables.{Put};
ghost use Rattle.hq_transcript.specs.Binding.{Binder};
ghost use Rattle.hq_transcript.specs.Sights.{Replay, after, replay, with_entry};
ghost use Rattle.hq_transcript.specs.Looks.{looks_by_place};
ghost use Rattle.hq_transcript.specs.History.{after_noted, replay_history};
ghost use Rattle.hq_transcript.specs.Transcript.{of_session, Standing, at_start, IsStep, behind, Replied, Transcript};
ghost use Rattle.hq_transcript.specs.Serves.{Serves, RepliedOver};

/// One entry more changes a replay by that entry alone, over a log with its inputs and over a history.
pub fn replays_grow()
    ensures log { (binds : Binder) (inputs : ℕ → List Piece) (nodes : ℕ) (log : List LogEntry) (e : LogEntry) →
        replay binds inputs nodes (log ++ e ∷ []) ≡ after binds inputs (replay binds inputs nodes log) e }
    ensures history { (file_rows : List Kind → List ℕ → List (List Datum)) (nodes : ℕ)
        (history : List Noted) (n : Noted) →
        replay_history file_rows nodes (history ++ n ∷ [])
        ≡ after_noted file_rows (replay_history file_rows nodes history) n }
{}

/// The marks of a replay are those of its log, and the tables of a history's replay those that its deposits leave.
pub fn replays_have_the_marks_and_tables()
    ensures marks { (binds : Binder) (inputs : ℕ → List Piece) (nodes : ℕ) (log : List LogEntry) →
        (replay binds inputs nodes log).up ≡ marks nodes log }
    ensures history_marks { (file_rows : List Kind → List ℕ → List (List Datum)) (nodes : ℕ)
        (history : List Noted) →
        (replay_history file_rows nodes history).up ≡ marks nodes (entries_of history) }
    ensures history_tables { (file_rows : List Kind → List ℕ → List (List Datum)) (told : Bool) (nodes : ℕ)
        (history : List Noted) →
        IsHistory told history →
        (replay_history file_rows nodes history).tables ≡ tables_left history }
{}

/// What each Look of a log found is what the log before its place leaves.
pub fn looks_see_what_stood_before()
    ensures { (binds : Binder) (inputs : ℕ → List Piece) (nodes : ℕ) (log : List LogEntry) →
        (replay binds inputs nodes log).looks ≡ looks_by_place binds inputs nodes [] log }
{}

/// A session that has no entry has answered nothing.
pub fn answers_begin()
    ensures { (binds : Binder) (told : Bool) (k : ℕ) (r : Replay) (log : List LogEntry) →
        of_session k log ≡ [] → Replied binds told k r log [] [] at_start }
{}

/// An entry more leaves the replies so far as they are: one of another session, whatever it makes and publishes, and
/// one of the statement that runs.
pub fn answers_stay()
    ensures others { (binds : Binder) (told : Bool) (k : ℕ) (tables : List Definition) (puts : List Put)
        (r : Replay) (log : List LogEntry) (e : LogEntry)
        (pieces : List Piece) (replies : List (Option ReplyType)) (end : Standing) →
        (e.session == k) ≡ false →
        Replied binds told k r log pieces replies end →
        Replied binds told k (with_entry tables puts r e) (log ++ e ∷ []) pieces replies end }
    ensures own { (binds : Binder) (told : Bool) (k : ℕ) (tables : List Definition) (puts : List Put)
        (r : Replay) (log : List LogEntry) (e : LogEntry)
        (pieces : List Piece) (replies : List (Option ReplyType)) (end : Standing) →
        (e.session == k) ≡ true → e.statement ≡ end.next →
        Replied binds told k r log pieces replies end →
        Replied binds told k (with_entry tables puts r e) (log ++ e ∷ []) pieces replies end }
{}

/// The replies grow by one piece and its step, which may be said over the pieces before it.
pub fn answers_grow()
    ensures piece { (binds : Binder) (told : Bool) (k : ℕ) (r : Replay) (log : List LogEntry)
        (pieces : List Piece) (replies : List (Option ReplyType)) (end : Standing) (p : Piece) (a : Option ReplyType) →
        Replied binds told k r log pieces replies end →
        IsStep binds told k (pieces ++ p ∷ []) r log end p a →
        Replied binds told k r log (pieces ++ p ∷ []) (replies ++ a ∷ [])
        (behind binds told k (pieces ++ p ∷ []) r log end p a) }
    ensures before { (binds : Binder) (told : Bool) (k : ℕ) (r : Replay) (log : List LogEntry)
        (pieces : List Piece) (replies : List (Option ReplyType)) (end : Standing) (p : Piece) (a : Option ReplyType) →
        Replied binds told k r log pieces replies end →
        IsStep binds told k pieces r log end p a →
        IsStep binds told k (pieces ++ p ∷ []) r log end p a }
{}

/// What other sessions add behind a session's end changes nothing of what it wrote.
pub fn transcripts_stay()
    ensures { (binds : Binder) (told : Bool) (k nodes : ℕ) (inputs : ℕ → List Piece) (log more : List LogEntry)
        (pieces : List Piece) (bytes : List ℕ) →
        of_session k more ≡ [] →
        Transcript binds told nodes inputs log k pieces bytes →
        Transcript binds told nodes inputs (log ++ more) k pieces bytes }
{}

/// What other sessions add behind a session's end changes nothing of what it was served, however it ended.
pub fn servings_stay()
    ensures { (binds : Binder) (told : Bool) (nodes : ℕ) (inputs : ℕ → List ℕ) (log more : List LogEntry) (k : ℕ) →
        of_session k more ≡ [] →
        (why : Why) (left : Option (List ℕ)) (bytes : List ℕ) →
        Serves (RepliedOver binds told nodes inputs log k) why (inputs k) left bytes →
        Serves (RepliedOver binds told nodes inputs (log ++ more) k) why (inputs k) left bytes }
{}
