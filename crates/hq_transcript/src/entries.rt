//! Laws of a statement and its entries.
ghost use Rattle.std.specs.Prelude.{◌≡◌, Bool, false, List, Option, Some};
ghost use Rattle.std.specs.List.{list_any};
ghost use Rattle.hq_value.specs.declared.entry.EntryKind.{EntryKind as LogKind};
ghost use Rattle.hq_reply.specs.declared.fault.Fault.{Fault as FaultType};
ghost use Rattle.hq_reply.specs.declared.reply.Reply.{Reply as ReplyType};
ghost use Rattle.hq_reply.specs.declared.reply.Reply.TheVariants as said;
ghost use Rattle.hq_transcript.specs.Pieces.{Piece};
ghost use Rattle.hq_transcript.specs.Binding.{Binder};
ghost use Rattle.hq_transcript.specs.Sights.{Found};
ghost use Rattle.hq_transcript.specs.Step.{State, Lanes, Step, is_commit, is_fault};
ghost use Rattle.hq_transcript.specs.Same.{SameFound};

/// A statement that answers an error has published nothing.
pub fn errors_publish_nothing()
    ensures { (binds : Binder) (told : Bool) (found : Found) (state : State) (lanes : Lanes) (p : Piece)
        (es : List LogKind) (why : FaultType) →
        Step binds told found state lanes p es (Some (said.Error why)) →
        list_any is_commit es ≡ false }
{}

/// The entries of a statement settle its reply, unless it is a fault from outside or want of memory.
pub fn entries_settle_replies()
    ensures { (binds : Binder) (told : Bool) (found : Found) (state : State) (lanes : Lanes) (p : Piece)
        (es : List LogKind) (a b : ReplyType) →
        Step binds told found state lanes p es (Some a) →
        Step binds told found state lanes p es (Some b) →
        is_fault a ≡ false → is_fault b ≡ false → a ≡ b }
{}

/// What a session sees as files may stand for what the log says as rows: finding the same, a statement may do the same.
pub fn the_same_found_does_the_same()
    ensures { (binds : Binder) (told : Bool) (f g : Found) →
        SameFound f g →
        (state : State) (lanes : Lanes) (p : Piece) (es : List LogKind) (a : Option ReplyType) →
        Step binds told f state lanes p es a → Step binds told g state lanes p es a }
{}
