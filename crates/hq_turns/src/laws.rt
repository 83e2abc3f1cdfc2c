//! Laws of statements, one behind another.
ghost use Rattle.std.specs.Prelude.{◌≡◌, Bool, true, [], Option, Some};
ghost use Rattle.hq_txn.specs.Transactions.{Transaction};
ghost use Rattle.hq_txn.specs.declared.state.TxnState.TheVariants as txn;
ghost use Rattle.hq_reply.specs.declared.fault.Fault.{Fault as FaultType};
ghost use Rattle.hq_reply.specs.declared.reply.Reply.{Reply as ReplyType};
ghost use Rattle.hq_reply.specs.declared.reply.Reply.TheVariants as reply;
ghost use Rattle.hq_transcript.specs.Pieces.{Piece};
ghost use Rattle.hq_transcript.specs.Binding.{Binder};
ghost use Rattle.hq_turns.specs.Counts.{Counts, is_plain};
ghost use Rattle.hq_turns.specs.Now.{Now};
ghost use Rattle.hq_turns.specs.Ends.{Ended, Begins};
ghost use Rattle.hq_turns.specs.Following.{Follows, IsQuiet};

/// Where a session has replied, it is as the next piece finds it. An idle transaction has no lane.
pub fn statements_follow_one_another()
    ensures { (binds : Binder) (told : Bool) (now next : Now) (r : Option ReplyType) (p : Piece) (t : Transaction) (c : Counts) →
        (t.state ≡ txn.Idle → t.lanes ≡ []) → Ended binds told now r t c → Follows binds now r c p next → Begins told next p t c }
{}

/// A statement in which no count rose answers no fault of a store, a host or a link, and does not find all of them failed.
pub fn quiet_counts_tell_no_fault()
    ensures { (binds : Binder) (told : Bool) (now : Now) (why : FaultType) (t : Transaction) (c : Counts) →
        IsQuiet now.counts c → Ended binds told now (Some (reply.Error why)) t c → is_plain why ≡ true }
{}
