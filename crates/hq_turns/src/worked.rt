//! Worked statements.
ghost use Rattle.std.specs.Prelude.{[], ◌∷◌, true, Some};
ghost use Rattle.hq_value.specs.declared.entry.EntryKind.TheVariants as entry;
ghost use Rattle.hq_reply.specs.declared.fault.Fault.TheVariants as fault;
ghost use Rattle.hq_reply.specs.declared.reply.Reply.TheVariants as reply;
ghost use Rattle.hq_txn.specs.declared.state.TxnState.TheVariants as txn;
ghost use Rattle.hq_transcript.specs.Binds.{binds};
ghost use Rattle.hq_transcript.specs.Examples.{row};
ghost use Rattle.hq_turns.specs.Ends.{Does, Ended};
ghost use Rattle.hq_turns.specs.Examples.{selecting, storing, refusing, failures, bare};

/// In a transaction a SELECT answers the row that the transaction has put, just once.
pub fn a_select_after_an_insert()
    ensures rows { Does binds true selecting selecting.entries (Some (reply.Rows (row 1 ∷ []))) }
    ensures left_out { Does binds true selecting selecting.entries (Some (reply.Rows [])) → ⊥ }
    ensures counted_twice { Does binds true selecting selecting.entries (Some (reply.Rows (row 1 ∷ row 1 ∷ []))) → ⊥ }
    ensures no_look { Does binds true selecting [] (Some (reply.Rows (row 1 ∷ []))) → ⊥ }
{}

/// A store that fails an INSERT and then the cut of its lane has failed twice, which is the cause of 58030 and of the
/// tail. Without a failure there is neither.
pub fn a_store_that_fails()
    ensures ended { Ended binds true storing (Some (reply.Error fault.Store)) (bare txn.Idle) (failures 2) }
    ensures no_cause { Ended binds true storing (Some (reply.Error fault.Store)) (bare txn.Idle) (failures 0) → ⊥ }
    ensures not_given_back { Does binds true storing (entry.Look ∷ entry.Lend 0 0 ∷ []) (Some (reply.Error fault.Store)) → ⊥ }
{}

/// A statement that its session refuses asks nothing.
pub fn a_refused_statement()
    ensures ended { Ended binds true refusing (Some (reply.Error fault.TransactionFailed)) (bare txn.Failed) (failures 0) }
    ensures no_ask { Does binds true refusing (entry.Look ∷ []) (Some (reply.Error fault.TransactionFailed)) → ⊥ }
    ensures still_failed { Ended binds true refusing (Some (reply.Error fault.TransactionFailed)) (bare txn.Idle) (failures 0) → ⊥ }
{}
