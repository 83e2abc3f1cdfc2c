//! A law of what sessions hear.
ghost use Rattle.std.specs.Prelude.{ℕ, Bool, List};
ghost use Rattle.hq_catalog.specs.declared.ask.Ask.{Ask as AnAsk};
ghost use Rattle.hq_catalog.specs.declared.ask.Answer.{Answer as AnAnswer};
ghost use Rattle.hq_txn.specs.Transactions.{Transaction};
ghost use Rattle.hq_turns.specs.Counts.{Counts};
ghost use Rattle.hq_turns.specs.Now.{Now, Heard};
ghost use Rattle.hq_session.specs.declared.awaited.Awaited.{Awaited as Waiting};
ghost use Rattle.hq_session.specs.Waits.{CanHear, RowsOfBytes, Waits};

use hq_store::{SealCopy, StoredFile};

/// What a catalogue answers to what a session has asked is an answer that the session can hear.
pub fn answers_can_be_heard<F: StoredFile, Z: SealCopy>()
    ensures { (told : Bool) (file_rows : RowsOfBytes) (nodes k : ℕ) (now after : Now) (a : AnAsk F Z) (x : AnAnswer F Z) (t : Transaction) (c : Counts) (awaiting : Waiting) →
        Waits told now a t c awaiting → Heard file_rows told nodes k now a x after → CanHear awaiting x }
{}
