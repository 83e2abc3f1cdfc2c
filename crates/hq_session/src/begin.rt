//! BEGIN.
ghost use Rattle.std.specs.Prelude.{◌≡◌, ◌&&◌, List, false};
ghost use Rattle.hq_history.specs.declared.noted.Noted.{Noted as OneNoted};
ghost use Rattle.hq_sql.specs.declared.tree.Statement.TheVariants as statement;
ghost use Rattle.hq_transcript.specs.Pieces.{Reads};
ghost use Rattle.hq_turns.specs.Counts.{Counts};
ghost use Rattle.hq_turns.specs.Now.{Now};
ghost use Rattle.hq_turns.specs.Ends.{Begins};
ghost use Rattle.hq_turns.specs.Hand.{InHand};
ghost use Rattle.hq_session.specs.Keeps.{IsInOrder, IsSound, Keeps, is_ask};
ghost use Rattle.hq_session.specs.Waits.{Outcome};

use crate::session::Session;
use crate::turn::Turn;
use hq_reply::{Fault, Reply};
use hq_store::{SealCopy, StoredFile};
use hq_txn::TxnState;

impl<F: StoredFile, Z: SealCopy> Session<F, Z> {
    // BEGIN, of either form.
    pub(crate) fn begin(&mut self, snapshot: bool) -> Turn<F, Z>
        requires sound { IsSound self.old.txn }
        ensures carries { (now : Now) (c : Counts) → Begins (F.tells && Z.tells) now (Reads (statement.Begin snapshot)) self.old.txn c →
            Outcome (F.tells && Z.tells) now self.new c result }
        ensures hand { (history : List OneNoted) → InHand F.tells Z.tells self.old.number history self.old.txn.lanes →
            IsInOrder F.tells Z.tells self.old.nodes self.old.number history result self.new.txn.lanes }
        ensures turn { is_ask result ≡ false }
        ensures sound { IsSound self.new.txn }
        ensures kept { Keeps self.old self.new }
    {
        match self.txn.state() {
            TxnState::Idle => {
                self.txn.begin(snapshot);
                self.reply(Some(Reply::Begun))
            }
            TxnState::Open => self.refuse(Fault::TransactionOpen),
            TxnState::Failed => self.refuse(Fault::TransactionFailed),
        }
    }
}
