//! Statements that are refused.
ghost use Rattle.std.specs.Prelude.{◌≡◌, ◌&&◌, List, [], false};
ghost use Rattle.hq_history.specs.declared.noted.Noted.{Noted as OneNoted};
ghost use Rattle.hq_transcript.specs.Step.{mark_down};
ghost use Rattle.hq_transcript.specs.Binds.{binds};
ghost use Rattle.hq_turns.specs.Counts.{Counts};
ghost use Rattle.hq_turns.specs.Now.{Now};
ghost use Rattle.hq_turns.specs.Ends.{Fails, given_up};
ghost use Rattle.hq_turns.specs.Hand.{InHand};
ghost use Rattle.hq_session.specs.Keeps.{IsInOrder, IsSound, Keeps, is_ask};
ghost use Rattle.hq_session.specs.Waits.{Outcome};

use crate::session::Session;
use crate::turn::Turn;
use hq_reply::{Fault, Reply};
use hq_store::{SealCopy, StoredFile};
use hq_txn::TxnState;

impl<F: StoredFile, Z: SealCopy> Session<F, Z> {
    // A transaction that was open has failed.
    fn give_up(&mut self)
        ensures txn { self.new.txn ≡ record self.old.txn { state = given_up self.old.txn.state } }
        ensures kept { Keeps self.old self.new }
    {
        match self.txn.state() {
            TxnState::Idle => {}
            TxnState::Open => self.txn.fail(),
            TxnState::Failed => {}
        }
    }

    // The statement is refused, and no lane goes back.
    pub(crate) fn refuse(&mut self, why: Fault) -> Turn<F, Z>
        requires sound { IsSound self.old.txn }
        ensures carries { (now : Now) (c : Counts) → Fails binds (F.tells && Z.tells) now why false self.old.txn c → mark_down why ≡ [] →
            Outcome (F.tells && Z.tells) now self.new c result }
        ensures hand { (history : List OneNoted) → InHand F.tells Z.tells self.old.number history self.old.txn.lanes →
            IsInOrder F.tells Z.tells self.old.nodes self.old.number history result self.new.txn.lanes }
        ensures turn { is_ask result ≡ false }
        ensures sound { IsSound self.new.txn }
        ensures kept { Keeps self.old self.new }
    {
        self.give_up();
        self.reply(Some(Reply::Error(why)))
    }
}
