//! COMMIT, ROLLBACK, and the session's end.
ghost use Rattle.std.specs.Prelude.{◌≡◌, ◌<◌, ◌≤◌, ◌&&◌, List, [], true, false, length, IsTrue};
ghost use Rattle.hq_history.specs.declared.noted.Noted.{Noted as OneNoted};
ghost use Rattle.hq_sql.specs.declared.tree.Statement.TheVariants as statement;
ghost use Rattle.hq_transcript.specs.Pieces.{Reads};
ghost use Rattle.hq_turns.specs.Counts.{counts_of, Later};
ghost use Rattle.hq_turns.specs.Now.{Now};
ghost use Rattle.hq_turns.specs.Ends.{Begins, Closes};
ghost use Rattle.hq_turns.specs.Hand.{InHand};
ghost use Rattle.hq_session.specs.Keeps.{IsInOrder, IsSound, Keeps, asks_left, is_ask};
ghost use Rattle.hq_session.specs.Waits.{Outcome};

use crate::awaited::Awaited;
use crate::session::Session;
use crate::stores::prepare_first;
use crate::turn::Turn;
use hq_catalog::Ask;
use hq_detect::{Benches, Host};
use hq_link::Link;
use hq_reply::{Fault, Reply};
use hq_store::{SealCopy, Store, StoredFile};
use hq_txn::{Txn, TxnState};

// Whether the transaction has no lane.
fn has_none<F: StoredFile, Z: SealCopy>(txn: &Txn<F, Z>) -> bool
    ensures yes { IsTrue result → txn.now.lanes ≡ [] }
    ensures no { result ≡ false → 0 < length txn.now.lanes }
{
    txn.own().len() == 0
}

impl<F: StoredFile, Z: SealCopy> Session<F, Z> {
    // ROLLBACK: the lanes in hand go back.
    pub(crate) fn rollback<S: Store<File = F, Seal = Z>, H: Host, L: Link>(
        &mut self,
        benches: &mut Benches<S, H, L>,
    ) -> Turn<F, Z>
        requires some { 0 < length benches.old.items }
        requires sound { IsSound self.old.txn }
        ensures carries { (now : Now) →
            Begins (F.tells && Z.tells) now (Reads statement.Rollback) self.old.txn (counts_of S.faults H.checks H.faults L.state benches.old.items) →
            Outcome (F.tells && Z.tells) now self.new (counts_of S.faults H.checks H.faults L.state benches.new.items) result }
        ensures hand { (history : List OneNoted) → InHand F.tells Z.tells self.old.number history self.old.txn.lanes →
            IsInOrder F.tells Z.tells self.old.nodes self.old.number history result self.new.txn.lanes }
        ensures later { Later (counts_of S.faults H.checks H.faults L.state benches.old.items) (counts_of S.faults H.checks H.faults L.state benches.new.items) }
        ensures sound { IsSound self.new.txn }
        ensures kept { Keeps self.old self.new }
    {
        match self.txn.state() {
            TxnState::Idle => self.refuse(Fault::NoTransaction),
            TxnState::Open => self.finish(benches, Some(Reply::RolledBack), true),
            TxnState::Failed => self.finish(benches, Some(Reply::RolledBack), true),
        }
    }

    // COMMIT: the lanes in hand are sealed and committed; where the transaction has failed they go back.
    pub(crate) fn commit<S: Store<File = F, Seal = Z>, H: Host, L: Link>(
        &mut self,
        benches: &mut Benches<S, H, L>,
    ) -> Turn<F, Z>
        requires some { 0 < length benches.old.items }
        requires sound { IsSound self.old.txn }
        ensures carries { (now : Now) →
            Begins (F.tells && Z.tells) now (Reads statement.Commit) self.old.txn (counts_of S.faults H.checks H.faults L.state benches.old.items) →
            Outcome (F.tells && Z.tells) now self.new (counts_of S.faults H.checks H.faults L.state benches.new.items) result }
        ensures hand { (history : List OneNoted) → InHand F.tells Z.tells self.old.number history self.old.txn.lanes →
            IsInOrder F.tells Z.tells self.old.nodes self.old.number history result self.new.txn.lanes }
        ensures later { Later (counts_of S.faults H.checks H.faults L.state benches.old.items) (counts_of S.faults H.checks H.faults L.state benches.new.items) }
        ensures sound { IsSound self.new.txn }
        ensures kept { Keeps self.old self.new }
    {
        match self.txn.state() {
            TxnState::Idle => self.refuse(Fault::NoTransaction),
            TxnState::Open => self.commit_open(benches),
            TxnState::Failed => self.finish(benches, Some(Reply::RolledBack), true),
        }
    }

    // Of a transaction that is open. Without a lane it has nothing to seal.
    fn commit_open<S: Store<File = F, Seal = Z>, H: Host, L: Link>(
        &mut self,
        benches: &mut Benches<S, H, L>,
    ) -> Turn<F, Z>
        requires some { 0 < length benches.old.items }
        requires sound { IsSound self.old.txn }
        requires open { self.old.txn.state ≡ TxnState.Open }
        ensures carries { (now : Now) →
            Begins (F.tells && Z.tells) now (Reads statement.Commit) self.old.txn (counts_of S.faults H.checks H.faults L.state benches.old.items) →
            Outcome (F.tells && Z.tells) now self.new (counts_of S.faults H.checks H.faults L.state benches.new.items) result }
        ensures hand { (history : List OneNoted) → InHand F.tells Z.tells self.old.number history self.old.txn.lanes →
            IsInOrder F.tells Z.tells self.old.nodes self.old.number history result self.new.txn.lanes }
        ensures later { Later (counts_of S.faults H.checks H.faults L.state benches.old.items) (counts_of S.faults H.checks H.faults L.state benches.new.items) }
        ensures sound { IsSound self.new.txn }
        ensures kept { Keeps self.old self.new }
    {
        if has_none(&self.txn) {
            return self.finish(benches, Some(Reply::Committed), true);
        }
        match prepare_first(&mut self.txn, benches) {
            Ok(lanes) => {
                self.awaited = Awaited::Ending {
                    reply: Some(Reply::Committed),
                    give: false,
                };
                Turn::Ask(Ask::Commit(lanes))
            }
            Err(why) => self.finish(benches, Some(Reply::Error(why)), true),
        }
    }

    // The input is at its end or may be read no further: the lanes in hand go back, with no reply.
    pub(crate) fn end<S: Store<File = F, Seal = Z>, H: Host, L: Link>(
        &mut self,
        benches: &mut Benches<S, H, L>,
    ) -> Turn<F, Z>
        requires some { 0 < length benches.old.items }
        requires sound { IsSound self.old.txn }
        ensures carries { (now : Now) →
            Closes (F.tells && Z.tells) now self.old.txn (counts_of S.faults H.checks H.faults L.state benches.old.items) →
            Outcome (F.tells && Z.tells) now self.new (counts_of S.faults H.checks H.faults L.state benches.new.items) result }
        ensures hand { (history : List OneNoted) → InHand F.tells Z.tells self.old.number history self.old.txn.lanes →
            IsInOrder F.tells Z.tells self.old.nodes self.old.number history result self.new.txn.lanes }
        ensures later { Later (counts_of S.faults H.checks H.faults L.state benches.old.items) (counts_of S.faults H.checks H.faults L.state benches.new.items) }
        ensures sound { IsSound self.new.txn }
        ensures kept { Keeps self.old self.new }
    {
        self.finish(benches, None, true)
    }
}
