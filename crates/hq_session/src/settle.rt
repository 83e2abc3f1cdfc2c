//! How a statement ends: its lanes go back, if so, and then it replies.
ghost use Rattle.std.specs.Prelude.{◌≡◌, ◌<◌, ◌≤◌, ◌&&◌, List, true, length};
ghost use Rattle.hq_history.specs.declared.noted.Noted.{Noted as OneNoted};
ghost use Rattle.hq_catalog.specs.declared.ask.Ask.{Ask as AnAsk};
ghost use Rattle.hq_transcript.specs.Binds.{binds};
ghost use Rattle.hq_turns.specs.Counts.{Counts, counts_of, Later};
ghost use Rattle.hq_turns.specs.Now.{Now, Heard};
ghost use Rattle.hq_turns.specs.Ends.{Owes};
ghost use Rattle.hq_turns.specs.Asked.{AsksAtEnd};
ghost use Rattle.hq_turns.specs.Hand.{InHand, IsLawful};
ghost use Rattle.hq_session.specs.Keeps.{IsInOrder, IsSound, Keeps, asks_left, is_ask, turn_of};
ghost use Rattle.hq_session.specs.Waits.{CanHear, Outcome, RowsOfBytes};

use crate::awaited::Awaited;
use crate::session::Session;
use crate::stores::abort_first;
use crate::turn::Turn;
use hq_catalog::{Answer, Ask};
use hq_detect::{Benches, Host};
use hq_link::Link;
use hq_reply::{Fault, Reply};
use hq_store::{SealCopy, Store, StoredFile};

fn to_turn<F: StoredFile, Z: SealCopy>(reply: Option<Reply>) -> Turn<F, Z>
    ensures { result ≡ turn_of reply }
{
    match reply {
        Some(reply) => Turn::Reply(reply),
        None => Turn::Nothing,
    }
}

impl<F: StoredFile, Z: SealCopy> Session<F, Z> {
    // The statement is over.
    pub(crate) fn reply(&mut self, reply: Option<Reply>) -> Turn<F, Z>
        ensures turn { result ≡ turn_of reply }
        ensures txn { self.new.txn ≡ self.old.txn }
        ensures awaited { self.new.awaited ≡ Awaited.Piece }
        ensures kept { Keeps self.old self.new }
    {
        self.awaited = Awaited::Piece;
        to_turn(reply)
    }

    // The lane that was lent first goes back; where none is left the statement is over.
    fn give_back<S: Store<File = F, Seal = Z>, H: Host, L: Link>(
        &mut self,
        benches: &mut Benches<S, H, L>,
        reply: Option<Reply>,
    ) -> Turn<F, Z>
        requires some { 0 < length benches.old.items }
        requires sound { IsSound self.old.txn }
        ensures carries { (now : Now) →
            Owes binds (F.tells && Z.tells) now true now.entries reply self.old.txn (counts_of S.faults H.checks H.faults L.state benches.old.items) →
            Outcome (F.tells && Z.tells) now self.new (counts_of S.faults H.checks H.faults L.state benches.new.items) result }
        ensures hand { (history : List OneNoted) → InHand F.tells Z.tells self.old.number history self.old.txn.lanes →
            IsInOrder F.tells Z.tells self.old.nodes self.old.number history result self.new.txn.lanes }
        ensures fewer { is_ask result ≡ true → asks_left self.new ≤ length self.old.txn.lanes }
        ensures later { Later (counts_of S.faults H.checks H.faults L.state benches.old.items) (counts_of S.faults H.checks H.faults L.state benches.new.items) }
        ensures sound { IsSound self.new.txn }
        ensures kept { Keeps self.old self.new }
    {
        match abort_first(&mut self.txn, benches) {
            Some(lane) => {
                self.awaited = Awaited::Ending { reply, give: true };
                Turn::Ask(Ask::Back(lane))
            }
            None => self.reply(reply),
        }
    }

    // Gives the lanes in hand back, if so, one by one, and then replies.
    pub(crate) fn finish<S: Store<File = F, Seal = Z>, H: Host, L: Link>(
        &mut self,
        benches: &mut Benches<S, H, L>,
        reply: Option<Reply>,
        give: bool,
    ) -> Turn<F, Z>
        requires some { 0 < length benches.old.items }
        requires sound { IsSound self.old.txn }
        ensures carries { (now : Now) →
            Owes binds (F.tells && Z.tells) now give now.entries reply self.old.txn (counts_of S.faults H.checks H.faults L.state benches.old.items) →
            Outcome (F.tells && Z.tells) now self.new (counts_of S.faults H.checks H.faults L.state benches.new.items) result }
        ensures hand { (history : List OneNoted) → InHand F.tells Z.tells self.old.number history self.old.txn.lanes →
            IsInOrder F.tells Z.tells self.old.nodes self.old.number history result self.new.txn.lanes }
        ensures fewer { is_ask result ≡ true → asks_left self.new ≤ length self.old.txn.lanes }
        ensures later { Later (counts_of S.faults H.checks H.faults L.state benches.old.items) (counts_of S.faults H.checks H.faults L.state benches.new.items) }
        ensures sound { IsSound self.new.txn }
        ensures kept { Keeps self.old self.new }
    {
        if give {
            return self.give_back(benches, reply);
        }
        self.reply(reply)
    }

    // What was asked at a statement's end is done, or a mark found no memory.
    pub(crate) fn on_done<S: Store<File = F, Seal = Z>, H: Host, L: Link>(
        &mut self,
        benches: &mut Benches<S, H, L>,
        answer: Answer<F, Z>,
        reply: Option<Reply>,
        give: bool,
    ) -> Turn<F, Z>
        requires heard { CanHear (Awaited.Ending reply give) answer }
        requires some { 0 < length benches.old.items }
        requires sound { IsSound self.old.txn }
        ensures carries { (file_rows : RowsOfBytes) (now after : Now) (a : AnAsk F Z) (c : Counts) →
            AsksAtEnd binds (F.tells && Z.tells) now a give reply self.old.txn c →
            Later c (counts_of S.faults H.checks H.faults L.state benches.old.items) →
            Heard file_rows (F.tells && Z.tells) self.old.nodes self.old.number now a answer after →
            Outcome (F.tells && Z.tells) after self.new (counts_of S.faults H.checks H.faults L.state benches.new.items) result }
        ensures hand { (file_rows : RowsOfBytes) (now after : Now) (a : AnAsk F Z) (c : Counts) →
            AsksAtEnd binds (F.tells && Z.tells) now a give reply self.old.txn c →
            IsLawful F.tells Z.tells self.old.nodes self.old.number now.history a self.old.txn.lanes →
            Heard file_rows (F.tells && Z.tells) self.old.nodes self.old.number now a answer after →
            IsInOrder F.tells Z.tells self.old.nodes self.old.number after.history result self.new.txn.lanes }
        ensures fewer { is_ask result ≡ true → asks_left self.new ≤ length self.old.txn.lanes }
        ensures later { Later (counts_of S.faults H.checks H.faults L.state benches.old.items) (counts_of S.faults H.checks H.faults L.state benches.new.items) }
        ensures sound { IsSound self.new.txn }
        ensures kept { Keeps self.old self.new }
    {
        match answer {
            Answer::Done => self.finish(benches, reply, give),
            Answer::NoMemory => self.finish(benches, Some(Reply::Error(Fault::NoMemory)), give),
            _other => unreachable!(),
        }
    }
}
