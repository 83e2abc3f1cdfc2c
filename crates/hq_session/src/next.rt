//! A session's turns.
ghost use Rattle.std.specs.Prelude.{◌≡◌, ◌<◌, ◌&&◌, List, true, length};
ghost use Rattle.hq_history.specs.declared.noted.Noted.{Noted as OneNoted};
ghost use Rattle.hq_catalog.specs.declared.ask.Ask.{Ask as AnAsk};
ghost use Rattle.hq_turns.specs.Counts.{Counts, counts_of, Later};
ghost use Rattle.hq_turns.specs.Now.{Now, Heard};
ghost use Rattle.hq_turns.specs.Hand.{InHand, IsLawful};
ghost use Rattle.hq_session.specs.Keeps.{IsInOrder, IsSound, Keeps, asks_left, is_ask, nodes_of, number_of, txn_of};
ghost use Rattle.hq_session.specs.Waits.{CanHear, CanTake, Outcome, RowsOfBytes, Takes, TakesLanes, Waits, awaited_of, is_answer};

use crate::awaited::Awaited;
use crate::session::Session;
use crate::turn::{Input, Turn};
use hq_catalog::Answer;
use hq_detect::{Benches, Host};
use hq_link::Link;
use hq_store::{SealCopy, Store, StoredFile};
use std::mem;

impl<F: StoredFile, Z: SealCopy> Session<F, Z> {
    /// Takes a piece of the input, or the catalogue's answer to what it asked last, and says what comes next. There is
    /// one bench for each node, the same ones in each call.
    ///
    /// A reply is that of a step, by what the session was told, and an error has its cause in the counts of the benches
    /// since the statement began. Each answer leaves fewer asks to come.
    pub fn next<S: Store<File = F, Seal = Z>, H: Host, L: Link>(
        &mut self,
        benches: &mut Benches<S, H, L>,
        input: Input<'_, F, Z>,
    ) -> Turn<F, Z>
        requires can { CanTake (awaited_of self.old) input }
        requires some { 0 < nodes_of self.old }
        requires benches { length benches.old.items ≡ nodes_of self.old }
        requires sound { IsSound (txn_of self.old) }
        ensures carries { (now : Now) →
            Takes (F.tells && Z.tells) (nodes_of self.old) (number_of self.old) now input.entry (txn_of self.old) (counts_of S.faults H.checks H.faults L.state benches.old.items) (awaited_of self.old) →
            Outcome (F.tells && Z.tells) now self.new (counts_of S.faults H.checks H.faults L.state benches.new.items) result }
        ensures hand { (now : Now) →
            TakesLanes F.tells Z.tells (nodes_of self.old) (number_of self.old) now input.entry (txn_of self.old) (counts_of S.faults H.checks H.faults L.state benches.old.items) (awaited_of self.old) →
            IsInOrder F.tells Z.tells (nodes_of self.old) (number_of self.old) now.history result (txn_of self.new).lanes }
        ensures fewer { is_answer input.entry ≡ true → is_ask result ≡ true → asks_left self.new < asks_left self.old }
        ensures later { Later (counts_of S.faults H.checks H.faults L.state benches.old.items) (counts_of S.faults H.checks H.faults L.state benches.new.items) }
        ensures sound { IsSound (txn_of self.new) }
        ensures kept { Keeps self.old self.new }
    {
        match input {
            Input::Piece(piece) => self.piece(benches, piece),
            Input::Answer(answer) => self.hear(benches, answer),
        }
    }

    // The answer to what it asked.
    pub(crate) fn hear<S: Store<File = F, Seal = Z>, H: Host, L: Link>(
        &mut self,
        benches: &mut Benches<S, H, L>,
        answer: Answer<F, Z>,
    ) -> Turn<F, Z>
        requires heard { CanHear self.old.awaited answer }
        requires some { 0 < length benches.old.items }
        requires sound { IsSound self.old.txn }
        ensures carries { (file_rows : RowsOfBytes) (now after : Now) (a : AnAsk F Z) (c : Counts) →
            Waits (F.tells && Z.tells) now a self.old.txn c self.old.awaited →
            Later c (counts_of S.faults H.checks H.faults L.state benches.old.items) →
            Heard file_rows (F.tells && Z.tells) self.old.nodes self.old.number now a answer after →
            Outcome (F.tells && Z.tells) after self.new (counts_of S.faults H.checks H.faults L.state benches.new.items) result }
        ensures hand { (file_rows : RowsOfBytes) (now after : Now) (a : AnAsk F Z) (c : Counts) →
            Waits (F.tells && Z.tells) now a self.old.txn c self.old.awaited →
            IsLawful F.tells Z.tells self.old.nodes self.old.number now.history a self.old.txn.lanes →
            Heard file_rows (F.tells && Z.tells) self.old.nodes self.old.number now a answer after →
            IsInOrder F.tells Z.tells self.old.nodes self.old.number after.history result self.new.txn.lanes }
        ensures fewer { is_ask result ≡ true → asks_left self.new < asks_left self.old }
        ensures later { Later (counts_of S.faults H.checks H.faults L.state benches.old.items) (counts_of S.faults H.checks H.faults L.state benches.new.items) }
        ensures sound { IsSound self.new.txn }
        ensures kept { Keeps self.old self.new }
    {
        match mem::replace(&mut self.awaited, Awaited::Piece) {
            Awaited::Piece => unreachable!(),
            Awaited::Create => self.on_create(answer),
            Awaited::Alter => self.on_alter(answer),
            Awaited::Ending { reply, give } => self.on_done(benches, answer, reply, give),
        }
    }
}
