//! What a session does with a piece of its input.
ghost use Rattle.std.specs.Prelude.{◌≡◌, ◌<◌, ◌&&◌, List, false, length, IsTrue};
ghost use Rattle.hq_history.specs.declared.noted.Noted.{Noted as OneNoted};
ghost use Rattle.hq_io.specs.Pieces as io;
ghost use Rattle.hq_sql.specs.Fits.{fits};
ghost use Rattle.hq_transcript.specs.Pieces.{Reads};
ghost use Rattle.hq_transcript.specs.Reading.{piece_of};
ghost use Rattle.hq_turns.specs.Counts.{Counts, counts_of, Later};
ghost use Rattle.hq_turns.specs.Now.{Now};
ghost use Rattle.hq_turns.specs.Ends.{Begins};
ghost use Rattle.hq_turns.specs.Asked.{IsWork};
ghost use Rattle.hq_turns.specs.Hand.{InHand};
ghost use Rattle.hq_sql.specs.declared.tree.Statement.{Statement as AStatement};
ghost use Rattle.hq_session.specs.Keeps.{IsInOrder, IsSound, Keeps, is_ask};
ghost use Rattle.hq_session.specs.Waits.{Opens, Outcome};

use crate::reading::read;
use crate::session::Session;
use crate::turn::Turn;
use hq_detect::{Benches, Host};
use hq_io::{Piece, is_blank};
use hq_link::Link;
use hq_reply::Fault;
use hq_sql::{ParseFault, Statement};
use hq_store::{SealCopy, Store, StoredFile};
use hq_txn::TxnState;

impl<F: StoredFile, Z: SealCopy> Session<F, Z> {
    // A piece of the input, or its end.
    pub(crate) fn piece<S: Store<File = F, Seal = Z>, H: Host, L: Link>(
        &mut self,
        benches: &mut Benches<S, H, L>,
        piece: Piece<'_>,
    ) -> Turn<F, Z>
        requires some { 0 < length benches.old.items }
        requires sound { IsSound self.old.txn }
        ensures carries { (now : Now) →
            Opens (F.tells && Z.tells) now piece.entry self.old.txn (counts_of S.faults H.checks H.faults L.state benches.old.items) →
            Outcome (F.tells && Z.tells) now self.new (counts_of S.faults H.checks H.faults L.state benches.new.items) result }
        ensures hand { (history : List OneNoted) → InHand F.tells Z.tells self.old.number history self.old.txn.lanes →
            IsInOrder F.tells Z.tells self.old.nodes self.old.number history result self.new.txn.lanes }
        ensures later { Later (counts_of S.faults H.checks H.faults L.state benches.old.items) (counts_of S.faults H.checks H.faults L.state benches.new.items) }
        ensures sound { IsSound self.new.txn }
        ensures kept { Keeps self.old self.new }
    {
        match piece {
            Piece::Statement(text) => self.text(benches, text),
            Piece::TooLong => self.refuse(Fault::TooLong),
            Piece::Unended => self.refuse(Fault::Syntax),
            Piece::End => self.end(benches),
            Piece::Limit => self.end(benches),
        }
    }

    // The text of a piece.
    fn text<S: Store<File = F, Seal = Z>, H: Host, L: Link>(
        &mut self,
        benches: &mut Benches<S, H, L>,
        text: &[u8],
    ) -> Turn<F, Z>
        requires some { 0 < length benches.old.items }
        requires sound { IsSound self.old.txn }
        ensures carries { (now : Now) →
            Begins (F.tells && Z.tells) now (piece_of (io.statement text.now)) self.old.txn (counts_of S.faults H.checks H.faults L.state benches.old.items) →
            Outcome (F.tells && Z.tells) now self.new (counts_of S.faults H.checks H.faults L.state benches.new.items) result }
        ensures hand { (history : List OneNoted) → InHand F.tells Z.tells self.old.number history self.old.txn.lanes →
            IsInOrder F.tells Z.tells self.old.nodes self.old.number history result self.new.txn.lanes }
        ensures later { Later (counts_of S.faults H.checks H.faults L.state benches.old.items) (counts_of S.faults H.checks H.faults L.state benches.new.items) }
        ensures sound { IsSound self.new.txn }
        ensures kept { Keeps self.old self.new }
    {
        if is_blank(text) {
            return self.reply(None);
        }
        match read(self.alloc, text) {
            Ok(statement) => self.statement(benches, statement),
            Err(ParseFault::Syntax) => self.refuse(Fault::Syntax),
            Err(ParseFault::NoMemory) => self.refuse(Fault::NoMemory),
        }
    }

    // A statement.
    fn statement<S: Store<File = F, Seal = Z>, H: Host, L: Link>(
        &mut self,
        benches: &mut Benches<S, H, L>,
        statement: Statement,
    ) -> Turn<F, Z>
        requires grammar { IsTrue (fits statement) }
        requires some { 0 < length benches.old.items }
        requires sound { IsSound self.old.txn }
        ensures carries { (now : Now) →
            Begins (F.tells && Z.tells) now (Reads statement) self.old.txn (counts_of S.faults H.checks H.faults L.state benches.old.items) →
            Outcome (F.tells && Z.tells) now self.new (counts_of S.faults H.checks H.faults L.state benches.new.items) result }
        ensures hand { (history : List OneNoted) → InHand F.tells Z.tells self.old.number history self.old.txn.lanes →
            IsInOrder F.tells Z.tells self.old.nodes self.old.number history result self.new.txn.lanes }
        ensures later { Later (counts_of S.faults H.checks H.faults L.state benches.old.items) (counts_of S.faults H.checks H.faults L.state benches.new.items) }
        ensures sound { IsSound self.new.txn }
        ensures kept { Keeps self.old self.new }
    {
        match statement {
            Statement::Create(create) => self.create(create),
            Statement::Alter { table, column } => self.alter(table, column),
            Statement::Begin { snapshot } => self.begin(snapshot),
            Statement::Commit => self.commit(benches),
            Statement::Rollback => self.rollback(benches),
            Statement::Select(_) => self.work(),
            Statement::Insert(_) => self.work(),
        }
    }

    // A statement over rows, which is not carried out yet: it is answered as want of memory.
    fn work(&mut self) -> Turn<F, Z>
        requires sound { IsSound self.old.txn }
        ensures carries { (now : Now) (c : Counts) (s : AStatement) → IsWork s → Begins (F.tells && Z.tells) now (Reads s) self.old.txn c →
            Outcome (F.tells && Z.tells) now self.new c result }
        ensures hand { (history : List OneNoted) → InHand F.tells Z.tells self.old.number history self.old.txn.lanes →
            IsInOrder F.tells Z.tells self.old.nodes self.old.number history result self.new.txn.lanes }
        ensures turn { is_ask result ≡ false }
        ensures sound { IsSound self.new.txn }
        ensures kept { Keeps self.old self.new }
    {
        match self.txn.state() {
            TxnState::Failed => self.refuse(Fault::TransactionFailed),
            _ => self.refuse(Fault::NoMemory),
        }
    }
}
