//! CREATE TABLE and ALTER TABLE.
ghost use Rattle.std.specs.Prelude.{◌≡◌, ◌&&◌, List, false, IsTrue};
ghost use Rattle.hq_history.specs.declared.noted.Noted.{Noted as OneNoted};
ghost use Rattle.hq_catalog.specs.declared.ask.Ask.{Ask as AnAsk};
ghost use Rattle.hq_sql.specs.Fits.{fits};
ghost use Rattle.hq_sql.specs.declared.tree.Statement.TheVariants as statement;
ghost use Rattle.hq_transcript.specs.Pieces.{Reads};
ghost use Rattle.hq_transcript.specs.Binds.{binds};
ghost use Rattle.hq_turns.specs.Counts.{Counts, Later};
ghost use Rattle.hq_turns.specs.Now.{Now, Heard};
ghost use Rattle.hq_turns.specs.Ends.{Begins};
ghost use Rattle.hq_turns.specs.Asked.{AsksCreate, AsksAlter};
ghost use Rattle.hq_turns.specs.Hand.{InHand};
ghost use Rattle.hq_session.specs.Keeps.{IsInOrder, IsSound, Keeps, is_ask};
ghost use Rattle.hq_session.specs.Waits.{CanHear, Outcome, RowsOfBytes};

use crate::awaited::Awaited;
use crate::define::define;
use crate::session::Session;
use crate::turn::Turn;
use hq_catalog::{Answer, Ask};
use hq_reply::{Fault, Reply};
use hq_sql::CreateStatement;
use hq_store::{SealCopy, StoredFile};
use hq_txn::TxnState;
use hq_value::{Column, Name};

impl<F: StoredFile, Z: SealCopy> Session<F, Z> {
    // CREATE TABLE: it asks for the table, unless its text refuses it or a transaction is there.
    pub(crate) fn create(&mut self, create: CreateStatement) -> Turn<F, Z>
        requires grammar { IsTrue (fits (statement.Create create)) }
        requires sound { IsSound self.old.txn }
        ensures carries { (now : Now) (c : Counts) → Begins (F.tells && Z.tells) now (Reads (statement.Create create)) self.old.txn c →
            Outcome (F.tells && Z.tells) now self.new c result }
        ensures hand { (history : List OneNoted) → InHand F.tells Z.tells self.old.number history self.old.txn.lanes →
            IsInOrder F.tells Z.tells self.old.nodes self.old.number history result self.new.txn.lanes }
        ensures sound { IsSound self.new.txn }
        ensures kept { Keeps self.old self.new }
    {
        match self.txn.state() {
            TxnState::Idle => match define(self.alloc, create) {
                Ok(table) => {
                    self.awaited = Awaited::Create;
                    Turn::Ask(Ask::Create(table))
                }
                Err(why) => self.refuse(why),
            },
            TxnState::Open => self.refuse(Fault::TransactionOpen),
            TxnState::Failed => self.refuse(Fault::TransactionFailed),
        }
    }

    // ALTER TABLE: it asks for the column, unless a transaction is there.
    pub(crate) fn alter(&mut self, table: Name, column: Column) -> Turn<F, Z>
        requires sound { IsSound self.old.txn }
        ensures carries { (now : Now) (c : Counts) → Begins (F.tells && Z.tells) now (Reads (statement.Alter table column)) self.old.txn c →
            Outcome (F.tells && Z.tells) now self.new c result }
        ensures hand { (history : List OneNoted) → InHand F.tells Z.tells self.old.number history self.old.txn.lanes →
            IsInOrder F.tells Z.tells self.old.nodes self.old.number history result self.new.txn.lanes }
        ensures sound { IsSound self.new.txn }
        ensures kept { Keeps self.old self.new }
    {
        match self.txn.state() {
            TxnState::Idle => {
                self.awaited = Awaited::Alter;
                Turn::Ask(Ask::Alter { table, column })
            }
            TxnState::Open => self.refuse(Fault::TransactionOpen),
            TxnState::Failed => self.refuse(Fault::TransactionFailed),
        }
    }

    // What became of the table that a CREATE TABLE asked for.
    pub(crate) fn on_create(&mut self, answer: Answer<F, Z>) -> Turn<F, Z>
        requires heard { CanHear Awaited.Create answer }
        requires sound { IsSound self.old.txn }
        ensures carries { (file_rows : RowsOfBytes) (now after : Now) (a : AnAsk F Z) (c d : Counts) →
            AsksCreate binds (F.tells && Z.tells) now a self.old.txn c → Later c d →
            Heard file_rows (F.tells && Z.tells) self.old.nodes self.old.number now a answer after →
            Outcome (F.tells && Z.tells) after self.new d result }
        ensures hand { (file_rows : RowsOfBytes) (now after : Now) (a : AnAsk F Z) (c : Counts) →
            AsksCreate binds (F.tells && Z.tells) now a self.old.txn c →
            InHand F.tells Z.tells self.old.number now.history self.old.txn.lanes →
            Heard file_rows (F.tells && Z.tells) self.old.nodes self.old.number now a answer after →
            IsInOrder F.tells Z.tells self.old.nodes self.old.number after.history result self.new.txn.lanes }
        ensures turn { is_ask result ≡ false }
        ensures sound { IsSound self.new.txn }
        ensures kept { Keeps self.old self.new }
    {
        match answer {
            Answer::Made { table: _ } => self.reply(Some(Reply::Created)),
            Answer::Exists => self.refuse(Fault::TableExists),
            Answer::TooManyTables { made: _ } => self.refuse(Fault::TooManyTables),
            Answer::NoMemory => self.refuse(Fault::NoMemory),
            _other => unreachable!(),
        }
    }

    // What became of the column that an ALTER TABLE asked for.
    pub(crate) fn on_alter(&mut self, answer: Answer<F, Z>) -> Turn<F, Z>
        requires heard { CanHear Awaited.Alter answer }
        requires sound { IsSound self.old.txn }
        ensures carries { (file_rows : RowsOfBytes) (now after : Now) (a : AnAsk F Z) (c d : Counts) →
            AsksAlter (F.tells && Z.tells) now a self.old.txn c → Later c d →
            Heard file_rows (F.tells && Z.tells) self.old.nodes self.old.number now a answer after →
            Outcome (F.tells && Z.tells) after self.new d result }
        ensures hand { (file_rows : RowsOfBytes) (now after : Now) (a : AnAsk F Z) (c : Counts) →
            AsksAlter (F.tells && Z.tells) now a self.old.txn c →
            InHand F.tells Z.tells self.old.number now.history self.old.txn.lanes →
            Heard file_rows (F.tells && Z.tells) self.old.nodes self.old.number now a answer after →
            IsInOrder F.tells Z.tells self.old.nodes self.old.number after.history result self.new.txn.lanes }
        ensures turn { is_ask result ≡ false }
        ensures sound { IsSound self.new.txn }
        ensures kept { Keeps self.old self.new }
    {
        match answer {
            Answer::Altered { table: _ } => self.reply(Some(Reply::Altered)),
            Answer::NoTable => self.refuse(Fault::UndefinedTable),
            Answer::TooManyColumns { columns: _ } => self.refuse(Fault::Limit),
            Answer::ColumnThere => self.refuse(Fault::DuplicateColumn),
            Answer::NoMemory => self.refuse(Fault::NoMemory),
            _other => unreachable!(),
        }
    }
}
