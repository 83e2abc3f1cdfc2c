//! What a catalogue keeps.
ghost use Rattle.std.specs.Prelude.{◌≡◌, ◌≢◌, List, ◌+◌, ◌<◌, ◌≤◌, ◌&&◌, ◌++◌, ◌∷◌, [], length, vec_len, vec_capacity, IfOk, OnOk};
ghost use Rattle.hq_history.specs.declared.noted.Deposit.TheVariants.{Nothing};
ghost use Rattle.hq_pool.specs.Lends.{entry_of};
ghost use Rattle.hq_catalog.specs.Asks.{MayAdopt, MayBack, MayLend};
ghost use Rattle.hq_catalog.specs.CatStep.{AdoptStep, BackStep, LendStep, LookStep, MarkStep, SweepAnyStep, Notes, noted};
ghost use Rattle.hq_snap.specs.declared.scope.Scope.{Scope as OneScope};
ghost use Rattle.hq_snap.specs.declared.scope.Have.{Have as OneHave};
ghost use Rattle.hq_catalog.specs.Looks.{AreSeen};
ghost use Rattle.hq_catalog.specs.Kept.{HasRoom, IsBooks, IsStill, SweptFirst, answer_of, cat_of, told_by};

use crate::ask::Answer;
use crate::kept::{Change, Grown};
use crate::table::Table;
use hq_lane::Lane;
use hq_pool::Lent;
use hq_snap::TableDelta;
use hq_store::{SealCopy, StoredFile};
use hq_value::{Entry, EntryKind, Marks, Name, NoMemory};
use indexmap::IndexSet;
use std::alloc::Global;

/// The marks of the nodes, the tables with their names, the log, and what its entries left.
#[derive(Drop)]
pub(crate) struct Books<F: StoredFile, Z: SealCopy> {
    pub marks: Marks,
    pub names: IndexSet<Name>,
    pub tables: Vec<Table<F, Z>>,
    pub log: Vec<Entry>,
    pub changes: Vec<Change>,
    pub grown: Vec<Grown>,
}

// Room for an entry, a change, and all that lanes that are out may add: two entries and 16 growths for each of 64 lanes
// of 64 tables.
fn reserve(
    log: &mut Vec<Entry>,
    changes: &mut Vec<Change>,
    grown: &mut Vec<Grown>,
) -> Result<(), NoMemory>
    ensures log { log.new.items ≡ log.old.items }
    ensures changes { changes.new.items ≡ changes.old.items }
    ensures grown { grown.new.items ≡ grown.old.items }
    ensures room { OnOk result (vec_len log.new + 8200 ≤ vec_capacity log.new) }
    ensures change_room { OnOk result (vec_len changes.new < vec_capacity changes.new) }
    ensures grown_room { OnOk result (vec_len grown.new + 131200 ≤ vec_capacity grown.new) }
    ensures log_kept { vec_capacity log.old ≤ vec_capacity log.new }
    ensures grown_kept { vec_capacity grown.old ≤ vec_capacity grown.new }
    ensures log_len { vec_len log.new ≡ vec_len log.old }
    ensures grown_len { vec_len grown.new ≡ vec_len grown.old }
{
    if log.reserve(8200).is_err() {
        return Err(NoMemory);
    }
    if changes.reserve(1).is_err() {
        return Err(NoMemory);
    }
    if grown.reserve(131_200).is_err() {
        return Err(NoMemory);
    }
    Ok(())
}

// The entry of what was lent.
fn kind_of<F: StoredFile, Z: SealCopy>(table: u32, lent: &Lent<Lane<F, Z>>) -> EntryKind
    ensures { result ≡ entry_of table lent.now }
{
    match lent {
        Lent::Clean(lane, _) | Lent::Fresh(lane) => EntryKind::Lend { table, lane: *lane },
        Lent::Sweep(lane, _) => EntryKind::Sweep { table, lane: *lane },
        Lent::AllOut { out: _ } => EntryKind::Full { table },
    }
}

// The answer for what was lent.
fn answer_for<F: StoredFile, Z: SealCopy>(
    alloc: Global,
    table: u32,
    lent: Lent<Lane<F, Z>>,
) -> Answer<F, Z>
    ensures { result ≡ answer_of table lent }
{
    match lent {
        Lent::Clean(_, lane) => Answer::Clean(lane),
        Lent::Sweep(_, lane) => Answer::Sweep(lane),
        Lent::Fresh(number) => {
            let Ok(lane) = Lane::fresh(alloc, table, number) else {
                unreachable!()
            };
            Answer::Fresh(lane)
        }
        Lent::AllOut { out } => Answer::AllOut { out },
    }
}

impl<F: StoredFile, Z: SealCopy> Books<F, Z> {
    /// Answers with the tables that a look sees.
    pub(crate) fn look(
        &mut self,
        session: u32,
        statement: u32,
        tables: Vec<TableDelta<Z>>,
    ) -> Answer<F, Z>
        requires books { IsBooks (F.tells && Z.tells) self.old }
        requires room { HasRoom self.old }
        ensures kept { IsBooks (F.tells && Z.tells) self.new }
        ensures nodes { length self.new.marks ≡ length self.old.marks }
        ensures noted { Notes session statement EntryKind.Look Nothing (told_by (F.tells && Z.tells) self.old) (told_by (F.tells && Z.tells) self.new) }
        ensures step { (scope : OneScope) (have : List OneHave) → AreSeen (F.tells && Z.tells) (told_by (F.tells && Z.tells) self.old) scope have tables.items →
            LookStep (F.tells && Z.tells) (length self.old.marks) session statement (told_by (F.tells && Z.tells) self.old) (told_by (F.tells && Z.tells) self.new) scope have result }
    {
        let at = self.place();
        let marks = self.marks.copy();
        self.note(session, statement, EntryKind::Look);
        Answer::Seen { at, marks, tables }
    }

    /// Makes room for an entry, a change, and all that lanes that are out may add.
    pub(crate) fn make_room(&mut self) -> Result<(), NoMemory>
        requires { IsBooks (F.tells && Z.tells) self.old }
        ensures kept { IsBooks (F.tells && Z.tells) self.new }
        ensures same { cat_of self.new ≡ cat_of self.old }
        ensures tables { self.new.tables ≡ self.old.tables }
        ensures names { self.new.names ≡ self.old.names }
        ensures room { OnOk result (HasRoom self.new) }
    {
        reserve(&mut self.log, &mut self.changes, &mut self.grown)
    }

    /// How long the log is.
    fn place(&self) -> u64
        ensures { result ≡ length self.now.log.items }
    {
        self.log.len() as u64
    }

    /// Adds an entry that changes nothing else.
    pub(crate) fn note(&mut self, session: u32, statement: u32, kind: EntryKind)
        requires books { IsBooks (F.tells && Z.tells) self.old }
        requires room { HasRoom self.old }
        requires still { IsStill self.old.log.items kind }
        ensures kept { IsBooks (F.tells && Z.tells) self.new }
        ensures nodes { length self.new.marks ≡ length self.old.marks }
        ensures noted { told_by (F.tells && Z.tells) self.new ≡ told_by (F.tells && Z.tells) self.old ++ noted session statement kind Nothing ∷ [] }
    {
        self.log.push_reserved(Entry {
            session,
            statement,
            kind,
        });
    }

    /// Marks a node.
    pub(crate) fn mark(&mut self, session: u32, statement: u32, node: u8, up: bool) -> Answer<F, Z>
        requires books { IsBooks (F.tells && Z.tells) self.old }
        requires room { HasRoom self.old }
        requires within { node < length self.old.marks }
        ensures kept { IsBooks (F.tells && Z.tells) self.new }
        ensures nodes { length self.new.marks ≡ length self.old.marks }
        ensures never { result ≢ Answer.NoMemory }
        ensures step { MarkStep (F.tells && Z.tells) (length self.old.marks) session statement (told_by (F.tells && Z.tells) self.old) (told_by (F.tells && Z.tells) self.new) node up result }
    {
        self.marks.set(node, up);
        self.log.push_reserved(Entry {
            session,
            statement,
            kind: EntryKind::Mark { node, up },
        });
        Answer::Done
    }

    /// Lends a lane of a table.
    pub(crate) fn lend(&mut self, session: u32, statement: u32, table: u32) -> Answer<F, Z>
        requires books { IsBooks (F.tells && Z.tells) self.old }
        requires room { HasRoom self.old }
        requires may { MayLend session (told_by (F.tells && Z.tells) self.old) table }
        ensures kept { IsBooks (F.tells && Z.tells) self.new }
        ensures nodes { length self.new.marks ≡ length self.old.marks }
        ensures never { result ≢ Answer.NoMemory }
        ensures step { LendStep (F.tells && Z.tells) (length self.old.marks) session statement (told_by (F.tells && Z.tells) self.old) (told_by (F.tells && Z.tells) self.new) table result }
    {
        let alloc = *self.tables.allocator();
        let lent = self.tables[table as usize].lend(session);
        let kind = kind_of(table, &lent);
        self.log.push_reserved(Entry {
            session,
            statement,
            kind,
        });
        answer_for(alloc, table, lent)
    }

    /// A lane that the session has swept is its to write.
    pub(crate) fn adopt(&mut self, session: u32, statement: u32, lane: Lane<F, Z>) -> Answer<F, Z>
        requires books { IsBooks (F.tells && Z.tells) self.old }
        requires may { MayAdopt (F.tells && Z.tells) session (told_by (F.tells && Z.tells) self.old) lane }
        ensures kept { IsBooks (F.tells && Z.tells) self.new }
        ensures nodes { length self.new.marks ≡ length self.old.marks }
        ensures step { AdoptStep (F.tells && Z.tells) (length self.old.marks) session statement (told_by (F.tells && Z.tells) self.old) (told_by (F.tells && Z.tells) self.new) lane result }
    {
        let table = lane.table();
        let number = lane.number();
        self.tables[table as usize].adopt(number, session);
        self.log.push_reserved(Entry {
            session,
            statement,
            kind: EntryKind::Adopt {
                table,
                lane: number,
            },
        });
        Answer::Adopted(lane)
    }

    /// A lane that the session has comes home.
    pub(crate) fn back(&mut self, session: u32, statement: u32, lane: Lane<F, Z>) -> Answer<F, Z>
        requires books { IsBooks (F.tells && Z.tells) self.old }
        requires may { MayBack (F.tells && Z.tells) session (told_by (F.tells && Z.tells) self.old) lane }
        ensures kept { IsBooks (F.tells && Z.tells) self.new }
        ensures nodes { length self.new.marks ≡ length self.old.marks }
        ensures step { BackStep (F.tells && Z.tells) (length self.old.marks) session statement (told_by (F.tells && Z.tells) self.old) (told_by (F.tells && Z.tells) self.new) lane result }
    {
        let table = lane.table();
        let number = lane.number();
        let clean = self.tables[table as usize].back(lane);
        self.log.push_reserved(Entry {
            session,
            statement,
            kind: EntryKind::Back {
                table,
                lane: number,
                clean,
            },
        });
        Answer::Done
    }

    /// Lends the first lane with a tail, to be swept.
    pub(crate) fn sweep_any(&mut self, session: u32, statement: u32) -> Answer<F, Z>
        requires books { IsBooks (F.tells && Z.tells) self.old }
        requires room { HasRoom self.old }
        ensures kept { IsBooks (F.tells && Z.tells) self.new }
        ensures nodes { length self.new.marks ≡ length self.old.marks }
        ensures never { result ≢ Answer.NoMemory }
        ensures step { SweepAnyStep (F.tells && Z.tells) (length self.old.marks) session statement (told_by (F.tells && Z.tells) self.old) (told_by (F.tells && Z.tells) self.new) result }
    {
        match sweep_first(&mut self.tables, session) {
            Some(lane) => {
                let table = lane.table();
                let number = lane.number();
                self.log.push_reserved(Entry {
                    session,
                    statement,
                    kind: EntryKind::Sweep {
                        table,
                        lane: number,
                    },
                });
                Answer::Sweep(lane)
            }
            None => {
                self.note(session, statement, EntryKind::Idle);
                Answer::Nothing
            }
        }
    }
}

// The lowest lane with a tail, of the lowest table that has one.
fn sweep_first<F: StoredFile, Z: SealCopy>(
    tables: &mut Vec<Table<F, Z>>,
    k: u32,
) -> Option<Lane<F, Z>>
    ensures { SweptFirst k tables.old.items result tables.new.items }
{
    for t in 0..tables.len() {
        match tables[t].sweep_any(k) {
            Some((_, lane)) => return Some(lane),
            None => {}
        }
    }
    None
}
