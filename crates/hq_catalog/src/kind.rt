//! The entry that a plan will leave.
ghost use Rattle.std.specs.Prelude.{◌≡◌, ◌<◌, ◌≤◌, ◌&&◌, ℕ, length};
ghost use Rattle.hq_log.specs.Places.{next_place};
ghost use Rattle.hq_catalog.specs.CatStep.{places_of};
ghost use Rattle.hq_catalog.specs.Kept.{IsBooks, told_by};
ghost use Rattle.hq_catalog.specs.Plans.{Fits, IsKind, IsSweep, IsSweepOf, kind_next};
ghost use Rattle.hq_catalog.specs.State.{table_in};

use crate::books::Books;
use crate::plan::Plan;
use crate::table::Table;
use hq_pool::Next;
use hq_store::{SealCopy, StoredFile};
use hq_value::EntryKind;

impl<F: StoredFile, Z: SealCopy> Books<F, Z> {
    /// The kind of the entry that a plan will leave.
    pub(crate) fn kind_left(&self, plan: &Plan<F, Z>) -> EntryKind
        requires books { IsBooks (F.tells && Z.tells) self.now }
        requires fits { (k : ℕ) × Fits F.tells Z.tells k self.now plan.now }
        ensures { IsKind (told_by (F.tells && Z.tells) self.now) plan.now result }
    {
        match plan {
            Plan::Look(_) => EntryKind::Look,
            Plan::Make { .. } => EntryKind::Create,
            Plan::Exists => EntryKind::Create,
            Plan::TooManyTables => EntryKind::Create,
            Plan::Add { .. } => EntryKind::Alter,
            Plan::NoTable => EntryKind::Alter,
            Plan::TooManyColumns(_) => EntryKind::Alter,
            Plan::ColumnThere => EntryKind::Alter,
            Plan::Lend(table) => self.kind_lent(*table),
            Plan::Adopt(lane) => EntryKind::Adopt {
                table: lane.table(),
                lane: lane.number(),
            },
            Plan::Commit(_) => EntryKind::Commit,
            Plan::Back(lane) => EntryKind::Back {
                table: lane.table(),
                lane: lane.number(),
                clean: lane.is_clean(),
            },
            Plan::SweepAny => self.kind_swept(),
            Plan::Mark { node, up } => EntryKind::Mark {
                node: *node,
                up: *up,
            },
        }
    }

    // Where a lane of this table is asked.
    fn kind_lent(&self, table: u32) -> EntryKind
        requires books { IsBooks (F.tells && Z.tells) self.now }
        requires made { table < length self.now.tables.items }
        ensures { result ≡ kind_next table (next_place (places_of (told_by (F.tells && Z.tells) self.now) table)) }
    {
        kind_of_next(table, self.tables[table as usize].next())
    }

    // Where any lane with a tail is asked.
    fn kind_swept(&self) -> EntryKind
        requires { IsBooks (F.tells && Z.tells) self.now }
        ensures { IsSweep (told_by (F.tells && Z.tells) self.now) result }
    {
        kind_of_sweep(&self.tables)
    }
}

// Where this lane of the table is next.
fn kind_of_next(table: u32, next: Next) -> EntryKind
    ensures { result ≡ kind_next table next }
{
    match next {
        Next::Clean(lane) => EntryKind::Lend { table, lane },
        Next::Unborn(lane) => EntryKind::Lend { table, lane },
        Next::Dirty(lane) => EntryKind::Sweep { table, lane },
        Next::AllOut => EntryKind::Full { table },
    }
}

// The lowest lane with a tail, of the lowest table that has one.
fn kind_of_sweep<F: StoredFile, Z: SealCopy>(tables: &Vec<Table<F, Z>>) -> EntryKind
    requires few { length tables.now.items ≤ 64 }
    requires lanes { (t : ℕ) → t < length tables.now.items → length (table_in tables.now.items t).slots ≡ 64 }
    ensures { IsSweepOf tables.now.items result }
{
    for t in 0..tables.len() {
        match tables[t].lowest_dirty() {
            Some(lane) => {
                return EntryKind::Sweep {
                    table: t as u32,
                    lane,
                };
            }
            None => {}
        }
    }
    EntryKind::Idle
}
