//! Tables made and altered.
ghost use Rattle.std.specs.Prelude.{◌≡◌, ◌<◌, ◌&&◌, ◌++◌, ◌∷◌, [], ℕ, List, length, Some, if◌then◌else◌};
ghost use Rattle.std.specs.List.{list_any};
ghost use Rattle.indexmap.specs.IndexSet.{spare};
ghost use Rattle.hq_value.specs.Tables.{same_names};
ghost use Rattle.hq_history.specs.declared.noted.Deposit.TheVariants.{Made, Added};
ghost use Rattle.hq_history.specs.Deposits.{tables_left};
ghost use Rattle.hq_catalog.specs.Files.{table_named};
ghost use Rattle.hq_catalog.specs.CatStep.{AlterStep, CreateStep, Notes};
ghost use Rattle.hq_catalog.specs.Kept.{IsBooks, told_by};
ghost use Rattle.hq_catalog.specs.Plans.{FitsAdd, FitsMake};

use crate::ask::Answer;
use crate::books::Books;
use crate::kept::Change;
use crate::table::Table;
use hq_store::{SealCopy, StoredFile};
use hq_value::{Column, Entry, EntryKind, Name, TableDef};
use indexmap::IndexSet;

impl<F: StoredFile, Z: SealCopy> Books<F, Z> {
    /// Makes a table of a new name. `name` and `def` are its name and definition once more, to be kept.
    pub(crate) fn make(
        &mut self,
        session: u32,
        statement: u32,
        name: Name,
        def: TableDef,
        table: Table<F, Z>,
    ) -> Answer<F, Z>
        requires books { IsBooks (F.tells && Z.tells) self.old }
        requires fits { FitsMake (F.tells && Z.tells) self.old name def table }
        ensures kept { IsBooks (F.tells && Z.tells) self.new }
        ensures nodes { length self.new.marks ≡ length self.old.marks }
        ensures noted { Notes session statement EntryKind.Create (Made def) (told_by (F.tells && Z.tells) self.old) (told_by (F.tells && Z.tells) self.new) }
        ensures step { CreateStep (F.tells && Z.tells) (length self.old.marks) session statement (told_by (F.tells && Z.tells) self.old) (told_by (F.tells && Z.tells) self.new) def result }
    {
        let number = self.tables.len() as u32;
        let place = self.log.len() as u64;
        push_name(&mut self.names, name);
        self.tables.push_reserved(table);
        self.changes.push_reserved(Change::Made { place, def });
        self.log.push_reserved(Entry {
            session,
            statement,
            kind: EntryKind::Create,
        });
        Answer::Made { table: number }
    }

    /// Gives a table the definition that has a column more. `column` is the column once more, to be kept.
    pub(crate) fn add_column(
        &mut self,
        session: u32,
        statement: u32,
        table: u32,
        def: TableDef,
        column: Column,
    ) -> Answer<F, Z>
        requires books { IsBooks (F.tells && Z.tells) self.old }
        requires fits { FitsAdd self.old table def column }
        ensures kept { IsBooks (F.tells && Z.tells) self.new }
        ensures nodes { length self.new.marks ≡ length self.old.marks }
        ensures noted { Notes session statement EntryKind.Alter (Added table column) (told_by (F.tells && Z.tells) self.old) (told_by (F.tells && Z.tells) self.new) }
        ensures step { (name : List ℕ) → table_named name (tables_left (told_by (F.tells && Z.tells) self.old)) ≡ Some table → AlterStep (F.tells && Z.tells) (length self.old.marks) session statement (told_by (F.tells && Z.tells) self.old) (told_by (F.tells && Z.tells) self.new) name column result }
    {
        let place = self.log.len() as u64;
        self.tables[table as usize].define(def);
        self.changes.push_reserved(Change::Added {
            place,
            table,
            column,
        });
        self.log.push_reserved(Entry {
            session,
            statement,
            kind: EntryKind::Alter,
        });
        Answer::Altered { table }
    }
}

// Adds a name for which there is room.
fn push_name(names: &mut IndexSet<Name>, name: Name)
    requires { 0 < spare names.old }
    ensures { names.new.keys ≡ (if list_any (same_names name) names.old.keys then names.old.keys else names.old.keys ++ name ∷ []) }
{
    match names.insert(name) {
        Ok(_) => {}
        Err(_refused) => unreachable!(),
    }
}
