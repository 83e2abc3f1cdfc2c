//! The first part of an ask: all that may want memory.
ghost use Rattle.std.specs.Prelude.{◌≡◌, ◌<◌, ◌&&◌, ℕ, length, Some, IfOk, IsErr, OnOk};
ghost use Rattle.hq_history.specs.Deposits.{MayMake, tables_left};
ghost use Rattle.hq_catalog.specs.Asks.{MayAsk};
ghost use Rattle.hq_catalog.specs.Causes.{MayLackMemory};
ghost use Rattle.hq_catalog.specs.Kept.{HasRoom, IsBooks, cat_of, told_by};
ghost use Rattle.hq_catalog.specs.Looks.{AreSeen};
ghost use Rattle.hq_catalog.specs.Files.{table_named};
ghost use Rattle.hq_catalog.specs.Plans.{Fits, Leads, LeadsAlter, LeadsCreate};

use crate::ask::Ask;
use crate::books::Books;
use crate::copies::seen_of;
use crate::plan::Plan;
use crate::table::Table;
use hq_snap::{Have, Scope, TableDelta};
use hq_store::{SealCopy, StoredFile};
use hq_value::{Column, ColumnFault, Name, NoMemory, TableDef};

/// How many tables there may be.
const TABLES: usize = 64;

impl<F: StoredFile, Z: SealCopy> Books<F, Z> {
    /// Takes all the memory that the ask wants. Nothing that is seen changes.
    pub(crate) fn prepare(&mut self, ask: Ask<F, Z>) -> Result<Plan<F, Z>, NoMemory>
        requires { IsBooks (F.tells && Z.tells) self.old }
        ensures kept { IsBooks (F.tells && Z.tells) self.new }
        ensures same { cat_of self.new ≡ cat_of self.old }
        ensures leads { IfOk result (λ plan. Leads (F.tells && Z.tells) (told_by (F.tells && Z.tells) self.old) plan ask) }
        ensures fits { IfOk result (λ plan. (k : ℕ) → MayAsk F.tells Z.tells k ask (told_by (F.tells && Z.tells) self.old) (length self.old.marks) → Fits F.tells Z.tells k self.new plan) }
        ensures memory { IsErr result → MayLackMemory ask }
    {
        match ask {
            Ask::Look { scope, have } => {
                let tables = self.copies(&scope, &have)?;
                Ok(Plan::Look(tables))
            }
            Ask::Create(def) => self.prepare_create(def),
            Ask::Alter { table, column } => self.prepare_alter(table, column),
            Ask::Lend(table) => {
                self.make_room()?;
                Ok(Plan::Lend(table))
            }
            Ask::Adopt(lane) => Ok(Plan::Adopt(lane)),
            Ask::Commit(lanes) => Ok(Plan::Commit(lanes)),
            Ask::Back(lane) => Ok(Plan::Back(lane)),
            Ask::SweepAny => {
                self.make_room()?;
                Ok(Plan::SweepAny)
            }
            Ask::Mark { node, up } => {
                self.make_room()?;
                Ok(Plan::Mark { node, up })
            }
        }
    }
}

impl<F: StoredFile, Z: SealCopy> Books<F, Z> {
    // The tables of the scope, with what changed of each since.
    fn copies(&mut self, scope: &Scope, have: &Vec<Have>) -> Result<Vec<TableDelta<Z>>, NoMemory>
        requires { IsBooks (F.tells && Z.tells) self.old }
        ensures kept { IsBooks (F.tells && Z.tells) self.new }
        ensures same { cat_of self.new ≡ cat_of self.old }
        ensures seen { IfOk result (λ tables. AreSeen (F.tells && Z.tells) (told_by (F.tells && Z.tells) self.old) scope.now have.now.items tables.items) }
        ensures room { OnOk result (HasRoom self.new) }
    {
        let alloc = *self.tables.allocator();
        let tables = seen_of(alloc, &self.names, &self.tables, scope, have)?;
        self.make_room()?;
        Ok(tables)
    }

    // A table is made, or why it isn't.
    fn prepare_create(&mut self, def: TableDef) -> Result<Plan<F, Z>, NoMemory>
        requires { IsBooks (F.tells && Z.tells) self.old }
        ensures kept { IsBooks (F.tells && Z.tells) self.new }
        ensures same { cat_of self.new ≡ cat_of self.old }
        ensures leads { IfOk result (LeadsCreate (F.tells && Z.tells) (told_by (F.tells && Z.tells) self.old) def) }
        ensures fits { IfOk result (λ plan. (k : ℕ) → Fits F.tells Z.tells k self.new plan) }
    {
        self.make_room()?;
        if self.names.contains(def.name()) {
            return Ok(Plan::Exists);
        }
        if self.tables.len() >= TABLES {
            return Ok(Plan::TooManyTables);
        }
        def.keeps_the_rules();
        self.prepare_table(def)
    }

    // A table of a new name.
    fn prepare_table(&mut self, def: TableDef) -> Result<Plan<F, Z>, NoMemory>
        requires books { IsBooks (F.tells && Z.tells) self.old }
        requires room { HasRoom self.old }
        requires may { MayMake (tables_left (told_by (F.tells && Z.tells) self.old)) def }
        ensures kept { IsBooks (F.tells && Z.tells) self.new }
        ensures same { cat_of self.new ≡ cat_of self.old }
        ensures leads { IfOk result (LeadsCreate (F.tells && Z.tells) (told_by (F.tells && Z.tells) self.old) def) }
        ensures fits { IfOk result (λ plan. (k : ℕ) → Fits F.tells Z.tells k self.new plan) }
    {
        let alloc = *self.tables.allocator();
        let name = def.name().copy(alloc)?;
        let kept = def.copy()?;
        let number = self.tables.len() as u32;
        let table = Table::new(alloc, number, def)?;
        self.tables.reserve(1)?;
        self.names.reserve(1)?;
        Ok(Plan::Make {
            name,
            def: kept,
            table,
        })
    }

    // A column is added, or why it isn't.
    fn prepare_alter(&mut self, table: Name, column: Column) -> Result<Plan<F, Z>, NoMemory>
        requires { IsBooks (F.tells && Z.tells) self.old }
        ensures kept { IsBooks (F.tells && Z.tells) self.new }
        ensures same { cat_of self.new ≡ cat_of self.old }
        ensures leads { IfOk result (LeadsAlter (F.tells && Z.tells) (told_by (F.tells && Z.tells) self.old) table column) }
        ensures fits { IfOk result (λ plan. (k : ℕ) → Fits F.tells Z.tells k self.new plan) }
    {
        self.make_room()?;
        match self.names.get_index_of(&table) {
            Some(t) => self.prepare_column(&table, t, column),
            None => Ok(Plan::NoTable),
        }
    }

    // The same for table t.
    fn prepare_column(&self, name: &Name, t: usize, column: Column) -> Result<Plan<F, Z>, NoMemory>
        requires books { IsBooks (F.tells && Z.tells) self.now }
        requires room { HasRoom self.now }
        requires named { table_named name.now (tables_left (told_by (F.tells && Z.tells) self.now)) ≡ Some t }
        requires made { t < length self.now.tables.items }
        ensures leads { IfOk result (LeadsAlter (F.tells && Z.tells) (told_by (F.tells && Z.tells) self.now) name.now column) }
        ensures fits { IfOk result (λ plan. (k : ℕ) → Fits F.tells Z.tells k self.now plan) }
    {
        let alloc = *self.tables.allocator();
        let kept = column.copy(alloc)?;
        let columns = self.tables[t].def().columns().as_slice().len() as u8;
        match self.tables[t].def().with_column(alloc, column) {
            Ok(def) => Ok(Plan::Add {
                table: t as u32,
                def,
                column: kept,
            }),
            Err(ColumnFault::NoMemory) => Err(NoMemory),
            Err(ColumnFault::TooManyColumns) => Ok(Plan::TooManyColumns(columns)),
            Err(ColumnFault::ColumnThere) => Ok(Plan::ColumnThere),
        }
    }
}
