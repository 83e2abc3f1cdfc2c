//! ALTER TABLE over the tables that are there.
ghost use Rattle.std.specs.Prelude.{◌≡◌, ◌⊎◌, ◌<◌, None, length, position, slice_set, IfOk, IfErr, OnOk, OnErr};
ghost use Rattle.hq_value.specs.Tables.{column_refusal, with_column};
ghost use Rattle.hq_bind.specs.Tables as spec;
ghost use Rattle.hq_schema.specs.Refused.{alter_fault_of};

use crate::create::is_named;
use hq_value::{Column, ColumnFault, Name, NoMemory, TableDef};
use std::alloc::Global;
use std::mem;

/// Why an ALTER TABLE adds no column.
#[derive(Clone, Copy, Debug, PartialEq, Eq)]
pub enum AlterFault {
    /// No table has the name.
    NoTable,
    /// The table has 64 columns.
    TooManyColumns,
    /// The table has a column of the new one's name.
    ColumnThere,
    NoMemory,
}

impl From<NoMemory> for AlterFault {
    ghost use Rattle.std.specs.Prelude.{◌≡◌};
    ghost use Rattle.hq_schema.specs.declared.alter.AlterFault.TheVariants.{NoMemory as Starved};

    ghost from_gives = { λ _ e. e ≡ Starved };

    fn from(_: NoMemory) -> AlterFault {
        AlterFault::NoMemory
    }
}

/// Adds a column to the table of this name, as its last one. It is refused where no table has the name, else where the
/// table has 64 columns, else where one has the column's name. After a refusal the tables are as before.
pub fn add_column(
    alloc: Global,
    tables: &mut Vec<TableDef>,
    name: &Name,
    column: &Column,
) -> Result<(), AlterFault>
    ensures added { OnOk result (tables.new.items ≡ spec.with_added tables.old.items name.now column.now) }
    ensures allowed { OnOk result (spec.alter_fault tables.old.items name.now column.now ≡ None) }
    ensures refused { IfErr result (λ why. (why ≡ AlterFault.NoMemory) ⊎ (spec.alter_fault tables.old.items name.now column.now ≡ alter_fault_of why)) }
    ensures same { OnErr result (tables.new.items ≡ tables.old.items) }
{
    match place_named(tables, name) {
        None => Err(AlterFault::NoTable),
        Some(place) => {
            let table = widened(alloc, &tables[place], column)?;
            put(tables, place, table);
            Ok(())
        }
    }
}

fn place_named(tables: &[TableDef], name: &Name) -> Option<usize>
    ensures { result ≡ position (spec.is_named name.now) tables.now }
{
    tables.iter().position(|table| is_named(table, name))
}

// The table with the column, the last.
fn widened(alloc: Global, table: &TableDef, column: &Column) -> Result<TableDef, AlterFault>
    ensures ok { IfOk result (λ def. def ≡ with_column table.now column.now) }
    ensures allowed { IfOk result (λ _. column_refusal table.now column.now ≡ None) }
    ensures refused { IfErr result (λ why. (why ≡ AlterFault.NoMemory) ⊎ (spec.of_column (column_refusal table.now column.now) ≡ alter_fault_of why)) }
{
    let column = column.copy(alloc)?;
    match table.with_column(alloc, column) {
        Ok(def) => Ok(def),
        Err(ColumnFault::TooManyColumns) => Err(AlterFault::TooManyColumns),
        Err(ColumnFault::ColumnThere) => Err(AlterFault::ColumnThere),
        Err(ColumnFault::NoMemory) => Err(AlterFault::NoMemory),
    }
}

fn put(tables: &mut Vec<TableDef>, place: usize, table: TableDef)
    requires { place < length tables.old.items }
    ensures { tables.new.items ≡ slice_set tables.old.items place table }
{
    let _ = mem::replace(&mut tables[place], table);
}
