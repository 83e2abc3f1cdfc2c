//! CREATE TABLE over the tables that are there.
ghost use Rattle.std.specs.Prelude.{◌≡◌, ◌⊎◌, ◌++◌, ◌∷◌, [], None, IfErr, OnOk, OnErr};
ghost use Rattle.std.specs.List.{list_any};
ghost use Rattle.hq_bind.specs.Bound.{created};
ghost use Rattle.hq_bind.specs.Tables as spec;
ghost use Rattle.hq_schema.specs.Refused.{create_fault_of};
ghost use Rattle.hq_sql.specs.declared.tree.CreateStatement.{CreateStatement as AnyCreate};

use hq_value::{Name, TableDef};

/// The most tables that there may be.
pub const MOST_TABLES: usize = 64;

/// Why a CREATE TABLE makes no table.
#[derive(Clone, Copy, Debug, PartialEq, Eq)]
pub enum CreateFault {
    /// A table has its name.
    Exists,
    /// There are 64 tables.
    TooManyTables,
    NoMemory,
}

/// Makes the table that a CREATE TABLE is bound to, as the last one. It is refused where a table has its name, else where
/// there are 64. After a refusal the tables are as before.
pub fn create_table(tables: &mut Vec<TableDef>, def: TableDef) -> Result<(), CreateFault>
    ensures made { OnOk result (tables.new.items ≡ tables.old.items ++ def ∷ []) }
    // So they are what the statement makes of them.
    ensures bound { OnOk result ((c : AnyCreate) → def ≡ created c → tables.new.items ≡ spec.with_created tables.old.items c) }
    ensures allowed { OnOk result (spec.create_fault tables.old.items def.name ≡ None) }
    ensures refused { IfErr result (λ why. (why ≡ CreateFault.NoMemory) ⊎ (spec.create_fault tables.old.items def.name ≡ create_fault_of why)) }
    ensures same { OnErr result (tables.new.items ≡ tables.old.items) }
{
    if is_table(tables, def.name()) {
        return Err(CreateFault::Exists);
    }
    if tables.len() >= MOST_TABLES {
        return Err(CreateFault::TooManyTables);
    }
    match tables.push(def) {
        Ok(()) => Ok(()),
        Err(_) => Err(CreateFault::NoMemory),
    }
}

fn is_table(tables: &[TableDef], name: &Name) -> bool
    ensures { result ≡ list_any (spec.is_named name.now) tables.now }
{
    tables.iter().any(|table| is_named(table, name))
}

/// Whether a table has this name.
pub fn is_named(table: &TableDef, name: &Name) -> bool
    ensures { result ≡ spec.is_named name.now table.now }
{
    *table.name() == *name
}
