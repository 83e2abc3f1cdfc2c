//! Tables by their numbers.
ghost use Rattle.std.specs.Prelude.{◌≡◌, ◌++◌, ◌∷◌, [], length, IfOk, OnOk};
ghost use Rattle.std.specs.List.{AllByRecursion};
ghost use Rattle.hq_value.specs.Tables.{IsDefinition};
ghost use Rattle.hq_schema.specs.Numbers as spec;

use hq_value::{NoMemory, TableDef};
use std::alloc::Global;

/// Tables by their numbers.
pub type Defs = Vec<(u32, TableDef)>;

/// The tables with their numbers, of which the first is 0. Their definitions are shared.
pub fn numbered(alloc: Global, tables: &[TableDef]) -> Result<Defs, NoMemory>
    ensures { IfOk result (λ defs. defs.items ≡ spec.numbered 0 tables.now) }
{
    let mut defs = Vec::with_capacity(alloc, tables.len())?;
    for table in tables {
        add(&mut defs, table)?;
    }
    Ok(defs)
}

// Adds a table with the next number.
fn add(defs: &mut Defs, table: &TableDef) -> Result<(), NoMemory>
    ensures { OnOk result (defs.new.items ≡ defs.old.items ++ (length defs.old.items, table.now) ∷ []) }
{
    let number = defs.len();
    if number > MOST {
        return Err(NoMemory);
    }
    defs.push((number as u32, table.copy()?))?;
    Ok(())
}

const MOST: usize = 0xffff_ffff;

/// Each table keeps the rules of a table.
pub fn keep_the_rules(tables: &[TableDef])
    ensures { AllByRecursion IsDefinition tables.now }
{
    match tables {
        [] => {}
        [first, others @ ..] => {
            first.keeps_the_rules();
            keep_the_rules(others);
        }
    }
}
