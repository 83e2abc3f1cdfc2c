//! Tables by their numbers.
ghost use Rattle.std.specs.Prelude.{◌≡◌, ◌≤◌, ◌*◌, IfOk, IsTrue, length};
ghost use Rattle.std.specs.Option.{option_copied};
ghost use Rattle.hq_value.specs.Tables.{all_below};
ghost use Rattle.hq_laws.specs.Turned.{columns_in};
ghost use Rattle.hq_whole.specs.Tables as spec;

use hq_algebra::Keys16;
use hq_value::{Kinds, NoMemory, TableDef, kinds_of};
use std::alloc::Global;

/// The definition of a table, if it is there.
pub fn def_of(defs: &[(u32, TableDef)], table: u32) -> Option<&TableDef>
    ensures { option_copied result ≡ spec.def_of defs.now table }
{
    for entry in defs {
        if entry.0 == table {
            return Some(&entry.1);
        }
    }
    None
}

/// The kinds of a table's columns, none where it isn't there.
pub fn kinds_by(alloc: Global, defs: &[(u32, TableDef)], table: u32) -> Result<Kinds, NoMemory>
    ensures { IfOk result (λ kinds. kinds ≡ spec.kinds_by defs.now table) }
{
    match def_of(defs, table) {
        Some(def) => kinds_of(alloc, def.columns().as_slice()),
        None => Ok(Kinds::new(alloc)),
    }
}

/// The number of a table's columns, 0 where it isn't there.
pub fn width_of(defs: &[(u32, TableDef)], table: u32) -> u16
    ensures width { result ≡ length (spec.kinds_by defs.now table) }
    ensures few { result ≤ 64 }
{
    match def_of(defs, table) {
        Some(def) => def.columns().len() as u16,
        None => 0,
    }
}

/// A table has at most 64 columns.
pub fn few_columns(defs: &[(u32, TableDef)], table: u32)
    ensures { length (spec.kinds_by defs.now table) ≤ 64 }
{
    let _columns = width_of(defs, table);
}

/// The number of all columns of these tables.
pub fn width_of_all(defs: &[(u32, TableDef)], tables: &[u32]) -> u16
    requires { length tables.now ≤ 8 }
    ensures width { result ≡ columns_in (spec.kinds_by defs.now) tables.now }
    ensures few { result ≤ 64 * length tables.now }
{
    let mut width = 0;
    for table in tables {
        width += width_of(defs, *table);
    }
    width
}

/// The keys by which a table is distributed, none where it isn't there.
pub fn own_keys(alloc: Global, defs: &[(u32, TableDef)], table: u32) -> Result<Keys16, NoMemory>
    ensures keys { IfOk result (λ keys. keys ≡ spec.keys_by defs.now table) }
    ensures within { IfOk result (λ keys. IsTrue (all_below (length (spec.kinds_by defs.now table)) keys)) }
{
    match def_of(defs, table) {
        Some(def) => {
            def.keeps_the_rules();
            let keys = wide(alloc, def.keys().as_slice())?;
            Ok(keys)
        }
        None => Ok(Keys16::new(alloc)),
    }
}

fn wide(alloc: Global, keys: &[u8]) -> Result<Keys16, NoMemory>
    ensures { IfOk result (λ wide. wide ≡ keys.now) }
{
    let mut wide = Keys16::new(alloc);
    for key in keys {
        wide.push(u16::from(*key))?;
    }
    Ok(wide)
}
