//! Tables as a look sees them.
ghost use Rattle.std.specs.Prelude.{◌≡◌, ℕ, ◌<◌, ◌≤◌, ◌||◌, length, map, position, IfOk, OnOk};
ghost use Rattle.hq_value.specs.Tables.{same_names};
ghost use Rattle.hq_snap.specs.Scopes.{is_in};
ghost use Rattle.hq_snap.specs.Caches.{snap_at};
ghost use Rattle.hq_catalog.specs.Looks.{have_at, numbers_in};
ghost use Rattle.hq_catalog.specs.Copies.{IsCopy, AddsIf, HasTables, AreWanted, AreNamed, is_had, is_marked, name_at};

use crate::table::Table;
use hq_snap::{Have, Scope, TableDelta};
use hq_store::{SealCopy, StoredFile};
use hq_value::{Name, NoMemory};
use indexmap::IndexSet;
use std::alloc::Global;

/// The tables of the scope, each with the seals of the files that changed since the session had it. They are found by
/// their names: of any other table nothing is read.
pub(crate) fn seen_of<F: StoredFile, Z: SealCopy>(
    alloc: Global,
    names: &IndexSet<Name>,
    tables: &Vec<Table<F, Z>>,
    scope: &Scope,
    have: &Vec<Have>,
) -> Result<Vec<TableDelta<Z>>, NoMemory>
    requires tables { HasTables tables.now.items }
    requires few { length tables.now.items ≤ 64 }
    requires names { names.now.keys ≡ map (λ table. table.def.name) tables.now.items }
    ensures tables { IfOk result (λ snaps. map (λ snap. snap.table) snaps.items ≡ numbers_in scope.now 0 (map (λ table. table.def) tables.now.items)) }
    ensures each { IfOk result (λ snaps. (i : ℕ) → i < length snaps.items → IsCopy have.now.items tables.now.items (snap_at snaps.items i)) }
{
    let wanted = wanted_of(names, scope);
    let mut snaps = Vec::new(alloc);
    for t in 0..tables.len() {
        add_seen(alloc, &mut snaps, &tables[t], wanted[t], have)?;
    }
    Ok(snaps)
}

// Adds the table, if it is wanted.
fn add_seen<F: StoredFile, Z: SealCopy>(
    alloc: Global,
    snaps: &mut Vec<TableDelta<Z>>,
    table: &Table<F, Z>,
    wanted: bool,
    have: &Vec<Have>,
) -> Result<(), NoMemory>
    requires { length table.now.seals ≡ 64 }
    ensures { OnOk result (AddsIf wanted have.now.items table.now snaps.old.items snaps.new.items) }
{
    if wanted {
        let at = place_had(have, table.number());
        snaps.push(table.since(alloc, at)?)?;
    }
    Ok(())
}

// The place at which the session has the table, or 0.
fn place_had(have: &Vec<Have>, table: u32) -> u64
    ensures { result ≡ have_at have.now.items table }
{
    match index_had(have.as_slice(), table) {
        Some(i) => have[i].at,
        None => 0,
    }
}

fn index_had(have: &[Have], table: u32) -> Option<usize>
    ensures { result ≡ position (is_had table) have.now }
{
    have.iter().position(|have| have.table == table)
}

// Of each table whether the scope has it.
fn wanted_of(names: &IndexSet<Name>, scope: &Scope) -> [bool; 64]
    requires { length names.now.keys ≤ 64 }
    ensures { AreWanted scope.now names.now.keys result }
{
    match scope {
        Scope::All => [true; 64],
        Scope::Names(wanted) => named_of(names, wanted.as_slice()),
    }
}

// Of each table whether its name is one of these.
fn named_of(names: &IndexSet<Name>, wanted: &[Name]) -> [bool; 64]
    requires { length names.now.keys ≤ 64 }
    ensures { AreNamed wanted.now names.now.keys result }
{
    let mut named = [false; 64];
    for name in wanted {
        mark_named(names, name, &mut named);
    }
    named
}

// Marks the table of this name, if there is one.
fn mark_named(names: &IndexSet<Name>, name: &Name, named: &mut [bool])
    requires { length names.now.keys ≤ length named.old }
    ensures { (t : ℕ) → t < length names.now.keys → is_marked named.new t ≡ is_marked named.old t || same_names name.now (name_at names.now.keys t) }
{
    // Its clause says that the names are apart.
    let _ = names.len();
    if let Some(t) = names.get_index_of(name) {
        named[t] = true;
    }
}
