//! SELECT.
ghost use Rattle.std.specs.Prelude.{◌≡◌, ◌⊎◌, None, Some, IsTrue, IfOk, IfErr};
ghost use Rattle.hq_sql.specs.Fits.{select_fits};
ghost use Rattle.hq_sql.specs.Grammar.{given};
ghost use Rattle.hq_bind.specs.Bound as spec;
ghost use Rattle.hq_bind.specs.Faults.{first_of, query_faults, faults_over};
ghost use Rattle.hq_bind.specs.Reading as reads;
ghost use Rattle.hq_bind.specs.Read.{IsRead, IsReadOver};

use crate::faults::Faults;
use crate::query::bound_query;
use crate::query_faults::query_faults;
use crate::reading::{
    Found, all_findings, having_findings, item_findings, items_read, read_groups, written_items,
};
use crate::refusal::Refusal;
use crate::scope::{SourceColumns, read_columns};
use hq_algebra::{Keys16, Query};
use hq_sql::{Items, SelectStatement};
use hq_value::{NoMemory, TableDef};
use std::alloc::Global;

/// A SELECT, read over its tables.
#[derive(Debug, Drop)]
pub struct Reading {
    pub columns: SourceColumns,
    /// What `*` is written out to.
    pub written: Items,
    pub groups: Keys16,
    /// What is found in its select list.
    pub of_items: Found,
    pub faults: Faults,
}

/// The query that a SELECT is bound to.
pub fn bind_select(
    alloc: Global,
    defs: &[(u32, TableDef)],
    select: &SelectStatement,
) -> Result<Query, Refusal>
    requires fits { IsTrue (select_fits select.now) }
    ensures refused { IfErr result (λ why. (why ≡ Refusal.NoMemory) ⊎ (first_of (query_faults defs.now select.now) ≡ Some why)) }
    ensures allowed { IfOk result (λ _. first_of (query_faults defs.now select.now) ≡ None) }
    ensures bound { IfOk result (λ query. spec.parts_of query ≡ spec.bound_query defs.now select.now) }
{
    let reading = read(alloc, defs, select)?;
    match select_refusal(defs, select, &reading) {
        Some(refusal) => Err(refusal),
        None => Ok(bound_query(alloc, defs, select, reading)?),
    }
}

fn select_refusal(
    defs: &[(u32, TableDef)],
    select: &SelectStatement,
    reading: &Reading,
) -> Option<Refusal>
    requires { IsRead defs.now select.now reading.now }
    ensures { result ≡ first_of (query_faults defs.now select.now) }
{
    reading.faults.first()
}

/// A SELECT, read over its tables.
pub fn read(
    alloc: Global,
    defs: &[(u32, TableDef)],
    select: &SelectStatement,
) -> Result<Reading, NoMemory>
    ensures { IfOk result (λ reading. IsRead defs.now select.now reading) }
{
    let columns = read_columns(alloc, defs, select)?;
    let written = written_items(alloc, &columns, select)?;
    let groups = read_groups(alloc, &columns, select)?;
    read_over(alloc, defs, select, columns, written, groups)
}

fn read_over(
    alloc: Global,
    defs: &[(u32, TableDef)],
    select: &SelectStatement,
    columns: SourceColumns,
    written: Items,
    groups: Keys16,
) -> Result<Reading, NoMemory>
    ensures { IfOk result (λ reading. IsReadOver defs.now select.now columns written groups reading) }
{
    let of_items = found_items(alloc, select, &columns, &groups, &written)?;
    let faults = faults_of(alloc, defs, select, &columns, &groups, &written, &of_items)?;
    Ok(Reading {
        columns,
        written,
        groups,
        of_items,
        faults,
    })
}

fn found_items(
    alloc: Global,
    select: &SelectStatement,
    columns: &SourceColumns,
    groups: &Keys16,
    written: &Items,
) -> Result<Found, NoMemory>
    ensures { IfOk result (λ found. found ≡ reads.item_findings columns.now groups.now (reads.items_read written.now select.now)) }
{
    let items = items_read(written.as_slice(), select);
    item_findings(alloc, columns.as_slice(), groups.as_slice(), items)
}

fn faults_of(
    alloc: Global,
    defs: &[(u32, TableDef)],
    select: &SelectStatement,
    columns: &SourceColumns,
    groups: &Keys16,
    written: &Items,
    of_items: &Found,
) -> Result<Faults, NoMemory>
    ensures { IfOk result (λ faults. faults ≡ faults_over defs.now select.now columns.now (reads.items_read written.now select.now) of_items.now (reads.all_findings columns.now groups.now select.now.conds) (reads.all_findings columns.now groups.now (given select.now.having))) }
{
    let of_conds = conds_found(alloc, select, columns, groups)?;
    let of_having = having_found(alloc, select, columns, groups)?;
    Ok(query_faults(
        defs,
        select,
        columns.as_slice(),
        items_read(written.as_slice(), select),
        of_items.as_slice(),
        of_conds.as_slice(),
        of_having.as_slice(),
    ))
}

fn conds_found(
    alloc: Global,
    select: &SelectStatement,
    columns: &SourceColumns,
    groups: &Keys16,
) -> Result<Found, NoMemory>
    ensures { IfOk result (λ found. found ≡ reads.all_findings columns.now groups.now select.now.conds) }
{
    all_findings(
        alloc,
        columns.as_slice(),
        groups.as_slice(),
        select.conds.as_slice(),
    )
}

fn having_found(
    alloc: Global,
    select: &SelectStatement,
    columns: &SourceColumns,
    groups: &Keys16,
) -> Result<Found, NoMemory>
    ensures { IfOk result (λ found. found ≡ reads.all_findings columns.now groups.now (given select.now.having)) }
{
    having_findings(alloc, columns.as_slice(), groups.as_slice(), &select.having)
}
