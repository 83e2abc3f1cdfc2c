//! The query that a SELECT is bound to.
ghost use Rattle.std.specs.Prelude.{◌≡◌, ◌++◌, flat_map, map, None, IsTrue, IfOk, OnOk};
ghost use Rattle.hq_sql.specs.Grammar.{given};
ghost use Rattle.hq_bind.specs.Reading.{is_grouped, items_read};
ghost use Rattle.hq_sql.specs.Fits.{select_fits};
ghost use Rattle.hq_bind.specs.Bound as spec;
ghost use Rattle.hq_bind.specs.Faults.{first_of, query_faults};
ghost use Rattle.hq_bind.specs.Read.{IsRead};
ghost use Rattle.hq_bind.specs.Ready.{IsReady, starts_with_columns};

use crate::bound::Outputs;
use crate::outputs::outputs;
use crate::placed::placed_conds;
use crate::query_faults::has_name;
use crate::reading::{is_grouped, items_read};
use crate::scope::{has_columns, kept, table_named};
use crate::select::Reading;
use hq_algebra::{Exprs, Keys16, Query, SortKey, SortKeys, Tables32};
use hq_sql::{Item, OrderBy, OrderKey, SelectStatement, SourceName};
use hq_value::{Name, NoMemory, TableDef};
use std::alloc::Global;

/// The query that a SELECT without faults is bound to, as it is read.
pub fn bound_query(
    alloc: Global,
    defs: &[(u32, TableDef)],
    select: &SelectStatement,
    reading: Reading,
) -> Result<Query, NoMemory>
    requires fits { IsTrue (select_fits select.now) }
    requires allowed { first_of (query_faults defs.now select.now) ≡ None }
    requires read { IsRead defs.now select.now reading }
    ensures { IfOk result (λ query. spec.parts_of query ≡ spec.bound_query defs.now select.now) }
{
    first_has_columns(defs, select);
    let sources = numbers_of(alloc, defs, select)?;
    let conds = conds_of(alloc, select, &reading)?;
    let grouped = query_grouped(select, &reading);
    let order = query_order(alloc, select, &reading)?;
    let outputs = query_outputs(alloc, select, &reading, grouped)?;
    Ok(query_of(
        select,
        sources,
        conds,
        grouped,
        reading.groups,
        outputs,
        order,
    ))
}

fn conds_of(alloc: Global, select: &SelectStatement, reading: &Reading) -> Result<Exprs, NoMemory>
    ensures { IfOk result (λ conds. conds ≡ map (spec.placed reading.now.columns) select.now.conds) }
{
    placed_conds(alloc, reading.columns.as_slice(), select.conds.as_slice())
}

fn query_grouped(select: &SelectStatement, reading: &Reading) -> bool
    ensures { result ≡ is_grouped reading.now.of_items select.now }
{
    is_grouped(reading.of_items.as_slice(), select)
}

fn query_order(
    alloc: Global,
    select: &SelectStatement,
    reading: &Reading,
) -> Result<SortKeys, NoMemory>
    ensures { IfOk result (λ order. order ≡ spec.order_of (items_read reading.now.written select.now) select.now.keys) }
{
    let items = items_read(reading.written.as_slice(), select);
    order_of(alloc, items, select.keys.as_slice())
}

fn query_outputs(
    alloc: Global,
    select: &SelectStatement,
    reading: &Reading,
    grouped: bool,
) -> Result<Outputs, NoMemory>
    ensures { IfOk result (λ made. made ≡ spec.outputs reading.now.columns reading.now.groups grouped (items_read reading.now.written select.now) (given select.now.having)) }
{
    let items = items_read(reading.written.as_slice(), select);
    outputs(
        alloc,
        reading.columns.as_slice(),
        reading.groups.as_slice(),
        grouped,
        items,
        &select.having,
    )
}

// The first source has a column.
fn first_has_columns(defs: &[(u32, TableDef)], select: &SelectStatement)
    requires fits { IsTrue (select_fits select.now) }
    requires allowed { first_of (query_faults defs.now select.now) ≡ None }
    ensures { IsTrue (starts_with_columns defs.now select.now.sources) }
{
    match select.sources.as_slice() {
        [] => unreachable!(),
        [first, ..] => has_columns(defs, first),
    }
}

fn query_of(
    select: &SelectStatement,
    sources: Tables32,
    conds: Exprs,
    grouped: bool,
    groups: Keys16,
    outputs: Outputs,
    order: SortKeys,
) -> Query
    requires { IsReady (spec.query_parts select.now sources conds grouped groups outputs order) }
    ensures { spec.parts_of result ≡ spec.query_parts select.now sources conds grouped groups outputs order }
{
    Query {
        sources,
        conds,
        grouped,
        groups,
        aggregates: outputs.aggregates,
        having: outputs.having,
        items: outputs.items,
        distinct: select.distinct,
        order,
        limit: select.limit,
    }
}

fn numbers_of(
    alloc: Global,
    defs: &[(u32, TableDef)],
    select: &SelectStatement,
) -> Result<Tables32, NoMemory>
    ensures { IfOk result (λ numbers. numbers ≡ flat_map (spec.number_of defs.now) select.now.sources) }
{
    numbers(alloc, defs, select.sources.as_slice())
}

// The numbers of the sources' tables.
fn numbers(
    alloc: Global,
    defs: &[(u32, TableDef)],
    sources: &[SourceName],
) -> Result<Tables32, NoMemory>
    ensures { IfOk result (λ numbers. numbers ≡ flat_map (spec.number_of defs.now) sources.now) }
{
    let mut numbers = Tables32::new(alloc);
    for source in sources {
        put_number(&mut numbers, defs, source)?;
    }
    Ok(numbers)
}

fn put_number(
    numbers: &mut Tables32,
    defs: &[(u32, TableDef)],
    source: &SourceName,
) -> Result<(), NoMemory>
    ensures { OnOk result (numbers.new ≡ numbers.old ++ spec.number_of defs.now source.now) }
{
    match table_named(defs, &source.table) {
        None => Ok(()),
        Some(table) => numbers.push(table.0),
    }
}

// The columns to sort by, each where it is first named.
fn order_of(alloc: Global, items: &[Item], keys: &[OrderKey]) -> Result<SortKeys, NoMemory>
    ensures { IfOk result (λ order. order ≡ spec.order_of items.now keys.now) }
{
    let mut order = SortKeys::new(alloc);
    for key in keys {
        let key = sort_key(items, key)?;
        put_key(&mut order, key)?;
    }
    Ok(order)
}

// Adds a column, unless it is there.
fn put_key(order: &mut SortKeys, key: SortKey) -> Result<(), NoMemory>
    ensures { OnOk result (order.new ≡ spec.with_key order.old key) }
{
    if is_ordered(order.as_slice(), key.column) {
        return Ok(());
    }
    order.push(key)
}

fn is_ordered(order: &[SortKey], column: u16) -> bool
    ensures { result ≡ spec.is_ordered order.now column }
{
    order.iter().any(|key| key.column == column)
}

fn sort_key(items: &[Item], key: &OrderKey) -> Result<SortKey, NoMemory>
    ensures { IfOk result (λ made. made ≡ spec.sort_key items.now key.now) }
{
    let column = key_column(items, &key.by)?;
    Ok(SortKey {
        column,
        descending: key.descending,
    })
}

// The output column that a key names; 0 where it names none, which is refused.
fn key_column(items: &[Item], by: &OrderBy) -> Result<u16, NoMemory>
    ensures { IfOk result (λ column. column ≡ spec.key_column items.now by.now) }
{
    match by {
        OrderBy::Column(name) => match name_place(items, name) {
            None => Ok(0),
            Some(place) => kept(place),
        },
        OrderBy::Place(place) => kept(place.saturating_sub(1) as usize),
    }
}

fn name_place(items: &[Item], name: &Name) -> Option<usize>
    ensures { result ≡ spec.name_place items.now name.now }
{
    items.iter().position(|item| has_name(name, item))
}
