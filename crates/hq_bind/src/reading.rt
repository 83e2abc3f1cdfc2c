//! A SELECT, read over its tables.
ghost use Rattle.std.specs.Prelude.{◌≡◌, map, IfOk, OnOk};
ghost use Rattle.std.specs.List.{list_any};
ghost use Rattle.hq_sql.specs.Grammar.{given};
ghost use Rattle.hq_bind.specs.Reading as spec;

use crate::findings::{Findings, found_in};
use crate::scope::{SourceColumn, SourceColumns, is_there, kept, place_of};
use hq_algebra::Keys16;
use hq_expr::{ColumnRef, SqlExpr};
use hq_sql::{Item, Items, SelectStatement};
use hq_value::{NoMemory, Sequence};
use std::alloc::Global;

/// What is found in expressions, in their order.
pub type Found = Sequence<Findings>;

/// What `*` is written out to: the columns of all sources in order. Nothing where there is a select list.
pub fn written_items(
    alloc: Global,
    columns: &SourceColumns,
    select: &SelectStatement,
) -> Result<Items, NoMemory>
    ensures { IfOk result (λ items. items ≡ spec.written_out columns.now select.now) }
{
    written_out(alloc, columns.as_slice(), select)
}

fn written_out(
    alloc: Global,
    columns: &[SourceColumn],
    select: &SelectStatement,
) -> Result<Items, NoMemory>
    ensures { IfOk result (λ items. items ≡ spec.written_out columns.now select.now) }
{
    if !select.items.is_empty() {
        return Ok(Sequence::new(alloc));
    }
    all_items(alloc, columns)
}

fn all_items(alloc: Global, columns: &[SourceColumn]) -> Result<Items, NoMemory>
    ensures { IfOk result (λ items. items ≡ map spec.item_of columns.now) }
{
    let mut items = Sequence::new(alloc);
    for column in columns {
        items.push(item_of(alloc, column)?)?;
    }
    Ok(items)
}

fn item_of(alloc: Global, column: &SourceColumn) -> Result<Item, NoMemory>
    ensures { IfOk result (λ item. item ≡ spec.item_of column.now) }
{
    let source = column.source.copy(alloc)?;
    let name = column.name.copy(alloc)?;
    Ok(Item {
        expr: SqlExpr::Column(ColumnRef {
            source: Some(source),
            column: name,
        }),
        alias: None,
    })
}

/// The select list, where this is what `*` is written out to.
pub fn items_read<'a>(written: &'a [Item], select: &'a SelectStatement) -> &'a [Item]
    ensures { result.now ≡ spec.items_read written.now select.now }
{
    if select.items.is_empty() {
        return written;
    }
    select.items.as_slice()
}

/// The places of the GROUP BY columns, each once.
pub fn read_groups(
    alloc: Global,
    columns: &SourceColumns,
    select: &SelectStatement,
) -> Result<Keys16, NoMemory>
    ensures { IfOk result (λ places. places ≡ spec.read_groups columns.now select.now) }
{
    group_places(alloc, columns.as_slice(), select.groups.as_slice())
}

fn group_places(
    alloc: Global,
    columns: &[SourceColumn],
    groups: &[ColumnRef],
) -> Result<Keys16, NoMemory>
    ensures { IfOk result (λ places. places ≡ spec.group_places columns.now groups.now) }
{
    let mut places = Keys16::new(alloc);
    for r in groups {
        put_place(&mut places, place_of(columns, r))?;
    }
    Ok(places)
}

// Adds a place, unless it is there.
fn put_place(places: &mut Keys16, place: Option<usize>) -> Result<(), NoMemory>
    ensures { OnOk result (places.new ≡ spec.with_place places.old place) }
{
    match place {
        None => Ok(()),
        Some(place) => {
            if is_there(places.as_slice(), place) {
                return Ok(());
            }
            places.push(kept(place)?)
        }
    }
}

/// What is found in the items of a select list.
pub fn item_findings(
    alloc: Global,
    columns: &[SourceColumn],
    groups: &[u16],
    items: &[Item],
) -> Result<Found, NoMemory>
    ensures { IfOk result (λ found. found ≡ spec.item_findings columns.now groups.now items.now) }
{
    let mut found = Found::new(alloc);
    for item in items {
        found.push(found_in(columns, groups, &item.expr))?;
    }
    Ok(found)
}

/// What is found in conditions.
pub fn all_findings(
    alloc: Global,
    columns: &[SourceColumn],
    groups: &[u16],
    conds: &[SqlExpr],
) -> Result<Found, NoMemory>
    ensures { IfOk result (λ found. found ≡ spec.all_findings columns.now groups.now conds.now) }
{
    let mut found = Found::new(alloc);
    for cond in conds {
        found.push(found_in(columns, groups, cond))?;
    }
    Ok(found)
}

/// What is found in HAVING.
pub fn having_findings(
    alloc: Global,
    columns: &[SourceColumn],
    groups: &[u16],
    having: &Option<SqlExpr>,
) -> Result<Found, NoMemory>
    ensures { IfOk result (λ found. found ≡ spec.all_findings columns.now groups.now (given having.now)) }
{
    match having {
        None => Ok(Found::new(alloc)),
        Some(cond) => {
            let mut found = Found::new(alloc);
            found.push(found_in(columns, groups, cond))?;
            Ok(found)
        }
    }
}

/// It has GROUP BY, HAVING or an aggregate.
pub fn is_grouped(items: &[Findings], select: &SelectStatement) -> bool
    ensures { result ≡ spec.is_grouped items.now select.now }
{
    let having = select.having.is_some();
    !select.groups.is_empty() || (having || any_aggregate(items))
}

fn any_aggregate(items: &[Findings]) -> bool
    ensures { result ≡ list_any spec.has_aggregate items.now }
{
    items.iter().any(|found| found.aggregate)
}
