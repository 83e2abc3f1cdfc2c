//! The columns that references name.
ghost use Rattle.std.specs.Prelude.{◌≡◌, ◌&&◌, ◌++◌, ◌<◌, false, length, take, IfOk, IfSome, OnOk};
ghost use Rattle.std.specs.Option.{option_copied};
ghost use Rattle.hq_bind.specs.Scope as spec;
ghost use Rattle.hq_bind.specs.Faults.{is_no_table};
ghost use Rattle.hq_bind.specs.Reading.{read_columns, is_there};

use hq_expr::ColumnRef;
use hq_sql::{SelectStatement, SourceName};
use hq_value::{Column, Kind, Name, NoMemory, Sequence, TableDef};
use std::alloc::Global;

/// A column of a source, as references see it.
#[derive(Debug, Drop)]
pub struct SourceColumn {
    pub source: Name,
    pub name: Name,
    pub kind: Kind,
}

/// Columns of sources in order.
pub type SourceColumns = Sequence<SourceColumn>;

/// The most sources that a SELECT may have.
pub const MOST_SOURCES: usize = 8;

/// The table of this name, with its number.
pub fn table_named<'a>(defs: &'a [(u32, TableDef)], name: &Name) -> Option<&'a (u32, TableDef)>
    ensures { option_copied result ≡ spec.table_named defs.now name.now }
{
    for entry in defs {
        if *entry.1.name() == *name {
            return Some(entry);
        }
    }
    None
}

/// What a source is called: its alias where there is one.
pub fn called(source: &SourceName) -> &Name
    ensures { result.now ≡ spec.called source.now }
{
    match &source.alias {
        Some(alias) => alias,
        None => &source.table,
    }
}

/// The columns of a SELECT's sources in order. Of more than 8 sources, which are refused, those of the first 8.
pub fn read_columns(
    alloc: Global,
    defs: &[(u32, TableDef)],
    select: &SelectStatement,
) -> Result<SourceColumns, NoMemory>
    ensures { IfOk result (λ columns. columns ≡ read_columns defs.now select.now) }
{
    scope(alloc, defs, first_sources(select.sources.as_slice()))
}

fn first_sources(sources: &[SourceName]) -> &[SourceName]
    ensures { result.now ≡ take 8 sources.now }
{
    if sources.len() <= MOST_SOURCES {
        return sources;
    }
    &sources[..MOST_SOURCES]
}

// The columns of all sources in order.
fn scope(
    alloc: Global,
    defs: &[(u32, TableDef)],
    sources: &[SourceName],
) -> Result<SourceColumns, NoMemory>
    ensures { IfOk result (λ columns. columns ≡ spec.scope defs.now sources.now) }
{
    let mut columns = Sequence::new(alloc);
    for source in sources {
        put_source(alloc, &mut columns, defs, source)?;
    }
    Ok(columns)
}

// Adds the columns of one source.
fn put_source(
    alloc: Global,
    columns: &mut SourceColumns,
    defs: &[(u32, TableDef)],
    source: &SourceName,
) -> Result<(), NoMemory>
    ensures { OnOk result (columns.new ≡ columns.old ++ spec.source_columns defs.now source.now) }
{
    match table_named(defs, &source.table) {
        None => Ok(()),
        Some(table) => put_columns(alloc, columns, called(source), table.1.columns().as_slice()),
    }
}

fn put_columns(
    alloc: Global,
    columns: &mut SourceColumns,
    source: &Name,
    more: &[Column],
) -> Result<(), NoMemory>
    ensures { OnOk result (columns.new ≡ columns.old ++ spec.columns_of source.now more.now) }
{
    for column in more {
        let column = column_of(alloc, source, column)?;
        columns.push(column)?;
    }
    Ok(())
}

fn column_of(alloc: Global, source: &Name, column: &Column) -> Result<SourceColumn, NoMemory>
    ensures { IfOk result (λ made. made ≡ spec.column_of source.now column.now) }
{
    let source = source.copy(alloc)?;
    let name = column.name.copy(alloc)?;
    Ok(SourceColumn {
        source,
        name,
        kind: column.kind,
    })
}

/// A source whose table is there has a column.
pub fn has_columns(defs: &[(u32, TableDef)], source: &SourceName)
    requires { is_no_table defs.now source.now ≡ false }
    ensures { 0 < length (spec.source_columns defs.now source.now) }
{
    match table_named(defs, &source.table) {
        None => unreachable!(),
        Some(table) => {
            let _columns = table.1.columns();
        }
    }
}

fn is_of_source(wanted: &Option<Name>, source: &Name) -> bool
    ensures { result ≡ spec.is_of_source wanted.now source.now }
{
    match wanted {
        None => true,
        Some(name) => name == source,
    }
}

fn fits(r: &ColumnRef, column: &SourceColumn) -> bool
    ensures { result ≡ spec.fits r.now column.now }
{
    is_of_source(&r.source, &column.source) && r.column == column.name
}

/// How many columns a reference fits.
pub fn fit_count(columns: &[SourceColumn], r: &ColumnRef) -> usize
    ensures { result ≡ spec.fit_count columns.now r.now }
{
    columns.iter().filter(|column| fits(r, column)).count()
}

/// The place of the first column that a reference fits.
pub fn place_of(columns: &[SourceColumn], r: &ColumnRef) -> Option<usize>
    ensures { result ≡ spec.place_of columns.now r.now }
{
    columns.iter().position(|column| fits(r, column))
}

/// The place is among these.
pub fn is_there(places: &[u16], place: usize) -> bool
    ensures { result ≡ is_there places.now place }
{
    places.iter().any(|other| *other as usize == place)
}

/// The place as it is kept. A query's columns are at most 512, and its aggregates 16,640: each has a place of 16 bits.
pub fn kept(place: usize) -> Result<u16, NoMemory>
    ensures { IfOk result (λ kept. kept ≡ place) }
{
    if place > 65_535 {
        return Err(NoMemory);
    }
    Ok(place as u16)
}
