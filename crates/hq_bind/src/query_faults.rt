//! What is wrong with a SELECT.
ghost use Rattle.std.specs.Prelude.{◌≡◌, not, map};
ghost use Rattle.std.specs.List.{list_any};
ghost use Rattle.hq_bind.specs.Faults as spec;

use crate::faults::Faults;
use crate::findings::Findings;
use crate::reading::is_grouped;
use crate::scope::{MOST_SOURCES, SourceColumn, called, fit_count, table_named};
use hq_expr::{ColumnRef, SqlExpr};
use hq_sql::{Item, OrderBy, OrderKey, SelectStatement, SourceName};
use hq_value::{Kind, Name, TableDef};

/// The most output columns that a SELECT may have.
const MOST_ITEMS: usize = 64;

/// What is wrong with a SELECT over its columns and its select list, by what is found in its parts.
pub fn query_faults(
    defs: &[(u32, TableDef)],
    select: &SelectStatement,
    columns: &[SourceColumn],
    items: &[Item],
    of_items: &[Findings],
    of_conds: &[Findings],
    of_having: &[Findings],
) -> Faults
    ensures { result ≡ spec.faults_over defs.now select.now columns.now items.now of_items.now of_conds.now of_having.now }
{
    Faults {
        undefined_table: lacks_table(defs, select.sources.as_slice()),
        duplicate_source: repeats_source(select.sources.as_slice()),
        limit: passes_limit(
            select.sources.as_slice(),
            items,
            of_items,
            of_conds,
            of_having,
        ),
        duplicate_column: false,
        undefined_column: lacks(select, columns, items, of_items, of_conds, of_having),
        ambiguous_column: doubts(select, columns, items, of_items, of_conds, of_having),
        type_mismatch: mismatches(of_items, of_conds, of_having),
        not_grouped: is_grouped(of_items, select) && leaves_groups(of_items, of_having),
    }
}

fn lacks_table(defs: &[(u32, TableDef)], sources: &[SourceName]) -> bool
    ensures { result ≡ list_any (spec.is_no_table defs.now) sources.now }
{
    sources.iter().any(|source| is_no_table(defs, source))
}

fn is_no_table(defs: &[(u32, TableDef)], source: &SourceName) -> bool
    ensures { result ≡ spec.is_no_table defs.now source.now }
{
    table_named(defs, &source.table).is_none()
}

// Two sources are called the same.
fn repeats_source(sources: &[SourceName]) -> bool
    ensures { result ≡ spec.repeats_source sources.now }
{
    match sources {
        [] => false,
        [first, others @ ..] => is_called(called(first), others) || repeats_source(others),
    }
}

fn is_called(name: &Name, sources: &[SourceName]) -> bool
    ensures { result ≡ spec.is_called name.now sources.now }
{
    sources.iter().any(|source| *name == *called(source))
}

// More than 8 sources, 64 output columns, or 1,000 bytes of a text.
fn passes_limit(
    sources: &[SourceName],
    items: &[Item],
    of_items: &[Findings],
    of_conds: &[Findings],
    of_having: &[Findings],
) -> bool
    ensures { result ≡ spec.passes_limit sources.now items.now of_items.now of_conds.now of_having.now }
{
    MOST_SOURCES < sources.len()
        || (MOST_ITEMS < items.len()
            || (any_long(of_items) || (any_long(of_conds) || any_long(of_having))))
}

// A reference or a key that names no column.
fn lacks(
    select: &SelectStatement,
    columns: &[SourceColumn],
    items: &[Item],
    of_items: &[Findings],
    of_conds: &[Findings],
    of_having: &[Findings],
) -> bool
    ensures { result ≡ spec.lacks select.now columns.now items.now of_items.now of_conds.now of_having.now }
{
    any_unknown(of_items)
        || (any_unknown(of_conds)
            || (any_unknown(of_having)
                || (any_fits_none(columns, select.groups.as_slice())
                    || any_no_key(items, select.keys.as_slice()))))
}

// A reference or a key that names two.
fn doubts(
    select: &SelectStatement,
    columns: &[SourceColumn],
    items: &[Item],
    of_items: &[Findings],
    of_conds: &[Findings],
    of_having: &[Findings],
) -> bool
    ensures { result ≡ spec.doubts select.now columns.now items.now of_items.now of_conds.now of_having.now }
{
    any_ambiguous(of_items)
        || (any_ambiguous(of_conds)
            || (any_ambiguous(of_having)
                || (any_fits_two(columns, select.groups.as_slice())
                    || any_two_keys(items, select.keys.as_slice()))))
}

fn mismatches(of_items: &[Findings], of_conds: &[Findings], of_having: &[Findings]) -> bool
    ensures { result ≡ spec.mismatches of_items.now of_conds.now of_having.now }
{
    any_wrong(of_items) || (any_no_condition(of_conds) || any_no_condition(of_having))
}

fn leaves_groups(of_items: &[Findings], of_having: &[Findings]) -> bool
    ensures { result ≡ spec.leaves_groups of_items.now of_having.now }
{
    any_ungrouped(of_items) || any_ungrouped(of_having)
}

fn any_long(found: &[Findings]) -> bool
    ensures { result ≡ list_any spec.has_long found.now }
{
    found.iter().any(|f| f.long)
}

fn any_unknown(found: &[Findings]) -> bool
    ensures { result ≡ list_any spec.has_unknown found.now }
{
    found.iter().any(|f| f.unknown)
}

fn any_ambiguous(found: &[Findings]) -> bool
    ensures { result ≡ list_any spec.has_ambiguous found.now }
{
    found.iter().any(|f| f.ambiguous)
}

fn any_ungrouped(found: &[Findings]) -> bool
    ensures { result ≡ list_any spec.has_ungrouped found.now }
{
    found.iter().any(|f| f.ungrouped)
}

fn any_wrong(found: &[Findings]) -> bool
    ensures { result ≡ list_any spec.is_wrong found.now }
{
    found.iter().any(|f| !f.kind.is_some())
}

fn any_no_condition(found: &[Findings]) -> bool
    ensures { result ≡ list_any spec.is_no_condition found.now }
{
    found.iter().any(|f| !f.kind.is_of(Kind::Bool))
}

fn any_fits_none(columns: &[SourceColumn], groups: &[ColumnRef]) -> bool
    ensures { result ≡ list_any (spec.fits_none columns.now) groups.now }
{
    groups.iter().any(|r| fit_count(columns, r) == 0)
}

fn any_fits_two(columns: &[SourceColumn], groups: &[ColumnRef]) -> bool
    ensures { result ≡ list_any (spec.fits_two columns.now) groups.now }
{
    groups.iter().any(|r| 1 < fit_count(columns, r))
}

fn any_no_key(items: &[Item], keys: &[OrderKey]) -> bool
    ensures { result ≡ list_any (spec.is_no_key items.now) keys.now }
{
    keys.iter().any(|key| key_count(items, &key.by) == 0)
}

fn any_two_keys(items: &[Item], keys: &[OrderKey]) -> bool
    ensures { result ≡ list_any (spec.is_two_keys items.now) keys.now }
{
    keys.iter().any(|key| 1 < key_count(items, &key.by))
}

// How many output columns a key names.
fn key_count(items: &[Item], by: &OrderBy) -> usize
    ensures { result ≡ spec.key_count items.now by.now }
{
    match by {
        OrderBy::Column(name) => name_count(items, name),
        OrderBy::Place(place) => place_count(items, *place),
    }
}

fn name_count(items: &[Item], name: &Name) -> usize
    ensures { result ≡ spec.name_count items.now name.now }
{
    items.iter().filter(|item| has_name(name, item)).count()
}

fn place_count(items: &[Item], place: u64) -> usize
    ensures { result ≡ spec.place_count items.now place }
{
    if 0 < place && place <= items.len() as u64 {
        1
    } else {
        0
    }
}

/// The item makes an output column of this name: its alias, or the column of a bare reference.
pub fn has_name(name: &Name, item: &Item) -> bool
    ensures { result ≡ spec.has_name name.now item.now }
{
    match &item.alias {
        Some(alias) => *alias == *name,
        None => is_bare(name, &item.expr),
    }
}

fn is_bare(name: &Name, e: &SqlExpr) -> bool
    ensures { result ≡ spec.is_bare name.now e.now }
{
    match e {
        SqlExpr::Column(r) => r.column == *name,
        _ => false,
    }
}
