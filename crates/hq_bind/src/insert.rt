//! INSERT.
ghost use Rattle.std.specs.Prelude.{◌≡◌, ◌⊎◌, None, Some, IsTrue, IfOk, IfErr, map};
ghost use Rattle.std.specs.List.{list_any};
ghost use Rattle.hq_sql.specs.Fits.{input_fits, select_fits};
ghost use Rattle.hq_bind.specs.Scope.{table_named as the_table};
ghost use Rattle.hq_bind.specs.Bound as spec;
ghost use Rattle.hq_bind.specs.Faults as faults;
ghost use Rattle.hq_bind.specs.Findings.{literal_kind as the_kind};
ghost use Rattle.hq_bind.specs.Targets.{targets as the_targets, places as the_places};
ghost use Rattle.hq_bind.specs.Read.{IsRead};

use crate::bound::{Bound, Places};
use crate::create::{are_distinct, lacks_column};
use crate::faults::Faults;
use crate::findings::{Findings, is_long, literal_kind};
use crate::query::bound_query;
use crate::refusal::Refusal;
use crate::scope::table_named;
use crate::select::{Reading, read};
use crate::targets::{places, rows, targets};
use hq_expr::Literal;
use hq_sql::{InsertInput, InsertStatement, Literals, Names, SelectStatement, Tuples};
use hq_value::{Column, Kind, Kinds, Name, NoMemory, TableDef};
use std::alloc::Global;

/// What an INSERT is bound to.
pub fn bind_insert(
    alloc: Global,
    defs: &[(u32, TableDef)],
    insert: &InsertStatement,
) -> Result<Bound, Refusal>
    requires fits { IsTrue (input_fits insert.now.input) }
    ensures refused { IfErr result (λ why. (why ≡ Refusal.NoMemory) ⊎ (faults.insert_refusal defs.now (the_table defs.now insert.now.name) insert.now ≡ Some why)) }
    ensures allowed { IfOk result (λ _. faults.insert_refusal defs.now (the_table defs.now insert.now.name) insert.now ≡ None) }
    ensures bound { IfOk result (λ bound. spec.parts_bound bound ≡ spec.bound_insert defs.now (the_table defs.now insert.now.name) insert.now) }
{
    match table_named(defs, &insert.name) {
        None => Err(Refusal::UndefinedTable),
        Some(table) => bind_input(alloc, defs, table, &insert.columns, &insert.input),
    }
}

fn bind_input(
    alloc: Global,
    defs: &[(u32, TableDef)],
    table: &(u32, TableDef),
    names: &Names,
    input: &InsertInput,
) -> Result<Bound, Refusal>
    requires fits { IsTrue (input_fits input.now) }
    ensures refused { IfErr result (λ why. (why ≡ Refusal.NoMemory) ⊎ (faults.input_refusal defs.now table.now names.now input.now ≡ Some why)) }
    ensures allowed { IfOk result (λ _. faults.input_refusal defs.now table.now names.now input.now ≡ None) }
    ensures bound { IfOk result (λ bound. spec.parts_bound bound ≡ spec.bound_input defs.now table.now names.now input.now) }
{
    match input {
        InsertInput::Tuples(tuples) => bind_tuples(alloc, table, names, tuples),
        InsertInput::Select(select) => bind_rows(alloc, defs, table, names, select),
    }
}

// ---- tuples

fn bind_tuples(
    alloc: Global,
    table: &(u32, TableDef),
    names: &Names,
    tuples: &Tuples,
) -> Result<Bound, Refusal>
    ensures refused { IfErr result (λ why. (why ≡ Refusal.NoMemory) ⊎ (faults.tuples_refusal table.now names.now tuples.now ≡ Some why)) }
    ensures allowed { IfOk result (λ _. faults.tuples_refusal table.now names.now tuples.now ≡ None) }
    ensures bound { IfOk result (λ bound. spec.parts_bound bound ≡ spec.bound_tuples table.now names.now tuples.now) }
{
    let kinds = targets_of(alloc, table, names)?;
    match tuples_refusal(table, names, &kinds, tuples) {
        Some(refusal) => Err(refusal),
        None => Ok(bound_tuples(alloc, table, names, tuples)?),
    }
}

// The kinds of the columns that take the values.
fn targets_of(alloc: Global, table: &(u32, TableDef), names: &Names) -> Result<Kinds, NoMemory>
    ensures { IfOk result (λ kinds. kinds ≡ the_targets table.now.1.columns names.now) }
{
    targets(alloc, table.1.columns().as_slice(), names.as_slice())
}

fn tuples_refusal(
    table: &(u32, TableDef),
    names: &Names,
    kinds: &Kinds,
    tuples: &Tuples,
) -> Option<Refusal>
    requires { kinds.now ≡ the_targets table.now.1.columns names.now }
    ensures { result ≡ faults.tuples_refusal table.now names.now tuples.now }
{
    let columns = table.1.columns();
    let found = tuple_faults(kinds.as_slice(), tuples.as_slice());
    with_list(columns.as_slice(), names.as_slice(), found).first()
}

fn bound_tuples(
    alloc: Global,
    table: &(u32, TableDef),
    names: &Names,
    tuples: &Tuples,
) -> Result<Bound, NoMemory>
    ensures { IfOk result (λ bound. spec.parts_bound bound ≡ spec.bound_tuples table.now names.now tuples.now) }
{
    let places = places_of(alloc, table, names)?;
    let rows = rows(alloc, &places, tuples.as_slice())?;
    Ok(Bound::Values {
        table: table.0,
        rows,
    })
}

fn places_of(alloc: Global, table: &(u32, TableDef), names: &Names) -> Result<Places, NoMemory>
    ensures { IfOk result (λ places. places ≡ the_places table.now.1.columns names.now) }
{
    places(alloc, table.1.columns().as_slice(), names.as_slice())
}

// What is wrong with tuples for columns of these kinds.
fn tuple_faults(kinds: &[Kind], tuples: &[Literals]) -> Faults
    ensures { result ≡ faults.tuple_faults kinds.now tuples.now }
{
    Faults {
        undefined_table: false,
        duplicate_source: false,
        limit: any_long(tuples),
        duplicate_column: false,
        undefined_column: false,
        ambiguous_column: false,
        type_mismatch: any_misfit(kinds, tuples),
        not_grouped: false,
    }
}

fn any_long(tuples: &[Literals]) -> bool
    ensures { result ≡ list_any faults.has_long_literal tuples.now }
{
    tuples.iter().any(|tuple| has_long(tuple.as_slice()))
}

fn has_long(literals: &[Literal]) -> bool
    ensures { result ≡ faults.has_long_literal literals.now }
{
    literals.iter().any(|literal| is_long(literal))
}

fn any_misfit(kinds: &[Kind], tuples: &[Literals]) -> bool
    ensures { result ≡ list_any (faults.literals_misfit kinds.now) tuples.now }
{
    tuples
        .iter()
        .any(|tuple| !literals_fit(kinds, tuple.as_slice()))
}

// As many literals as kinds, each of its kind.
fn literals_fit(kinds: &[Kind], literals: &[Literal]) -> bool
    ensures { result ≡ faults.kinds_fit kinds.now (map the_kind literals.now) }
{
    match kinds {
        [] => literals.is_empty(),
        [kind, kinds @ ..] => match literals {
            [] => false,
            [literal, literals @ ..] => {
                literal_kind(literal).is_of(*kind) && literals_fit(kinds, literals)
            }
        },
    }
}

// What is wrong besides with the list of columns.
fn with_list(columns: &[Column], names: &[Name], of: Faults) -> Faults
    ensures { result ≡ faults.with_list columns.now names.now of }
{
    Faults {
        duplicate_column: !are_distinct(names),
        undefined_column: of.undefined_column || lacks_column(columns, names),
        ..of
    }
}

// ---- a SELECT

fn bind_rows(
    alloc: Global,
    defs: &[(u32, TableDef)],
    table: &(u32, TableDef),
    names: &Names,
    select: &SelectStatement,
) -> Result<Bound, Refusal>
    requires fits { IsTrue (select_fits select.now) }
    ensures refused { IfErr result (λ why. (why ≡ Refusal.NoMemory) ⊎ (faults.rows_refusal defs.now table.now names.now select.now ≡ Some why)) }
    ensures allowed { IfOk result (λ _. faults.rows_refusal defs.now table.now names.now select.now ≡ None) }
    ensures bound { IfOk result (λ bound. spec.parts_bound bound ≡ spec.bound_rows defs.now table.now names.now select.now) }
{
    let kinds = targets_of(alloc, table, names)?;
    let reading = read(alloc, defs, select)?;
    match rows_refusal(defs, table, names, select, &kinds, &reading) {
        Some(refusal) => Err(refusal),
        None => Ok(insert_query(alloc, defs, table, names, select, reading)?),
    }
}

fn rows_refusal(
    defs: &[(u32, TableDef)],
    table: &(u32, TableDef),
    names: &Names,
    select: &SelectStatement,
    kinds: &Kinds,
    reading: &Reading,
) -> Option<Refusal>
    requires kinds { kinds.now ≡ the_targets table.now.1.columns names.now }
    requires read { IsRead defs.now select.now reading.now }
    ensures { result ≡ faults.rows_refusal defs.now table.now names.now select.now }
{
    let columns = table.1.columns();
    let found = output_faults(
        kinds.as_slice(),
        reading.of_items.as_slice(),
        reading.faults,
    );
    with_list(columns.as_slice(), names.as_slice(), found).first()
}

fn insert_query(
    alloc: Global,
    defs: &[(u32, TableDef)],
    table: &(u32, TableDef),
    names: &Names,
    select: &SelectStatement,
    reading: Reading,
) -> Result<Bound, NoMemory>
    requires fits { IsTrue (select_fits select.now) }
    requires allowed { faults.rows_refusal defs.now table.now names.now select.now ≡ None }
    requires read { IsRead defs.now select.now reading }
    ensures { IfOk result (λ bound. spec.parts_bound bound ≡ spec.bound_rows defs.now table.now names.now select.now) }
{
    let query = bound_query(alloc, defs, select, reading)?;
    let places = places_of(alloc, table, names)?;
    Ok(Bound::InsertQuery {
        table: table.0,
        places,
        query,
    })
}

// What is wrong with a SELECT whose rows are for columns of these kinds.
fn output_faults(kinds: &[Kind], of_items: &[Findings], of: Faults) -> Faults
    ensures { result ≡ faults.output_faults kinds.now (faults.findings_kinds of_items.now) of }
{
    Faults {
        type_mismatch: of.type_mismatch || !outputs_fit(kinds, of_items),
        ..of
    }
}

// As many output columns as kinds, each of its kind.
fn outputs_fit(kinds: &[Kind], of_items: &[Findings]) -> bool
    ensures { result ≡ faults.kinds_fit kinds.now (faults.findings_kinds of_items.now) }
{
    match kinds {
        [] => of_items.is_empty(),
        [kind, kinds @ ..] => match of_items {
            [] => false,
            [found, of_items @ ..] => found.kind.is_of(*kind) && outputs_fit(kinds, of_items),
        },
    }
}
