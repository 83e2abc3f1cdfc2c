//! CREATE TABLE.
ghost use Rattle.std.specs.Prelude.{◌≡◌, ◌≤◌, ◌⊎◌, map, length, None, Some, IsTrue, IfOk, IfErr};
ghost use Rattle.std.specs.List.{list_any};
ghost use Rattle.hq_value.specs.Tables.{are_distinct, same_names, is_column};
ghost use Rattle.hq_sql.specs.Fits.{has_some};
ghost use Rattle.hq_bind.specs.Bound as spec;
ghost use Rattle.hq_bind.specs.Faults as faults;
ghost use Rattle.hq_bind.specs.Targets.{column_names};

use crate::refusal::Refusal;
use hq_sql::CreateStatement;
use hq_value::{Column, Columns, Keys, Name, NoMemory, TableDef};
use std::alloc::Global;

/// The table that a CREATE TABLE makes.
pub fn bind_create(alloc: Global, create: &CreateStatement) -> Result<TableDef, Refusal>
    requires some { IsTrue (has_some create.now.columns) }
    ensures refused { IfErr result (λ why. (why ≡ Refusal.NoMemory) ⊎ (faults.create_refusal create.now ≡ Some why)) }
    ensures allowed { IfOk result (λ _. faults.create_refusal create.now ≡ None) }
    ensures made { IfOk result (λ def. def ≡ spec.created create.now) }
{
    match create_refusal(create) {
        Some(refusal) => Err(refusal),
        None => Ok(created(alloc, create)?),
    }
}

fn create_refusal(create: &CreateStatement) -> Option<Refusal>
    ensures { result ≡ faults.create_refusal create.now }
{
    let columns = create.columns.as_slice();
    if TableDef::MOST_COLUMNS < columns.len() {
        return Some(Refusal::Limit);
    }
    if !(have_distinct_names(columns) && are_distinct(create.keys.as_slice())) {
        return Some(Refusal::DuplicateColumn);
    }
    if lacks_column(columns, create.keys.as_slice()) {
        return Some(Refusal::UndefinedColumn);
    }
    None
}

fn have_distinct_names(columns: &[Column]) -> bool
    ensures { result ≡ are_distinct same_names (column_names columns.now) }
{
    match columns {
        [] => true,
        [first, others @ ..] => {
            !is_column_among(&first.name, others) && have_distinct_names(others)
        }
    }
}

fn is_column_among(name: &Name, columns: &[Column]) -> bool
    ensures { result ≡ list_any (same_names name.now) (column_names columns.now) }
{
    match columns {
        [] => false,
        [first, others @ ..] => *name == first.name || is_column_among(name, others),
    }
}

/// No name stands twice.
pub fn are_distinct(names: &[Name]) -> bool
    ensures { result ≡ are_distinct same_names names.now }
{
    match names {
        [] => true,
        [first, others @ ..] => !is_among(first, others) && are_distinct(others),
    }
}

fn is_among(name: &Name, names: &[Name]) -> bool
    ensures { result ≡ list_any (same_names name.now) names.now }
{
    names.iter().any(|other| *name == *other)
}

/// A name is no column's.
pub fn lacks_column(columns: &[Column], names: &[Name]) -> bool
    ensures { result ≡ list_any (faults.is_no_column columns.now) names.now }
{
    names.iter().any(|name| is_no_column(columns, name))
}

fn is_no_column(columns: &[Column], name: &Name) -> bool
    ensures { result ≡ faults.is_no_column columns.now name.now }
{
    !is_column(columns, name)
}

fn is_column(columns: &[Column], name: &Name) -> bool
    ensures { result ≡ is_column columns.now name.now }
{
    columns.iter().any(|column| column.name == *name)
}

// The table of a CREATE TABLE that is not refused.
fn created(alloc: Global, create: &CreateStatement) -> Result<TableDef, NoMemory>
    requires some { IsTrue (has_some create.now.columns) }
    requires allowed { faults.create_refusal create.now ≡ None }
    ensures { IfOk result (λ def. def ≡ spec.created create.now) }
{
    let keys = keys_of(alloc, create)?;
    let columns = columns_of(alloc, create)?;
    let name = create.name.copy(alloc)?;
    TableDef::new(alloc, name, columns, keys)
}

fn keys_of(alloc: Global, create: &CreateStatement) -> Result<Keys, NoMemory>
    ensures { IfOk result (λ keys. keys ≡ map (spec.key_place create.now.columns) create.now.keys) }
{
    key_places(alloc, create.columns.as_slice(), create.keys.as_slice())
}

fn columns_of(alloc: Global, create: &CreateStatement) -> Result<Columns, NoMemory>
    ensures { IfOk result (λ columns. columns ≡ create.now.columns) }
{
    copied(alloc, create.columns.as_slice())
}

fn copied(alloc: Global, columns: &[Column]) -> Result<Columns, NoMemory>
    ensures { IfOk result (λ copy. copy ≡ columns.now) }
{
    let mut copy = Columns::new(alloc);
    for column in columns {
        copy.push(column.copy(alloc)?)?;
    }
    Ok(copy)
}

// The places of the keys among the columns.
fn key_places(alloc: Global, columns: &[Column], keys: &[Name]) -> Result<Keys, NoMemory>
    ensures { IfOk result (λ places. places ≡ map (spec.key_place columns.now) keys.now) }
{
    let mut places = Keys::new(alloc);
    for key in keys {
        let place = key_place(columns, key)?;
        places.push(place)?;
    }
    Ok(places)
}

// The place of the column of this name; 0 where there is none, which is refused. A table has at most 64 columns, so each
// has a place of 8 bits.
fn key_place(columns: &[Column], name: &Name) -> Result<u8, NoMemory>
    ensures { IfOk result (λ place. place ≡ spec.key_place columns.now name.now) }
{
    match key_found(columns, name) {
        None => Ok(0),
        Some(place) => kept(place),
    }
}

fn key_found(columns: &[Column], name: &Name) -> Option<usize>
    ensures { result ≡ spec.key_found columns.now name.now }
{
    columns.iter().position(|column| column.name == *name)
}

fn kept(place: usize) -> Result<u8, NoMemory>
    ensures { IfOk result (λ kept. kept ≡ place) }
{
    if place > 255 {
        return Err(NoMemory);
    }
    Ok(place as u8)
}
