//! Where an INSERT puts its values.
ghost use Rattle.std.specs.Prelude.{◌≡◌, ◌++◌, map, IfOk, OnOk};
ghost use Rattle.std.specs.Option.{option_copied};
ghost use Rattle.hq_bind.specs.Targets as spec;

use crate::Places;
use crate::scope::kept;
use hq_expr::{Literal, LongText};
use hq_sql::Literals;
use hq_value::{Column, Kinds, Name, NoMemory, Row, Value, kinds_of};
use std::alloc::Global;

/// The kinds of the columns that take the values, in order: those named, or all where none is named.
pub fn targets(alloc: Global, columns: &[Column], names: &[Name]) -> Result<Kinds, NoMemory>
    ensures { IfOk result (λ kinds. kinds ≡ spec.targets columns.now names.now) }
{
    if names.is_empty() {
        return kinds_of(alloc, columns);
    }
    kinds_named(alloc, columns, names)
}

fn kinds_named(alloc: Global, columns: &[Column], names: &[Name]) -> Result<Kinds, NoMemory>
    ensures { IfOk result (λ kinds. kinds ≡ spec.kinds_named columns.now names.now) }
{
    let mut kinds = Kinds::new(alloc);
    for name in names {
        put_kind(&mut kinds, columns, name)?;
    }
    Ok(kinds)
}

fn put_kind(kinds: &mut Kinds, columns: &[Column], name: &Name) -> Result<(), NoMemory>
    ensures { OnOk result (kinds.new ≡ kinds.old ++ spec.kind_named columns.now name.now) }
{
    match column_named(columns, name) {
        None => Ok(()),
        Some(column) => kinds.push(column.kind),
    }
}

fn column_named<'a>(columns: &'a [Column], name: &Name) -> Option<&'a Column>
    ensures { option_copied result ≡ spec.column_named columns.now name.now }
{
    for column in columns {
        if column.name == *name {
            return Some(column);
        }
    }
    None
}

/// For each column of the table the place of its value, or none.
pub fn places(alloc: Global, columns: &[Column], names: &[Name]) -> Result<Places, NoMemory>
    ensures { IfOk result (λ places. places ≡ spec.places columns.now names.now) }
{
    if names.is_empty() {
        return own_places(alloc, columns.len());
    }
    places_among(alloc, columns, names)
}

fn own_places(alloc: Global, count: usize) -> Result<Places, NoMemory>
    ensures { IfOk result (λ places. places ≡ spec.own_places count) }
{
    let mut places = Places::new(alloc);
    for place in 0..count {
        let place = kept(place)?;
        places.push(Some(place))?;
    }
    Ok(places)
}

fn places_among(alloc: Global, columns: &[Column], names: &[Name]) -> Result<Places, NoMemory>
    ensures { IfOk result (λ places. places ≡ spec.places_among columns.now names.now) }
{
    let mut places = Places::new(alloc);
    for column in columns {
        let place = place_among(names, column)?;
        places.push(place)?;
    }
    Ok(places)
}

fn place_among(names: &[Name], column: &Column) -> Result<Option<u16>, NoMemory>
    ensures { IfOk result (λ place. place ≡ spec.place_among names.now column.now) }
{
    match place_named(names, column) {
        None => Ok(None),
        Some(place) => Ok(Some(kept(place)?)),
    }
}

fn place_named(names: &[Name], column: &Column) -> Option<usize>
    ensures { result ≡ spec.place_among names.now column.now }
{
    names.iter().position(|name| column.name == *name)
}

/// The rows that tuples make, with all columns in order: NULL where no value is named.
pub fn rows(alloc: Global, places: &Places, tuples: &[Literals]) -> Result<Vec<Row>, NoMemory>
    ensures { IfOk result (λ rows. rows.items ≡ map (spec.row_of places.now) tuples.now) }
{
    let mut rows = Vec::with_capacity(alloc, tuples.len())?;
    for tuple in tuples {
        let row = row_of(alloc, places, tuple)?;
        rows.push(row)?;
    }
    Ok(rows)
}

fn row_of(alloc: Global, places: &Places, tuple: &Literals) -> Result<Row, NoMemory>
    ensures { IfOk result (λ row. row ≡ spec.row_of places.now tuple.now) }
{
    row_over(alloc, places.as_slice(), tuple.as_slice())
}

fn row_over(alloc: Global, places: &[Option<u16>], literals: &[Literal]) -> Result<Row, NoMemory>
    ensures { IfOk result (λ row. row ≡ spec.row_of places.now literals.now) }
{
    let mut row = Row::with_capacity(alloc, places.len())?;
    for place in places {
        let value = value_at(literals, *place)?;
        row.push(value)?;
    }
    Ok(row)
}

fn value_at(literals: &[Literal], place: Option<u16>) -> Result<Value, NoMemory>
    ensures { IfOk result (λ value. value ≡ spec.value_at literals.now place) }
{
    match place {
        None => Ok(Value::Null),
        Some(place) => match literals.get(place as usize) {
            None => Ok(Value::Null),
            Some(literal) => value_of(literal),
        },
    }
}

/// A literal as a value, which shares its text. There is no room for a text of more than 1,000 bytes, which is refused.
pub fn value_of(literal: &Literal) -> Result<Value, NoMemory>
    ensures { IfOk result (λ value. value ≡ spec.value_of literal.now) }
{
    match literal {
        Literal::Null => Ok(Value::Null),
        Literal::Bool(b) => Ok(Value::Bool(*b)),
        Literal::Int(n) => Ok(Value::Int(*n)),
        Literal::Text(text) => text_value(text),
    }
}

fn text_value(text: &LongText) -> Result<Value, NoMemory>
    ensures { IfOk result (λ value. value ≡ Value.Text text.now) }
{
    match text.chars() {
        Some(chars) => Ok(Value::Text(chars.copy()?)),
        None => Err(NoMemory),
    }
}
