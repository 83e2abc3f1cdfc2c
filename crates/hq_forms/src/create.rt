//! CREATE TABLE as a form.
ghost use Rattle.std.specs.Prelude.{◌≡◌, ◌<◌, ◌≤◌, true, IfOk, IfSome, length, nat_eq};
ghost use Rattle.std.specs.List.{list_any};
ghost use Rattle.hq_value.specs.Tables.{are_distinct, same_names, all_below};
ghost use Rattle.hq_forms.specs.Forms as spec;
ghost use Rattle.hq_forms.specs.Forms.{IsGood};
ghost use Rattle.hq_forms.specs.Gives.{Gives};

use crate::form::Form;
use hq_sql::{CreateStatement, ParseFault};
use hq_value::{Column, Columns, Keys, Name, NoMemory, TableDef};
use std::alloc::Global;

/// The table that a CREATE TABLE makes. Syntax exactly where it breaks a rule of columns and keys.
pub fn create(alloc: Global, statement: &CreateStatement) -> Result<Form, ParseFault>
    ensures form { Gives result (spec.create_of statement.now) }
    ensures good { IfOk result IsGood }
{
    let columns = statement.columns.as_slice();
    if !are_columns(columns) {
        return Err(ParseFault::Syntax);
    }
    let keys = keys(alloc, columns, statement.keys.as_slice())?;
    let name = statement.name.copy(alloc)?;
    let columns = copied(alloc, columns)?;
    Ok(Form::Create {
        name,
        columns,
        keys,
    })
}

fn copied(alloc: Global, columns: &[Column]) -> Result<Columns, NoMemory>
    ensures { IfOk result (λ copy. copy ≡ columns.now) }
{
    let mut copy = Columns::new(alloc);
    for column in columns {
        copy.push(column.copy(alloc)?)?;
    }
    Ok(copy)
}

fn are_columns(columns: &[Column]) -> bool
    ensures { result ≡ spec.are_columns columns.now }
{
    are_few(columns) && (have_distinct_names(columns) && !have_not_null(columns))
}

fn are_few(columns: &[Column]) -> bool
    ensures { result ≡ spec.are_few columns.now }
{
    !columns.is_empty() && columns.len() <= TableDef::MOST_COLUMNS
}

fn have_not_null(columns: &[Column]) -> bool
    ensures { result ≡ list_any spec.is_not_null columns.now }
{
    columns.iter().any(|column| column.not_null)
}

fn have_distinct_names(columns: &[Column]) -> bool
    ensures { result ≡ are_distinct same_names (spec.names columns.now) }
{
    match columns {
        [] => true,
        [first, rest @ ..] => !is_named_in(&first.name, rest) && have_distinct_names(rest),
    }
}

fn is_named_in(name: &Name, columns: &[Column]) -> bool
    ensures { result ≡ list_any (same_names name.now) (spec.names columns.now) }
{
    match columns {
        [] => false,
        [first, rest @ ..] => *name == first.name || is_named_in(name, rest),
    }
}

// The places of the keys. Syntax exactly where one is no column, or stands twice.
#[tactic(auto, using(crate::proofs::Every::goes_on, crate::proofs::Every::stops, crate::proofs::Every::done))]
fn keys(alloc: Global, columns: &[Column], names: &[Name]) -> Result<Keys, ParseFault>
    requires { length columns.now ≤ 64 }
    ensures keys { Gives result (spec.keys_in columns.now names.now) }
    ensures distinct { IfOk result (λ keys. are_distinct nat_eq keys ≡ true) }
    ensures within { IfOk result (λ keys. all_below (length columns.now) keys ≡ true) }
{
    let mut keys = Keys::new(alloc);
    for name in names {
        let Some(place) = place(columns, name) else {
            return Err(ParseFault::Syntax);
        };
        if stands_in(keys.as_slice(), place) {
            return Err(ParseFault::Syntax);
        }
        keys.push(place)?;
    }
    Ok(keys)
}

fn stands_in(places: &[u8], place: u8) -> bool
    ensures { result ≡ list_any (nat_eq place) places.now }
{
    places.iter().any(|other| place == *other)
}

// The place of the first column of this name.
fn place(columns: &[Column], name: &Name) -> Option<u8>
    requires { length columns.now ≤ 64 }
    ensures place { result ≡ spec.place_in columns.now name.now }
    ensures within { IfSome result (λ place. place < length columns.now) }
{
    match columns {
        [] => None,
        [first, rest @ ..] => {
            if first.name == *name {
                return Some(0);
            }
            match place(rest, name) {
                Some(place) => Some(place + 1),
                None => None,
            }
        }
    }
}
