//! What is taken of a table.
ghost use Rattle.std.specs.Prelude.{◌≡◌, ◌⊎◌, ◌<◌, ◌≤◌, ◌++◌, [], IfOk, OnOk, IsTrue, length, map, nat_eq};
ghost use Rattle.std.specs.List.{range_with_len};
ghost use Rattle.hq_value.specs.Kinds.{kinds_of};
ghost use Rattle.hq_value.specs.Tables.{all_below, are_distinct};
ghost use Rattle.hq_narrow.specs.Narrow.{place_from};
ghost use Rattle.hq_planner.specs.Marked.{marked, picked};
ghost use Rattle.hq_planner.specs.Parts.{IsPart};

use crate::not_narrowed::NotNarrowed;
use crate::renaming::position;
use hq_algebra::Keys16;
use hq_value::{Column, Columns, Keys, NoMemory, TableDef};
use std::alloc::Global;

/// The places of the columns that are taken of a table, and the table of these alone.
#[derive(Drop)]
pub struct Part {
    pub columns: Keys16,
    pub def: TableDef,
}

/// The columns of a table that are marked.
pub fn part_of(alloc: Global, whole: &TableDef, marks: &[bool]) -> Result<Part, NotNarrowed>
    ensures part { IfOk result (λ part. IsPart (kinds_of whole.now.columns) whole.now.keys part.columns (kinds_of part.def.columns) part.def.keys) }
    ensures some { IfOk result (λ part. 0 < length part.columns) }
    ensures few { IfOk result (λ part. length part.columns ≤ 64) }
{
    let columns = whole.columns().as_slice();
    if marks.len() != columns.len() {
        return Err(NotNarrowed::Unfit);
    }
    let places = marked_places(alloc, marks)?;
    if places.is_empty() {
        return Err(NotNarrowed::Unfit);
    }
    let def = marked_def(alloc, whole, marks, places.as_slice())?;
    Ok(Part {
        columns: places,
        def,
    })
}

// The table of the columns that are marked, which stand at these places.
fn marked_def(
    alloc: Global,
    whole: &TableDef,
    marks: &[bool],
    places: &[u16],
) -> Result<TableDef, NoMemory>
    requires marks { length marks.now ≡ length whole.now.columns }
    requires places { places.now ≡ marked marks.now (range_with_len 0 (length marks.now)) }
    requires some { 0 < length places.now }
    requires few { length places.now ≤ 64 }
    ensures columns { IfOk result (λ def. def.columns ≡ marked marks.now whole.now.columns) }
    ensures keys { IfOk result (λ def. (def.keys ≡ []) ⊎ (map (place_from places.now (length whole.now.columns)) def.keys ≡ whole.now.keys)) }
{
    whole.keeps_the_rules();
    let all = whole.columns().as_slice();
    let columns = marked_columns(alloc, all, marks)?;
    let keys = keys_among(alloc, places, all.len() as u16, whole.keys().as_slice())?;
    let name = whole.name().copy(alloc)?;
    TableDef::new(alloc, name, columns, keys)
}

fn marked_places(alloc: Global, marks: &[bool]) -> Result<Keys16, NoMemory>
    requires { length marks.now ≤ 64 }
    ensures places { IfOk result (λ places. places ≡ marked marks.now (range_with_len 0 (length marks.now))) }
    ensures few { IfOk result (λ places. length places ≤ 64) }
{
    let mut places = Keys16::new(alloc);
    for place in 0..marks.len() {
        add_place(&mut places, marks[place], place as u16)?;
    }
    Ok(places)
}

fn add_place(places: &mut Keys16, mark: bool, place: u16) -> Result<(), NoMemory>
    ensures { OnOk result (places.new ≡ places.old ++ picked mark place) }
{
    if !mark {
        return Ok(());
    }
    places.push(place)
}

fn marked_columns(alloc: Global, columns: &[Column], marks: &[bool]) -> Result<Columns, NoMemory>
    requires { length marks.now ≡ length columns.now }
    ensures { IfOk result (λ found. found ≡ marked marks.now columns.now) }
{
    let mut found = Columns::new(alloc);
    for place in 0..columns.len() {
        add_column(alloc, &mut found, marks[place], &columns[place])?;
    }
    Ok(found)
}

fn add_column(
    alloc: Global,
    found: &mut Columns,
    mark: bool,
    column: &Column,
) -> Result<(), NoMemory>
    ensures { OnOk result (found.new ≡ found.old ++ picked mark column.now) }
{
    if !mark {
        return Ok(());
    }
    let copy = column.copy(alloc)?;
    found.push(copy)
}

// A table's keys, by their places among the columns that are taken; none where one of them is not taken.
fn keys_among(alloc: Global, columns: &[u16], width: u16, keys: &[u8]) -> Result<Keys, NoMemory>
    requires few { length columns.now ≤ 64 }
    requires distinct { IsTrue (are_distinct nat_eq keys.now) }
    ensures keys { IfOk result (λ found. (found ≡ []) ⊎ (map (place_from columns.now width) found ≡ keys.now)) }
    ensures distinct { IfOk result (λ found. IsTrue (are_distinct nat_eq found)) }
    ensures within { IfOk result (λ found. IsTrue (all_below (length columns.now) found)) }
{
    let mut found = Keys::new(alloc);
    for key in keys {
        let Some(place) = position(columns, width, u16::from(*key)) else {
            return Ok(Keys::new(alloc));
        };
        found.push(place as u8)?;
    }
    Ok(found)
}
