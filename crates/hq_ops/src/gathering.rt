//! Rows gathered into groups, aggregate by aggregate.
ghost use Rattle.std.specs.Prelude.{◌≡◌, ◌==◌, ◌&&◌, ◌<◌, ◌++◌, ◌∷◌, ◌+◌, if◌then◌else◌, [], List, All, IfOk, OnOk, IfSome, length, map, flat_map, false};
ghost use Rattle.std.specs.List.{list_any};
ghost use Rattle.hq_value.specs.declared.value.Value.{Value as Datum};
ghost use Rattle.hq_ops.specs.declared.column.Column.{Column as Read};
ghost use Rattle.hq_ops.specs.declared.groups.GroupBy.{GroupBy as By};
ghost use Rattle.hq_ops.specs.Columns.{seen, reads_fault};
ghost use Rattle.hq_ops.specs.Ends.{StopsAt};
ghost use Rattle.hq_ops.specs.Gathering.{HasPlace, started, GrewAt, HasGathered, AreEven, AllGrew, row_faults, given_at, leaves_at, rows_from, leaves_from, group_rows, group_leaves};
ghost use Rattle.hq_ops.specs.Grouping.{key_by, width_by};
ghost use Rattle.hq_ops.specs.Parts.{listed};

use crate::column::Column;
use crate::end::Stop;
use crate::gathered::{Gathered, Tally};
use crate::groups::GroupBy;
use crate::guesses::Guesses;
use crate::parts::Parts;
use crate::running::Running;
use hq_value::{NoMemory, Row};
use indexmap::IndexSet;
use std::alloc::Global;

/// No group yet.
pub fn nothing_gathered<'a>(alloc: Global, columns: &[Column<'a>]) -> Result<Gathered<'a>, NoMemory>
    ensures { IfOk result (λ g. (by : By) → HasGathered by columns.now [] g.keys.keys g.tallies.items) }
{
    let tallies = empty_tallies(alloc, columns)?;
    Ok(Gathered {
        keys: IndexSet::new(alloc),
        guesses: Guesses::none(alloc),
        tallies,
    })
}

fn empty_tallies<'a>(alloc: Global, columns: &[Column<'a>]) -> Result<Vec<Tally<'a>>, NoMemory>
    ensures columns { IfOk result (λ tallies. map (λ t. t.column) tallies.items ≡ columns.now) }
    ensures empty { IfOk result (λ tallies. All (λ t. t.groups.items ≡ []) tallies.items) }
{
    let mut tallies = Vec::with_capacity(alloc, columns.len())?;
    for column in columns {
        let tally = Tally {
            column: *column,
            groups: Vec::new(alloc),
        };
        tallies.push(tally)?;
    }
    Ok(tallies)
}

/// The groups with more rows. NULLs of a key are equal. Numeric where reading faults over one of the rows.
pub fn gather<'a>(
    alloc: Global,
    by: &GroupBy,
    gathered: Gathered<'a>,
    rows: &[Row],
) -> Result<Gathered<'a>, Stop>
    ensures gathered { (columns : List Read) (before : List (List Datum)) →
        HasGathered by.now columns before gathered.entry.keys.keys gathered.entry.tallies.items →
        IfOk result (λ g. HasGathered by.now columns (before ++ rows.now) g.keys.keys g.tallies.items) }
    ensures numeric { StopsAt result (list_any (row_faults (map (λ t. t.column) gathered.entry.tallies.items)) rows.now) }
{
    let Gathered {
        keys,
        guesses,
        tallies,
    } = gathered;
    let mut keys = keys;
    let mut guesses = guesses;
    let mut tallies = tallies;
    for row in rows {
        gather_row(alloc, by, &mut keys, &mut guesses, &mut tallies, row)?;
    }
    Ok(Gathered {
        keys,
        guesses,
        tallies,
    })
}

// One row more.
fn gather_row(
    alloc: Global,
    by: &GroupBy,
    keys: &mut IndexSet<Row>,
    guesses: &mut Guesses,
    tallies: &mut Vec<Tally>,
    row: &Row,
) -> Result<(), Stop>
    requires { AreEven keys.old.keys tallies.old.items }
    ensures even { OnOk result (AreEven keys.new.keys tallies.new.items) }
    ensures columns { OnOk result (map (λ t. t.column) tallies.new.items ≡ map (λ t. t.column) tallies.old.items) }
    ensures gathered { (columns : List Read) (before : List (List Datum)) →
        HasGathered by.now columns before keys.old.keys tallies.old.items →
        OnOk result (HasGathered by.now columns (before ++ row.now ∷ []) keys.new.keys tallies.new.items) }
    ensures numeric { StopsAt result (row_faults (map (λ t. t.column) tallies.old.items) row.now) }
{
    let (index, fresh) = group_of(alloc, by, keys, guesses, row)?;
    add_to_all(tallies, index, fresh, row)
}

// The index of the group of a row, and whether it is new. Only where the guess fails has the row a key of its own.
fn group_of(
    alloc: Global,
    by: &GroupBy,
    keys: &mut IndexSet<Row>,
    guesses: &mut Guesses,
    row: &Row,
) -> Result<(usize, bool), NoMemory>
    ensures found { IfOk result (λ r. HasPlace (key_by by.now row.now) keys.old.keys keys.new.keys r.0 r.1) }
    ensures len { IfOk result (λ r. length keys.new.keys ≡ length keys.old.keys + (if r.1 then 1 else 0)) }
    ensures within { IfOk result (λ r. r.0 < length keys.new.keys) }
{
    let hash = by.hash(row);
    if let Some(index) = guessed(by, keys, guesses.at(hash), row) {
        return Ok((index, false));
    }
    let (index, fresh) = keys.insert_full(by.key(alloc, row)?)?;
    guesses.note(alloc, hash, index, keys.len())?;
    Ok((index, fresh))
}

// The guess, where the group there has the row's key.
#[inline]
fn guessed(by: &GroupBy, keys: &IndexSet<Row>, guess: Option<usize>, row: &Row) -> Option<usize>
    ensures found { IfSome result (λ index. HasPlace (key_by by.now row.now) keys.now.keys keys.now.keys index false) }
    ensures within { IfSome result (λ index. index < length keys.now.keys) }
{
    let index = guess?;
    let key = keys.as_slice().get(index)?;
    if !by.is_key(key, row) {
        return None;
    }
    Some(index)
}

// What is read of a row is added in its group, in each tally.
fn add_to_all(tallies: &mut Vec<Tally>, index: usize, fresh: bool, row: &Row) -> Result<(), Stop>
    requires { All (λ t. index < length (started fresh t.groups.items)) tallies.old.items }
    ensures grew { OnOk result (AllGrew index fresh row.now tallies.old.items tallies.new.items) }
    ensures numeric { StopsAt result (list_any (λ t. reads_fault t.column row.now) tallies.old.items) }
{
    for at in 0..tallies.len() {
        let tally = &mut tallies[at];
        add_to(tally, index, fresh, row)?;
    }
    Ok(())
}

fn add_to(tally: &mut Tally, index: usize, fresh: bool, row: &Row) -> Result<(), Stop>
    requires { index < length (started fresh tally.old.groups.items) }
    ensures column { tally.new.column ≡ tally.old.column }
    ensures grew { OnOk result (GrewAt tally.old.column index fresh row.now tally.old.groups.items tally.new.groups.items) }
    ensures numeric { StopsAt result (reads_fault tally.old.column row.now) }
{
    start(&mut tally.groups, fresh)?;
    let column = tally.column;
    column.add(&mut tally.groups[index], row)
}

// A new group has come to nothing.
fn start(groups: &mut Vec<Running>, fresh: bool) -> Result<(), NoMemory>
    ensures { OnOk result (groups.new.items ≡ started fresh groups.old.items) }
{
    if fresh {
        groups.push(Running::Nothing)?;
    }
    Ok(())
}

/// The key of each group, and what stands for each aggregate. Without keys there is one group, also over no row.
/// Numeric where a count or a sum that is final leaves 64 bits.
pub fn finished(alloc: Global, by: &GroupBy, gathered: &Gathered) -> Result<Vec<Row>, Stop>
    ensures rows { (columns : List Read) (rows : List (List Datum)) →
        HasGathered by.now columns rows gathered.now.keys.keys gathered.now.tallies.items →
        IfOk result (λ found. found.items ≡ group_rows by.now columns rows) }
    ensures numeric { (columns : List Read) (rows : List (List Datum)) →
        HasGathered by.now columns rows gathered.now.keys.keys gathered.now.tallies.items →
        StopsAt result (group_leaves by.now columns rows) }
{
    if has_one_group(by, gathered) {
        return one_row(alloc, &gathered.tallies);
    }
    all_rows(alloc, gathered.keys.as_slice(), &gathered.tallies)
}

// There is neither a key nor a row, so one group of nothing.
fn has_one_group(by: &GroupBy, gathered: &Gathered) -> bool
    ensures { result ≡ ((length gathered.now.keys.keys == 0) && (width_by by.now == 0)) }
{
    gathered.keys.is_empty() && by.is_empty()
}

// One group without keys or rows.
fn one_row(alloc: Global, tallies: &[Tally]) -> Result<Vec<Row>, Stop>
    ensures rows { IfOk result (λ found. found.items ≡ rows_from tallies.now 0 ([] ∷ [])) }
    ensures numeric { StopsAt result (leaves_from tallies.now 0 ([] ∷ [])) }
{
    let key = Row::new(alloc);
    let row = tally_row(alloc, &key, 0, tallies)?;
    let mut found = Vec::with_capacity(alloc, 1)?;
    found.push(row)?;
    Ok(found)
}

fn all_rows(alloc: Global, keys: &[Row], tallies: &[Tally]) -> Result<Vec<Row>, Stop>
    ensures rows { IfOk result (λ found. found.items ≡ rows_from tallies.now 0 keys.now) }
    ensures numeric { StopsAt result (leaves_from tallies.now 0 keys.now) }
{
    let mut found = Vec::with_capacity(alloc, keys.len())?;
    for (index, key) in keys.iter().enumerate() {
        let row = tally_row(alloc, key, index, tallies)?;
        found.push(row)?;
    }
    Ok(found)
}

// The key of a group, and what stands for each aggregate.
fn tally_row(alloc: Global, key: &Row, index: usize, tallies: &[Tally]) -> Result<Row, Stop>
    ensures row { IfOk result (λ row. row ≡ key.now ++ flat_map (given_at index) tallies.now) }
    ensures numeric { StopsAt result (list_any (leaves_at index) tallies.now) }
{
    let mut values = key.copy(alloc)?;
    for tally in tallies {
        let parts = parts_at(tally, index)?;
        parts.push_to(&mut values)?;
    }
    Ok(values)
}

// What stands for the group at an index, for nothing past the end.
fn parts_at(tally: &Tally, index: usize) -> Result<Parts, Stop>
    ensures parts { IfOk result (λ parts. listed parts ≡ given_at index tally.now) }
    ensures numeric { StopsAt result (leaves_at index tally.now) }
{
    match tally.groups.get(index) {
        Some(running) => tally.column.parts(running),
        None => tally.column.parts(&Running::Nothing),
    }
}
