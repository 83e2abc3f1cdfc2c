//! A table of one or two INTs: a key, and the row's number.
ghost use Rattle.std.specs.Prelude.{◌≡◌, ◌∷◌, [], false, IfOk};
ghost use Rattle.hq_value.specs.declared.kind.Kind.TheVariants as kinds;

use hq_block::encode_block;
use hq_snap::{Changed, LaneSeals, SnapCache, copy_since};
use hq_store::{Store, StoreFault};
use hq_untold::{Reads, UntoldSeal, UntoldStore};
use hq_value::{
    Column, Columns, FileId, Keys, Kind, Kinds, Name, NoMemory, Row, TableDef, Value, all_fit,
    kinds_of,
};
use std::alloc::Global;
use std::test::Fail;

/// A store, and the table as a look saw it. Its number is 0, and its rows stand in the files of its first lane, each in the
/// bucket of its number.
#[derive(Drop)]
pub(crate) struct Filled {
    pub(crate) store: UntoldStore,
    pub(crate) seen: SnapCache<UntoldSeal>,
}

/// Whether the rows have their numbers beside their keys, how many rows there are, and how many are written at once.
#[derive(Clone, Copy)]
pub(crate) struct Size {
    pub(crate) has_numbers: bool,
    pub(crate) rows: u32,
    pub(crate) at_once: u32,
}

fn int_column(alloc: Global, letter: u8) -> Result<Column, NoMemory>
    ensures { IfOk result (λ c. c ≡ record { name = letter ∷ []; kind = kinds.Int; not_null = false }) }
{
    let mut bytes = Vec::new(alloc);
    bytes.push(letter)?;
    Ok(Column {
        name: Name::new(bytes),
        kind: Kind::Int,
        not_null: false,
    })
}

fn one(alloc: Global, column: Column) -> Result<Columns, NoMemory>
    ensures { IfOk result (λ columns. columns ≡ column ∷ []) }
{
    let mut columns = Columns::new(alloc);
    columns.push(column)?;
    Ok(columns)
}

fn two(alloc: Global, first: Column, second: Column) -> Result<Columns, NoMemory>
    ensures { IfOk result (λ columns. columns ≡ first ∷ second ∷ []) }
{
    let mut columns = Columns::new(alloc);
    columns.push(first)?;
    columns.push(second)?;
    Ok(columns)
}

// A table of keys.
fn of_keys(alloc: Global) -> Result<TableDef, NoMemory> {
    let key = int_column(alloc, b'k')?;
    let columns = one(alloc, key)?;
    let name = Name::new(b"t".to_vec(alloc)?);
    TableDef::new(alloc, name, columns, Keys::new(alloc))
}

// A table of keys and numbers.
fn of_both(alloc: Global) -> Result<TableDef, NoMemory> {
    let key = int_column(alloc, b'k')?;
    let number = int_column(alloc, b'n')?;
    let columns = two(alloc, key, number)?;
    let name = Name::new(b"t".to_vec(alloc)?);
    TableDef::new(alloc, name, columns, Keys::new(alloc))
}

fn table_def(alloc: Global, has_numbers: bool) -> Result<TableDef, NoMemory> {
    if has_numbers {
        of_both(alloc)
    } else {
        of_keys(alloc)
    }
}

// Keys are below 1,000, and stand in no order.
fn row(alloc: Global, size: Size, number: u32) -> Row {
    let key = Value::Int((u64::from(number) * 7919 % 1_000) as i64);
    if size.has_numbers {
        Row::two(alloc, key, Value::Int(i64::from(number)))
    } else {
        Row::one(alloc, key)
    }
}

// The rows of a bucket whose numbers are from the first up to the last.
fn share(alloc: Global, size: Size, first: u32, last: u32, bucket: u8) -> Result<Vec<Row>, Fail> {
    let mut rows = Vec::new(alloc);
    for number in first..last {
        if number % 16 == u32::from(bucket) {
            rows.push(row(alloc, size, number))?;
        }
    }
    Ok(rows)
}

// The block of rows, where there are some.
fn block_of(alloc: Global, kinds: &Kinds, rows: &[Row]) -> Result<Vec<u8>, Fail> {
    if kinds.is_empty() || kinds.len() > 64 || rows.is_empty() || !all_fit(kinds, rows) {
        return Ok(Vec::new(alloc));
    }
    Ok(encode_block(alloc, kinds, rows)?)
}

// The blocks of a bucket, one for each insert that has rows there.
fn bucket_bytes(alloc: Global, kinds: &Kinds, size: Size, bucket: u8) -> Result<Vec<u8>, Fail> {
    let mut bytes = Vec::new(alloc);
    let at_once = size.at_once.max(1);
    for insert in 0..size.rows.div_ceil(at_once) {
        let first = insert.saturating_mul(at_once);
        let last = size.rows.min(first.saturating_add(at_once));
        let block = block_of(alloc, kinds, &share(alloc, size, first, last, bucket)?)?;
        bytes.extend_from_slice(&block)?;
    }
    Ok(bytes)
}

// A seal of a new file of these bytes.
fn sealed(store: &mut UntoldStore, bucket: u8, bytes: &[u8]) -> Result<UntoldSeal, StoreFault> {
    let mut file = store.create(FileId {
        table: 0,
        lane: 0,
        bucket,
    })?;
    store.append(&mut file, bytes)?;
    store.flush(&mut file)?;
    Ok(store.seal(&mut file))
}

// Lanes without seals.
fn no_seals(alloc: Global) -> Result<Vec<LaneSeals<UntoldSeal>>, Fail> {
    let mut lanes = Vec::new(alloc);
    for _ in 0..64usize {
        lanes.push(LaneSeals::empty(alloc)?)?;
    }
    Ok(lanes)
}

// The seals of the first lane, and what of it has changed.
fn fill_lane(
    alloc: Global,
    store: &mut UntoldStore,
    kinds: &Kinds,
    size: Size,
    seals: &mut LaneSeals<UntoldSeal>,
) -> Result<Changed, Fail> {
    let mut changed = Changed::none(alloc)?;
    for bucket in 0..16u8 {
        let bytes = bucket_bytes(alloc, kinds, size, bucket)?;
        let seal = sealed(store, bucket, &bytes)?;
        if seals.has_place(bucket) {
            seals.put(bucket, seal);
            changed.note(0, bucket, 1);
        }
    }
    Ok(changed)
}

/// Fills the table. Nothing is seen where it has no lanes.
pub(crate) fn fill_table(alloc: Global, size: Size, reads: Reads) -> Result<Filled, Fail> {
    let def = table_def(alloc, size.has_numbers)?;
    let kinds = kinds_of(alloc, def.columns().as_slice())?;
    let mut store = UntoldStore::new(alloc, reads);
    let mut lanes = no_seals(alloc)?;
    let mut seen = SnapCache::new(alloc);
    if lanes.len() != 64 {
        return Ok(Filled { store, seen });
    }
    let changed = fill_lane(alloc, &mut store, &kinds, size, &mut lanes[0])?;
    let found = copy_since(alloc, 0, &def, &lanes, &changed, 0)?;
    seen.merge(1, vec![in alloc; found]?)?;
    Ok(Filled { store, seen })
}
