//! Two tables of two INTs, a key and a number, whose rows lie in the buckets of their keys.
ghost use Rattle.std.specs.Prelude.{◌≡◌, ◌<◌, ◌∷◌, [], false, IfOk};
ghost use Rattle.hq_value.specs.declared.kind.Kind.TheVariants as kinds;

use hq_block::encode_block;
use hq_snap::{Changed, LaneSeals, SnapCache, TableDelta, copy_since};
use hq_store::{Store, StoreFault};
use hq_untold::{Reads, UntoldSeal, UntoldStore};
use hq_value::{
    Column, Columns, FileId, Keys, Kind, Kinds, Name, NoMemory, Row, TableDef, Value, all_fit,
    bucket_at, kinds_of,
};
use std::alloc::Global;
use std::test::Fail;

/// A row: its key and its number.
#[derive(Clone, Copy)]
pub(crate) struct Pair {
    pub(crate) key: i64,
    pub(crate) number: i64,
}

fn int_column(alloc: Global, letter: u8) -> Result<Column, NoMemory>
    ensures { IfOk result (λ c. c ≡ record { name = letter ∷ []; kind = kinds.Int; not_null = false }) }
{
    let mut bytes = Vec::new(alloc);
    bytes.push(letter)?;
    Ok(Column {
        name: Name::new(bytes),
        kind: Kind::Int,
        not_null: false,
    })
}

fn two_columns(alloc: Global, first: Column, second: Column) -> Result<Columns, NoMemory>
    ensures { IfOk result (λ columns. columns ≡ first ∷ second ∷ []) }
{
    let mut columns = Columns::new(alloc);
    columns.push(first)?;
    columns.push(second)?;
    Ok(columns)
}

fn table_def(alloc: Global) -> Result<TableDef, NoMemory> {
    let key = int_column(alloc, b'k')?;
    let number = int_column(alloc, b'n')?;
    let columns = two_columns(alloc, key, number)?;
    let name = Name::new(b"t".to_vec(alloc)?);
    TableDef::new(alloc, name, columns, Keys::new(alloc))
}

fn row_of(alloc: Global, pair: Pair) -> Row {
    Row::two(alloc, Value::Int(pair.key), Value::Int(pair.number))
}

// The bucket of a row by its key.
fn bucket_of(alloc: Global, pair: Pair) -> Result<u8, Fail>
    ensures { IfOk result (λ bucket. bucket < 16) }
{
    let mut keys = Keys::new(alloc);
    keys.push(0)?;
    let row = Row::one(alloc, Value::Int(pair.key));
    Ok(bucket_at(&row, &keys, 0))
}

fn buckets_of(alloc: Global, pairs: &[Pair]) -> Result<Vec<u8>, Fail> {
    let mut buckets = Vec::with_capacity(alloc, pairs.len())?;
    for pair in pairs {
        buckets.push(bucket_of(alloc, *pair)?)?;
    }
    Ok(buckets)
}

// The rows from the first place up to the last that lie in the bucket.
fn share(
    alloc: Global,
    pairs: &[Pair],
    buckets: &[u8],
    first: usize,
    last: usize,
    bucket: u8,
) -> Result<Vec<Row>, Fail> {
    let mut rows = Vec::new(alloc);
    for place in first..last {
        if let (Some(pair), Some(found)) = (pairs.get(place), buckets.get(place)) {
            if *found == bucket {
                rows.push(row_of(alloc, *pair))?;
            }
        }
    }
    Ok(rows)
}

// The block of rows, where there are some.
fn block_of(alloc: Global, kinds: &Kinds, rows: &[Row]) -> Result<Vec<u8>, Fail> {
    if kinds.is_empty() || kinds.len() > 64 || rows.is_empty() || !all_fit(kinds, rows) {
        return Ok(Vec::new(alloc));
    }
    Ok(encode_block(alloc, kinds, rows)?)
}

// So many rows are written at once.
const AT_ONCE: usize = 10_000;

// The blocks of a bucket, one for each insert that has rows there.
fn bucket_bytes(
    alloc: Global,
    kinds: &Kinds,
    pairs: &[Pair],
    buckets: &[u8],
    bucket: u8,
) -> Result<Vec<u8>, Fail> {
    let mut bytes = Vec::new(alloc);
    for insert in 0..pairs.len().div_ceil(AT_ONCE) {
        let first = insert.saturating_mul(AT_ONCE);
        let last = first.saturating_add(AT_ONCE);
        let rows = share(alloc, pairs, buckets, first, last, bucket)?;
        bytes.extend_from_slice(&block_of(alloc, kinds, &rows)?)?;
    }
    Ok(bytes)
}

// A seal of a new file of these bytes.
fn sealed(store: &mut UntoldStore, id: FileId, bytes: &[u8]) -> Result<UntoldSeal, StoreFault> {
    let mut file = store.create(id)?;
    store.append(&mut file, bytes)?;
    store.flush(&mut file)?;
    Ok(store.seal(&mut file))
}

// Lanes without seals.
fn no_seals(alloc: Global) -> Result<Vec<LaneSeals<UntoldSeal>>, Fail> {
    let mut lanes = Vec::new(alloc);
    for _ in 0..64usize {
        lanes.push(LaneSeals::empty(alloc)?)?;
    }
    Ok(lanes)
}

// The seals of the table's first lane, and what of it has changed.
fn fill_lane(
    alloc: Global,
    store: &mut UntoldStore,
    kinds: &Kinds,
    table: u32,
    pairs: &[Pair],
    seals: &mut LaneSeals<UntoldSeal>,
) -> Result<Changed, Fail> {
    let buckets = buckets_of(alloc, pairs)?;
    let mut changed = Changed::none(alloc)?;
    for bucket in 0..16u8 {
        let bytes = bucket_bytes(alloc, kinds, pairs, &buckets, bucket)?;
        let id = FileId {
            table,
            lane: 0,
            bucket,
        };
        let seal = sealed(store, id, &bytes)?;
        if seals.has_place(bucket) {
            seals.put(bucket, seal);
            changed.note(0, bucket, 1);
        }
    }
    Ok(changed)
}

// A table of these rows. None where it has no lanes.
fn fill(
    alloc: Global,
    store: &mut UntoldStore,
    table: u32,
    pairs: &[Pair],
) -> Result<Option<TableDelta<UntoldSeal>>, Fail> {
    let def = table_def(alloc)?;
    let kinds = kinds_of(alloc, def.columns().as_slice())?;
    let mut lanes = no_seals(alloc)?;
    if lanes.len() != 64 {
        return Ok(None);
    }
    let changed = fill_lane(alloc, store, &kinds, table, pairs, &mut lanes[0])?;
    Ok(Some(copy_since(alloc, table, &def, &lanes, &changed, 0)?))
}

/// The tables of these rows, as looks saw them. Their numbers are 0 and 1.
pub(crate) fn two_tables(
    alloc: Global,
    first: &[Pair],
    second: &[Pair],
) -> Result<SnapCache<UntoldSeal>, Fail> {
    let mut store = UntoldStore::new(alloc, Reads::Written);
    let mut seen = SnapCache::new(alloc);
    if let Some(table) = fill(alloc, &mut store, 0, first)? {
        seen.merge(1, vec![in alloc; table]?)?;
    }
    if let Some(table) = fill(alloc, &mut store, 1, second)? {
        seen.merge(2, vec![in alloc; table]?)?;
    }
    Ok(seen)
}
