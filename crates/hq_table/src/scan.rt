//! Rows read again.
ghost use Rattle.std.specs.Prelude.{◌≡◌, ◌<◌, ◌++◌, ℕ, List, length, IfOk, OnOk};
ghost use Rattle.hq_value.specs.declared.value.Value.{Value as Datum};
ghost use Rattle.hq_block.specs.Block.{FileRows};
ghost use Rattle.hq_lane.specs.Scans.{IsFile};
ghost use Rattle.hq_value.specs.Bucket.{Buckets, rows_of};
ghost use Rattle.hq_table.specs.Kept.{bytes_in};
ghost use Rattle.hq_table.specs.Home.{IsQuiet, files_of, seal_bytes};

use hq_block::{files_grow_by_blocks, files_have_their_rows};
use hq_lane::{BlockCursor, ScanFault, skipping_loses_no_row};
use hq_store::{MemFile, MemSeal, MemStore};
use hq_value::{BUCKETS, Kinds, NoMemory, Row};
use std::alloc::Global;

// The rows under a seal, put behind others.
fn scan_bucket(
    alloc: Global,
    store: &mut MemStore,
    seal: &MemSeal,
    kinds: &Kinds,
    rows: &mut Vec<Row>,
) -> Result<(), NoMemory>
    requires file { IsFile kinds.now seal.now.bytes }
    requires quiet { IsQuiet store.old }
    ensures added { OnOk result ((kept : List (List Datum)) → FileRows kinds.now seal.now.bytes kept → rows.new.items ≡ rows.old.items ++ kept) }
    ensures quiet { IsQuiet store.new }
{
    skipping_loses_no_row();
    let mut cursor: BlockCursor<MemFile, MemSeal> = BlockCursor::under_seal(
        alloc,
        seal,
        kinds,
        &[],
    );
    while !cursor.is_done() {
        match cursor.next(store, rows) {
            Ok(()) => {}
            Err(ScanFault::NoMemory) => return Err(NoMemory),
            Err(ScanFault::Store) => unreachable!(),
            Err(ScanFault::BadBlock { .. }) => unreachable!(),
        }
    }
    Ok(())
}

// The rows of a bucket, put behind others. Without a seal it has none.
fn scan_slot(
    alloc: Global,
    store: &mut MemStore,
    slot: &Option<MemSeal>,
    kinds: &Kinds,
    rows: &mut Vec<Row>,
) -> Result<(), NoMemory>
    requires file { IsFile kinds.now (seal_bytes slot.now) }
    requires quiet { IsQuiet store.old }
    ensures added { OnOk result ((kept : List (List Datum)) → FileRows kinds.now (seal_bytes slot.now) kept → rows.new.items ≡ rows.old.items ++ kept) }
    ensures quiet { IsQuiet store.new }
{
    files_have_their_rows();
    files_grow_by_blocks();
    match slot {
        Some(seal) => scan_bucket(alloc, store, seal, kinds, rows),
        None => Ok(()),
    }
}

/// The rows of all buckets, one bucket after the other.
pub(crate) fn scan(
    alloc: Global,
    store: &mut MemStore,
    seals: &[Option<MemSeal>],
    kinds: &Kinds,
) -> Result<Vec<Row>, NoMemory>
    requires sixteen { length seals.now ≡ 16 }
    requires files { (b : ℕ) → b < 16 → IsFile kinds.now (bytes_in (files_of seals.now) b) }
    requires quiet { IsQuiet store.old }
    ensures rows { IfOk result (λ rows. (kept : Buckets) → ((b : ℕ) → b < 16 → FileRows kinds.now (bytes_in (files_of seals.now) b) (kept b)) → rows.items ≡ rows_of kept) }
    ensures quiet { IsQuiet store.new }
{
    let mut rows = Vec::new(alloc);
    for bucket in 0..BUCKETS {
        scan_slot(alloc, store, &seals[bucket], kinds, &mut rows)?;
    }
    Ok(rows)
}
