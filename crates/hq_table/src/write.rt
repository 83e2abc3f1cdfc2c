//! The rows of a statement, written to a lane.
ghost use Rattle.std.specs.Prelude.{◌≡◌, ◌<◌, ◌≤◌, ℕ, true, false, All, length, slice_set, OnOk};
ghost use Rattle.hq_value.specs.Kinds.{Fits};
ghost use Rattle.hq_lane.specs.Lanes.{file_of, owns};
ghost use Rattle.hq_table.specs.Home.{IsQuiet, IsWritten, HasGrown, HasSameHead, rows_at};

use hq_lane::LanePart;
use hq_store::{MemFile, MemSeal, MemStore, StoreFault};
use hq_value::{Kinds, Row, Sequence};
use std::alloc::Global;

// Adds to one place the rows of its bucket.
fn write_bucket(
    alloc: Global,
    store: &mut MemStore,
    part: &mut LanePart<MemFile, MemSeal>,
    kinds: &Kinds,
    buckets: &[Sequence<Row>],
    bucket: u8,
) -> Result<(), StoreFault>
    requires in_range { bucket < 16 }
    requires here { owns part.old bucket ≡ true }
    requires whole { (file_of part.old.files bucket).torn ≡ false }
    requires some_kinds { 0 < length kinds.now }
    requires few_kinds { length kinds.now ≤ 64 }
    requires sixteen { length buckets.now ≡ 16 }
    requires fit { All (Fits kinds.now) (rows_at buckets.now bucket) }
    requires quiet { IsQuiet store.old }
    ensures others { part.new ≡ record part.old { files = slice_set part.old.files bucket (file_of part.new.files bucket) } }
    ensures written { OnOk result (IsWritten kinds.now (rows_at buckets.now bucket) (file_of part.old.files bucket) (file_of part.new.files bucket)) }
    ensures grown { HasGrown (file_of part.old.files bucket) (file_of part.new.files bucket) }
    ensures quiet { IsQuiet store.new }
{
    part.append_rows(
        alloc,
        store,
        kinds,
        bucket,
        buckets[bucket as usize].as_slice(),
    )
}

/// Adds to each place the rows of its bucket.
pub(crate) fn write(
    alloc: Global,
    store: &mut MemStore,
    part: &mut LanePart<MemFile, MemSeal>,
    kinds: &Kinds,
    buckets: &[Sequence<Row>],
) -> Result<(), StoreFault>
    requires here { (b : ℕ) → b < 16 → owns part.old b ≡ true }
    requires whole { (b : ℕ) → b < 16 → (file_of part.old.files b).torn ≡ false }
    requires some_kinds { 0 < length kinds.now }
    requires few_kinds { length kinds.now ≤ 64 }
    requires sixteen { length buckets.now ≡ 16 }
    requires fit { (b : ℕ) → b < 16 → All (Fits kinds.now) (rows_at buckets.now b) }
    requires quiet { IsQuiet store.old }
    ensures head { HasSameHead part.old part.new }
    ensures written { OnOk result ((b : ℕ) → b < 16 → IsWritten kinds.now (rows_at buckets.now b) (file_of part.old.files b) (file_of part.new.files b)) }
    ensures grown { (b : ℕ) → b < 16 → HasGrown (file_of part.old.files b) (file_of part.new.files b) }
    ensures quiet { IsQuiet store.new }
{
    for bucket in 0..16u8 {
        write_bucket(alloc, store, part, kinds, buckets, bucket)?;
    }
    Ok(())
}
