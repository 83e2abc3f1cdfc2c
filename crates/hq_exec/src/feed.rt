//! Rows that are read and pushed.
ghost use Rattle.std.specs.Prelude.{◌≡◌, ◌<◌, ◌≤◌, ◌+◌, ℕ, [], flat_map, sum_by, length, IsTrue, IsErrOf, OnOk};
ghost use Rattle.hq_value.specs.Causes.{Rose, IsSteady};
ghost use Rattle.hq_fits.specs.Supplied.{AreFit};
ghost use Rattle.hq_lane.specs.FileBlocks.{kept_rows, read_sum};
ghost use Rattle.hq_lane.specs.Scans.{IsFile};
ghost use Rattle.hq_snap.specs.Snaps.{seal_at, seal_bytes};
ghost use Rattle.hq_exec.specs.Ends.{IfBadBlock, IsBadBlock, IsBadOf, IsBadFor};
ghost use Rattle.hq_exec.specs.Feeding.{Fed};
ghost use Rattle.hq_exec.specs.Files.{lanes_bytes, own_file, own_files, sealed_files, bucket_files, given_files, buckets_files, kept_in, reads_in};
ghost use Rattle.hq_exec.specs.Lines.{CanTake, Takes, line_state};
ghost use Rattle.hq_exec.specs.Slices.{HasFiles, IsThere};

use crate::end::Ending;
use crate::held::Held;
use crate::line::{Line, take};
use crate::lists::copy_rows;
use crate::out::RowOut;
use hq_block::ColumnTest;
use hq_lane::{BlockCursor, Lane};
use hq_snap::{LaneSeals, TableSnap};
use hq_store::Store;
use hq_value::{FileId, Kinds, NoMemory, Row};
use std::alloc::Global;

// How many received rows are pushed at once.
const BATCH: usize = 1000;

/// Pushes the rows of the given buckets of a table, of the blocks that the tests do not skip: bucket by bucket, the
/// committed ones lane by lane and then the own ones.
pub fn feed_table<S: Store, O: RowOut>(
    alloc: Global,
    store: &mut S,
    held: &Held<S::File, S::Seal>,
    table: u32,
    kinds: &Kinds,
    tests: &[ColumnTest],
    line: &mut Line,
    out: &mut O,
) -> Result<(), Ending>
    requires there { IsThere held.now table kinds.now }
    requires can_take { CanTake kinds.now (line_state line.old (O.state out.old)) }
    requires seals { IsTrue S.Seal.tells → (b : ℕ) → HasFiles kinds.now (sealed_files held.now table b) }
    requires own { IsTrue S.File.tells → (b : ℕ) → b < 16 → HasFiles kinds.now (own_files held.now.own table b) }
    ensures fed { OnOk result (Fed S.faults S.given S.sound (IsTrue S.Seal.tells × IsTrue S.File.tells) kinds.now
        (kept_in tests.now held.now table) [] (reads_in tests.now held.now table) 0 store.old store.new
        (line_state line.old (O.state out.old)) (line_state line.new (O.state out.new))) }
    ensures bad { IfBadBlock result (IsBadFor table kinds.now held.now.buckets) }
    ensures never_bad { IsTrue S.Seal.tells → IsTrue S.File.tells → IfBadBlock result (λ _ _ _. ⊥) }

    ensures cause { IsErrOf result Ending.Store → Rose (S.faults store.old) (S.faults store.new) }
    ensures store { IsSteady S.faults S.sound store.old store.new }
    ensures kinds { (O.state out.new).kinds ≡ (O.state out.old).kinds }
{
    let Some(snap) = held.table(table) else {
        unreachable!()
    };
    feed_buckets(alloc, store, held, snap, table, 0, kinds, tests, line, out)
}

// Those of the buckets from one on.
fn feed_buckets<S: Store, O: RowOut>(
    alloc: Global,
    store: &mut S,
    held: &Held<S::File, S::Seal>,
    snap: &TableSnap<S::Seal>,
    table: u32,
    bucket: u8,
    kinds: &Kinds,
    tests: &[ColumnTest],
    line: &mut Line,
    out: &mut O,
) -> Result<(), Ending>
    requires within { bucket ≤ 16 }
    requires can_take { CanTake kinds.now (line_state line.old (O.state out.old)) }
    requires seals { IsTrue S.Seal.tells → (b : ℕ) → HasFiles kinds.now (lanes_bytes snap.now.lanes b) }
    requires own { IsTrue S.File.tells → (b : ℕ) → b < 16 → HasFiles kinds.now (own_files held.now.own table b) }
    ensures fed { OnOk result (Fed S.faults S.given S.sound (IsTrue S.Seal.tells × IsTrue S.File.tells) kinds.now
        (flat_map (kept_rows tests.now kinds.now) (buckets_files snap.now.lanes held.now table bucket)) []
        (sum_by (read_sum tests.now kinds.now) (buckets_files snap.now.lanes held.now table bucket)) 0 store.old store.new
        (line_state line.old (O.state out.old)) (line_state line.new (O.state out.new))) }
    ensures bad { IfBadBlock result (IsBadFor table kinds.now held.now.buckets) }
    ensures never_bad { IsTrue S.Seal.tells → IsTrue S.File.tells → IfBadBlock result (λ _ _ _. ⊥) }

    ensures cause { IsErrOf result Ending.Store → Rose (S.faults store.old) (S.faults store.new) }
    ensures store { IsSteady S.faults S.sound store.old store.new }
    ensures kinds { (O.state out.new).kinds ≡ (O.state out.old).kinds }
{
    if bucket == 16 {
        return Ok(());
    }
    feed_given(
        alloc, store, held, snap, table, bucket, kinds, tests, line, out,
    )?;
    feed_buckets(
        alloc,
        store,
        held,
        snap,
        table,
        bucket + 1,
        kinds,
        tests,
        line,
        out,
    )
}

// Those of one bucket, if it is given.
fn feed_given<S: Store, O: RowOut>(
    alloc: Global,
    store: &mut S,
    held: &Held<S::File, S::Seal>,
    snap: &TableSnap<S::Seal>,
    table: u32,
    bucket: u8,
    kinds: &Kinds,
    tests: &[ColumnTest],
    line: &mut Line,
    out: &mut O,
) -> Result<(), Ending>
    requires within { bucket < 16 }
    requires can_take { CanTake kinds.now (line_state line.old (O.state out.old)) }
    requires seals { IsTrue S.Seal.tells → (b : ℕ) → HasFiles kinds.now (lanes_bytes snap.now.lanes b) }
    requires own { IsTrue S.File.tells → (b : ℕ) → b < 16 → HasFiles kinds.now (own_files held.now.own table b) }
    ensures fed { OnOk result (Fed S.faults S.given S.sound (IsTrue S.Seal.tells × IsTrue S.File.tells) kinds.now
        (flat_map (kept_rows tests.now kinds.now) (given_files snap.now.lanes held.now table bucket)) []
        (sum_by (read_sum tests.now kinds.now) (given_files snap.now.lanes held.now table bucket)) 0 store.old store.new
        (line_state line.old (O.state out.old)) (line_state line.new (O.state out.new))) }
    ensures bad { IfBadBlock result (IsBadFor table kinds.now held.now.buckets) }
    ensures never_bad { IsTrue S.Seal.tells → IsTrue S.File.tells → IfBadBlock result (λ _ _ _. ⊥) }

    ensures cause { IsErrOf result Ending.Store → Rose (S.faults store.old) (S.faults store.new) }
    ensures store { IsSteady S.faults S.sound store.old store.new }
    ensures kinds { (O.state out.new).kinds ≡ (O.state out.old).kinds }
{
    if !held.has_bucket(bucket) {
        return Ok(());
    }
    feed_bucket(
        alloc, store, held, snap, table, bucket, kinds, tests, line, out,
    )
}

// Those of one bucket.
fn feed_bucket<S: Store, O: RowOut>(
    alloc: Global,
    store: &mut S,
    held: &Held<S::File, S::Seal>,
    snap: &TableSnap<S::Seal>,
    table: u32,
    bucket: u8,
    kinds: &Kinds,
    tests: &[ColumnTest],
    line: &mut Line,
    out: &mut O,
) -> Result<(), Ending>
    requires within { bucket < 16 }
    requires can_take { CanTake kinds.now (line_state line.old (O.state out.old)) }
    requires seals { IsTrue S.Seal.tells → (b : ℕ) → HasFiles kinds.now (lanes_bytes snap.now.lanes b) }
    requires own { IsTrue S.File.tells → (b : ℕ) → b < 16 → HasFiles kinds.now (own_files held.now.own table b) }
    ensures fed { OnOk result (Fed S.faults S.given S.sound (IsTrue S.Seal.tells × IsTrue S.File.tells) kinds.now
        (flat_map (kept_rows tests.now kinds.now) (bucket_files snap.now.lanes held.now table bucket)) []
        (sum_by (read_sum tests.now kinds.now) (bucket_files snap.now.lanes held.now table bucket)) 0 store.old store.new
        (line_state line.old (O.state out.old)) (line_state line.new (O.state out.new))) }
    ensures bad { IfBadBlock result (IsBadOf table bucket kinds.now) }
    ensures never_bad { IsTrue S.Seal.tells → IsTrue S.File.tells → IfBadBlock result (λ _ _ _. ⊥) }

    ensures cause { IsErrOf result Ending.Store → Rose (S.faults store.old) (S.faults store.new) }
    ensures store { IsSteady S.faults S.sound store.old store.new }
    ensures kinds { (O.state out.new).kinds ≡ (O.state out.old).kinds }
{
    let lanes = snap.lanes();
    feed_lanes(
        alloc, store, lanes, table, 0, bucket, kinds, tests, line, out,
    )?;
    feed_own(
        alloc,
        store,
        held.own(),
        table,
        bucket,
        kinds,
        tests,
        line,
        out,
    )
}

// The committed rows of a bucket in lanes, the first of which has this number.
fn feed_lanes<S: Store, O: RowOut>(
    alloc: Global,
    store: &mut S,
    lanes: &[LaneSeals<S::Seal>],
    table: u32,
    number: u8,
    bucket: u8,
    kinds: &Kinds,
    tests: &[ColumnTest],
    line: &mut Line,
    out: &mut O,
) -> Result<(), Ending>
    requires count { number + length lanes.now ≤ 64 }
    requires can_take { CanTake kinds.now (line_state line.old (O.state out.old)) }
    requires seals { IsTrue S.Seal.tells → HasFiles kinds.now (lanes_bytes lanes.now bucket) }
    ensures fed { OnOk result (Fed S.faults S.given S.sound (IsTrue S.Seal.tells) kinds.now
        (flat_map (kept_rows tests.now kinds.now) (lanes_bytes lanes.now bucket)) []
        (sum_by (read_sum tests.now kinds.now) (lanes_bytes lanes.now bucket)) 0 store.old store.new
        (line_state line.old (O.state out.old)) (line_state line.new (O.state out.new))) }
    ensures bad { IfBadBlock result (IsBadOf table bucket kinds.now) }
    ensures never_bad { IsTrue S.Seal.tells → IfBadBlock result (λ _ _ _. ⊥) }

    ensures cause { IsErrOf result Ending.Store → Rose (S.faults store.old) (S.faults store.new) }
    ensures store { IsSteady S.faults S.sound store.old store.new }
    ensures kinds { (O.state out.new).kinds ≡ (O.state out.old).kinds }
{
    match lanes.split_first() {
        None => Ok(()),
        Some((first, others)) => {
            let file = FileId {
                table,
                lane: number,
                bucket,
            };
            feed_lane(alloc, store, first, file, kinds, tests, line, out)?;
            feed_lanes(
                alloc,
                store,
                others,
                table,
                number + 1,
                bucket,
                kinds,
                tests,
                line,
                out,
            )
        }
    }
}

// Those of one lane.
fn feed_lane<S: Store, O: RowOut>(
    alloc: Global,
    store: &mut S,
    lane: &LaneSeals<S::Seal>,
    file: FileId,
    kinds: &Kinds,
    tests: &[ColumnTest],
    line: &mut Line,
    out: &mut O,
) -> Result<(), Ending>
    requires can_take { CanTake kinds.now (line_state line.old (O.state out.old)) }
    requires seals { IsTrue S.Seal.tells → IsFile kinds.now (seal_bytes (seal_at lane.now file.bucket)) }
    ensures fed { OnOk result (Fed S.faults S.given S.sound (IsTrue S.Seal.tells) kinds.now
        (kept_rows tests.now kinds.now (seal_bytes (seal_at lane.now file.bucket))) []
        (read_sum tests.now kinds.now (seal_bytes (seal_at lane.now file.bucket))) 0 store.old store.new
        (line_state line.old (O.state out.old)) (line_state line.new (O.state out.new))) }
    ensures bad { IfBadBlock result (IsBadOf file.table file.bucket kinds.now) }
    ensures never_bad { IsTrue S.Seal.tells → IfBadBlock result (λ _ _ _. ⊥) }

    ensures cause { IsErrOf result Ending.Store → Rose (S.faults store.old) (S.faults store.new) }
    ensures store { IsSteady S.faults S.sound store.old store.new }
    ensures kinds { (O.state out.new).kinds ≡ (O.state out.old).kinds }
{
    match lane.get(file.bucket) {
        None => Ok(()),
        Some(seal) => {
            let cursor: BlockCursor<S::File, S::Seal> = BlockCursor::under_seal(
                alloc, seal, kinds, tests,
            );
            feed_blocks(alloc, store, cursor, file, line, out)
        }
    }
}

// The rows of a bucket behind the committed bytes, in the table's own lanes.
fn feed_own<S: Store, O: RowOut>(
    alloc: Global,
    store: &mut S,
    own: &[Lane<S::File, S::Seal>],
    table: u32,
    bucket: u8,
    kinds: &Kinds,
    tests: &[ColumnTest],
    line: &mut Line,
    out: &mut O,
) -> Result<(), Ending>
    requires within { bucket < 16 }
    requires can_take { CanTake kinds.now (line_state line.old (O.state out.old)) }
    requires own { IsTrue S.File.tells → HasFiles kinds.now (own_files own.now table bucket) }
    ensures fed { OnOk result (Fed S.faults S.given S.sound (IsTrue S.File.tells) kinds.now
        (flat_map (kept_rows tests.now kinds.now) (own_files own.now table bucket)) []
        (sum_by (read_sum tests.now kinds.now) (own_files own.now table bucket)) 0 store.old store.new
        (line_state line.old (O.state out.old)) (line_state line.new (O.state out.new))) }
    ensures bad { IfBadBlock result (IsBadOf table bucket kinds.now) }
    ensures never_bad { IsTrue S.File.tells → IfBadBlock result (λ _ _ _. ⊥) }

    ensures cause { IsErrOf result Ending.Store → Rose (S.faults store.old) (S.faults store.new) }
    ensures store { IsSteady S.faults S.sound store.old store.new }
    ensures kinds { (O.state out.new).kinds ≡ (O.state out.old).kinds }
{
    match own.split_first() {
        None => Ok(()),
        Some((first, others)) => {
            feed_own_lane(alloc, store, first, table, bucket, kinds, tests, line, out)?;
            feed_own(alloc, store, others, table, bucket, kinds, tests, line, out)
        }
    }
}

// Those of one lane, if it is one of the table.
fn feed_own_lane<S: Store, O: RowOut>(
    alloc: Global,
    store: &mut S,
    lane: &Lane<S::File, S::Seal>,
    table: u32,
    bucket: u8,
    kinds: &Kinds,
    tests: &[ColumnTest],
    line: &mut Line,
    out: &mut O,
) -> Result<(), Ending>
    requires within { bucket < 16 }
    requires can_take { CanTake kinds.now (line_state line.old (O.state out.old)) }
    requires own { IsTrue S.File.tells → HasFiles kinds.now (own_file table bucket lane.now) }
    ensures fed { OnOk result (Fed S.faults S.given S.sound (IsTrue S.File.tells) kinds.now
        (flat_map (kept_rows tests.now kinds.now) (own_file table bucket lane.now)) []
        (sum_by (read_sum tests.now kinds.now) (own_file table bucket lane.now)) 0 store.old store.new
        (line_state line.old (O.state out.old)) (line_state line.new (O.state out.new))) }
    ensures bad { IfBadBlock result (IsBadOf table bucket kinds.now) }
    ensures never_bad { IsTrue S.File.tells → IfBadBlock result (λ _ _ _. ⊥) }

    ensures cause { IsErrOf result Ending.Store → Rose (S.faults store.old) (S.faults store.new) }
    ensures store { IsSteady S.faults S.sound store.old store.new }
    ensures kinds { (O.state out.new).kinds ≡ (O.state out.old).kinds }
{
    if lane.table() != table {
        return Ok(());
    }
    let file = FileId {
        table,
        lane: lane.number(),
        bucket,
    };
    let cursor = lane.own_blocks(alloc, bucket, kinds, tests);
    feed_blocks(alloc, store, cursor, file, line, out)
}

// Pushes the rows of the blocks that a cursor passes.
fn feed_blocks<S: Store, O: RowOut>(
    alloc: Global,
    store: &mut S,
    cursor: BlockCursor<S::File, S::Seal>,
    file: FileId,
    line: &mut Line,
    out: &mut O,
) -> Result<(), Ending>
    requires { CanTake cursor.kinds (line_state line.old (O.state out.old)) }
    ensures fed { OnOk result (Fed S.faults S.given S.sound (IsTrue cursor.entry.told) cursor.entry.kinds
        (kept_rows cursor.entry.tests cursor.entry.kinds cursor.entry.left) [] (read_sum cursor.entry.tests cursor.entry.kinds cursor.entry.left) 0 store.old store.new
        (line_state line.old (O.state out.old)) (line_state line.new (O.state out.new))) }
    ensures bad { IfBadBlock result (IsBadBlock file cursor.entry.kinds) }
    ensures never_bad { IsTrue cursor.entry.told → IfBadBlock result (λ _ _ _. ⊥) }

    ensures cause { IsErrOf result Ending.Store → Rose (S.faults store.old) (S.faults store.new) }
    ensures store { IsSteady S.faults S.sound store.old store.new }
    ensures kinds { (O.state out.new).kinds ≡ (O.state out.old).kinds }
{
    let mut cursor = cursor;
    'passing: while !cursor.is_done() {
        let mut rows = Vec::new(alloc);
        match cursor.next(store, &mut rows) {
            Ok(()) => take(line, rows, out)?,
            Err(fault) => return Err(Ending::of(file, fault)),
        }
    }
    Ok(())
}

/// Pushes the rows that a slice sent, some at a time.
pub fn feed_rows<O: RowOut>(
    alloc: Global,
    rows: &[Row],
    kinds: &Kinds,
    line: &mut Line,
    out: &mut O,
) -> Result<(), NoMemory>
    requires fit { AreFit kinds.now rows.now }
    requires can_take { CanTake kinds.now (line_state line.old (O.state out.old)) }
    ensures takes { OnOk result (Takes kinds.now rows.now (line_state line.old (O.state out.old)) (line_state line.new (O.state out.new))) }
    ensures can { OnOk result (CanTake kinds.now (line_state line.new (O.state out.new))) }
    ensures kinds { (O.state out.new).kinds ≡ (O.state out.old).kinds }
{
    let _ = kinds;
    let mut at = 0;
    'batches: while at < rows.len() {
        let end = at + (rows.len() - at).min(BATCH);
        let batch = copy_rows(alloc, &rows[at..end])?;
        take(line, batch, out)?;
        at = end;
    }
    Ok(())
}
