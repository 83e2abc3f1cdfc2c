//! One block passed: read, or skipped by its head.
ghost use Rattle.std.specs.Prelude.{◌≡◌, ◌+◌, ◌-◌, ◌^◌, ◌<◌, ◌≤◌, ◌++◌, ℕ, List, length, take, slice_range, vec_len, IsTrue, IfOk, OnOk, OnErr, IsErrOf};
ghost use Rattle.hq_value.specs.Causes.{Rose, GoesOnGiving, IsSteady};
ghost use Rattle.hq_block.specs.declared.head.BlockHead.{BlockHead as FoundHead};
ghost use Rattle.hq_block.specs.Bounds.{bounds_bytes};
ghost use Rattle.hq_block.specs.Heads.{HeadLength, HeadIs};
ghost use Rattle.hq_block.specs.Skipping.{read_length};
ghost use Rattle.hq_lane.specs.Scans.{BeginsNoBlock, IsBadAt, PassesBlock};
ghost use Rattle.hq_lane.specs.Sizes.{size_at};

use crate::block::{Stop, fill, read_block, read_front, read_rest};
use crate::range::Readable;
use hq_block::{BlockFault, BlockHead, ColumnTest, head_length, read_head, skips};
use hq_store::Store;
use hq_value::{Kinds, Row};
use std::alloc::Global;

/// Passes the block that begins at `at`, and gives its length. Its head is read, and then the rest with its rows, which
/// are added, unless the head shows that none of them passes the tests.
pub(crate) fn pass_block<S: Store, R: Readable<S>>(
    alloc: Global,
    store: &mut S,
    range: &R,
    at: u64,
    to: u64,
    kinds: &Kinds,
    tests: &[ColumnTest],
    bytes: &mut Vec<u8>,
    rest: &mut Vec<u8>,
    rows: &mut Vec<Row>,
) -> Result<u64, Stop>
    requires before { at < to }
    requires within { to ≤ R.end range.now }
    ensures some { IfOk result (λ len. 0 < len) }
    ensures within { IfOk result (λ len. at + len ≤ to) }
    ensures passed { IfOk result (λ len. (head : FoundHead) × (head.length ≡ len) ×
        PassesBlock (R.tells range.now) (R.bytes range.now) at kinds.now tests.now head rows.old.items rows.new.items ×
        GoesOnGiving S.faults S.given S.sound (read_length tests.now head) store.old store.new) }
    ensures bad_some { IsErrOf result Stop.BadBlock → 0 < length bytes.new.items }
    ensures bad { IsErrOf result Stop.BadBlock → IsBadAt kinds.now at to at bytes.new.items }
    ensures bad_told { IsErrOf result Stop.BadBlock → IsTrue (R.tells range.now) → bytes.new.items ≡ slice_range (R.bytes range.now) at (at + length bytes.new.items) }
    ensures kept { OnErr result (rows.new.items ≡ rows.old.items) }

    ensures cause { IsErrOf result Stop.Store → Rose (S.faults store.old) (S.faults store.new) }
    ensures store { IsSteady S.faults S.sound store.old store.new }
{
    if tests.is_empty() {
        read_block(alloc, store, range, at, to, kinds, bytes, rest, rows)?;
        return Ok(bytes.len() as u64);
    }
    let left = (to - at) as usize;
    let Some(len) = read_front(store, range, at, left, bytes)? else {
        return Err(Stop::BadBlock);
    };
    pass_rest(
        alloc, store, range, at, len, kinds, tests, bytes, rest, rows,
    )?;
    Ok(len as u64)
}

// Passes a block of so many bytes, of which the first 16 are there.
fn pass_rest<S: Store, R: Readable<S>>(
    alloc: Global,
    store: &mut S,
    range: &R,
    at: u64,
    len: usize,
    kinds: &Kinds,
    tests: &[ColumnTest],
    bytes: &mut Vec<u8>,
    rest: &mut Vec<u8>,
    rows: &mut Vec<Row>,
) -> Result<(), Stop>
    requires front { vec_len bytes.old ≡ 16 }
    requires size { len ≡ 16 + size_at bytes.old.items }
    requires within { at + len ≤ R.end range.now }
    requires fits { at + len < 2 ^ 64 }
    requires told { IsTrue (R.tells range.now) → bytes.old.items ≡ slice_range (R.bytes range.now) at (at + 16) }
    ensures passed { OnOk result ((head : FoundHead) × (head.length ≡ len) ×
        PassesBlock (R.tells range.now) (R.bytes range.now) at kinds.now tests.now head rows.old.items rows.new.items ×
        GoesOnGiving S.faults S.given S.sound (read_length tests.now head - 16) store.old store.new) }
    ensures bad_some { IsErrOf result Stop.BadBlock → 0 < length bytes.new.items }
    ensures bad { IsErrOf result Stop.BadBlock → (more : List ℕ) → BeginsNoBlock kinds.now (bytes.new.items ++ more) }
    ensures bad_long { IsErrOf result Stop.BadBlock → length bytes.new.items ≤ len }
    ensures bad_told { IsErrOf result Stop.BadBlock → IsTrue (R.tells range.now) → bytes.new.items ≡ slice_range (R.bytes range.now) at (at + length bytes.new.items) }
    ensures kept { OnErr result (rows.new.items ≡ rows.old.items) }

    ensures cause { IsErrOf result Stop.Store → Rose (S.faults store.old) (S.faults store.new) }
    ensures store { IsSteady S.faults S.sound store.old store.new }
{
    let head = read_bounds(alloc, store, range, at, len, kinds, bytes, rest)?;
    if skips(tests, &head) {
        return Ok(());
    }
    read_rest(alloc, store, range, at, len, kinds, bytes, rest, rows)?;
    Ok(())
}

// Reads the bounds of a block of so many bytes, of which the first 16 are there.
fn read_bounds<S: Store, R: Readable<S>>(
    alloc: Global,
    store: &mut S,
    range: &R,
    at: u64,
    len: usize,
    kinds: &Kinds,
    bytes: &mut Vec<u8>,
    rest: &mut Vec<u8>,
) -> Result<BlockHead, Stop>
    requires front { vec_len bytes.old ≡ 16 }
    requires size { len ≡ 16 + size_at bytes.old.items }
    requires within { at + len ≤ R.end range.now }
    requires fits { at + len < 2 ^ 64 }
    requires told { IsTrue (R.tells range.now) → bytes.old.items ≡ slice_range (R.bytes range.now) at (at + 16) }
    ensures begun { OnOk result (HeadLength bytes.new.items (length bytes.new.items)) }
    ensures says { IfOk result (λ head. HeadIs kinds.now head bytes.new.items) }
    ensures length { IfOk result (λ head. head.length ≡ len) }
    ensures long { IfOk result (λ head. vec_len bytes.new ≡ 16 + length (bounds_bytes head.bounds)) }
    ensures within { OnOk result (vec_len bytes.new ≤ len) }
    ensures front { OnOk result (16 ≤ vec_len bytes.new) }
    ensures same { OnOk result (size_at bytes.new.items ≡ size_at bytes.old.items) }
    ensures told { OnOk result (IsTrue (R.tells range.now) → bytes.new.items ≡ slice_range (R.bytes range.now) at (at + length bytes.new.items)) }
    ensures gave { OnOk result (GoesOnGiving S.faults S.given S.sound (vec_len bytes.new - 16) store.old store.new) }
    ensures bad_some { IsErrOf result Stop.BadBlock → 0 < length bytes.new.items }
    ensures bad { IsErrOf result Stop.BadBlock → (more : List ℕ) → BeginsNoBlock kinds.now (bytes.new.items ++ more) }
    ensures bad_long { IsErrOf result Stop.BadBlock → length bytes.new.items ≤ len }
    ensures bad_told { IsErrOf result Stop.BadBlock → IsTrue (R.tells range.now) → bytes.new.items ≡ slice_range (R.bytes range.now) at (at + length bytes.new.items) }

    ensures cause { IsErrOf result Stop.Store → Rose (S.faults store.old) (S.faults store.new) }
    ensures store { IsSteady S.faults S.sound store.old store.new }
{
    let Some(front) = head_length(bytes) else {
        return Err(Stop::BadBlock);
    };
    fill(store, range, at, front, bytes, rest)?;
    match read_head(alloc, kinds, bytes) {
        Ok(head) => Ok(head),
        Err(BlockFault::NotABlock) => Err(Stop::BadBlock),
        Err(BlockFault::NoMemory) => Err(Stop::NoMemory),
    }
}
