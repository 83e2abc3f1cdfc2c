//! One block read.
ghost use Rattle.std.specs.Prelude.{◌≡◌, ◌+◌, ◌-◌, ◌^◌, ◌<◌, ◌≤◌, ◌++◌, ℕ, List, length, take, min, slice_range, vec_len, IsTrue, IfOk, IsNone, OnOk, OnErr, IsErrOf};
ghost use Rattle.std.specs.Option.{ForSome};
ghost use Rattle.hq_value.specs.declared.kind.Kind.{Kind as Sort};
ghost use Rattle.hq_value.specs.Causes.{Rose, GoesOn, GoesOnGiving, IsSteady};
ghost use Rattle.hq_block.specs.Block.{IsBlock};
ghost use Rattle.hq_lane.specs.Scans.{BeginsNoBlock, HasReadBlock, IsBadAt, TakesBlock};
ghost use Rattle.hq_lane.specs.Sizes.{size_at};

use crate::range::Readable;
use hq_block::{BlockFault, decode_block_into};
use hq_store::Store;
use hq_value::{Kinds, Row, read_u32};
use std::alloc::Global;

/// How many bytes a block has before its body.
const HEAD: usize = 16;

/// Why no block was read.
#[derive(Clone, Copy, Debug, PartialEq, Eq)]
pub(crate) enum Stop {
    Store,
    BadBlock,
    NoMemory,
}

/// Reads the block that begins at `at`, its head first, and adds its rows. What is read is left in `bytes`: the block,
/// or bytes with which none begins.
pub(crate) fn read_block<S: Store, R: Readable<S>>(
    alloc: Global,
    store: &mut S,
    range: &R,
    at: u64,
    to: u64,
    kinds: &Kinds,
    bytes: &mut Vec<u8>,
    rest: &mut Vec<u8>,
    rows: &mut Vec<Row>,
) -> Result<(), Stop>
    requires before { at < to }
    requires within { to ≤ R.end range.now }
    ensures some { IsErrOf result Stop.BadBlock → 0 < length bytes.new.items }
    ensures long { OnOk result (0 < vec_len bytes.new) }
    ensures within { OnOk result (at + vec_len bytes.new ≤ to) }
    ensures found { OnOk result (HasReadBlock (R.tells range.now) (R.bytes range.now) at (vec_len bytes.new) kinds.now rows.old.items rows.new.items) }
    ensures gave { OnOk result (GoesOnGiving S.faults S.given S.sound (vec_len bytes.new) store.old store.new) }
    ensures bad { IsErrOf result Stop.BadBlock → IsBadAt kinds.now at to at bytes.new.items }
    ensures bad_told { IsErrOf result Stop.BadBlock → IsTrue (R.tells range.now) → bytes.new.items ≡ slice_range (R.bytes range.now) at (at + length bytes.new.items) }
    ensures kept { OnErr result (rows.new.items ≡ rows.old.items) }

    ensures cause { IsErrOf result Stop.Store → Rose (S.faults store.old) (S.faults store.new) }
    ensures store { IsSteady S.faults S.sound store.old store.new }
{
    let left = (to - at) as usize;
    let Some(len) = read_front(store, range, at, left, bytes)? else {
        return Err(Stop::BadBlock);
    };
    read_rest(alloc, store, range, at, len, kinds, bytes, rest, rows)?;
    Ok(())
}

/// Reads a block's first 16 bytes, or as many as are left, and answers how many the block has. None comes exactly where
/// these bytes do not go on as a block within those that are left.
pub(crate) fn read_front<S: Store, R: Readable<S>>(
    store: &mut S,
    range: &R,
    at: u64,
    left: usize,
    bytes: &mut Vec<u8>,
) -> Result<Option<usize>, Stop>
    requires some { 0 < left }
    requires within { at + left ≤ R.end range.now }
    ensures size { IfOk result (λ found. ForSome found (λ len. len ≡ 16 + size_at bytes.new.items)) }
    ensures some { IfOk result (λ found. ForSome found (λ len. 16 < len)) }
    ensures within { IfOk result (λ found. ForSome found (λ len. len ≤ left)) }
    ensures front { IfOk result (λ found. ForSome found (λ _. vec_len bytes.new ≡ 16)) }
    ensures none { IfOk result (λ found. IsNone found → (kinds : List Sort) (more : List ℕ) → length (bytes.new.items ++ more) ≤ left → BeginsNoBlock kinds (bytes.new.items ++ more)) }
    ensures long { OnOk result (vec_len bytes.new ≡ min left 16) }
    ensures told { OnOk result (IsTrue (R.tells range.now) → bytes.new.items ≡ slice_range (R.bytes range.now) at (at + vec_len bytes.new)) }
    ensures gave { OnOk result (GoesOnGiving S.faults S.given S.sound (vec_len bytes.new) store.old store.new) }
    ensures gave_none { OnErr result (GoesOn S.faults S.given S.sound store.old store.new) }
    ensures not_bad { IsErrOf result Stop.BadBlock → ⊥ }
    ensures cause { IsErrOf result Stop.Store → Rose (S.faults store.old) (S.faults store.new) }
{
    let Ok(()) = bytes.resize(left.min(HEAD), 0) else {
        return Err(Stop::NoMemory);
    };
    let Ok(()) = range.read(store, at, bytes) else {
        return Err(Stop::Store);
    };
    Ok(block_size(bytes, left))
}

// How many bytes the block has that these, at most 16, begin. None comes exactly where they do not go on as a block
// within so many.
fn block_size(bytes: &[u8], left: usize) -> Option<usize>
    requires { length bytes.now ≡ min left 16 }
    ensures size { ForSome result (λ len. len ≡ 16 + size_at bytes.now) }
    ensures some { ForSome result (λ len. 16 < len) }
    ensures within { ForSome result (λ len. len ≤ left) }
    ensures front { ForSome result (λ _. length bytes.now ≡ 16) }
    ensures none { IsNone result → (kinds : List Sort) (more : List ℕ) → length (bytes.now ++ more) ≤ left → BeginsNoBlock kinds (bytes.now ++ more) }
{
    if left < HEAD {
        return None;
    }
    let Some(size) = read_u32(bytes, 4) else {
        unreachable!();
    };
    if size == 0 {
        return None;
    }
    let len = HEAD + size as usize;
    if left < len {
        return None;
    }
    Some(len)
}

/// Reads the rest of a block of so many bytes, of which the first are there, by way of `rest`, and adds its rows.
pub(crate) fn read_rest<S: Store, R: Readable<S>>(
    alloc: Global,
    store: &mut S,
    range: &R,
    at: u64,
    len: usize,
    kinds: &Kinds,
    bytes: &mut Vec<u8>,
    rest: &mut Vec<u8>,
    rows: &mut Vec<Row>,
) -> Result<(), Stop>
    requires front { 16 ≤ vec_len bytes.old }
    requires have { vec_len bytes.old ≤ len }
    requires size { len ≡ 16 + size_at bytes.old.items }
    requires within { at + len ≤ R.end range.now }
    requires fits { at + len < 2 ^ 64 }
    requires told { IsTrue (R.tells range.now) → bytes.old.items ≡ slice_range (R.bytes range.now) at (at + vec_len bytes.old) }
    ensures long { OnOk result (vec_len bytes.new ≡ len) }
    ensures front { OnOk result (take (length bytes.old.items) bytes.new.items ≡ bytes.old.items) }
    ensures told { OnOk result (IsTrue (R.tells range.now) → bytes.new.items ≡ slice_range (R.bytes range.now) at (at + len)) }
    ensures taken { OnOk result (TakesBlock kinds.now bytes.new.items rows.old.items rows.new.items) }
    ensures gave { OnOk result (GoesOnGiving S.faults S.given S.sound (len - vec_len bytes.old) store.old store.new) }
    ensures bad { IsErrOf result Stop.BadBlock → (more : List ℕ) → BeginsNoBlock kinds.now (bytes.new.items ++ more) }
    ensures bad_long { IsErrOf result Stop.BadBlock → length bytes.new.items ≡ len }
    ensures bad_told { IsErrOf result Stop.BadBlock → IsTrue (R.tells range.now) → bytes.new.items ≡ slice_range (R.bytes range.now) at (at + len) }
    ensures kept { OnErr result (rows.new.items ≡ rows.old.items) }

    ensures cause { IsErrOf result Stop.Store → Rose (S.faults store.old) (S.faults store.new) }
    ensures store { IsSteady S.faults S.sound store.old store.new }
{
    fill(store, range, at, len, bytes, rest)?;
    take_block(alloc, kinds, bytes, rows)?;
    Ok(())
}

/// Adds the bytes behind those that are there, up to so many, by way of `rest`.
pub(crate) fn fill<S: Store, R: Readable<S>>(
    store: &mut S,
    range: &R,
    at: u64,
    len: usize,
    bytes: &mut Vec<u8>,
    rest: &mut Vec<u8>,
) -> Result<(), Stop>
    requires have { vec_len bytes.old ≤ len }
    requires within { at + len ≤ R.end range.now }
    requires fits { at + len < 2 ^ 64 }
    requires told { IsTrue (R.tells range.now) → bytes.old.items ≡ slice_range (R.bytes range.now) at (at + vec_len bytes.old) }
    ensures long { OnOk result (vec_len bytes.new ≡ len) }
    ensures front { OnOk result (take (length bytes.old.items) bytes.new.items ≡ bytes.old.items) }
    ensures told { OnOk result (IsTrue (R.tells range.now) → bytes.new.items ≡ slice_range (R.bytes range.now) at (at + len)) }
    ensures gave { OnOk result (GoesOnGiving S.faults S.given S.sound (len - vec_len bytes.old) store.old store.new) }
    ensures not_bad { IsErrOf result Stop.BadBlock → ⊥ }
    ensures cause { IsErrOf result Stop.Store → Rose (S.faults store.old) (S.faults store.new) }
    ensures store { IsSteady S.faults S.sound store.old store.new }
{
    // What was given before has a number of 64 bits.
    let _given = store.given();
    let have = bytes.len();
    if have == len {
        return Ok(());
    }
    add_bytes(store, range, at + have as u64, len - have, bytes, rest)
}

// Adds so many of the bytes from `from` on.
fn add_bytes<S: Store, R: Readable<S>>(
    store: &mut S,
    range: &R,
    from: u64,
    count: usize,
    bytes: &mut Vec<u8>,
    rest: &mut Vec<u8>,
) -> Result<(), Stop>
    requires some { 0 < count }
    requires within { from + count ≤ R.end range.now }
    ensures long { OnOk result (vec_len bytes.new ≡ vec_len bytes.old + count) }
    ensures front { OnOk result (take (length bytes.old.items) bytes.new.items ≡ bytes.old.items) }
    ensures told { OnOk result (IsTrue (R.tells range.now) → bytes.new.items ≡ bytes.old.items ++ slice_range (R.bytes range.now) from (from + count)) }
    ensures gave { OnOk result (GoesOnGiving S.faults S.given S.sound count store.old store.new) }
    ensures not_bad { IsErrOf result Stop.BadBlock → ⊥ }
    ensures cause { IsErrOf result Stop.Store → Rose (S.faults store.old) (S.faults store.new) }
    ensures store { IsSteady S.faults S.sound store.old store.new }
{
    make_room(rest, count)?;
    add_read(store, range, from, &mut rest[..count], bytes)
}

// As many bytes as that, or more, whatever they are.
fn make_room(rest: &mut Vec<u8>, count: usize) -> Result<(), Stop>
    ensures room { OnOk result (count ≤ vec_len rest.new) }
    ensures not_bad { IsErrOf result Stop.BadBlock → ⊥ }
    ensures not_store { IsErrOf result Stop.Store → ⊥ }
{
    if rest.len() < count {
        let Ok(()) = rest.resize(count, 0) else {
            return Err(Stop::NoMemory);
        };
    }
    Ok(())
}

// Fills `part` with the bytes from `from` on, and adds them.
fn add_read<S: Store, R: Readable<S>>(
    store: &mut S,
    range: &R,
    from: u64,
    part: &mut [u8],
    bytes: &mut Vec<u8>,
) -> Result<(), Stop>
    requires some { 0 < length part.old }
    requires within { from + length part.old ≤ R.end range.now }
    ensures long { OnOk result (vec_len bytes.new ≡ vec_len bytes.old + length part.old) }
    ensures front { OnOk result (take (length bytes.old.items) bytes.new.items ≡ bytes.old.items) }
    ensures told { OnOk result (IsTrue (R.tells range.now) → bytes.new.items ≡ bytes.old.items ++ slice_range (R.bytes range.now) from (from + length part.old)) }
    ensures gave { OnOk result (GoesOnGiving S.faults S.given S.sound (length part.old) store.old store.new) }
    ensures not_bad { IsErrOf result Stop.BadBlock → ⊥ }
    ensures cause { IsErrOf result Stop.Store → Rose (S.faults store.old) (S.faults store.new) }
    ensures store { IsSteady S.faults S.sound store.old store.new }
{
    let Ok(()) = range.read(store, from, part) else {
        return Err(Stop::Store);
    };
    let Ok(()) = bytes.extend_from_slice(part) else {
        return Err(Stop::NoMemory);
    };
    Ok(())
}

// Adds the rows of a block that has as many bytes as it says.
fn take_block(alloc: Global, kinds: &Kinds, bytes: &[u8], rows: &mut Vec<Row>) -> Result<(), Stop>
    requires enough { 16 ≤ length bytes.now }
    requires says { length bytes.now ≡ 16 + size_at bytes.now }
    ensures taken { OnOk result (TakesBlock kinds.now bytes.now rows.old.items rows.new.items) }
    ensures bad { IsErrOf result Stop.BadBlock → (more : List ℕ) → BeginsNoBlock kinds.now (bytes.now ++ more) }
    ensures kept { OnErr result (rows.new.items ≡ rows.old.items) }
    ensures not_store { IsErrOf result Stop.Store → ⊥ }
{
    match decode_block_into(alloc, kinds, bytes, rows) {
        Ok(_) => Ok(()),
        Err(BlockFault::NotABlock) => Err(Stop::BadBlock),
        Err(BlockFault::NoMemory) => Err(Stop::NoMemory),
    }
}
