//! Blocks read.
ghost use Rattle.std.specs.Prelude.{◌≡◌, ◌≤◌, ◌<◌, ◌++◌, ℕ, List, length, take, drop, IfOk, OnErr, Err, Some};
ghost use Rattle.hq_value.specs.declared.value.Value.{Value as Datum};
ghost use Rattle.hq_block.specs.Block.{IsBlock};
ghost use Rattle.hq_block.specs.Reading.{Gives, rows_at, rows_in, block_at, with_front, with_rows};

use crate::BlockFault;
use crate::bounds::bounds_are;
use crate::fault::Misread;
use crate::head::{Head, head_at};
use crate::read::push_row;
use hq_value::{Kind, Kinds, Row};
use std::alloc::Global;

/// The rows of the block of these kinds that begins the bytes, and its length in bytes. A block may lack the last of
/// the columns, which then are NULL. NotABlock comes exactly where the bytes begin with no block of the kinds. What
/// the bytes claim takes no memory before it is read.
pub fn decode_block(
    alloc: Global,
    kinds: &Kinds,
    bytes: &[u8],
) -> Result<(Vec<Row>, usize), BlockFault>
    ensures within { IfOk result (λ found. found.1 ≤ length bytes.now) }
    ensures found { IfOk result (λ found. IsBlock kinds.now found.0.items (take found.1 bytes.now)) }
    ensures not_a_block { result ≡ Err BlockFault.NotABlock → (rows : List (List Datum)) (len : ℕ) → IsBlock kinds.now rows (take len bytes.now) → ⊥ }
{
    let mut rows = Vec::new(alloc);
    let len = decode_block_into(alloc, kinds, bytes, &mut rows)?;
    Ok((rows, len))
}

/// Adds the rows of the block of these kinds that begins the bytes, and gives its length in bytes. NotABlock comes
/// exactly where the bytes begin with no block of the kinds. After an error there are the rows from before.
pub fn decode_block_into(
    alloc: Global,
    kinds: &Kinds,
    bytes: &[u8],
    rows: &mut Vec<Row>,
) -> Result<usize, BlockFault>
    ensures within { IfOk result (λ len. len ≤ length bytes.now) }
    ensures kept { take (length rows.old.items) rows.new.items ≡ rows.old.items }
    ensures found { IfOk result (λ len. IsBlock kinds.now (drop (length rows.old.items) rows.new.items) (take len bytes.now)) }
    ensures err { OnErr result (rows.new.items ≡ rows.old.items) }
    ensures not_a_block { result ≡ Err BlockFault.NotABlock → (found : List (List Datum)) (len : ℕ) → IsBlock kinds.now found (take len bytes.now) → ⊥ }
{
    let before = rows.len();
    match block_at(alloc, kinds.as_slice(), bytes, rows) {
        Ok(rest) => Ok(bytes.len() - rest.len()),
        Err(misread) => {
            rows.truncate(before);
            Err(BlockFault::from(misread))
        }
    }
}

#[tactic(auto, unfolding(crate::specs::Reading::block_at))]
fn block_at<'a>(
    alloc: Global,
    kinds: &[Kind],
    bytes: &'a [u8],
    rows: &mut Vec<Row>,
) -> Result<&'a [u8], Misread>
    ensures read { Gives (λ rest. (rows.new.items, rest.now)) result (with_front rows.old.items (block_at kinds.now bytes.now)) }
    ensures kept { take (length rows.old.items) rows.new.items ≡ rows.old.items }
{
    let Some((head, rest)) = head_at(bytes) else {
        return Err(Misread::Absent);
    };
    let columns = head.columns as usize;
    let size = head.size as usize;
    if kinds.len() < columns || rest.len() < size {
        return Err(Misread::Absent);
    }
    let (body, rest) = rest.split_at(size);
    let (own, _) = kinds.split_at(columns);
    rows_in(alloc, own, kinds.len(), head, body, rows)?;
    Ok(rest)
}

// Adds the rows of a body, of which the bounds are the first bytes.
#[tactic(auto, unfolding(crate::specs::Reading::rows_in))]
fn rows_in(
    alloc: Global,
    kinds: &[Kind],
    width: usize,
    head: Head,
    body: &[u8],
    rows: &mut Vec<Row>,
) -> Result<(), Misread>
    requires { head.bounds ≤ length body.now }
    ensures read { Gives (λ _. rows.new.items) result (with_rows rows.old.items (rows_in kinds.now width head body.now)) }
    ensures kept { take (length rows.old.items) rows.new.items ≡ rows.old.items }
{
    let before = rows.len();
    let (bounds, body) = body.split_at(head.bounds as usize);
    let left = rows_at(alloc, kinds, width, head.rows, body, rows)?;
    if !left.is_empty() {
        return Err(Misread::Absent);
    }
    let (_, found) = rows.as_slice().split_at(before);
    if !bounds_are(alloc, head.version, kinds, found, bounds)? {
        return Err(Misread::Absent);
    }
    Ok(())
}

fn rows_at<'a>(
    alloc: Global,
    kinds: &[Kind],
    width: usize,
    count: u32,
    bytes: &'a [u8],
    rows: &mut Vec<Row>,
) -> Result<&'a [u8], Misread>
    ensures read { Gives (λ rest. (rows.new.items, rest.now)) result (with_front rows.old.items (rows_at kinds.now width count bytes.now)) }
    ensures kept { take (length rows.old.items) rows.new.items ≡ rows.old.items }
{
    let mut rest = bytes;
    for _ in 0..count {
        rest = push_row(alloc, kinds, width, rest, rows)?;
    }
    Ok(rest)
}
