//! The heads of blocks.
ghost use Rattle.std.specs.Prelude.{◌≡◌, ◌+◌, ℕ, IfOk, IfSome, IfNone, Err, length};
ghost use Rattle.hq_block.specs.Block.{is_version, obeys};
ghost use Rattle.hq_block.specs.declared.head.BlockHead.{BlockHead as FoundHead};
ghost use Rattle.hq_block.specs.Heads.{HeadLength, HeadIs};
ghost use Rattle.hq_block.specs.Reading.{Gives, Reads, fields_at, head_at, head_bounds_at};

use crate::BlockFault;
use crate::bounds::{Bounds, all_bounds_at};
use crate::fault::Misread;
use crate::fields::{after, byte_at, u16_at, u32_at};
use hq_value::{Kind, Kinds, Sequence};
use std::alloc::Global;

/// The fields of a block's first 16 bytes: the lengths of the body and of the bounds at its front are in bytes.
#[derive(Clone, Copy)]
pub(crate) struct Head {
    pub(crate) version: u8,
    pub(crate) columns: u8,
    pub(crate) size: u32,
    pub(crate) rows: u32,
    pub(crate) bounds: u16,
}

/// What a block says before its rows: how many columns it has, how many bytes the whole block, and the bounds of
/// each column; there are none in version 1.
#[derive(Debug, Drop)]
pub struct BlockHead {
    pub columns: u8,
    pub length: u32,
    pub bounds: Sequence<Bounds>,
}

#[tactic(auto, unfolding(crate::specs::Reading::fields_at))]
fn fields_at(bytes: &[u8]) -> Option<(Head, &[u8])>
    ensures { Reads (λ x. (x.0, x.1.now)) result (fields_at bytes.now) }
{
    let rest = after(&[0x48, 0x42], bytes)?;
    let (version, rest) = byte_at(rest)?;
    let (columns, rest) = byte_at(rest)?;
    let (size, rest) = u32_at(rest)?;
    let (rows, rest) = u32_at(rest)?;
    let (bounds, rest) = u16_at(rest)?;
    let rest = after(&[0, 0], rest)?;
    let head = Head {
        version,
        columns,
        size,
        rows,
        bounds,
    };
    Some((head, rest))
}

fn is_version(head: &Head) -> bool
    ensures { result ≡ is_version head.now.version head.now.rows head.now.bounds }
{
    if head.version == 2 {
        head.rows >= 16
    } else {
        head.version == 1 && head.rows >= 1 && head.bounds == 0
    }
}

fn obeys(head: &Head) -> bool
    ensures { result ≡ obeys head.now }
{
    is_version(head)
        && head.columns >= 1
        && head.columns <= 64
        && head.size <= 65_520
        && head.bounds as u32 <= head.size
}

/// A head that obeys the rules.
#[tactic(auto, unfolding(crate::specs::Reading::head_at))]
pub(crate) fn head_at(bytes: &[u8]) -> Option<(Head, &[u8])>
    ensures { Reads (λ x. (x.0, x.1.now)) result (head_at bytes.now) }
{
    let (head, rest) = fields_at(bytes)?;
    if !obeys(&head) {
        return None;
    }
    Some((head, rest))
}

/// How many bytes a block's head and bounds have: 16 and as many as its bounds; 16 for version 1. None comes exactly
/// where the bytes do not begin with a head.
pub fn head_length(bytes: &[u8]) -> Option<usize>
    ensures found { IfSome result (λ n. HeadLength bytes.now n) }
    ensures none { IfNone result ((n : ℕ) → HeadLength bytes.now n → ⊥) }
{
    match head_at(bytes) {
        Some((head, _)) => Some(16 + head.bounds as usize),
        None => None,
    }
}

/// What a block's head and bounds say, read of just these bytes. NotABlock comes exactly where the block has more
/// columns than there are kinds, or its bounds are not those of columns of the kinds.
pub fn read_head(alloc: Global, kinds: &Kinds, bytes: &[u8]) -> Result<BlockHead, BlockFault>
    requires { HeadLength bytes.now (length bytes.now) }
    ensures found { IfOk result (λ head. HeadIs kinds.now head bytes.now) }
    ensures not_a_block { result ≡ Err BlockFault.NotABlock → (head : FoundHead) → HeadIs kinds.now head bytes.now → ⊥ }
{
    let Some((head, rest)) = head_at(bytes) else {
        return Err(BlockFault::NotABlock);
    };
    let columns = head.columns as usize;
    let kinds = kinds.as_slice();
    if kinds.len() < columns {
        return Err(BlockFault::NotABlock);
    }
    let bounds = head_bounds_at(alloc, head.version, &kinds[..columns], rest)?;
    Ok(BlockHead {
        columns: head.columns,
        length: 16 + head.size,
        bounds,
    })
}

fn head_bounds_at(
    alloc: Global,
    version: u8,
    kinds: &[Kind],
    bytes: &[u8],
) -> Result<Sequence<Bounds>, Misread>
    ensures { Gives (λ x. x) result (head_bounds_at version kinds.now bytes.now) }
{
    if version == 2 {
        return all_bounds_at(alloc, kinds, bytes);
    }
    Ok(Sequence::new(alloc))
}
