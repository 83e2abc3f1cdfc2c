//! Blocks written.
ghost use Rattle.std.specs.Prelude.{◌≡◌, ◌≢◌, ◌≤◌, ◌<◌, ◌+◌, ◌↔◌, ◌++◌, All, length, take, nat_le, IsSome, IfOk, IfSome, IfNone, OnOk, Err};
ghost use Rattle.std.specs.List.{AllByRecursion};
ghost use Rattle.hq_value.specs.Kinds.{Fits};
ghost use Rattle.hq_block.specs.Row.{IsStorable};
ghost use Rattle.hq_block.specs.Block.{IsBlock, block_bytes, block_length, body_bytes, fitting_a_block, head_bytes, version_of, written_bounds};

use crate::EncodeFault;
use crate::bounds::{bounds_length, put_bounds};
use crate::head::Head;
use crate::put::{put_bytes, put_row, row_length};
use crate::row_list::RowList;
use hq_value::{Kind, Kinds, NoMemory, Row};
use std::alloc::Global;

const HEAD: usize = 16;

const MOST_BODY: usize = 65_520;

const MOST_BOUNDS: usize = 1_088;

/// The block of the rows: 16 bytes of head, the bounds where there are 16 rows or more, and the rows one after the
/// other. TooLarge comes exactly where that would be more than 65,536 bytes, which one row never is.
pub fn encode_block(alloc: Global, kinds: &Kinds, rows: &[Row]) -> Result<Vec<u8>, EncodeFault>
    requires some_kinds { 0 < length kinds.now }
    requires few_kinds { length kinds.now ≤ 64 }
    requires some_rows { 0 < length rows.now }
    requires fit { All (Fits kinds.now) rows.now }
    ensures written { IfOk result (λ block. block.items ≡ block_bytes kinds.now rows.now) }
    ensures spelled { OnOk result (IsBlock kinds.now rows.now (block_bytes kinds.now rows.now)) }
    ensures too_large { (result ≡ Err EncodeFault.TooLarge) ↔ (65536 < block_length kinds.now rows.now) }
    ensures one_row { length rows.now ≡ 1 → result ≢ Err EncodeFault.TooLarge }
{
    encode_list(alloc, kinds, &RowList::all(rows))
}

/// The same of rows that lie anywhere.
pub fn encode_list(alloc: Global, kinds: &Kinds, rows: &RowList) -> Result<Vec<u8>, EncodeFault>
    requires some_kinds { 0 < length kinds.now }
    requires few_kinds { length kinds.now ≤ 64 }
    requires some_rows { 0 < length rows.now }
    requires fit { All (Fits kinds.now) rows.now }
    ensures written { IfOk result (λ block. block.items ≡ block_bytes kinds.now rows.now) }
    ensures spelled { OnOk result (IsBlock kinds.now rows.now (block_bytes kinds.now rows.now)) }
    ensures too_large { (result ≡ Err EncodeFault.TooLarge) ↔ (65536 < block_length kinds.now rows.now) }
    ensures one_row { length rows.now ≡ 1 → result ≢ Err EncodeFault.TooLarge }
{
    let bounds = written_length(kinds.as_slice(), rows);
    let Some(body) = body_length(rows, MOST_BODY - bounds) else {
        return Err(EncodeFault::TooLarge);
    };
    let head = Head {
        version: version_of(rows.len()),
        columns: kinds.len() as u8,
        size: (bounds + body) as u32,
        rows: rows.len() as u32,
        bounds: bounds as u16,
    };
    let mut block = Vec::with_capacity(alloc, HEAD + bounds + body)?;
    put_head(&mut block, head)?;
    put_written(&mut block, kinds.as_slice(), rows)?;
    put_rows(&mut block, kinds, rows)?;
    Ok(block)
}

fn version_of(rows: usize) -> u8
    ensures { result ≡ version_of rows }
{
    if rows >= 16 { 2 } else { 1 }
}

// How many bytes the bounds take that are written.
fn written_length(kinds: &[Kind], rows: &RowList) -> usize
    requires few { length kinds.now ≤ 64 }
    requires fit { All (Fits kinds.now) rows.now }
    ensures length { result ≡ length (written_bounds kinds.now rows.now) }
    ensures short { result ≤ 1088 }
    ensures one_row { length rows.now ≡ 1 → result ≡ 0 }
{
    if rows.len() >= 16 {
        bounds_length(kinds, rows)
    } else {
        0
    }
}

fn put_written(out: &mut Vec<u8>, kinds: &[Kind], rows: &RowList) -> Result<(), NoMemory>
    ensures { OnOk result (out.new.items ≡ out.old.items ++ written_bounds kinds.now rows.now) }
{
    if rows.len() >= 16 {
        put_bounds(out, kinds, rows)?;
    }
    Ok(())
}

// How many bytes the rows take, where there is room for them.
fn body_length(rows: &RowList, room: usize) -> Option<usize>
    requires few { All (λ row. length row ≤ 64) rows.now }
    requires room { room ≤ 65520 }
    ensures size { IfSome result (λ size. size ≡ length (body_bytes rows.now)) }
    ensures room { IfSome result (λ size. size ≤ room) }
    ensures none { IfNone result (room < length (body_bytes rows.now)) }
    ensures one_row { length rows.now ≡ 1 → 64136 ≤ room → IsSome result }
{
    let mut size = 0;
    for i in 0..rows.len() {
        size += row_length(rows.get(i));
        if size > room {
            return None;
        }
    }
    Some(size)
}

fn put_head(out: &mut Vec<u8>, head: Head) -> Result<(), NoMemory>
    ensures { OnOk result (out.new.items ≡ out.old.items ++ head_bytes head) }
{
    let [s0, s1, s2, s3] = head.size.to_be_bytes();
    let [r0, r1, r2, r3] = head.rows.to_be_bytes();
    let [b0, b1] = head.bounds.to_be_bytes();
    put_bytes(
        out,
        &[
            0x48,
            0x42,
            head.version,
            head.columns,
            s0,
            s1,
            s2,
            s3,
            r0,
            r1,
            r2,
            r3,
            b0,
            b1,
            0,
            0,
        ],
    )
}

fn put_rows(out: &mut Vec<u8>, kinds: &Kinds, rows: &RowList) -> Result<(), NoMemory>
    requires { All (Fits kinds.now) rows.now }
    ensures appended { OnOk result (out.new.items ≡ out.old.items ++ body_bytes rows.now) }
    ensures storable { OnOk result (AllByRecursion (IsStorable kinds.now) rows.now) }
{
    for i in 0..rows.len() {
        put_row(out, kinds, rows.get(i))?;
    }
    Ok(())
}

/// How many of the first rows one block takes: as many as fit, and at least one where there is a row.
pub fn fitting_rows(kinds: &Kinds, rows: &[Row]) -> usize
    requires few_kinds { length kinds.now ≤ 64 }
    requires fit { All (Fits kinds.now) rows.now }
    ensures count { result ≡ fitting_a_block kinds.now rows.now }
    ensures within { result ≤ length rows.now }
    ensures some { 0 < length rows.now → 0 < result }
    ensures room { block_length kinds.now (take result rows.now) ≤ 65536 }
    ensures more { result < length rows.now → 65536 < block_length kinds.now (take (result + 1) rows.now) }
{
    fitting_in_list(kinds, &RowList::all(rows))
}

/// The same of rows that lie anywhere.
pub fn fitting_in_list(kinds: &Kinds, rows: &RowList) -> usize
    requires few_kinds { length kinds.now ≤ 64 }
    requires fit { All (Fits kinds.now) rows.now }
    ensures count { result ≡ fitting_a_block kinds.now rows.now }
    ensures within { result ≤ length rows.now }
    ensures some { 0 < length rows.now → 0 < result }
    ensures room { block_length kinds.now (take result rows.now) ≤ 65536 }
    ensures more { result < length rows.now → 65536 < block_length kinds.now (take (result + 1) rows.now) }
{
    fitting(kinds.as_slice(), rows)
}

fn fitting(kinds: &[Kind], rows: &RowList) -> usize
    requires few { length kinds.now ≤ 64 }
    requires fit { All (Fits kinds.now) rows.now }
    ensures within { result ≤ length rows.now }
    ensures some { 0 < length rows.now → 0 < result }
    ensures room { block_length kinds.now (take result rows.now) ≤ 65536 }
    ensures more { result < length rows.now → 65536 < block_length kinds.now (take (result + 1) rows.now) }
{
    let mut body = 0;
    for i in 0..rows.len() {
        let more = body + row_length(rows.get(i));
        if !is_block(kinds, &rows.first(i + 1), more) {
            return i;
        }
        body = more;
    }
    rows.len()
}

// Whether rows of so many bytes fit a block with their bounds.
fn is_block(kinds: &[Kind], rows: &RowList, body: usize) -> bool
    requires few { length kinds.now ≤ 64 }
    requires fit { All (Fits kinds.now) rows.now }
    requires body { body ≡ length (body_bytes rows.now) }
    ensures { result ≡ nat_le (block_length kinds.now rows.now) 65536 }
{
    body <= MOST_BODY - MOST_BOUNDS
        || (body <= MOST_BODY && body + written_length(kinds, rows) <= MOST_BODY)
}
