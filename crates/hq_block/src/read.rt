//! Rows read.
ghost use Rattle.std.specs.Prelude.{◌≡◌, ◌≤◌, ◌∷◌, ◌%◌, [], ℕ, List, length, take, drop, IfOk, OnOk, Err, Some, None};
ghost use Rattle.hq_value.specs.declared.value.Value.{Value as Datum};
ghost use Rattle.hq_block.specs.Block.{padded};
ghost use Rattle.hq_block.specs.Row.{IsRow, bitmap_length};
ghost use Rattle.hq_block.specs.Reading.{Gives, low_number, columns_at, row_at, byte_row_at, wide_row_at, with_front, alone};

use crate::RowFault;
use crate::fault::Misread;
use crate::fields::{column_at, u64_at};
use crate::nulls::{bitmap_length, ends_after, is_null};
use hq_value::{Kind, Kinds, NoMemory, Row, Value};
use std::alloc::Global;

/// The row of these kinds that begins the bytes, and its length in bytes. NotARow comes exactly where the bytes
/// begin with no row of the kinds.
pub fn read_row(alloc: Global, kinds: &Kinds, bytes: &[u8]) -> Result<(Row, usize), RowFault>
    ensures within { IfOk result (λ found. found.1 ≤ length bytes.now) }
    ensures found { IfOk result (λ found. IsRow kinds.now found.0 (take found.1 bytes.now)) }
    ensures not_a_row { result ≡ Err RowFault.NotARow → (row : List Datum) (len : ℕ) → IsRow kinds.now row (take len bytes.now) → ⊥ }
{
    let (row, rest) = row_at(alloc, kinds.as_slice(), bytes)?;
    Ok((row, bytes.len() - rest.len()))
}

/// The row that begins the bytes, and the bytes after it.
#[tactic(auto, unfolding(crate::specs::Reading::row_at))]
fn row_at<'a>(alloc: Global, kinds: &[Kind], bytes: &'a [u8]) -> Result<(Row, &'a [u8]), Misread>
    ensures { Gives (λ x. (x.0, x.1.now)) result (row_at kinds.now bytes.now) }
{
    let width = bitmap_length(kinds.len());
    if bytes.len() < width {
        return Err(Misread::Absent);
    }
    let (nulls, values) = bytes.split_at(width);
    columns_at(alloc, kinds, nulls, values)
}

fn columns_at<'a>(
    alloc: Global,
    kinds: &[Kind],
    nulls: &[u8],
    values: &'a [u8],
) -> Result<(Row, &'a [u8]), Misread>
    requires { length nulls.now ≡ bitmap_length (length kinds.now) }
    ensures { Gives (λ x. (x.0, x.1.now)) result (columns_at kinds.now (low_number nulls.now) values.now) }
{
    let mut row = Row::with_capacity(alloc, kinds.len())?;
    let mut rest = values;
    for (i, kind) in kinds.iter().enumerate() {
        let (value, after) = column_at(alloc, *kind, is_null(nulls, i), rest)?;
        row.push(value)?;
        rest = after;
    }
    if !ends_after(nulls, kinds.len()) {
        return Err(Misread::Absent);
    }
    Ok((row, rest))
}

// NULLs up to so many columns.
fn pad(row: &mut Row, width: usize) -> Result<(), NoMemory>
    ensures { OnOk result (row.new ≡ padded width row.old) }
{
    for _ in row.len()..width {
        row.push(Value::Null)?;
    }
    Ok(())
}

/// Adds the row of these kinds that begins the bytes, with NULLs up to so many columns, and gives the bytes after it.
/// Rows of up to three columns are made where they stay.
pub(crate) fn push_row<'a>(
    alloc: Global,
    kinds: &[Kind],
    width: usize,
    bytes: &'a [u8],
    rows: &mut Vec<Row>,
) -> Result<&'a [u8], Misread>
    ensures read { Gives (λ rest. (rows.new.items, rest.now)) result (with_front rows.old.items (alone (wide_row_at kinds.now width bytes.now))) }
    ensures kept { take (length rows.old.items) rows.new.items ≡ rows.old.items }
{
    if kinds.len() != width {
        return push_wide_row(alloc, kinds, width, bytes, rows);
    }
    match width {
        1 => Ok(push_row_of_one(alloc, kinds, bytes, rows)?),
        2 => Ok(push_row_of_two(alloc, kinds, bytes, rows)?),
        3 => Ok(push_row_of_three(alloc, kinds, bytes, rows)?),
        _ => push_wide_row(alloc, kinds, width, bytes, rows),
    }
}

fn push_row_of_one<'a>(
    alloc: Global,
    kinds: &[Kind],
    bytes: &'a [u8],
    rows: &mut Vec<Row>,
) -> Result<&'a [u8], Misread>
    requires { length kinds.now ≡ 1 }
    ensures read { Gives (λ rest. (rows.new.items, rest.now)) result (with_front rows.old.items (alone (byte_row_at kinds.now bytes.now))) }
    ensures kept { take (length rows.old.items) rows.new.items ≡ rows.old.items }
{
    push_one(alloc, kinds[0], bytes, rows)
}

fn push_row_of_two<'a>(
    alloc: Global,
    kinds: &[Kind],
    bytes: &'a [u8],
    rows: &mut Vec<Row>,
) -> Result<&'a [u8], Misread>
    requires { length kinds.now ≡ 2 }
    ensures read { Gives (λ rest. (rows.new.items, rest.now)) result (with_front rows.old.items (alone (byte_row_at kinds.now bytes.now))) }
    ensures kept { take (length rows.old.items) rows.new.items ≡ rows.old.items }
{
    push_two(alloc, kinds[0], kinds[1], bytes, rows)
}

fn push_row_of_three<'a>(
    alloc: Global,
    kinds: &[Kind],
    bytes: &'a [u8],
    rows: &mut Vec<Row>,
) -> Result<&'a [u8], Misread>
    requires { length kinds.now ≡ 3 }
    ensures read { Gives (λ rest. (rows.new.items, rest.now)) result (with_front rows.old.items (alone (byte_row_at kinds.now bytes.now))) }
    ensures kept { take (length rows.old.items) rows.new.items ≡ rows.old.items }
{
    push_three(alloc, kinds[0], kinds[1], kinds[2], bytes, rows)
}

#[tactic(auto, unfolding(crate::specs::Reading::wide_row_at))]
fn push_wide_row<'a>(
    alloc: Global,
    kinds: &[Kind],
    width: usize,
    bytes: &'a [u8],
    rows: &mut Vec<Row>,
) -> Result<&'a [u8], Misread>
    ensures read { Gives (λ rest. (rows.new.items, rest.now)) result (with_front rows.old.items (alone (wide_row_at kinds.now width bytes.now))) }
    ensures kept { take (length rows.old.items) rows.new.items ≡ rows.old.items }
{
    let (row, rest) = row_at(alloc, kinds, bytes)?;
    let mut row = row;
    pad(&mut row, width)?;
    rows.push(row)?;
    Ok(rest)
}

fn push_one<'a>(
    alloc: Global,
    kind: Kind,
    bytes: &'a [u8],
    rows: &mut Vec<Row>,
) -> Result<&'a [u8], Misread>
    ensures read { Gives (λ rest. (rows.new.items, rest.now)) result (with_front rows.old.items (alone (byte_row_at (kind ∷ []) bytes.now))) }
    ensures kept { take (length rows.old.items) rows.new.items ≡ rows.old.items }
{
    let [flags, values @ ..] = bytes else {
        return Err(Misread::Absent);
    };
    match kind {
        Kind::Int => push_int(alloc, *flags, values, rows),
        _ => push_value(alloc, kind, *flags, values, rows),
    }
}

// The row of one integer, or NULL, after its flags. The value is made where it stays.
#[tactic(auto, unfolding(crate::specs::Reading::columns_at, crate::specs::Reading::column_at, crate::specs::Reading::value_at, crate::specs::Reading::int_at))]
#[inline(always)]
fn push_int<'a>(
    alloc: Global,
    flags: u8,
    bytes: &'a [u8],
    rows: &mut Vec<Row>,
) -> Result<&'a [u8], Misread>
    ensures read { Gives (λ rest. (rows.new.items, rest.now)) result (with_front rows.old.items (alone (columns_at (Kind.Int ∷ []) flags bytes.now))) }
    ensures kept { take (length rows.old.items) rows.new.items ≡ rows.old.items }
{
    if flags % 2 == 1 {
        return push_null(alloc, flags, bytes, rows);
    }
    let Some((number, rest)) = u64_at(bytes) else {
        return Err(Misread::Absent);
    };
    if flags / 2 != 0 {
        return Err(Misread::Absent);
    }
    rows.push(Row::one(alloc, Value::Int(number.cast_signed())))?;
    Ok(rest)
}

// The row of one NULL.
#[tactic(auto, unfolding(crate::specs::Reading::columns_at, crate::specs::Reading::column_at))]
fn push_null<'a>(
    alloc: Global,
    flags: u8,
    bytes: &'a [u8],
    rows: &mut Vec<Row>,
) -> Result<&'a [u8], Misread>
    requires { flags % 2 ≡ 1 }
    ensures read { Gives (λ rest. (rows.new.items, rest.now)) result (with_front rows.old.items (alone (columns_at (Kind.Int ∷ []) flags bytes.now))) }
    ensures kept { take (length rows.old.items) rows.new.items ≡ rows.old.items }
{
    if flags / 2 != 0 {
        return Err(Misread::Absent);
    }
    rows.push(Row::one(alloc, Value::Null))?;
    Ok(bytes)
}

// The row of one value after its flags.
#[tactic(auto, unfolding(crate::specs::Reading::columns_at))]
fn push_value<'a>(
    alloc: Global,
    kind: Kind,
    flags: u8,
    bytes: &'a [u8],
    rows: &mut Vec<Row>,
) -> Result<&'a [u8], Misread>
    ensures read { Gives (λ rest. (rows.new.items, rest.now)) result (with_front rows.old.items (alone (columns_at (kind ∷ []) flags bytes.now))) }
    ensures kept { take (length rows.old.items) rows.new.items ≡ rows.old.items }
{
    let (value, rest) = column_at(alloc, kind, flags % 2 == 1, bytes)?;
    if flags / 2 != 0 {
        return Err(Misread::Absent);
    }
    rows.push(Row::one(alloc, value))?;
    Ok(rest)
}

#[tactic(auto, unfolding(crate::specs::Reading::columns_at))]
fn push_two<'a>(
    alloc: Global,
    first: Kind,
    second: Kind,
    bytes: &'a [u8],
    rows: &mut Vec<Row>,
) -> Result<&'a [u8], Misread>
    ensures read { Gives (λ rest. (rows.new.items, rest.now)) result (with_front rows.old.items (alone (byte_row_at (first ∷ second ∷ []) bytes.now))) }
    ensures kept { take (length rows.old.items) rows.new.items ≡ rows.old.items }
{
    let [flags, values @ ..] = bytes else {
        return Err(Misread::Absent);
    };
    let (a, rest) = column_at(alloc, first, *flags % 2 == 1, values)?;
    let (b, rest) = column_at(alloc, second, *flags / 2 % 2 == 1, rest)?;
    if *flags / 2 / 2 != 0 {
        return Err(Misread::Absent);
    }
    rows.push(Row::two(alloc, a, b))?;
    Ok(rest)
}

#[tactic(auto, unfolding(crate::specs::Reading::columns_at))]
fn push_three<'a>(
    alloc: Global,
    first: Kind,
    second: Kind,
    third: Kind,
    bytes: &'a [u8],
    rows: &mut Vec<Row>,
) -> Result<&'a [u8], Misread>
    ensures read { Gives (λ rest. (rows.new.items, rest.now)) result (with_front rows.old.items (alone (byte_row_at (first ∷ second ∷ third ∷ []) bytes.now))) }
    ensures kept { take (length rows.old.items) rows.new.items ≡ rows.old.items }
{
    let [flags, values @ ..] = bytes else {
        return Err(Misread::Absent);
    };
    let (a, rest) = column_at(alloc, first, *flags % 2 == 1, values)?;
    let (b, rest) = column_at(alloc, second, *flags / 2 % 2 == 1, rest)?;
    let (c, rest) = column_at(alloc, third, *flags / 2 / 2 % 2 == 1, rest)?;
    if *flags / 2 / 2 / 2 != 0 {
        return Err(Misread::Absent);
    }
    rows.push(Row::three(alloc, a, b, c))?;
    Ok(rest)
}
