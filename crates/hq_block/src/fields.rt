//! The fields of rows and blocks, read from the front of bytes. Each reader gives its value and the bytes after it.
ghost use Rattle.std.specs.Prelude.{◌≡◌, ◌≤◌, IfOk, OnOk, Some, length, true, false};
ghost use Rattle.std.specs.Int.{w16, w32, w64};
ghost use Rattle.std.specs.Str.{is_utf8};
ghost use Rattle.hq_block.specs.Reading.{Gives, Reads, number_at, after, byte_at, bool_at, int_at, text_at, value_at, column_at};

use crate::fault::Misread;
use hq_value::{Chars, Kind, Value, read_u16, read_u32, read_u64};
use std::alloc::Global;

/// The bytes after these very bytes.
pub(crate) fn after<'a>(expected: &[u8], bytes: &'a [u8]) -> Option<&'a [u8]>
    ensures { Reads (λ x. x.now) result (after expected.now bytes.now) }
{
    match bytes.strip_prefix(expected) {
        Some(rest) => Some(rest),
        None => None,
    }
}

pub(crate) fn byte_at(bytes: &[u8]) -> Option<(u8, &[u8])>
    ensures { Reads (λ x. (x.0, x.1.now)) result (byte_at bytes.now) }
{
    let (byte, rest) = bytes.split_first()?;
    Some((*byte, rest))
}

pub(crate) fn u16_at(bytes: &[u8]) -> Option<(u16, &[u8])>
    ensures { Reads (λ x. (x.0, x.1.now)) result (number_at w16 bytes.now) }
{
    let number = read_u16(bytes, 0)?;
    Some((number, &bytes[2..]))
}

pub(crate) fn u32_at(bytes: &[u8]) -> Option<(u32, &[u8])>
    ensures { Reads (λ x. (x.0, x.1.now)) result (number_at w32 bytes.now) }
{
    let number = read_u32(bytes, 0)?;
    Some((number, &bytes[4..]))
}

pub(crate) fn u64_at(bytes: &[u8]) -> Option<(u64, &[u8])>
    ensures { Reads (λ x. (x.0, x.1.now)) result (number_at w64 bytes.now) }
{
    let number = read_u64(bytes, 0)?;
    Some((number, &bytes[8..]))
}

#[tactic(auto, unfolding(crate::specs::Reading::bool_at))]
#[inline(always)]
fn bool_at(bytes: &[u8]) -> Result<(Value, &[u8]), Misread>
    ensures { Gives (λ x. (x.0, x.1.now)) result (bool_at bytes.now) }
{
    match bytes {
        [0, rest @ ..] => Ok((Value::Bool(false), rest)),
        [1, rest @ ..] => Ok((Value::Bool(true), rest)),
        _ => Err(Misread::Absent),
    }
}

#[tactic(auto, unfolding(crate::specs::Reading::int_at))]
#[inline(always)]
fn int_at(bytes: &[u8]) -> Result<(Value, &[u8]), Misread>
    ensures { Gives (λ x. (x.0, x.1.now)) result (int_at bytes.now) }
{
    match u64_at(bytes) {
        Some((number, rest)) => Ok((Value::Int(number.cast_signed()), rest)),
        None => Err(Misread::Absent),
    }
}

#[tactic(auto, unfolding(crate::specs::Reading::text_at))]
fn text_at(alloc: Global, bytes: &[u8]) -> Result<(Value, &[u8]), Misread>
    ensures { Gives (λ x. (x.0, x.1.now)) result (text_at bytes.now) }
{
    let Some((length, rest)) = u16_at(bytes) else {
        return Err(Misread::Absent);
    };
    let length = length as usize;
    if length > Chars::MOST || rest.len() < length {
        return Err(Misread::Absent);
    }
    let (text, rest) = rest.split_at(length);
    let text = text_of(alloc, text)?;
    Ok((Value::Text(text), rest))
}

fn text_of(alloc: Global, bytes: &[u8]) -> Result<Chars, Misread>
    requires { length bytes.now ≤ 1000 }
    ensures ok { IfOk result (λ text. text ≡ bytes.now) }
    ensures valid { OnOk result (is_utf8 bytes.now ≡ true) }
    ensures err { (result ≡ Err Misread.Absent) → is_utf8 bytes.now ≡ false }
{
    match str::from_utf8(bytes) {
        Ok(text) => Ok(Chars::from_str(alloc, text)?),
        Err(_) => Err(Misread::Absent),
    }
}

/// A value of the kind, which is not NULL.
#[tactic(auto, unfolding(crate::specs::Reading::value_at))]
#[inline(always)]
pub(crate) fn value_at(alloc: Global, kind: Kind, bytes: &[u8]) -> Result<(Value, &[u8]), Misread>
    ensures { Gives (λ x. (x.0, x.1.now)) result (value_at kind bytes.now) }
{
    match kind {
        Kind::Bool => bool_at(bytes),
        Kind::Int => int_at(bytes),
        Kind::Text => text_at(alloc, bytes),
    }
}

/// A column's value: NULL, for which no bytes stand, or what stands next.
#[tactic(auto, unfolding(crate::specs::Reading::column_at))]
#[inline(always)]
pub(crate) fn column_at(
    alloc: Global,
    kind: Kind,
    is_null: bool,
    bytes: &[u8],
) -> Result<(Value, &[u8]), Misread>
    ensures { Gives (λ x. (x.0, x.1.now)) result (column_at kind is_null bytes.now) }
{
    if is_null {
        return Ok((Value::Null, bytes));
    }
    value_at(alloc, kind, bytes)
}
