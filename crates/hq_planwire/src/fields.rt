//! The fields of a plan, read from the front of bytes. Each reader gives its value and the bytes after it.
ghost use Rattle.std.specs.Prelude.{◌≡◌, ◌++◌, ◌∷◌, [], ◌≤◌, IfOk, OnOk, Err, length, true, false};
ghost use Rattle.std.specs.Int.{w16, w32, w64};
ghost use Rattle.std.specs.Str.{is_utf8};
ghost use Rattle.hq_planwire.specs.Reading as spec;
ghost use Rattle.hq_planwire.specs.Reading.{Gives, number_at, coded_at};
ghost use Rattle.hq_planwire.specs.Bytes.{short};
ghost use Rattle.hq_planwire.specs.Ranges.{IsShort};
ghost use Rattle.hq_planwire.specs.Wire.{Written};

use crate::PlanFault;
use hq_algebra::{ArithKind, CompareKind};
use hq_value::{Chars, Kind, NoMemory};
use std::alloc::Global;

#[tactic(auto, unfolding(crate::specs::Reading::byte_at))]
pub fn byte_at(bytes: &[u8]) -> Result<(u8, &[u8]), PlanFault>
    ensures { Gives (λ x. (x.0, x.1.now)) result (spec.byte_at bytes.now) }
{
    match bytes {
        [byte, rest @ ..] => Ok((*byte, rest)),
        [] => Err(PlanFault::NotAPlan),
    }
}

pub fn u16_at(bytes: &[u8]) -> Result<(u16, &[u8]), PlanFault>
    ensures { Gives (λ x. (x.0, x.1.now)) result (number_at w16 bytes.now) }
{
    if bytes.len() < 2 {
        return Err(PlanFault::NotAPlan);
    }
    let (front, rest) = bytes.split_at(2);
    Ok((u16::from_be_bytes([front[0], front[1]]), rest))
}

pub fn u32_at(bytes: &[u8]) -> Result<(u32, &[u8]), PlanFault>
    ensures { Gives (λ x. (x.0, x.1.now)) result (number_at w32 bytes.now) }
{
    if bytes.len() < 4 {
        return Err(PlanFault::NotAPlan);
    }
    let (front, rest) = bytes.split_at(4);
    let number = u32::from_be_bytes([front[0], front[1], front[2], front[3]]);
    Ok((number, rest))
}

pub fn u64_at(bytes: &[u8]) -> Result<(u64, &[u8]), PlanFault>
    ensures { Gives (λ x. (x.0, x.1.now)) result (number_at w64 bytes.now) }
{
    if bytes.len() < 8 {
        return Err(PlanFault::NotAPlan);
    }
    let (front, rest) = bytes.split_at(8);
    let number = u64::from_be_bytes([
        front[0], front[1], front[2], front[3], front[4], front[5], front[6], front[7],
    ]);
    Ok((number, rest))
}

fn bool_of(byte: u8) -> Option<bool>
    ensures { result ≡ spec.bool_of byte }
{
    match byte {
        0 => Some(false),
        1 => Some(true),
        _ => None,
    }
}

pub fn bool_at(bytes: &[u8]) -> Result<(bool, &[u8]), PlanFault>
    ensures { Gives (λ x. (x.0, x.1.now)) result (coded_at spec.bool_of bytes.now) }
{
    let (byte, rest) = byte_at(bytes)?;
    match bool_of(byte) {
        Some(b) => Ok((b, rest)),
        None => Err(PlanFault::NotAPlan),
    }
}

fn kind_of(byte: u8) -> Option<Kind>
    ensures { result ≡ spec.kind_of byte }
{
    match byte {
        1 => Some(Kind::Bool),
        2 => Some(Kind::Int),
        3 => Some(Kind::Text),
        _ => None,
    }
}

pub fn kind_at(bytes: &[u8]) -> Result<(Kind, &[u8]), PlanFault>
    ensures { Gives (λ x. (x.0, x.1.now)) result (coded_at spec.kind_of bytes.now) }
{
    let (byte, rest) = byte_at(bytes)?;
    match kind_of(byte) {
        Some(kind) => Ok((kind, rest)),
        None => Err(PlanFault::NotAPlan),
    }
}

fn arith_of(byte: u8) -> Option<ArithKind>
    ensures { result ≡ spec.arith_of byte }
{
    match byte {
        1 => Some(ArithKind::Plus),
        2 => Some(ArithKind::Minus),
        3 => Some(ArithKind::Times),
        _ => None,
    }
}

pub fn arith_at(bytes: &[u8]) -> Result<(ArithKind, &[u8]), PlanFault>
    ensures { Gives (λ x. (x.0, x.1.now)) result (coded_at spec.arith_of bytes.now) }
{
    let (byte, rest) = byte_at(bytes)?;
    match arith_of(byte) {
        Some(kind) => Ok((kind, rest)),
        None => Err(PlanFault::NotAPlan),
    }
}

fn compare_of(byte: u8) -> Option<CompareKind>
    ensures { result ≡ spec.compare_of byte }
{
    match byte {
        1 => Some(CompareKind::Equal),
        2 => Some(CompareKind::NotEqual),
        3 => Some(CompareKind::Less),
        4 => Some(CompareKind::AtMost),
        5 => Some(CompareKind::Greater),
        6 => Some(CompareKind::AtLeast),
        _ => None,
    }
}

pub fn compare_at(bytes: &[u8]) -> Result<(CompareKind, &[u8]), PlanFault>
    ensures { Gives (λ x. (x.0, x.1.now)) result (coded_at spec.compare_of bytes.now) }
{
    let (byte, rest) = byte_at(bytes)?;
    match compare_of(byte) {
        Some(kind) => Ok((kind, rest)),
        None => Err(PlanFault::NotAPlan),
    }
}

/// A text of at most 1,000 bytes. What its length claims takes no memory before it is there.
#[tactic(auto, unfolding(crate::specs::Reading::text_at))]
pub fn text_at(alloc: Global, bytes: &[u8]) -> Result<(Chars, &[u8]), PlanFault>
    ensures { Gives (λ x. (x.0, x.1.now)) result (spec.text_at bytes.now) }
{
    let (length, rest) = u16_at(bytes)?;
    let length = length as usize;
    if length > Chars::MOST || rest.len() < length {
        return Err(PlanFault::NotAPlan);
    }
    let (text, rest) = rest.split_at(length);
    let text = text_of(alloc, text)?;
    Ok((text, rest))
}

fn text_of(alloc: Global, bytes: &[u8]) -> Result<Chars, PlanFault>
    requires { length bytes.now ≤ 1000 }
    ensures ok { IfOk result (λ text. text ≡ bytes.now) }
    ensures valid { OnOk result (is_utf8 bytes.now ≡ true) }
    ensures err { (result ≡ Err PlanFault.NotAPlan) → is_utf8 bytes.now ≡ false }
{
    match str::from_utf8(bytes) {
        Ok(text) => Ok(Chars::from_str(alloc, text)?),
        Err(_) => Err(PlanFault::NotAPlan),
    }
}

/// Adds bytes.
pub fn put_bytes(out: &mut Vec<u8>, bytes: &[u8]) -> Result<(), NoMemory>
    ensures { OnOk result (out.new.items ≡ out.old.items ++ bytes.now) }
{
    match out.extend_from_slice(bytes) {
        Ok(()) => Ok(()),
        Err(_) => Err(NoMemory),
    }
}

pub fn put_byte(out: &mut Vec<u8>, byte: u8) -> Result<(), NoMemory>
    ensures { OnOk result (out.new.items ≡ out.old.items ++ byte ∷ []) }
{
    match out.push(byte) {
        Ok(()) => Ok(()),
        Err(_) => Err(NoMemory),
    }
}

pub fn put_short(out: &mut Vec<u8>, n: u16) -> Result<(), NoMemory>
    ensures { OnOk result (Written IsShort short out.old.items n out.new.items) }
{
    put_bytes(out, &n.to_be_bytes())
}

/// The lowest two bytes of a count. In a plan that is well formed every count has room in them.
pub fn put_count(out: &mut Vec<u8>, count: usize) -> Result<(), NoMemory>
    ensures { OnOk result (out.new.items ≡ out.old.items ++ short count) }
{
    put_bytes(out, &[(count / 256 % 256) as u8, (count % 256) as u8])
}
