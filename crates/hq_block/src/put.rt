//! Rows written.
ghost use Rattle.std.specs.Prelude.{◌≡◌, ◌≤◌, ◌<◌, ◌^◌, ◌++◌, length, take, flat_map, OnOk, OnErr};
ghost use Rattle.std.specs.List.{AllByRecursion};
ghost use Rattle.hq_value.specs.Kinds.{Fits};
ghost use Rattle.hq_block.specs.Row.{IsInRange, IsRow, value_bytes, row_bytes, row_length};

use crate::nulls::put_nulls;
use byteorder::{BigEndian, ByteOrder};
use hq_value::{Kinds, NoMemory, Row, Value};

/// Adds the row's one spelling: the null bitmap and the values that are not NULL. Without memory nothing changes.
pub fn put_row(out: &mut Vec<u8>, kinds: &Kinds, row: &Row) -> Result<(), NoMemory>
    requires { Fits kinds.now row.now }
    ensures appended { OnOk result (out.new.items ≡ out.old.items ++ row_bytes row.now) }
    ensures spelled { OnOk result (IsRow kinds.now row.now (row_bytes row.now)) }
    ensures err { OnErr result (out.new.items ≡ out.old.items) }
{
    let before = out.len();
    match put_parts(out, row.as_slice()) {
        Ok(()) => Ok(()),
        Err(_) => {
            out.truncate(before);
            Err(NoMemory)
        }
    }
}

fn put_parts(out: &mut Vec<u8>, row: &[Value]) -> Result<(), NoMemory>
    ensures appended { OnOk result (out.new.items ≡ out.old.items ++ row_bytes row.now) }
    ensures in_range { OnOk result (AllByRecursion IsInRange row.now) }
    ensures err { OnErr result (take (length out.old.items) out.new.items ≡ out.old.items) }
{
    put_nulls(out, row)?;
    put_values(out, row)
}

fn put_values(out: &mut Vec<u8>, row: &[Value]) -> Result<(), NoMemory>
    ensures appended { OnOk result (out.new.items ≡ out.old.items ++ flat_map value_bytes row.now) }
    ensures in_range { OnOk result (AllByRecursion IsInRange row.now) }
    ensures err { OnErr result (take (length out.old.items) out.new.items ≡ out.old.items) }
{
    for value in row {
        put_value(out, value)?;
    }
    Ok(())
}

pub(crate) fn put_value(out: &mut Vec<u8>, value: &Value) -> Result<(), NoMemory>
    ensures appended { OnOk result (out.new.items ≡ out.old.items ++ value_bytes value.now) }
    ensures in_range { OnOk result (IsInRange value.now) }
    ensures err { OnErr result (take (length out.old.items) out.new.items ≡ out.old.items) }
{
    match value {
        Value::Null => Ok(()),
        Value::Bool(b) => put_bytes(out, &[u8::from(*b)]),
        Value::Int(n) => put_int(out, *n),
        Value::Text(text) => put_text(out, text.as_str()),
    }
}

fn put_int(out: &mut Vec<u8>, n: i64) -> Result<(), NoMemory>
    ensures appended { OnOk result (out.new.items ≡ out.old.items ++ value_bytes (Value.Int n)) }
    ensures err { OnErr result (take (length out.old.items) out.new.items ≡ out.old.items) }
{
    let mut field = [0u8; 8];
    BigEndian::write_i64(&mut field, n);
    put_bytes(out, &field)
}

fn put_text(out: &mut Vec<u8>, text: &str) -> Result<(), NoMemory>
    requires { length text.now ≤ 1000 }
    ensures appended { OnOk result (out.new.items ≡ out.old.items ++ value_bytes (Value.Text text.now)) }
    ensures in_range { OnOk result (IsInRange (Value.Text text.now)) }
    ensures err { OnErr result (take (length out.old.items) out.new.items ≡ out.old.items) }
{
    let mut field = [0u8; 2];
    BigEndian::write_u16(&mut field, text.len() as u16);
    put_bytes(out, &field)?;
    put_bytes(out, text.as_bytes())
}

/// Adds bytes. Without memory what stood before is still the front.
pub(crate) fn put_bytes(out: &mut Vec<u8>, bytes: &[u8]) -> Result<(), NoMemory>
    ensures appended { OnOk result (out.new.items ≡ out.old.items ++ bytes.now) }
    ensures err { OnErr result (take (length out.old.items) out.new.items ≡ out.old.items) }
{
    Ok(out.extend_from_slice(bytes)?)
}

/// How many bytes the spelling of a row takes: at most 64,136, since it has at most 64 columns.
pub fn row_length(row: &Row) -> usize
    requires { length row.now ≤ 64 }
    ensures length { result ≡ row_length row.now }
    ensures short { result ≤ 64136 }
{
    length_of_values(row.as_slice())
}

fn length_of_values(row: &[Value]) -> usize
    requires { length row.now ≤ 64 }
    ensures length { result ≡ row_length row.now }
    ensures short { result ≤ 64136 }
{
    let mut total = (row.len() + 7) / 8;
    for value in row {
        total += value_length(value);
    }
    total
}

fn value_length(value: &Value) -> usize
    ensures length { result ≡ length (value_bytes value.now) }
    ensures short { result ≤ 1002 }
{
    match value {
        Value::Null => 0,
        Value::Bool(_) => 1,
        Value::Int(_) => 8,
        Value::Text(text) => 2 + text.as_bytes().len(),
    }
}
