//! The null bitmap of a row: column i is bit i mod 8, the least significant first, of byte i / 8.
ghost use Rattle.std.specs.Prelude.{◌≡◌, ◌<◌, ◌≤◌, ◌+◌, ◌*◌, ◌/◌, ◌%◌, ◌^◌, ◌==◌, ◌++◌, not, length, take, OnOk, OnErr};
ghost use Rattle.hq_block.specs.Row.{null_flag, null_flags, null_bitmap, bitmap_length};
ghost use Rattle.hq_block.specs.Reading.{low_number};

use hq_value::{NoMemory, Value};

/// As many bytes as the null bitmap of this many columns has.
pub(crate) fn bitmap_length(columns: usize) -> usize
    requires { columns < 2 ^ 63 }
    ensures { result ≡ bitmap_length columns }
{
    (columns + 7) / 8
}

/// Adds the null bitmap. Without memory what stood before is still the front.
pub(crate) fn put_nulls(out: &mut Vec<u8>, row: &[Value]) -> Result<(), NoMemory>
    ensures ok { OnOk result (out.new.items ≡ out.old.items ++ null_bitmap row.now) }
    ensures err { OnErr result (take (length out.old.items) out.new.items ≡ out.old.items) }
{
    let mut rest = row;
    while !rest.is_empty() {
        let (group, others) = rest.split_at(rest.len().min(8));
        out.push(null_byte(group))?;
        rest = others;
    }
    Ok(())
}

// The flags of at most 8 columns.
fn null_byte(group: &[Value]) -> u8
    requires { length group.now ≤ 8 }
    ensures { result ≡ null_flags group.now }
{
    let mut flags = 0;
    for i in (0..group.len()).rev() {
        flags = 2 * flags + null_flag(&group[i]);
    }
    flags
}

fn null_flag(value: &Value) -> u8
    ensures flag { result ≡ null_flag value.now }
    ensures below { result < 2 }
{
    match value {
        Value::Null => 1,
        _ => 0,
    }
}

/// Whether the flag of a column is set.
pub(crate) fn is_null(nulls: &[u8], column: usize) -> bool
    requires { column < 8 * length nulls.now }
    ensures { result ≡ (low_number nulls.now / 2 ^ column % 2 == 1) }
{
    (nulls[column / 8] >> (column % 8)) % 2 == 1
}

/// Whether no flag is set past those of so many columns.
pub(crate) fn ends_after(nulls: &[u8], columns: usize) -> bool
    requires { length nulls.now ≡ bitmap_length columns }
    ensures { result ≡ (low_number nulls.now / 2 ^ columns == 0) }
{
    columns % 8 == 0 || nulls[columns / 8] >> (columns % 8) == 0
}
