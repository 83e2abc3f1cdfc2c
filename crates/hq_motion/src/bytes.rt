//! Rows in bytes, both ways.
ghost use Rattle.std.specs.Prelude.{◌≡◌, ◌≢◌, ◌<◌, ◌≤◌, ◌++◌, ◌∷◌, [], All, List, length, drop, IfOk, OnOk, Err};
ghost use Rattle.hq_value.specs.Kinds.{Fits};
ghost use Rattle.hq_value.specs.declared.value.Value.{Value as Datum};
ghost use Rattle.hq_motion.specs.Bytes.{rows_bytes, AreRows};

use hq_block::{RowFault, put_row, read_row};
use hq_value::{Kinds, NoMemory, Row};
use std::alloc::Global;

/// The rows in bytes, one after another.
pub fn rows_to_bytes(alloc: Global, kinds: &Kinds, rows: &[Row]) -> Result<Vec<u8>, NoMemory>
    requires some_kinds { 0 < length kinds.now }
    requires fit { All (Fits kinds.now) rows.now }
    ensures written { IfOk result (λ bytes. bytes.items ≡ rows_bytes rows.now) }
    ensures spelled { OnOk result (AreRows kinds.now rows.now (rows_bytes rows.now)) }
{
    let mut bytes = Vec::new(alloc);
    for row in rows {
        put_row(&mut bytes, kinds, row)?;
    }
    Ok(bytes)
}

/// The rows of these kinds that the bytes spell. NotARow comes exactly where they spell no rows of the kinds.
pub fn bytes_to_rows(alloc: Global, kinds: &Kinds, bytes: &[u8]) -> Result<Vec<Row>, RowFault>
    requires { 0 < length kinds.now }
    ensures found { IfOk result (λ rows. AreRows kinds.now rows.items bytes.now) }
    ensures not_a_row { result ≡ Err RowFault.NotARow → (rows : List (List Datum)) → AreRows kinds.now rows bytes.now → ⊥ }
{
    let mut rows = Vec::new(alloc);
    let mut rest = bytes;
    while !rest.is_empty() {
        match read_row(alloc, kinds, rest) {
            Err(fault) => return Err(fault),
            Ok((row, count)) => {
                keep(&mut rows, row)?;
                rest = behind(rest, count);
            }
        }
    }
    Ok(rows)
}

fn keep(rows: &mut Vec<Row>, row: Row) -> Result<(), RowFault>
    ensures kept { OnOk result (rows.new.items ≡ rows.old.items ++ row ∷ []) }
    ensures err { result ≢ Err RowFault.NotARow }
{
    match rows.push(row) {
        Ok(()) => Ok(()),
        Err(_) => Err(RowFault::NoMemory),
    }
}

fn behind(bytes: &[u8], count: usize) -> &[u8]
    requires { count ≤ length bytes.now }
    ensures { result.now ≡ drop count bytes.now }
{
    &bytes[count..]
}
