//! Rows copied, some at a time.
ghost use Rattle.std.specs.Prelude.{◌≡◌, IfOk};

use hq_value::{NoMemory, Row};
use std::alloc::Global;

/// Equal rows.
pub fn copy_rows(alloc: Global, rows: &[Row]) -> Result<Vec<Row>, NoMemory>
    ensures { IfOk result (λ copy. copy.items ≡ rows.now) }
{
    let mut copy = Vec::with_capacity(alloc, rows.len())?;
    for row in rows {
        copy.push(row.copy(alloc)?)?;
    }
    Ok(copy)
}
