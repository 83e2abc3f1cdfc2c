//! The values of aggregates over partial ones.
ghost use Rattle.std.specs.Prelude.{◌≡◌, ◌∷◌, [], IfOk, map};
ghost use Rattle.hq_meaning.specs.Operators as spec;
ghost use Rattle.hq_meaning.specs.Operators.{final_faults};
ghost use Rattle.hq_ops.specs.Ends.{Gives, IsNumericAt, StopsAt};
ghost use Rattle.hq_ops.specs.Grouped.{final_column, final_columns};

use crate::OpEnd;
use crate::best::Extreme;
use crate::column::Column;
use crate::end::Stop;
use crate::gathering::{finished, gather, nothing_gathered};
use crate::groups::GroupBy;
use hq_algebra::{Aggregate, Aggregates};
use hq_value::{NoMemory, Row};
use std::alloc::Global;

/// Groups partial rows by so many of their first columns, by first appearance, NULLs being equal: the keys and the
/// value of each aggregate. Without keys there is one group, also over no row. What is NULL in a partial row adds
/// nothing. Numeric where a count or a sum leaves 64 bits.
pub fn final_rows(alloc: Global, keys: u16, aggregates: &Aggregates, rows: &[Row]) -> OpEnd
    ensures rows { Gives result (spec.final keys aggregates.now rows.now) }
    ensures numeric { IsNumericAt result (final_faults keys aggregates.now rows.now) }
{
    OpEnd::of(finals(alloc, keys, aggregates.as_slice(), rows))
}

fn finals(
    alloc: Global,
    keys: u16,
    aggregates: &[Aggregate],
    rows: &[Row],
) -> Result<Vec<Row>, Stop>
    ensures rows { IfOk result (λ found. found.items ≡ spec.final keys aggregates.now rows.now) }
    ensures numeric { StopsAt result (final_faults keys aggregates.now rows.now) }
{
    let by = GroupBy::First(keys);
    let columns = final_columns(alloc, keys, aggregates)?;
    let nothing = nothing_gathered(alloc, &columns)?;
    let gathered = gather(alloc, &by, nothing, rows)?;
    finished(alloc, &by, &gathered)
}

/// What final aggregates read, behind so many columns. No plan has so many aggregates that a place does not fit.
pub fn final_columns<'a>(
    alloc: Global,
    keys: u16,
    aggregates: &[Aggregate],
) -> Result<Vec<Column<'a>>, NoMemory>
    ensures { IfOk result (λ columns. columns.items ≡ final_columns aggregates.now keys) }
{
    let mut columns = Vec::with_capacity(alloc, aggregates.len())?;
    let mut at = keys as u32;
    for aggregate in aggregates {
        let Some(next) = at.checked_add(width(aggregate)) else {
            return Err(NoMemory);
        };
        columns.push(final_column(aggregate, at))?;
        at = next;
    }
    Ok(columns)
}

// How many columns of a partial row are the aggregate's.
fn width(aggregate: &Aggregate) -> u32
    ensures { result ≡ spec.width aggregate.now }
{
    match aggregate {
        Aggregate::Sum(_) => 2,
        _ => 1,
    }
}

// What an aggregate reads whose columns begin at a place.
fn final_column<'a>(aggregate: &Aggregate, at: u32) -> Column<'a>
    ensures { result ≡ final_column aggregate.now at }
{
    match aggregate {
        Aggregate::CountAll => Column::SumAt(at),
        Aggregate::Count(_) => Column::SumAt(at),
        Aggregate::Sum(_) => Column::HalvesAt(at),
        Aggregate::Min(_) => Column::BestAt(Extreme::Least, at),
        Aggregate::Max(_) => Column::BestAt(Extreme::Greatest, at),
    }
}
