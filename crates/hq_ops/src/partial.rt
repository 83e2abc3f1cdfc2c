//! Partial aggregates.
ghost use Rattle.std.specs.Prelude.{◌≡◌, ◌∷◌, [], IfOk, map};
ghost use Rattle.hq_meaning.specs.Operators.{partial_faults};
ghost use Rattle.hq_meaning.specs.Operators as spec;
ghost use Rattle.hq_ops.specs.Ends.{Gives, IsNumericAt, StopsAt};
ghost use Rattle.hq_ops.specs.Grouped.{ArePartial, IsPartial};

use crate::OpEnd;
use crate::best::Extreme;
use crate::column::Column;
use crate::end::Stop;
use crate::gathering::{finished, gather, nothing_gathered};
use crate::groups::GroupBy;
use hq_algebra::{Aggregate, Aggregates, Keys16};
use hq_value::{NoMemory, Row};
use std::alloc::Global;

/// Groups by keys, by first appearance, NULLs being equal: the keys and the columns of each aggregate. Without keys
/// there is one group, also over no row. A count is one Int. A sum is two Ints h and l, the sum being h times 2^63
/// plus l, with l from 0 to below 2^63, both NULL over no value. The least and the greatest are one value. Numeric
/// where the argument of an aggregate faults over some row.
pub fn partial_rows(alloc: Global, keys: &Keys16, aggregates: &Aggregates, rows: &[Row]) -> OpEnd
    ensures rows { Gives result (spec.partial keys.now aggregates.now rows.now) }
    ensures numeric { IsNumericAt result (partial_faults aggregates.now rows.now) }
{
    OpEnd::of(partial(alloc, keys.as_slice(), aggregates.as_slice(), rows))
}

fn partial(
    alloc: Global,
    places: &[u16],
    aggregates: &[Aggregate],
    rows: &[Row],
) -> Result<Vec<Row>, Stop>
    ensures rows { IfOk result (λ found. found.items ≡ spec.partial places.now aggregates.now rows.now) }
    ensures numeric { StopsAt result (partial_faults aggregates.now rows.now) }
{
    let by = GroupBy::Columns(places);
    let columns = partial_columns(alloc, aggregates)?;
    let nothing = nothing_gathered(alloc, &columns)?;
    let gathered = gather(alloc, &by, nothing, rows)?;
    finished(alloc, &by, &gathered)
}

/// What partial aggregates read.
pub fn partial_columns<'a>(
    alloc: Global,
    aggregates: &'a [Aggregate],
) -> Result<Vec<Column<'a>>, NoMemory>
    ensures { IfOk result (λ columns. ArePartial aggregates.now columns.items) }
{
    let mut columns = Vec::with_capacity(alloc, aggregates.len())?;
    for aggregate in aggregates {
        columns.push(partial_column(aggregate))?;
    }
    Ok(columns)
}

fn partial_column(aggregate: &Aggregate) -> Column<'_>
    ensures { IsPartial aggregate.now result }
{
    match aggregate {
        Aggregate::CountAll => Column::Rows,
        Aggregate::Count(e) => Column::Present(e),
        Aggregate::Sum(e) => Column::Sum(e),
        Aggregate::Min(e) => Column::Best(Extreme::Least, e),
        Aggregate::Max(e) => Column::Best(Extreme::Greatest, e),
    }
}
