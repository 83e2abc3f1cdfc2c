//! A query over the columns that are taken of its sources.
ghost use Rattle.std.specs.Prelude.{◌≡◌, IfOk, length, map, if◌then◌else◌};
ghost use Rattle.hq_laws.specs.Turned.{renamed, AreTurned};
ghost use Rattle.hq_narrow.specs.Narrow.{place_from};

use crate::not_narrowed::NotNarrowed;
use crate::renaming::{narrow_aggregates, narrow_exprs, narrow_places};
use hq_algebra::{Exprs, Query, Tables32, copy_exprs, copy_order};
use std::alloc::Global;

/// The query over these sources, whose columns are those that are taken of so many columns of the others. Unfit where it
/// names another column.
pub fn narrow_query(
    alloc: Global,
    query: &Query,
    columns: &[u16],
    width: u16,
    sources: Tables32,
) -> Result<Query, NotNarrowed>
    requires { length sources ≡ length query.now.sources }
    ensures sources { IfOk result (λ new. new.sources ≡ sources) }
    ensures turned { IfOk result (λ new. AreTurned (place_from columns.now width) new query.now) }
{
    let conds = narrow_exprs(alloc, columns, width, query.conds.as_slice())?;
    let groups = narrow_places(alloc, columns, width, query.groups.as_slice())?;
    let aggregates = narrow_aggregates(alloc, columns, width, query.aggregates.as_slice())?;
    let having = copy_exprs(alloc, query.having.as_slice())?;
    let items = narrow_items(alloc, query, columns, width)?;
    let order = copy_order(alloc, query.order.as_slice())?;
    Ok(Query {
        sources,
        conds,
        grouped: query.grouped,
        groups,
        aggregates,
        having,
        items,
        distinct: query.distinct,
        order,
        limit: query.limit,
    })
}

// The select list. Where the query is grouped, it speaks of the groups.
fn narrow_items(
    alloc: Global,
    query: &Query,
    columns: &[u16],
    width: u16,
) -> Result<Exprs, NotNarrowed>
    ensures { IfOk result (λ items. (if query.now.grouped then items else map (renamed (place_from columns.now width)) items) ≡ query.now.items) }
{
    if query.grouped {
        return Ok(copy_exprs(alloc, query.items.as_slice())?);
    }
    narrow_exprs(alloc, columns, width, query.items.as_slice())
}
