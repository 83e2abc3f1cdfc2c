//! Queries with their sources in another order.
ghost use Rattle.std.specs.Prelude.{◌≡◌, ◌<◌, ◌≤◌, IfOk, IsTrue, length};
ghost use Rattle.hq_algebra.specs.Bound.{is_bound};
ghost use Rattle.hq_laws.specs.Turned.{AreTurned};
ghost use Rattle.hq_whole.specs.Places.{place_of, Reordered, moved_up, turned_items};
ghost use Rattle.hq_whole.specs.Tables as tables;

use crate::renaming::{Places, renamed_aggregates, renamed_exprs, renamed_keys};
use crate::tables::{width_of, width_of_all};
use crate::turn::Turn;
use hq_algebra::{Exprs, Query, Tables32, copy_exprs, copy_order};
use hq_value::{NoMemory, Sequence, TableDef};
use std::alloc::Global;

/// The query with the source at place `from` before those from place `at` on, and its columns renamed.
pub fn with_source_up(
    alloc: Global,
    query: &Query,
    defs: &[(u32, TableDef)],
    at: usize,
    from: usize,
) -> Result<Query, NoMemory>
    requires bound { IsTrue (is_bound (tables.kinds_by defs.now) query.now) }
    requires order { at ≤ from }
    requires within { from < length query.now.sources }
    ensures reordered { IfOk result (λ new. Reordered (tables.kinds_by defs.now) query.now new) }
    ensures bound { IfOk result (λ new. IsTrue (is_bound (tables.kinds_by defs.now) new)) }
{
    let sources = query.sources.as_slice();
    let turn = Turn {
        before: width_of_all(defs, &sources[..at]),
        first: width_of_all(defs, &sources[at..from]),
        second: width_of(defs, sources[from]),
    };
    let sources = source_up(alloc, sources, at, from)?;
    turned(alloc, query, &Places::Turned(turn), sources)
}

// The query over these sources, with its columns renamed.
fn turned(alloc: Global, query: &Query, to: &Places, sources: Tables32) -> Result<Query, NoMemory>
    requires { length sources ≡ length query.now.sources }
    ensures sources { IfOk result (λ new. new.sources ≡ sources) }
    ensures turned { IfOk result (λ new. AreTurned (place_of to.now) query.now new) }
{
    let conds = renamed_exprs(alloc, to, query.conds.as_slice())?;
    let groups = renamed_keys(alloc, to, query.groups.as_slice())?;
    let aggregates = renamed_aggregates(alloc, to, query.aggregates.as_slice())?;
    let having = copy_exprs(alloc, query.having.as_slice())?;
    let items = items(alloc, query, to)?;
    let order = copy_order(alloc, query.order.as_slice())?;
    Ok(Query {
        sources,
        conds,
        grouped: query.grouped,
        groups,
        aggregates,
        having,
        items,
        distinct: query.distinct,
        order,
        limit: query.limit,
    })
}

// The select list. Where the query is grouped, it speaks of the groups.
fn items(alloc: Global, query: &Query, to: &Places) -> Result<Exprs, NoMemory>
    ensures { IfOk result (λ items. items ≡ turned_items (place_of to.now) query.now) }
{
    if query.grouped {
        return copy_exprs(alloc, query.items.as_slice());
    }
    renamed_exprs(alloc, to, query.items.as_slice())
}

// The source at place `from` before those from place `at` on.
fn source_up(alloc: Global, sources: &[u32], at: usize, from: usize) -> Result<Tables32, NoMemory>
    requires order { at ≤ from }
    requires within { from < length sources.now }
    ensures { IfOk result (λ moved. moved ≡ moved_up at from sources.now) }
{
    let mut moved = sources[..at].to_vec(alloc)?;
    moved.push(sources[from])?;
    moved.extend_from_slice(&sources[at..from])?;
    moved.extend_from_slice(&sources[from + 1..])?;
    Ok(Sequence::from_vec(moved))
}
