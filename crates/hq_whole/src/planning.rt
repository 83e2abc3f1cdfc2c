//! The plan of a query.
ghost use Rattle.std.specs.Prelude.{◌≡◌, ◌<◌, IfOk, IsTrue, Some, false, length};
ghost use Rattle.hq_algebra.specs.Bound.{is_bound};
ghost use Rattle.hq_algebra.specs.Operators.{items_kinds};
ghost use Rattle.hq_algebra.specs.Queries.{product_kinds};
ghost use Rattle.hq_algebra.specs.Plans.{is_well_formed};
ghost use Rattle.hq_laws.specs.Room.{kinds_sent, is_sendable};
ghost use Rattle.hq_whole.specs.Tables as tables;
ghost use Rattle.hq_whole.specs.Joined.{AreJoined};
ghost use Rattle.hq_whole.specs.Serves.{Serves, Means, Scans, Guards};

use crate::choosing::next_source;
use crate::gathering::gathered;
use crate::ordering::with_source_up;
use crate::sent::{listed_kinds, sent_kinds};
use crate::spreading::{Built, closed, joined_sources, listed};
use crate::steps::steps;
use hq_algebra::{Plan, Query};
use hq_value::{Kinds, NoMemory, TableDef};
use std::alloc::Global;

/// A plan of a query that is bound over these definitions, in which all columns of its sources travel. It means what
/// the query means, and faults alike, over every split into buckets that keeps the tables' rules and for every
/// assignment of the buckets. Each source stands in exactly one Scan, directly under a Filter which holds exactly the
/// tests that the query's conditions hold on it, and exactly the members of the conditions that name it alone, so that
/// rows which these exclude do not travel. The sizes, by place in `defs`, steer choices and change no meaning.
pub fn plan_whole(
    alloc: Global,
    query: &Query,
    defs: &[(u32, TableDef)],
    sizes: &[u128],
) -> Result<Plan, NoMemory>
    requires { IsTrue (is_bound (tables.kinds_by defs.now) query.now) }
    ensures means { IfOk result (λ plan. Means defs.now query.now plan) }
    ensures form { IfOk result (λ plan. IsTrue (is_well_formed plan)) }
    ensures scans { IfOk result (λ plan. Scans defs.now query.now plan) }
    ensures guards { IfOk result (λ plan. Guards defs.now query.now plan) }
{
    match ordered(alloc, query, defs, sizes, 0) {
        Ok(plan) => Ok(plan),
        Err(fault) => Err(fault),
    }
}

// A plan of the query, whose sources before place `at` stand. Those behind it are brought into an order that follows
// the links between them.
fn ordered(
    alloc: Global,
    query: &Query,
    defs: &[(u32, TableDef)],
    sizes: &[u128],
    at: usize,
) -> Result<Plan, NoMemory>
    requires { IsTrue (is_bound (tables.kinds_by defs.now) query.now) }
    ensures { IfOk result (λ plan. Serves defs.now query.now plan) }
{
    if at >= query.sources.len() {
        return chosen(alloc, query, defs, sizes);
    }
    let from = next_source(query, defs, sizes, at);
    if from == at {
        return ordered(alloc, query, defs, sizes, at + 1);
    }
    let turned = with_source_up(alloc, query, defs, at, from)?;
    let plan = ordered(alloc, &turned, defs, sizes, at + 1)?;
    Ok(plan)
}

fn chosen(
    alloc: Global,
    query: &Query,
    defs: &[(u32, TableDef)],
    sizes: &[u128],
) -> Result<Plan, NoMemory>
    requires { IsTrue (is_bound (tables.kinds_by defs.now) query.now) }
    ensures { IfOk result (λ plan. Serves defs.now query.now plan) }
{
    if query.grouped {
        return grouped(alloc, query, defs, sizes);
    }
    ungrouped(alloc, query, defs, sizes)
}

// The groups begin on all nodes, where they have some column.
fn grouped(
    alloc: Global,
    query: &Query,
    defs: &[(u32, TableDef)],
    sizes: &[u128],
) -> Result<Plan, NoMemory>
    requires { IsTrue (is_bound (tables.kinds_by defs.now) query.now) }
    ensures { IfOk result (λ plan. Serves defs.now query.now plan) }
{
    let sent = sent_kinds(alloc, query, defs)?;
    match sent {
        None => at_one_node(alloc, query, defs),
        Some(sent) => grouped_on_nodes(alloc, query, defs, sizes, sent),
    }
}

// The select list is evaluated on all nodes, so that only its values travel to the last one.
fn ungrouped(
    alloc: Global,
    query: &Query,
    defs: &[(u32, TableDef)],
    sizes: &[u128],
) -> Result<Plan, NoMemory>
    requires bound { IsTrue (is_bound (tables.kinds_by defs.now) query.now) }
    requires plain { query.now.grouped ≡ false }
    ensures { IfOk result (λ plan. Serves defs.now query.now plan) }
{
    let out = listed_kinds(alloc, query, defs)?;
    match out {
        None => at_one_node(alloc, query, defs),
        Some(out) => listed_on_nodes(alloc, query, defs, sizes, out),
    }
}

fn at_one_node(alloc: Global, query: &Query, defs: &[(u32, TableDef)]) -> Result<Plan, NoMemory>
    requires { IsTrue (is_bound (tables.kinds_by defs.now) query.now) }
    ensures { IfOk result (λ plan. Serves defs.now query.now plan) }
{
    let plan = gathered(alloc, query, defs)?;
    Ok(plan)
}

// The sources joined on all nodes.
fn joined(
    alloc: Global,
    query: &Query,
    defs: &[(u32, TableDef)],
    sizes: &[u128],
) -> Result<Built, NoMemory>
    ensures joined { IfOk result (λ built. AreJoined defs.now query.now built) }
    ensures few { IfOk result (λ built. length built.slices < 63) }
{
    let conds = query.conds.as_slice();
    let sources = query.sources.as_slice();
    let first = sources[0];
    let steps = steps(alloc, query, defs, sizes)?;
    let built = joined_sources(alloc, conds, defs, first, steps.as_slice())?;
    Ok(built)
}

fn grouped_on_nodes(
    alloc: Global,
    query: &Query,
    defs: &[(u32, TableDef)],
    sizes: &[u128],
    sent: Kinds,
) -> Result<Plan, NoMemory>
    requires bound { IsTrue (is_bound (tables.kinds_by defs.now) query.now) }
    requires sent { kinds_sent (tables.kinds_by defs.now) query.now ≡ Some sent }
    requires sendable { IsTrue (is_sendable sent) }
    ensures { IfOk result (λ plan. Serves defs.now query.now plan) }
{
    let built = joined(alloc, query, defs, sizes)?;
    let plan = closed(alloc, sent, query, built)?;
    Ok(plan)
}

fn listed_on_nodes(
    alloc: Global,
    query: &Query,
    defs: &[(u32, TableDef)],
    sizes: &[u128],
    out: Kinds,
) -> Result<Plan, NoMemory>
    requires bound { IsTrue (is_bound (tables.kinds_by defs.now) query.now) }
    requires plain { query.now.grouped ≡ false }
    requires listed { Some out ≡ items_kinds (product_kinds (tables.kinds_by defs.now) query.now) query.now.items }
    ensures { IfOk result (λ plan. Serves defs.now query.now plan) }
{
    let built = joined(alloc, query, defs, sizes)?;
    let plan = listed(alloc, out, query, built)?;
    Ok(plan)
}
