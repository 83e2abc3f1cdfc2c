//! The plan of a query.
ghost use Rattle.std.specs.Prelude.{◌≡◌, IfOk, IsTrue, map};
ghost use Rattle.hq_algebra.specs.Bound.{is_bound};
ghost use Rattle.hq_algebra.specs.Plans.{is_well_formed};
ghost use Rattle.hq_whole.specs.Tables as tables;
ghost use Rattle.hq_whole.specs.Serves.{Serves, Means, Scans, Guards};
ghost use Rattle.hq_planner.specs.Parts.{AreParts, IsNarrowed};

use crate::narrowing::narrow_query;
use crate::not_narrowed::NotNarrowed;
use crate::taking::{Taking, all_places, numbers, take_named};
use crate::widening::widened_plan;
use hq_algebra::{Plan, Query};
use hq_value::{NoMemory, TableDef};
use hq_whole::{plan_whole, width_of_all};
use std::alloc::Global;

/// A plan of a query that is bound over these definitions. It means what the query means, and faults alike, over every
/// split into buckets that keeps the tables' rules and for every assignment of the buckets. Each source stands in
/// exactly one Scan, directly under a Filter which holds exactly the tests that the query's conditions hold on it, and
/// exactly the members of the conditions that name it alone, so that rows which these exclude do not travel. Where there
/// are several sources, only the columns that the query names travel. The sizes, by place in `defs`, steer choices and
/// change no meaning.
pub fn plan(
    alloc: Global,
    query: &Query,
    defs: &[(u32, TableDef)],
    sizes: &[u128],
) -> Result<Plan, NoMemory>
    requires { IsTrue (is_bound (tables.kinds_by defs.now) query.now) }
    ensures means { IfOk result (λ plan. Means defs.now query.now plan) }
    ensures form { IfOk result (λ plan. IsTrue (is_well_formed plan)) }
    ensures scans { IfOk result (λ plan. Scans defs.now query.now plan) }
    ensures guards { IfOk result (λ plan. Guards defs.now query.now plan) }
{
    match narrow_plan(alloc, query, defs, sizes) {
        Ok(plan) => Ok(plan),
        Err(NotNarrowed::Unfit) => plan_whole(alloc, query, defs, sizes),
        Err(NotNarrowed::NoMemory) => Err(NoMemory),
    }
}

// A plan in which only the columns that the query names travel. With one source they do so anyway: behind it only what
// is selected or grouped travels.
fn narrow_plan(
    alloc: Global,
    query: &Query,
    defs: &[(u32, TableDef)],
    sizes: &[u128],
) -> Result<Plan, NotNarrowed>
    requires { IsTrue (is_bound (tables.kinds_by defs.now) query.now) }
    ensures { IfOk result (λ plan. Serves defs.now query.now plan) }
{
    if query.sources.len() < 2 {
        return Err(NotNarrowed::Unfit);
    }
    let taking = take_named(alloc, query, defs, sizes)?;
    let new = query_over(alloc, query, &taking, defs)?;
    let narrow = plan_whole(
        alloc,
        &new,
        taking.tables.as_slice(),
        taking.sizes.as_slice(),
    )?;
    let plan = widened_plan(alloc, taking.sources.as_slice(), defs, &narrow)?;
    Ok(plan)
}

// The query over what is taken. Unfit where this is all there is.
fn query_over(
    alloc: Global,
    query: &Query,
    taking: &Taking,
    defs: &[(u32, TableDef)],
) -> Result<Query, NotNarrowed>
    requires sources { map (λ t. t.table) taking.now.sources.items ≡ query.now.sources }
    requires parts { AreParts defs.now taking.now.sources.items taking.now.tables.items }
    ensures { IfOk result (λ new. IsNarrowed defs.now taking.now.tables.items query.now new taking.now.sources.items) }
{
    let width = width_of_all(defs, query.sources.as_slice());
    let columns = all_places(alloc, taking.sources.as_slice(), defs)?;
    if columns.len() == width as usize {
        return Err(NotNarrowed::Unfit);
    }
    let sources = numbers(alloc, taking.sources.len())?;
    let new = narrow_query(alloc, query, columns.as_slice(), width, sources)?;
    Ok(new)
}
