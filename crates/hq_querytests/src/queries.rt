//! Queries over the two tables.
ghost use Rattle.std.specs.Prelude.{◌≡◌, ◌+◌, [], length, IsTrue, IfOk};
ghost use Rattle.hq_value.specs.Marks.{some_up};
ghost use Rattle.hq_value.specs.Kinds.{kinds_of as column_kinds};
ghost use Rattle.hq_querytests.specs.Benches.{AreReady};
ghost use Rattle.hq_querytests.specs.Works.{two, plan_by, AreThere};

use crate::benches::TestBenches;
use crate::plans::{Work, plan_of};
use hq_algebra::Plan;
use hq_detect::Host;
use hq_dispatch::{QueryEnd, run_query};
use hq_snap::TableSnap;
use hq_untold::UntoldSeal;
use hq_value::{Kind, Kinds, Marks, kinds_of};
use std::alloc::Global;
use std::test::Fail;
use std::thread::Threads;

fn are_two_ints(kinds: &Kinds) -> bool
    ensures { IsTrue result → kinds.now ≡ two }
{
    matches!(kinds.as_slice(), [Kind::Int, Kind::Int])
}

// Whether the table has this number, and two INTs.
fn is_table(alloc: Global, table: &TableSnap<UntoldSeal>, number: u32) -> Result<bool, Fail>
    ensures number { IfOk result (λ is. IsTrue is → table.now.table ≡ number) }
    ensures columns { IfOk result (λ is. IsTrue is → column_kinds table.now.def.columns ≡ two) }
{
    if table.table() != number {
        return Ok(false);
    }
    let kinds = kinds_of(alloc, table.def().columns().as_slice())?;
    Ok(are_two_ints(&kinds))
}

// Whether these are the two tables.
fn are_there(alloc: Global, tables: &[TableSnap<UntoldSeal>]) -> Result<bool, Fail>
    ensures { IfOk result (λ there. IsTrue there → AreThere tables.now) }
{
    let [first, second] = tables else {
        return Ok(false);
    };
    if !is_table(alloc, first, 0)? {
        return Ok(false);
    }
    is_table(alloc, second, 1)
}

// Runs the query by its plan.
fn run_plan<R, H>(
    rt: &R,
    alloc: Global,
    benches: &mut TestBenches<H>,
    tables: &[TableSnap<UntoldSeal>],
    plan: &Plan,
    marks: &Marks,
    query: u64,
) -> QueryEnd
where
    R: Threads + Sync,
    H: Host + Send,
    requires plan { (work : Work) × (plan.now ≡ plan_by work) }
    requires there { AreThere tables.now }
    requires up { IsTrue (some_up marks.now) }
    requires nodes { length benches.old.items ≡ length marks.now }
    requires ready { AreReady query benches.old.items }
    ensures { AreReady (query + 1) benches.new.items }
{
    run_query(rt, alloc, benches, plan, marks, tables, &[], query)
}

/// Runs a query of this number. None where the tables are others, no node is up, or the benches are not as many as nodes.
pub(crate) fn ask<R, H>(
    rt: &R,
    alloc: Global,
    benches: &mut TestBenches<H>,
    tables: &[TableSnap<UntoldSeal>],
    work: Work,
    marks: &Marks,
    query: u64,
) -> Result<Option<QueryEnd>, Fail>
where
    R: Threads + Sync,
    H: Host + Send,
    requires { AreReady query benches.old.items }
    ensures { AreReady (query + 1) benches.new.items }
{
    if !are_there(alloc, tables)? {
        return Ok(None);
    }
    if !marks.some_up() || benches.len() != marks.nodes() as usize {
        return Ok(None);
    }
    let plan = plan_of(alloc, work)?;
    let end = run_plan(rt, alloc, benches, tables, &plan, marks, query);
    Ok(Some(end))
}
