//! The plans of the worked queries.
ghost use Rattle.std.specs.Prelude.{IsTrue};
ghost use Rattle.hq_whole.specs.Tables.{kinds_by};
ghost use Rattle.hq_executiontests.specs.Worked.{AreWorked};
ghost use Rattle.hq_executiontests.specs.Rules.{KeepsRules, fits};

use crate::queries::{self, Parts, query_of};
use crate::show::show_plan;
use crate::tables::tables;
use hq_planner::plan;
use hq_value::{Chars, TableDef};
use std::test::Fail;

// Shows the plan of a query, where the tables have these sizes.
fn show(
    rt: HostRuntime,
    name: &str,
    parts: Parts,
    defs: &[(u32, TableDef)],
    sizes: &[u128],
) -> Result<(), Fail>
    requires rules { KeepsRules parts }
    requires fits { IsTrue (fits (kinds_by defs.now) parts) }
{
    let query = query_of(parts);
    let plan = plan(rt.alloc(), &query, defs, sizes)?;
    println!(rt; "{name}")?;
    show_plan(rt, &plan)
}

#[tactic(auto, using(crate::proofs::Worked::met_keeps, crate::proofs::Worked::met_fits))]
fn met(rt: HostRuntime, name: &str, defs: &[(u32, TableDef)], sizes: &[u128]) -> Result<(), Fail>
    requires { AreWorked (kinds_by defs.now) }
{
    let parts = queries::met(rt.alloc())?;
    show(rt, name, parts, defs, sizes)
}

#[tactic(auto, using(crate::proofs::Worked::met_by_keys_keeps, crate::proofs::Worked::met_by_keys_fits))]
fn met_by_keys(
    rt: HostRuntime,
    name: &str,
    defs: &[(u32, TableDef)],
    sizes: &[u128],
) -> Result<(), Fail>
    requires { AreWorked (kinds_by defs.now) }
{
    let parts = queries::met_by_keys(rt.alloc())?;
    show(rt, name, parts, defs, sizes)
}

#[tactic(auto, using(crate::proofs::Worked::few_met_keeps, crate::proofs::Worked::few_met_fits))]
fn few_met(
    rt: HostRuntime,
    name: &str,
    defs: &[(u32, TableDef)],
    sizes: &[u128],
) -> Result<(), Fail>
    requires { AreWorked (kinds_by defs.now) }
{
    let parts = queries::few_met(rt.alloc())?;
    show(rt, name, parts, defs, sizes)
}

#[tactic(auto, using(crate::proofs::Worked::in_city_keeps, crate::proofs::Worked::in_city_fits))]
fn in_city(
    rt: HostRuntime,
    name: &str,
    defs: &[(u32, TableDef)],
    sizes: &[u128],
) -> Result<(), Fail>
    requires { AreWorked (kinds_by defs.now) }
{
    let city = Chars::from_str(rt.alloc(), "x")?;
    let parts = queries::in_city(rt.alloc(), city)?;
    show(rt, name, parts, defs, sizes)
}

#[tactic(auto, using(crate::proofs::Worked::chained_keeps, crate::proofs::Worked::chained_fits))]
fn chained(
    rt: HostRuntime,
    name: &str,
    defs: &[(u32, TableDef)],
    sizes: &[u128],
) -> Result<(), Fail>
    requires { AreWorked (kinds_by defs.now) }
{
    let parts = queries::chained(rt.alloc())?;
    show(rt, name, parts, defs, sizes)
}

#[tactic(auto, using(crate::proofs::Worked::sold_keeps, crate::proofs::Worked::sold_fits))]
fn sold(rt: HostRuntime, name: &str, defs: &[(u32, TableDef)], sizes: &[u128]) -> Result<(), Fail>
    requires { AreWorked (kinds_by defs.now) }
{
    let parts = queries::sold(rt.alloc())?;
    show(rt, name, parts, defs, sizes)
}

/// Shows the plans, with the sizes of `u`, `v`, `shop` and `sale`.
pub fn run(rt: HostRuntime) -> Result<(), Fail> {
    let defs = tables(rt.alloc())?;
    let defs = defs.as_slice();
    met(
        rt,
        "a join moves both sides by the columns that it compares",
        defs,
        &[3, 3, 3, 4],
    )?;
    met(
        rt,
        "a join copies a much smaller side",
        defs,
        &[1000, 3, 3, 4],
    )?;
    met_by_keys(
        rt,
        "a join of tables that lie by its columns moves nothing",
        defs,
        &[3, 3, 3, 4],
    )?;
    few_met(
        rt,
        "a condition on one table stands below the motion",
        defs,
        &[3, 3, 3, 4],
    )?;
    in_city(
        rt,
        "so does a condition on a text of one table, by which no block is skipped",
        defs,
        &[3, 3, 3, 1000],
    )?;
    chained(
        rt,
        "each of three tables is joined by a key, in whatever order they are named",
        defs,
        &[3, 3, 3, 4],
    )?;
    sold(
        rt,
        "sums begin on the nodes where the rows are joined",
        defs,
        &[3, 3, 3, 4],
    )
}
