//! The cases of the execution layer: `hq_planner`, `hq_planwire`, `hq_motion` and `hq_ops`.
//!
//! Each file of `data/` has cases, a line for each step, and what they give is printed. The worked queries stand in
//! `queries.rt`. `stdout` has what must come.
#![tactic(auto)]

mod exprs;
mod motions;
mod operators;
mod plan_bytes;
mod plans;
mod queries;
mod show;
mod tables;

use std::test::Fail;

fn main(rt: HostRuntime) -> Result<(), Fail> {
    plans::run(rt)?;
    plan_bytes::run(rt)?;
    motions::run(rt)?;
    operators::run(rt)
}
