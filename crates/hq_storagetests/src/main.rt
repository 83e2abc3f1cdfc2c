//! The cases of the storage layer: `hq_value`, `hq_block`, `hq_store`, `hq_lane`, `hq_table`, `hq_pool` and
//! `hq_snap`.
//!
//! Each file of `data/` has cases, a line for each step, and what they give is printed. `stdout` has what must come.
#![tactic(auto)]

mod blocks;
mod cursors;
mod pools;
mod seals;
mod snaps;
mod stores;
mod tables;
mod values;

use std::test::Fail;

fn main(rt: HostRuntime) -> Result<(), Fail> {
    values::run(rt)?;
    blocks::run(rt)?;
    cursors::run(rt)?;
    pools::run(rt)?;
    stores::run(rt)?;
    seals::run(rt)?;
    snaps::run(rt)?;
    tables::run(rt)
}
