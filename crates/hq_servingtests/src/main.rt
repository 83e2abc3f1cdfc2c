//! The cases of the serving layer: `hq_io`, `hq_reply`, `hq_doors` and `hq_server`.
//!
//! Each file of `data/` has cases, a line for each step, and what they give is printed. `stdout` has what must come.
#![tactic(auto)]

mod doors;
mod failures;
mod files;
mod pieces;
mod replies;
mod scripts;
mod sinks;

use std::test::Fail;

fn main(rt: HostRuntime) -> Result<(), Fail> {
    pieces::run(rt)?;
    sinks::run(rt)?;
    replies::run(rt)?;
    doors::run(rt)?;
    scripts::run(rt)?;
    failures::run(rt)?;
    files::run(rt)
}
