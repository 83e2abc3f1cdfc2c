//! The store and the hosts over real folders.
//!
//! Each case makes a folder of its own where the program runs, and removes it. What the calls give is printed, and
//! `stdout` has what must come.
#![tactic(auto)]

mod folders;
mod hosts;
mod prepared;
mod stores;

use std::test::Fail;

fn main(rt: HostRuntime) -> Result<(), Fail> {
    stores::run(rt)?;
    hosts::run(rt)?;
    prepared::run(rt)
}
