//! What hosts over the folders of nodes answer.

use crate::folders::{FOLDER, begin, end};
use hq_detect::Host;
use hq_dir::DirHost;
use std::fs;
use std::test::Fail;

const FIRST: &str = "hq_dirtests_folder/seg-0";

const LAST: &str = "hq_dirtests_folder/seg-15";

// Shows what a check gives, and what was counted.
fn show_check(rt: HostRuntime, what: &str, host: &mut DirHost<HostRuntime>) -> Result<(), Fail> {
    let answer = host.check();
    println!(rt;
        "  {what}: {answer:?}, {} checks, {} faults",
        host.checks(),
        host.faults()
    )?;
    Ok(())
}

/// Shows what hosts over folders answer.
pub fn run(rt: HostRuntime) -> Result<(), Fail> {
    begin(rt, "a host is found where its folder can be listed")?;
    fs::create_dir(&rt, FIRST)?;
    let mut first = DirHost::new(rt, rt.alloc(), FOLDER, 0)?;
    show_check(rt, "a folder", &mut first)?;
    let mut last = DirHost::new(rt, rt.alloc(), FOLDER, 15)?;
    show_check(rt, "nothing", &mut last)?;
    fs::create_dir(&rt, LAST)?;
    show_check(rt, "a new folder", &mut last)?;
    fs::remove_dir(&rt, FIRST)?;
    fs::write(&rt, FIRST, b"".as_slice())?;
    show_check(rt, "a file in its place", &mut first)?;
    end(rt)
}
