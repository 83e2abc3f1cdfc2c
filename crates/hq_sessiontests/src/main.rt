//! Scripts of one session that is served alone, over a store in memory. The cases of `data/scripts.txt` are run and what
//! comes is printed: why the session ended, how many entries the log then has, and what was written. `stdout` has what
//! must come.
#![tactic(auto)]

mod scripts;
mod serving;

use std::test::Fail;

fn main(rt: HostRuntime) -> Result<(), Fail> {
    scripts::run(rt)
}
