//! Slices of plans over a table of two INTs, whose files are sealed in a store in memory that tells nothing. The cases of
//! `data/slices.txt` are run and what comes is printed; `stdout` has what must come. By hand it times slices, so that a
//! script can tell their speed:
//!
//! `hq_slicetests blocks|filter|few|group ROWS AT_ONCE ROUNDS` fills the table with so many rows, so many by one insert,
//! and reads them so often: by a cursor block by block, where the table has its first column alone, or by a slice that keeps
//! 8 or 1 of 1,000 rows, or groups all by their keys. It shows how many rows it read, and the processor time that it took.
#![tactic(auto)]

mod plans;
mod slices;
mod table;
mod times;

use std::env;
use std::test::Fail;

fn main(rt: HostRuntime) -> Result<(), Fail> {
    let mut words = Vec::new(rt.alloc());
    for word in env::args(&rt)?.skip(1) {
        words.push(word)?;
    }
    if words.is_empty() {
        return slices::run(rt);
    }
    times::run(rt, &words)
}
