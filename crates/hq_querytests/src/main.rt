//! Queries over nodes: over two tables of two INTs, a key and a number, whose rows lie in the buckets of their keys, sealed
//! in a store in memory that tells nothing. The cases of `data/queries.txt` are run and what comes is printed; `stdout` has
//! what must come. By hand it times queries, so that a script can tell their speed:
//!
//! `hq_querytests group|join ROWS NODES ROUNDS` runs a query so often over so many nodes, and shows how many rows came and
//! the least time that it took: it groups so many rows by their numbers, of which there are 1,000, or joins so many rows to
//! a tenth of them by their numbers.
#![tactic(auto)]

mod benches;
mod cases;
mod hosts;
mod plans;
mod queries;
mod stores;
mod tables;
mod times;

use std::env;
use std::test::Fail;

fn main(rt: HostRuntime) -> Result<(), Fail> {
    let mut words = Vec::new(rt.alloc());
    for word in env::args(&rt)?.skip(1) {
        words.push(word)?;
    }
    if words.is_empty() {
        return cases::run(rt, &rt);
    }
    times::run(rt, &rt, &words)
}
