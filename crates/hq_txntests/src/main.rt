//! The cases of transactions over stores and hosts that fail, and the times of writes.
//!
//! `hq_txntests` runs the cases of `data/txns.txt`, a line for each, and prints what they give. `stdout` has what must come.
//!
//! `hq_txntests write NODES ROWS TIMES` writes rows of one INT by so many nodes to one lane, so often.
//! `hq_txntests append ROWS TIMES` only encodes the same rows, bucket by bucket, and appends them.
//! `hq_txntests part TIMES` cuts a lane into parts and makes it whole again, so often.
//! These show the time that they took; of the cuts, by the clock, the least time of one.
#![tactic(auto)]

mod hand;
mod run;
mod spread;
mod times;
mod world;

use hq_cases as cases;
use std::env;
use std::process::ExitCode;
use std::test::Fail;
use std::thread::Threads;
use times::Times;

const USAGE: u8 = 2;

const OUT_OF_MEMORY: u8 = 5;

fn run_cases<R: Threads + Sync>(rt: HostRuntime, tasks: &R) -> Result<(), Fail> {
    let text = cases::text_of(rt, "txns.txt")?;
    for line in text.lines() {
        if let Some((word, rest)) = cases::line_of(line) {
            run::case(rt, tasks, word, rest)?;
        }
    }
    Ok(())
}

fn main(rt: HostRuntime) -> Result<ExitCode, Fail> {
    let mut words = Vec::new(rt.alloc());
    for word in env::args(&rt)?.skip(1) {
        words.push(word)?;
    }
    if words.is_empty() {
        run_cases(rt, &rt)?;
        return Ok(ExitCode::SUCCESS);
    }
    let Some(times) = Times::asked(&words) else {
        eprintln!(rt;
            "usage: hq_txntests [write NODES ROWS TIMES | append ROWS TIMES | part TIMES]"
        )?;
        return Ok(ExitCode::from(USAGE));
    };
    match times.run(&rt, rt.alloc()) {
        Some(took) => {
            let clock = took.clock.as_nanos();
            let processor = took.processor.as_nanos();
            println!(rt; "{clock} nanoseconds, of the processor {processor}")?;
            Ok(ExitCode::SUCCESS)
        }
        None => Ok(ExitCode::from(OUT_OF_MEMORY)),
    }
}
