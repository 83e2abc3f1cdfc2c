//! The cases of the wire: `hq_link`, `hq_send`, `hq_recv`, `hq_sim` and `hq_exchange`.
//!
//! Each file of `data/` has cases, a line for each step, and what they give is printed. `stdout` has what must come.
//! `hq_wiretests memory|sockets|plain|answered MEGABYTES` carries so many bytes by an exchange over a link in memory, by
//! one over two sockets, or as plain datagrams that are not answered or are, and shows the time that it took.
#![tactic(auto)]

mod acts;
mod ends;
mod exchanges;
mod grams;
mod sockets;
mod streams;
mod times;

use std::env;
use std::process::ExitCode;
use std::test::Fail;
use times::Times;

const USAGE: u8 = 2;

const OUT_OF_MEMORY: u8 = 5;

fn main(rt: HostRuntime) -> Result<ExitCode, Fail> {
    let mut words = Vec::new(rt.alloc());
    for word in env::args(&rt)?.skip(1) {
        words.push(word)?;
    }
    if words.is_empty() {
        grams::run(rt)?;
        ends::run(rt)?;
        exchanges::run(rt)?;
        sockets::run(rt)?;
        return Ok(ExitCode::SUCCESS);
    }
    let Some(times) = Times::asked(&words) else {
        eprintln!(rt; "usage: hq_wiretests [memory|sockets|plain|answered MEGABYTES]")?;
        return Ok(ExitCode::from(USAGE));
    };
    match times.run(&rt, rt.alloc())? {
        Some(took) => {
            println!(rt;
                "{} bytes in {} nanoseconds",
                times.bytes(),
                took.as_nanos()
            )?;
            Ok(ExitCode::SUCCESS)
        }
        None => Ok(ExitCode::from(OUT_OF_MEMORY)),
    }
}
