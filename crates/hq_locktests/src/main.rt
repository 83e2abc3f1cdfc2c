//! Tests of the lock with one history, and its times.
//!
//! `hq_locktests` runs the tests. `hq_locktests alone LENGTH TURNS` takes so many turns by one session over a history
//! of so many entries, and `hq_locktests together SESSIONS TURNS` so many by each session in a thread of its own. Both
//! show the time that they took.
#![tactic(auto)]

mod cases;
mod ledger;
mod sessions;
mod times;

use cases::{show_desk, show_four_sessions, show_numbers_from, show_two_passes};
use std::process::ExitCode;
use std::{env, io};
use times::Times;

const USAGE: u8 = 2;

const OUT_OF_MEMORY: u8 = 5;

fn main(rt: HostRuntime) -> io::Result<ExitCode> {
    let mut words = Vec::new(rt.alloc());
    for word in env::args(&rt)?.skip(1) {
        words.push(word)?;
    }
    if words.is_empty() {
        show_two_passes(&rt, false)?;
        show_two_passes(&rt, true)?;
        show_four_sessions(&rt)?;
        show_numbers_from(&rt)?;
        show_desk(&rt)?;
        return Ok(ExitCode::SUCCESS);
    }
    let Some(times) = Times::asked(&words) else {
        eprintln!(rt; "usage: hq_locktests [alone LENGTH TURNS | together SESSIONS TURNS]")?;
        return Ok(ExitCode::from(USAGE));
    };
    match times.run(&rt, rt.alloc()) {
        Some(took) => {
            println!(rt;
                "{} turns in {} nanoseconds",
                times.turns(),
                took.as_nanos()
            )?;
            Ok(ExitCode::SUCCESS)
        }
        None => Ok(ExitCode::from(OUT_OF_MEMORY)),
    }
}
