//! The cases of a catalogue's answers, and their times.
//!
//! `hq_catalogtests` runs the cases of `data/answers.txt`, a line for each ask, and prints what is answered. `stdout` has
//! what must come.
//!
//! `hq_catalogtests answers ROUNDS` times so many rounds of a look, a lane and a commit of each of 64 sessions, over a
//! table of 64 lanes.
#![tactic(auto)]

mod asks;
mod cases;
mod hand;
mod show;
mod times;
mod turns;
mod world;

use crate::times::Took;
use std::env;
use std::process::ExitCode;
use std::test::Fail;

const USAGE: u8 = 2;

const OUT_OF_MEMORY: u8 = 5;

// How many rounds the words ask for.
fn asked(words: &[String]) -> Option<u64> {
    match words {
        [word, rounds] if word.as_str() == "answers" => rounds.parse().ok(),
        _ => None,
    }
}

fn show_took(rt: HostRuntime, kind: &str, took: Took) -> Result<(), Fail> {
    println!(rt;
        "{} {kind} in {} nanoseconds, of the processor {}",
        took.answers, took.clock, took.processor
    )?;
    Ok(())
}

fn main(rt: HostRuntime) -> Result<ExitCode, Fail> {
    let mut words = Vec::new(rt.alloc());
    for word in env::args(&rt)?.skip(1) {
        words.push(word)?;
    }
    if words.is_empty() {
        cases::run(rt)?;
        return Ok(ExitCode::SUCCESS);
    }
    let Some(rounds) = asked(&words) else {
        eprintln!(rt; "usage: hq_catalogtests [answers ROUNDS]")?;
        return Ok(ExitCode::from(USAGE));
    };
    match times::answers(&rt, rt.alloc(), rounds) {
        Some(times) => {
            show_took(rt, "looks", times.looks)?;
            show_took(rt, "lanes", times.lanes)?;
            show_took(rt, "commits", times.commits)?;
            Ok(ExitCode::SUCCESS)
        }
        None => Ok(ExitCode::from(OUT_OF_MEMORY)),
    }
}
