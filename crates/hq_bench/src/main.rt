//! Runs one layer by hand, so that a script can time it:
//!
//! `hq_bench blocks int|text ROWS WRITES READS` writes a block of the rows so often, reads it so often, and shows how
//! many rows it read and how long the block is.
//!
//! `hq_bench table ROWS AT_ONCE SCANS` fills a table with rows of one INT, so many by one insert, scans it so often, and
//! shows how many rows it scanned and how many bytes the store gave for them.
//!
//! `hq_bench parse ints|texts|select PARTS TIMES` reads a statement of so many tuples or items so often, and shows how
//! long its text is.
//!
//! `hq_bench operators join|group|sort ROWS` runs an operator over so many rows, and shows how many rows it gave and the
//! processor time that it took.
//!
//! `hq_bench motions split|write|read ROWS ROUNDS` shares out so many rows of one INT over four nodes, or puts them into
//! bytes, or reads them from bytes, so often, and shows how many rows this were and the processor time that it took.
#![tactic(auto)]

mod blocks;
mod motions;
mod operators;
mod parses;
mod table;

use blocks::Blocks;
use motions::Motions;
use operators::{Operators, Timed};
use parses::Parses;
use std::process::ExitCode;
use std::{env, io};
use table::Scans;

const OUT_OF_MEMORY: u8 = 5;

fn main(rt: HostRuntime) -> io::Result<ExitCode> {
    let mut words = Vec::new(rt.alloc());
    for word in env::args(&rt)?.skip(1) {
        words.push(word)?;
    }
    if let Some(blocks) = Blocks::asked(&words) {
        return time_blocks(&rt, &blocks);
    }
    if let Some(scans) = Scans::asked(&words) {
        return time_table(&rt, &scans);
    }
    if let Some(parses) = Parses::asked(&words) {
        return time_parse(&rt, &parses);
    }
    if let Some(operators) = Operators::asked(&words) {
        return show_timed(&rt, operators.run(&rt, rt.alloc()));
    }
    if let Some(motions) = Motions::asked(&words) {
        return show_timed(&rt, motions.run(&rt, rt.alloc()));
    }
    eprintln!(rt; "usage: hq_bench blocks int|text ROWS WRITES READS")?;
    eprintln!(rt; "       hq_bench table ROWS AT_ONCE SCANS")?;
    eprintln!(rt; "       hq_bench parse ints|texts|select PARTS TIMES")?;
    eprintln!(rt; "       hq_bench operators join|group|sort ROWS")?;
    eprintln!(rt; "       hq_bench motions split|write|read ROWS ROUNDS")?;
    Ok(ExitCode::from(2))
}

fn time_blocks(rt: &(impl Print + AllocGlobal), blocks: &Blocks) -> io::Result<ExitCode> {
    match blocks.run(rt.alloc()) {
        Some(done) => {
            println!(rt;
                "{} rows read from blocks of {} bytes",
                done.rows, done.bytes
            )?;
            Ok(ExitCode::SUCCESS)
        }
        None => Ok(ExitCode::from(OUT_OF_MEMORY)),
    }
}

fn time_table(rt: &(impl Print + AllocGlobal), scans: &Scans) -> io::Result<ExitCode> {
    match scans.run(rt.alloc()) {
        Some(done) => {
            println!(rt; "{} rows scanned in {} bytes", done.rows, done.bytes)?;
            Ok(ExitCode::SUCCESS)
        }
        None => Ok(ExitCode::from(OUT_OF_MEMORY)),
    }
}

fn time_parse(rt: &(impl Print + AllocGlobal), parses: &Parses) -> io::Result<ExitCode> {
    match parses.run(rt.alloc()) {
        Some(bytes) => {
            println!(rt; "a statement of {bytes} bytes")?;
            Ok(ExitCode::SUCCESS)
        }
        None => Ok(ExitCode::from(OUT_OF_MEMORY)),
    }
}

fn show_timed(rt: &impl Print, timed: Option<Timed>) -> io::Result<ExitCode> {
    match timed {
        Some(done) => {
            println!(rt;
                "{} rows in {} microseconds",
                done.rows,
                done.took.as_micros()
            )?;
            Ok(ExitCode::SUCCESS)
        }
        None => Ok(ExitCode::from(OUT_OF_MEMORY)),
    }
}
