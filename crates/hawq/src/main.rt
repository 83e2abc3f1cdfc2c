//! The engine's program: it serves the file that its words name.
#![tactic(auto)]

mod doors;
mod words;

use doors::RealDoors;
use hq_io::{FileSink, Sink};
use hq_server::run_alone;
use std::io::ErrorKind;
use std::process::ExitCode;

#[cfg(test)]
mod tests;

// A word that is no UTF-8 is of no form, as no words are.
fn main(rt: HostRuntime) -> ExitCode {
    let alloc = rt.alloc();
    let mut doors = RealDoors::new(rt, alloc);
    let mut console = FileSink::console(rt);
    let words = match words::read(&rt) {
        Ok(words) => words,
        Err(error) if error.kind() == ErrorKind::OutOfMemory => {
            let _ = console.write_all(b"hawq: out of memory\n");
            return ExitCode::from(5);
        }
        Err(_) => Vec::new(alloc),
    };
    let end = run_alone(alloc, &words, &mut doors, &mut console);
    ExitCode::from(end.status)
}
