//! Doors over memory, and the words of the program's call.

use crate::sinks::write;
use hq_cases as cases;
use hq_doors::{Command, Doors, FilePlan, MemDoors, Opening, Parts, WordFault, read_words};
use hq_io::{MemSink, MemSource, Source};
use hq_value::DoorFault;
use std::alloc::Global;
use std::test::Fail;

/// A file of this name and these bytes, and which reads and writes of it fail.
pub fn plan(
    alloc: Global,
    name: &str,
    bytes: &[u8],
    step: usize,
    reads: &[u64],
    writes: &[u64],
) -> Result<FilePlan, Fail> {
    Ok(FilePlan {
        name: String::from_str(alloc, name)?,
        bytes: bytes.to_vec(alloc)?,
        step: step.max(1),
        reads: reads.to_vec(alloc)?,
        writes: writes.to_vec(alloc)?,
    })
}

/// Doors over one file.
pub fn doors_over(alloc: Global, file: FilePlan, fails: &[u64]) -> Result<MemDoors, Fail> {
    let mut files = Vec::new(alloc);
    files.push(file)?;
    Ok(MemDoors::new(alloc, files, fails.to_vec(alloc)?))
}

/// The words of a line, parted by blanks; an empty word is written `''`.
pub fn words(alloc: Global, line: &str) -> Result<Vec<String>, Fail> {
    let mut words = Vec::new(alloc);
    for word in line.split_whitespace() {
        let word = if word == "''" { "" } else { word };
        words.push(String::from_str(alloc, word)?)?;
    }
    Ok(words)
}

// Reads of at most four bytes up to the end, each ended by a bar.
fn read_all(alloc: Global, source: &mut MemSource) -> Result<String, Fail> {
    let mut out = String::new(alloc);
    for _ in 0..16 {
        let mut into = [0u8; 4];
        let Ok(count) = source.read(&mut into) else {
            out.push_str("fault")?;
            return Ok(out);
        };
        if count == 0 {
            out.push_str("end")?;
            return Ok(out);
        }
        let read = cases::shown(alloc, &into[..count])?;
        write!(out, "{read}|")?;
    }
    Ok(out)
}

fn show_opened(
    rt: HostRuntime,
    opened: Result<Parts<MemSource, MemSink>, DoorFault>,
) -> Result<(), Fail> {
    match opened {
        Ok(parts) => {
            let mut parts = parts;
            let read = read_all(rt.alloc(), &mut parts.source)?;
            let wrote = write(&mut parts.sink, b"xy");
            let given = cases::shown(rt.alloc(), parts.sink.bytes())?;
            println!(rt; "  read {read}, wrote {given} {wrote}")?;
        }
        Err(fault) => println!(rt; "  {fault:?}")?,
    }
    Ok(())
}

fn show_words(rt: HostRuntime, line: &str) -> Result<(), Fail> {
    let words = words(rt.alloc(), line)?;
    match read_words(rt.alloc(), &words) {
        Ok(Command::Run { files }) => {
            for file in files.as_slice() {
                let name = file.as_str();
                println!(rt; "  runs {name}")?;
            }
        }
        Err(WordFault::Usage) => println!(rt; "  usage")?,
        Err(WordFault::NoMemory) => println!(rt; "  no memory")?,
    }
    Ok(())
}

// A line of the cases over these doors.
fn line(rt: HostRuntime, doors: &mut MemDoors, word: &str, rest: &str) -> Result<(), Fail> {
    match word {
        "open" => show_opened(rt, doors.open(1, Opening::File(rest)))?,
        "script" => show_opened(rt, doors.open(2, Opening::Script(rest.as_bytes())))?,
        "faults" => {
            let faults = doors.faults();
            println!(rt; "  {faults} faults")?;
        }
        "words" => show_words(rt, rest)?,
        _ => println!(rt; "{word} {rest}")?,
    }
    Ok(())
}

/// Shows the cases of `doors.txt`. The doors have the file `a` alone, with the bytes `abc`, which gives two a read.
/// `fails` makes new ones, whose openings of these numbers fail.
pub fn run(rt: HostRuntime) -> Result<(), Fail> {
    let alloc = rt.alloc();
    let text = cases::text_of(rt, "doors.txt")?;
    let mut doors = doors_over(alloc, plan(alloc, "a", b"abc", 2, &[], &[])?, &[])?;
    for each in text.as_str().lines() {
        match cases::line_of(each) {
            Some(("fails", rest)) => {
                let fails = cases::numbers(alloc, rest)?;
                doors = doors_over(alloc, plan(alloc, "a", b"abc", 2, &[], &[])?, &fails)?;
            }
            Some((word, rest)) => line(rt, &mut doors, word, rest)?,
            None => {}
        }
    }
    Ok(())
}
