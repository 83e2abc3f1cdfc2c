//! The cases of scripts.

use crate::serving::serve;
use hq_cases as cases;
use std::alloc::Global;
use std::test::Fail;

// A script, and which reads and writes fail.
#[derive(Drop)]
struct Script {
    alloc: Global,
    input: Vec<u8>,
    reads: Vec<u64>,
    writes: Vec<u64>,
}

impl Script {
    fn new(alloc: Global) -> Script {
        Script {
            alloc,
            input: Vec::new(alloc),
            reads: Vec::new(alloc),
            writes: Vec::new(alloc),
        }
    }

    fn show(&self, rt: HostRuntime) -> Result<(), Fail> {
        let alloc = self.alloc;
        let ran = serve(
            alloc,
            self.input.to_vec(alloc)?,
            7,
            self.reads.to_vec(alloc)?,
            self.writes.to_vec(alloc)?,
        )?;
        let why = ran.why;
        let entries = ran.entries;
        let out = cases::shown(alloc, &ran.out)?;
        println!(rt; "  {why:?}, {entries} entries")?;
        println!(rt; "  {out}")?;
        Ok(())
    }

    fn line(&mut self, rt: HostRuntime, word: &str, rest: &str) -> Result<(), Fail> {
        match word {
            "input" => cases::add(&mut self.input, rest)?,
            "many" => cases::add_many(&mut self.input, rest)?,
            "reads" => self.reads = cases::numbers(self.alloc, rest)?,
            "writes" => self.writes = cases::numbers(self.alloc, rest)?,
            "run" => self.show(rt)?,
            _ => println!(rt; "no such line: {word}")?,
        }
        Ok(())
    }
}

/// Runs the cases.
pub(crate) fn run(rt: HostRuntime) -> Result<(), Fail> {
    let alloc = rt.alloc();
    let text = cases::text_of(rt, "scripts.txt")?;
    let mut script = Script::new(alloc);
    for line in text.lines() {
        match cases::line_of(line) {
            Some(("case", name)) => {
                script = Script::new(alloc);
                println!(rt; "{name}")?;
            }
            Some((word, rest)) => script.line(rt, word, rest)?,
            None => {}
        }
    }
    Ok(())
}
