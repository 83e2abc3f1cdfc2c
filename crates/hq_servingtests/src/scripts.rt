//! Scripts through the top call, over doors in memory.

use crate::doors::{doors_over, plan, words};
use hq_cases as cases;
use hq_io::MemSink;
use hq_server::run_alone;
use std::alloc::Global;
use std::test::Fail;

/// A script under the name `a`, how it is read, the words of the call, and which reads and writes fail.
#[derive(Drop)]
pub struct Script {
    pub alloc: Global,
    pub words: String,
    pub input: Vec<u8>,
    pub step: usize,
    pub reads: Vec<u64>,
    pub writes: Vec<u64>,
}

/// What a run gave: its status, the sink's bytes and the console's.
#[derive(Drop)]
pub struct Ran {
    pub status: u8,
    pub out: Vec<u8>,
    pub console: Vec<u8>,
}

impl Script {
    /// No bytes under the name `a`.
    pub fn new(alloc: Global) -> Result<Script, Fail> {
        Ok(Script {
            alloc,
            words: String::from_str(alloc, "run a")?,
            input: Vec::new(alloc),
            step: 64,
            reads: Vec::new(alloc),
            writes: Vec::new(alloc),
        })
    }

    /// Serves the script.
    pub fn run(&self) -> Result<Ran, Fail> {
        let alloc = self.alloc;
        let file = plan(
            alloc,
            "a",
            &self.input,
            self.step,
            &self.reads,
            &self.writes,
        )?;
        let mut doors = doors_over(alloc, file, &[])?;
        let mut console = MemSink::new(alloc, Vec::new(alloc));
        let line = words(alloc, self.words.as_str())?;
        let end = run_alone(alloc, &line, &mut doors, &mut console);
        let out = match end.ends.as_slice() {
            [first, ..] => first.parts.sink.bytes().to_vec(alloc)?,
            [] => Vec::new(alloc),
        };
        Ok(Ran {
            status: end.status,
            out,
            console: console.bytes().to_vec(alloc)?,
        })
    }

    // What a run gives at each step up to this one: once where that is the same at all of them.
    fn show(&mut self, rt: HostRuntime, steps: usize) -> Result<(), Fail> {
        let mut before = String::new(self.alloc);
        for step in 1..=steps {
            self.step = if steps == 1 { 64 } else { step };
            let ran = self.run()?;
            let out = cases::shown(self.alloc, &ran.out)?;
            let console = cases::shown(self.alloc, &ran.console)?;
            let status = ran.status;
            let now = format!(in self.alloc; "  {status} {console}\n  {out}")?;
            if now.as_str() != before.as_str() {
                println!(rt; "{now}")?;
            }
            before = now;
        }
        Ok(())
    }

    fn line(&mut self, rt: HostRuntime, word: &str, rest: &str) -> Result<(), Fail> {
        match word {
            "input" => cases::add(&mut self.input, rest)?,
            "many" => cases::add_many(&mut self.input, rest)?,
            "reads" => self.reads = cases::numbers(self.alloc, rest)?,
            "writes" => self.writes = cases::numbers(self.alloc, rest)?,
            "words" => self.words = String::from_str(self.alloc, rest)?,
            "run" => {
                self.show(rt, cases::number(rest).max(1))?;
                *self = Script::new(self.alloc)?;
            }
            _ => println!(rt; "{word} {rest}")?,
        }
        Ok(())
    }
}

/// Shows the cases of `scripts.txt`. `run 9` runs the script at steps of 1 to 9 bytes.
pub fn run(rt: HostRuntime) -> Result<(), Fail> {
    let text = cases::text_of(rt, "scripts.txt")?;
    let mut script = Script::new(rt.alloc())?;
    for line in text.as_str().lines() {
        if let Some((word, rest)) = cases::line_of(line) {
            script.line(rt, word, rest)?;
        }
    }
    Ok(())
}
