//! Pieces, over sources of every step and with planned failures.

use hq_cases as cases;
use hq_io::{MemSource, Piece, ReadFault, Source, StatementReader};
use std::alloc::Global;
use std::test::Fail;

// An input, how many bytes a read gives at most, and the reads that fail.
#[derive(Drop)]
struct Case {
    alloc: Global,
    input: Vec<u8>,
    steps: (usize, usize),
    fails: Vec<u64>,
}

// Adds what is shown of a piece, or says that the reading has ended.
fn add_piece(
    alloc: Global,
    piece: Result<Piece<'_>, ReadFault>,
    out: &mut String,
) -> Result<bool, Fail> {
    match piece {
        Ok(Piece::Statement(text)) => {
            let text = cases::shown(alloc, text)?;
            out.push_str(text.as_str())?;
            out.push('|')?;
            return Ok(true);
        }
        Ok(Piece::TooLong) => {
            out.push_str("too long|")?;
            return Ok(true);
        }
        Ok(Piece::Unended) => {
            out.push_str("unended|")?;
            return Ok(true);
        }
        Ok(Piece::End) => out.push_str("end")?,
        Ok(Piece::Limit) => out.push_str("limit")?,
        Err(ReadFault) => out.push_str("fault")?,
    }
    Ok(false)
}

impl Case {
    fn source(&self, step: usize) -> Result<MemSource, Fail> {
        let bytes = self.input.as_slice().to_vec(self.alloc)?;
        let fails = self.fails.as_slice().to_vec(self.alloc)?;
        Ok(MemSource::new(bytes, step.max(1), fails))
    }

    // The pieces, each ended by a bar, how the reading ended, and the source's faults.
    fn read(&self, step: usize) -> Result<String, Fail> {
        let mut source = self.source(step)?;
        let mut reader = StatementReader::new(self.alloc)?;
        let mut out = String::new(self.alloc);
        for _ in 0..16 {
            let piece = reader.next(&mut source);
            if !add_piece(self.alloc, piece, &mut out)? {
                break;
            }
        }
        let faults = source.faults();
        write!(out, ", {faults} faults")?;
        Ok(out)
    }

    // How many statements come before anything else, and what comes behind them.
    fn count(&self, step: usize) -> Result<String, Fail> {
        let mut source = self.source(step)?;
        let mut reader = StatementReader::new(self.alloc)?;
        let mut out = String::new(self.alloc);
        for count in 0..200_000u32 {
            match reader.next(&mut source) {
                Ok(Piece::Statement(_)) => {}
                piece => {
                    write!(out, "{count} statements|")?;
                    add_piece(self.alloc, piece, &mut out)?;
                    return Ok(out);
                }
            }
        }
        Ok(out)
    }

    // What is read at each step: once where that is the same at all of them.
    fn show(&self, rt: HostRuntime) -> Result<(), Fail> {
        let (first, last) = self.steps;
        let mut before = String::new(self.alloc);
        for step in first..=last {
            let now = self.read(step)?;
            if now.as_str() != before.as_str() {
                println!(rt; "  from step {step}: {now}")?;
            }
            before = now;
        }
        Ok(())
    }

    fn line(&mut self, rt: HostRuntime, word: &str, rest: &str) -> Result<(), Fail> {
        match word {
            "input" => cases::add(&mut self.input, rest)?,
            "many" => cases::add_many(&mut self.input, rest)?,
            "fails" => self.fails = cases::numbers(self.alloc, rest)?,
            "steps" => {
                let (first, last) = cases::counted(rest);
                self.steps = (first, cases::number(last));
            }
            "read" => self.show(rt)?,
            "count" => {
                let counted = self.count(self.steps.0)?;
                println!(rt; "  {counted}")?;
            }
            _ => {
                println!(rt; "{word} {rest}")?;
                self.input.clear();
                self.fails.clear();
                self.steps = (1, 7);
            }
        }
        Ok(())
    }
}

/// Shows the cases of `pieces.txt`.
pub fn run(rt: HostRuntime) -> Result<(), Fail> {
    let alloc = rt.alloc();
    let text = cases::text_of(rt, "pieces.txt")?;
    let mut case = Case {
        alloc,
        input: Vec::new(alloc),
        steps: (1, 7),
        fails: Vec::new(alloc),
    };
    for line in text.as_str().lines() {
        if let Some((word, rest)) = cases::line_of(line) {
            case.line(rt, word, rest)?;
        }
    }
    Ok(())
}
