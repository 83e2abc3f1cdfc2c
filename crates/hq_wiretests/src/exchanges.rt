//! Exchanges over links in memory.
ghost use Rattle.std.specs.Prelude.{◌<◌, ℕ, IfOk};
ghost use Rattle.hq_pump.specs.Safe.{AreEarlier};
ghost use Rattle.hq_sim.specs.Acting.{state_of};

use crate::acts::{act, acts, behind};
use crate::streams::{Given, are_same, put, run as run_streams};
use hq_cases as cases;
use hq_link::Link;
use hq_pump::ExchangeEnd;
use hq_sim::{Act, SimLink};
use std::alloc::Global;
use std::test::Fail;

// Where a link has its acts from.
#[derive(Drop)]
enum Plan {
    Dropping { seq: u64, copies: u32 },
    Scripted(Vec<Act>),
    Drawn { seed: u64, per_mille: u32 },
}

/// Whose an exchange is: its query, motion and receiving node.
#[derive(Clone, Copy)]
struct Whose {
    query: u64,
    motion: u16,
    to: u8,
}

/// A link, what lies on it, and the streams.
#[derive(Drop)]
struct Case {
    alloc: Global,
    plan: Plan,
    before: Vec<Vec<u8>>,
    first: u8,
    texts: Vec<Vec<u8>>,
}

// `QUERY MOTION TO`.
fn whose_of(text: &str) -> Whose {
    let (query, rest) = cases::counted(text);
    let (motion, rest) = cases::counted(rest);
    Whose {
        query: query as u64,
        motion: motion.min(65_535) as u16,
        to: cases::number(rest).min(255) as u8,
    }
}

// A number of at most a million.
fn small(text: &str) -> u32 {
    cases::number(text).min(1_000_000) as u32
}

impl Case {
    fn new(alloc: Global) -> Case {
        Case {
            alloc,
            plan: Plan::Scripted(Vec::new(alloc)),
            before: Vec::new(alloc),
            first: 0,
            texts: Vec::new(alloc),
        }
    }

    // A new link of the plan.
    #[tactic(auto, using(crate::proofs::Nodes::earlier_new))]
    fn link(&self) -> Result<SimLink, Fail>
        ensures { (query motion : ℕ) → IfOk result (λ link. AreEarlier query motion (state_of link).may) }
    {
        match &self.plan {
            Plan::Dropping { seq, copies } => Ok(SimLink::dropping(self.alloc, *seq, *copies)),
            Plan::Scripted(acts) => {
                let acts = acts.to_vec(self.alloc)?;
                Ok(SimLink::scripted(self.alloc, acts))
            }
            Plan::Drawn { seed, per_mille } => Ok(SimLink::drawn(self.alloc, *seed, *per_mille)),
        }
    }

    // The same with what lies on it.
    fn laden(&self, query: u64, motion: u16) -> Result<SimLink, Fail>
        ensures { IfOk result (λ link. AreEarlier query motion (state_of link).may) }
    {
        let mut link = self.link()?;
        for bytes in &self.before {
            put(&mut link, query, motion, bytes.as_slice());
        }
        Ok(link)
    }

    // A stream more of these bytes.
    fn stream(&mut self, text: &str) -> Result<(), Fail> {
        let mut bytes = Vec::new(self.alloc);
        cases::add(&mut bytes, text)?;
        self.texts.push(bytes)?;
        Ok(())
    }

    fn many(&mut self, text: &str) -> Result<(), Fail> {
        let mut bytes = Vec::new(self.alloc);
        cases::add_many(&mut bytes, text)?;
        self.texts.push(bytes)?;
        Ok(())
    }

    fn lies(&mut self, text: &str) -> Result<(), Fail> {
        let mut bytes = Vec::new(self.alloc);
        cases::add(&mut bytes, text)?;
        self.before.push(bytes)?;
        Ok(())
    }

    // A line that says what the case is, or none.
    fn line(&mut self, word: &str, rest: &str) -> Result<bool, Fail> {
        let (count, second) = cases::counted(rest);
        match word {
            "dropping" => {
                self.plan = Plan::Dropping {
                    seq: count as u64,
                    copies: small(second),
                }
            }
            "scripted" => self.plan = Plan::Scripted(acts(self.alloc, rest)?),
            "drawn" => {
                self.plan = Plan::Drawn {
                    seed: count as u64,
                    per_mille: small(second),
                }
            }
            "before" => self.lies(rest)?,
            "first" => self.first = (count % 16) as u8,
            "stream" => self.stream(rest)?,
            "many" => self.many(rest)?,
            _ => return Ok(false),
        }
        Ok(true)
    }
}

// Runs the exchange of a case, and gives the troubles of its link too.
fn run_case(case: &Case, whose: Whose) -> Result<(Given, u64), Fail> {
    let mut link = case.laden(whose.query, whose.motion)?;
    let given = run_streams(
        case.alloc,
        &mut link,
        whose.query,
        whose.motion,
        whose.to % 16,
        case.first % 16,
        &case.texts,
    )?;
    Ok((given, link.troubles()))
}

// How an exchange ended, in a word.
fn word_of(given: &Given, case: &Case) -> &'static str {
    match given {
        Ok(streams) if are_same(streams, case.first, &case.texts) => "ok",
        Ok(_) => "wrong",
        Err(ExchangeEnd::LinkLost { .. }) => "lost",
        Err(ExchangeEnd::LinkFailed) => "failed",
        Err(ExchangeEnd::NoMemory) => "memory",
    }
}

// Shows what an exchange gave, and the troubles of its link.
fn show(rt: HostRuntime, case: &Case, whose: Whose) -> Result<(), Fail> {
    let (given, troubles) = run_case(case, whose)?;
    let word = word_of(&given, case);
    match &given {
        Ok(streams) => {
            for stream in streams {
                let bytes = cases::shown(case.alloc, &stream.1)?;
                println!(rt; "  {}: {}", stream.0, bytes)?;
            }
            println!(rt; "  {word}, {troubles} troubles")?;
        }
        Err(ExchangeEnd::LinkLost { seq, troubles }) => {
            println!(rt; "  {word} at {seq} after {troubles} troubles")?;
        }
        Err(_) => println!(rt; "  {word}, {troubles} troubles")?,
    }
    Ok(())
}

// Shows how it ends alone, with the act behind 0 to 11 `Give`s.
fn show_behind(rt: HostRuntime, case: &mut Case, rest: &str) -> Result<(), Fail> {
    let Some((word, rest)) = cases::line_of(rest) else {
        return Ok(());
    };
    print!(rt; "  {word}:")?;
    for count in 0..12 {
        case.plan = Plan::Scripted(behind(case.alloc, count, act(word))?);
        let (given, _) = run_case(case, whose_of(rest))?;
        print!(rt; " {}", word_of(&given, case))?;
    }
    println!(rt; "")?;
    Ok(())
}

// Shows how it ends alone, over links drawn from the seeds 0 to 11.
fn show_seeds(rt: HostRuntime, case: &mut Case, rest: &str) -> Result<(), Fail> {
    let (per_mille, rest) = cases::counted(rest);
    print!(rt; "  {per_mille} of 1000:")?;
    for seed in 0..12 {
        case.plan = Plan::Drawn {
            seed,
            per_mille: per_mille.min(1000) as u32,
        };
        let (given, _) = run_case(case, whose_of(rest))?;
        print!(rt; " {}", word_of(&given, case))?;
    }
    println!(rt; "")?;
    Ok(())
}

/// Shows the cases of `exchanges.txt`.
pub fn run(rt: HostRuntime) -> Result<(), Fail> {
    let text = cases::text_of(rt, "exchanges.txt")?;
    let mut case = Case::new(rt.alloc());
    for line in text.as_str().lines() {
        match cases::line_of(line) {
            None => {}
            Some(("exchange", rest)) => show(rt, &case, whose_of(rest))?,
            Some(("behind", rest)) => show_behind(rt, &mut case, rest)?,
            Some(("seeds", rest)) => show_seeds(rt, &mut case, rest)?,
            Some((word, rest)) => {
                if !case.line(word, rest)? {
                    println!(rt; "{word} {rest}")?;
                    case = Case::new(rt.alloc());
                }
            }
        }
    }
    Ok(())
}
