//! A failing read and a failing write at every call of a script.

use crate::scripts::Script;
use hq_cases as cases;
use std::alloc::Global;
use std::test::Fail;

// A statement, and its reply.
#[derive(Drop)]
struct Answered {
    statement: Vec<u8>,
    reply: Vec<u8>,
}

// The statements of `failures.txt`, each with the reply behind it.
fn read_answers(rt: HostRuntime) -> Result<Vec<Answered>, Fail> {
    let alloc = rt.alloc();
    let text = cases::text_of(rt, "failures.txt")?;
    let mut all = Vec::new(alloc);
    let mut statement = Vec::new(alloc);
    for line in text.as_str().lines() {
        match cases::line_of(line) {
            Some(("statement", rest)) => cases::add(&mut statement, rest)?,
            Some((_, rest)) => {
                let mut reply = Vec::new(alloc);
                cases::add(&mut reply, rest)?;
                let statement = std::mem::replace(&mut statement, Vec::new(alloc));
                all.push(Answered { statement, reply })?;
            }
            None => {}
        }
    }
    Ok(all)
}

fn script_of(alloc: Global, all: &[Answered]) -> Result<Script, Fail> {
    let mut script = Script::new(alloc)?;
    for each in all {
        script.input.extend_from_slice(&each.statement)?;
    }
    Ok(script)
}

// The replies to the statements that end within the first bytes.
fn replies_within(alloc: Global, all: &[Answered], bytes: usize) -> Result<Vec<u8>, Fail> {
    let mut replies = Vec::new(alloc);
    let mut left = bytes;
    for each in all {
        if each.statement.len() > left {
            break;
        }
        left -= each.statement.len();
        replies.extend_from_slice(&each.reply)?;
    }
    Ok(replies)
}

// The replies before the write of this number, counted from 1; each reply that has bytes is one.
fn replies_before(alloc: Global, all: &[Answered], write: u32) -> Result<Vec<u8>, Fail> {
    let mut replies = Vec::new(alloc);
    let mut writes = 0u32;
    for each in all {
        if !each.reply.is_empty() {
            writes = writes.saturating_add(1);
        }
        if writes < write {
            replies.extend_from_slice(&each.reply)?;
        }
    }
    Ok(replies)
}

// Whether a run ended with status 4, these replies and this text on the console.
fn ends(script: &Script, replies: &[u8], console: &[u8]) -> Result<bool, Fail> {
    let ran = script.run()?;
    Ok(ran.status == 4 && ran.out.as_slice() == replies && ran.console.as_slice() == console)
}

fn failing_reads(rt: HostRuntime, all: &[Answered]) -> Result<(), Fail> {
    let alloc = rt.alloc();
    let mut script = script_of(alloc, all)?;
    let console = b"session 1: source fault\n";
    for step in 1..10usize {
        for call in 1..20u32 {
            script.step = step;
            script.reads = vec![in alloc; call as u64; 1]?;
            let replies = replies_within(alloc, all, (call as usize - 1) * step)?;
            if !ends(&script, &replies, console)? {
                println!(rt; "  not at read {call} of {step} bytes each")?;
            }
        }
    }
    println!(rt; "each read of each step failed once")?;
    Ok(())
}

fn failing_writes(rt: HostRuntime, all: &[Answered]) -> Result<(), Fail> {
    let alloc = rt.alloc();
    let mut script = script_of(alloc, all)?;
    script.step = 7;
    let console = b"session 1: sink fault\n";
    for call in 1..10u32 {
        script.writes = vec![in alloc; call as u64; 1]?;
        let replies = replies_before(alloc, all, call)?;
        if !ends(&script, &replies, console)? {
            println!(rt; "  not at write {call}")?;
        }
    }
    println!(rt; "each write failed once")?;
    Ok(())
}

/// The bytes written are the replies to what was given, and those before the write that failed.
pub fn run(rt: HostRuntime) -> Result<(), Fail> {
    let all = read_answers(rt)?;
    failing_reads(rt, &all)?;
    failing_writes(rt, &all)
}
