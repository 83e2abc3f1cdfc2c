//! The cases of answers: a line for each ask, and what is answered.

use crate::asks::Turn;
use crate::show::show;
use crate::turns::Said;
use crate::world::{Work, World, column_of, name_of, table_of};
use hq_cases as cases;
use hq_snap::{Have, Scope};
use std::alloc::Global;
use std::mem;
use std::test::Fail;

// The number that a text begins with, and the text behind it.
fn counted(text: &str) -> (u32, &str) {
    let (number, rest) = cases::counted(text);
    (number.min(u32::MAX as usize) as u32, rest)
}

fn byte(number: u32) -> u8 {
    number.min(255) as u8
}

// The tables of the names that a text has; all where it has none.
fn scope_of(alloc: Global, text: &str) -> Result<Scope, Fail> {
    let mut names = Vec::new(alloc);
    for word in text.split_whitespace() {
        if let Some(name) = name_of(alloc, word)? {
            names.push(name)?;
        }
    }
    if names.is_empty() {
        return Ok(Scope::All);
    }
    Ok(Scope::Names(names))
}

// A word, and the text behind it.
fn word_of(text: &str) -> (&str, &str) {
    match text.split_once(' ') {
        Some((word, rest)) => (word, rest),
        None => (text, ""),
    }
}

// What a line asks, if it asks something.
fn turn_of(alloc: Global, word: &str, rest: &str) -> Result<Option<Turn>, Fail> {
    let turn = match word {
        "look" => Turn::Look {
            scope: scope_of(alloc, rest)?,
            have: None,
        },
        "since" => {
            let (table, rest) = counted(rest);
            let (at, rest) = counted(rest);
            Turn::Look {
                scope: scope_of(alloc, rest)?,
                have: Some(Have {
                    table,
                    at: u64::from(at),
                }),
            }
        }
        "create" => match name_of(alloc, rest)? {
            Some(name) => Turn::Create(table_of(alloc, name)?),
            None => return Ok(None),
        },
        "alter" => {
            let (table, column) = word_of(rest);
            match (name_of(alloc, table)?, name_of(alloc, column)?) {
                (Some(table), Some(column)) => Turn::Alter {
                    table,
                    column: column_of(column),
                },
                _ => return Ok(None),
            }
        }
        "lend" => Turn::Lend(counted(rest).0),
        "adopt" => Turn::Adopt,
        "commit" => Turn::Commit,
        "back" => Turn::Back,
        "sweep" => Turn::SweepAny,
        "mark" => {
            let (node, rest) = counted(rest);
            Turn::Mark {
                node: byte(node),
                up: rest == "up",
            }
        }
        _ => return Ok(None),
    };
    Ok(Some(turn))
}

// What a line has a session do to its lane, if it has it do something.
fn work_of(word: &str, rest: &str) -> Option<Work> {
    match word {
        "write" => {
            let (bucket, rest) = counted(rest);
            Some(Work::Write {
                bucket: byte(bucket),
                rows: counted(rest).0,
            })
        }
        "seal" => Some(Work::Seal),
        "cut" => Some(Work::Cut),
        _ => None,
    }
}

// So many tables, the first `n0`, or so many columns more for a table, or so many lanes for as many sessions. Shows the
// last answer.
fn many(rt: HostRuntime, world: &mut World, word: &str, rest: &str) -> Result<(), Fail> {
    let alloc = rt.alloc();
    let (session, rest) = counted(rest);
    let (count, rest) = counted(rest);
    let mut last = Said::MayNotAsk;
    for i in 0..count {
        let (one, who, text) = match word {
            "creates" => ("create", session, format!(in alloc; "n{i}")?),
            "alters" => ("alter", session, format!(in alloc; "{rest} n{i}")?),
            _ => (
                "lend",
                session.saturating_add(i),
                format!(in alloc; "{rest}")?,
            ),
        };
        if let Some(turn) = turn_of(alloc, one, text.as_str())? {
            last = world.turn(who, turn);
        }
    }
    show(rt, &last)
}

// Shows the log from a place on.
fn show_log(rt: HostRuntime, world: &World, from: usize) -> Result<(), Fail> {
    for (place, entry) in world.log().iter().enumerate() {
        if place >= from {
            println!(rt;
                "  {place}: session {}, statement {}, {:?}",
                entry.session, entry.statement, entry.kind
            )?;
        }
    }
    Ok(())
}

fn line(rt: HostRuntime, world: &mut World, word: &str, rest: &str) -> Result<(), Fail> {
    match word {
        "begin" => {
            println!(rt; "{word} {rest}")?;
            let nodes = byte(counted(rest).0).clamp(1, 16);
            let next = World::new(rt.alloc(), nodes)?;
            mem::replace(world, next).end();
            return Ok(());
        }
        "log" => {
            println!(rt; "{word} {rest}")?;
            return show_log(rt, world, cases::number(rest));
        }
        _ => {}
    }
    print!(rt; "{word} {rest}")?;
    if word == "creates" || word == "alters" || word == "lends" {
        return many(rt, world, word, rest);
    }
    let (session, rest) = counted(rest);
    if let Some(work) = work_of(word, rest) {
        world.work(session, work);
        println!(rt; "")?;
        return Ok(());
    }
    match turn_of(rt.alloc(), word, rest)? {
        Some(turn) => show(rt, &world.turn(session, turn)),
        None => {
            println!(rt; ": not understood")?;
            Ok(())
        }
    }
}

fn lines(rt: HostRuntime, world: &mut World, text: &str) -> Result<(), Fail> {
    for one in text.lines() {
        if let Some((word, rest)) = cases::line_of(one) {
            line(rt, world, word, rest)?;
        }
    }
    Ok(())
}

/// Runs the cases of `answers.txt`, whose first lines say what its words mean.
pub(crate) fn run(rt: HostRuntime) -> Result<(), Fail> {
    let text = cases::text_of(rt, "answers.txt")?;
    let mut world = World::new(rt.alloc(), 1)?;
    let shown = lines(rt, &mut world, text.as_str());
    world.end();
    shown
}
