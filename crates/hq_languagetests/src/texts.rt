//! Texts as tokens, expressions, statements and forms.

use crate::forms::form_of;
use crate::show::Show;
use hq_cases as cases;
use hq_expr::{Cursor, ParseFault, condition, item_sum, lexemes};
use hq_lex::{LexFault, Step, next_step, tokens};
use hq_sql::{SqlExpr, Statement, control, one_reading, parse};
use std::alloc::Global;
use std::str;
use std::test::Fail;

fn owned(alloc: Global, text: &str) -> Result<String, Fail> {
    Ok(String::from_str(alloc, text)?)
}

/// What a refusal is shown as.
pub fn refusal(fault: ParseFault) -> &'static str {
    match fault {
        ParseFault::Syntax => "-",
        ParseFault::NoMemory => "no memory",
    }
}

// The tokens of a text with their places, or the place where none begins.
fn cut(alloc: Global, text: &str) -> Result<String, Fail> {
    let mut out = String::new(alloc);
    match tokens(alloc, text) {
        Ok(found) => {
            for token in &found {
                write!(out, "{:?} {} {} ", token.kind, token.start, token.end)?;
            }
        }
        Err(LexFault::NoToken { at }) => write!(out, "none at {at}")?,
        Err(LexFault::NoMemory) => out.push_str("no memory")?,
    }
    Ok(out)
}

// The token of a text from a place on.
fn step(alloc: Global, text: &str) -> Result<String, Fail> {
    let (at, text) = cases::counted(text);
    if at > text.len() {
        return owned(alloc, "past the end");
    }
    let mut out = String::new(alloc);
    match next_step(text.as_bytes(), at) {
        Step::End => out.push_str("end")?,
        Step::Token { kind, start, end } => write!(out, "{kind:?} {start} {end}")?,
        Step::Fault { at } => write!(out, "none at {at}")?,
    }
    Ok(out)
}

fn shown(
    alloc: Global,
    read: Result<SqlExpr, ParseFault>,
    cursor: &Cursor,
) -> Result<String, Fail> {
    match read {
        Ok(expr) => {
            let mut out = String::new(alloc);
            if cursor.is_done() {
                expr.show(&mut out)?;
            } else {
                out.push_str("more")?;
            }
            Ok(out)
        }
        Err(fault) => owned(alloc, refusal(fault)),
    }
}

// The whole text as an item, or as a condition without aggregates; `more` where something follows it.
fn expression(alloc: Global, text: &str, is_item: bool) -> Result<String, Fail> {
    let found = match lexemes(alloc, text) {
        Ok(found) => found,
        Err(fault) => return owned(alloc, refusal(fault)),
    };
    let mut cursor = Cursor::new(found);
    let read = if is_item {
        item_sum(alloc, &mut cursor)
    } else {
        condition(alloc, &mut cursor, false)
    };
    shown(alloc, read, &cursor)
}

fn text_of(alloc: Global, statement: &Statement) -> Result<String, Fail> {
    let mut out = String::new(alloc);
    statement.show(&mut out)?;
    Ok(out)
}

fn parsed(alloc: Global, text: &[u8]) -> Result<String, Fail> {
    match parse(alloc, text) {
        Ok(statement) => text_of(alloc, &statement),
        Err(fault) => owned(alloc, refusal(fault)),
    }
}

fn controlled(alloc: Global, text: &[u8]) -> Result<String, Fail> {
    match control(text) {
        Some(statement) => text_of(alloc, &statement),
        None => owned(alloc, "-"),
    }
}

// Whether a text is a statement.
fn is_read(alloc: Global, text: &[u8]) -> Result<String, Fail> {
    owned(
        alloc,
        if parse(alloc, text).is_ok() {
            "read"
        } else {
            "-"
        },
    )
}

// What a call gives for a text.
fn call(alloc: Global, word: &str, bytes: &[u8]) -> Result<String, Fail> {
    match word {
        "parse" => return parsed(alloc, bytes),
        "control" => return controlled(alloc, bytes),
        "read" => return is_read(alloc, bytes),
        "form" => return form_of(alloc, bytes),
        _ => {}
    }
    let Ok(text) = str::from_utf8(bytes) else {
        return owned(alloc, "no UTF-8");
    };
    match word {
        "tokens" => cut(alloc, text),
        "step" => step(alloc, text),
        "item" => expression(alloc, text, true),
        "condition" => expression(alloc, text, false),
        _ => owned(alloc, "no such call"),
    }
}

/// Shows each line of a file of cases, and what it gives. `text` and `many` add to a text which the next call gets.
pub fn run(rt: HostRuntime, name: &str) -> Result<(), Fail> {
    one_reading();
    let alloc = rt.alloc();
    let file = cases::text_of(rt, name)?;
    let mut bytes = Vec::new(alloc);
    for line in file.as_str().lines() {
        match cases::line_of(line) {
            Some(("text", rest)) => cases::add(&mut bytes, rest)?,
            Some(("many", rest)) => cases::add_many(&mut bytes, rest)?,
            Some((word, rest)) => {
                cases::add(&mut bytes, rest)?;
                let gave = call(alloc, word, &bytes)?;
                let text = cases::shown(alloc, &bytes)?;
                println!(rt; "{word} {text} => {gave}")?;
                bytes.clear();
            }
            None => {}
        }
    }
    Ok(())
}
