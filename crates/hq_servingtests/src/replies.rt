//! Replies, into sinks whose calls may fail.

use hq_cases as cases;
use hq_io::{MemSink, Sink};
use hq_reply::{Fault, Reply, Rows, write_reply};
use hq_value::{Chars, Row, Value};
use std::alloc::Global;
use std::test::Fail;

const FAULTS: [(&str, Fault); 22] = [
    ("TooLong", Fault::TooLong),
    ("Syntax", Fault::Syntax),
    ("TransactionFailed", Fault::TransactionFailed),
    ("TransactionOpen", Fault::TransactionOpen),
    ("NoTransaction", Fault::NoTransaction),
    ("Limit", Fault::Limit),
    ("DuplicateColumn", Fault::DuplicateColumn),
    ("UndefinedColumn", Fault::UndefinedColumn),
    ("TableExists", Fault::TableExists),
    ("TooManyTables", Fault::TooManyTables),
    ("UndefinedTable", Fault::UndefinedTable),
    ("DuplicateSource", Fault::DuplicateSource),
    ("AmbiguousColumn", Fault::AmbiguousColumn),
    ("TypeMismatch", Fault::TypeMismatch),
    ("NotGrouped", Fault::NotGrouped),
    ("NoSegment", Fault::NoSegment),
    ("NumericRange", Fault::NumericRange),
    ("NullNotAllowed", Fault::NullNotAllowed),
    ("TooManyWriters", Fault::TooManyWriters),
    ("Store", Fault::Store),
    ("BadBlock", Fault::BadBlock),
    ("NoMemory", Fault::NoMemory),
];

fn fault_named(name: &str) -> Fault {
    for (known, fault) in FAULTS {
        if known == name {
            return fault;
        }
    }
    Fault::NoMemory
}

// The rows so far, the values of the next one, and the writes that fail.
#[derive(Drop)]
struct Case {
    alloc: Global,
    rows: Vec<Row>,
    values: Vec<Value>,
    fails: Vec<u64>,
}

fn text_value(alloc: Global, text: &str) -> Result<Value, Fail> {
    let mut bytes = Vec::new(alloc);
    cases::add(&mut bytes, text)?;
    let text = String::from_utf8(bytes)?;
    if text.len() > Chars::MOST {
        return Ok(Value::Null);
    }
    Ok(Value::Text(Chars::new(text)?))
}

impl Case {
    fn write(&self, rt: HostRuntime, reply: &Reply) -> Result<(), Fail> {
        let fails = self.fails.as_slice().to_vec(self.alloc)?;
        let mut sink = MemSink::new(self.alloc, fails);
        let answer = match write_reply(reply, &mut sink) {
            Ok(()) => "ok",
            Err(_) => "fault",
        };
        let given = cases::shown(self.alloc, sink.bytes())?;
        let faults = sink.faults();
        println!(rt; "  {answer}, {faults} faults: {given}")?;
        Ok(())
    }

    // Ends a row, so often.
    fn end_row(&mut self, count: usize) -> Result<(), Fail> {
        for _ in 0..count {
            let mut row = Row::new(self.alloc);
            for value in &self.values {
                row.push(value.copy()?)?;
            }
            self.rows.push(row)?;
        }
        self.values.clear();
        Ok(())
    }

    fn write_rows(&mut self, rt: HostRuntime) -> Result<(), Fail> {
        let rows = std::mem::replace(&mut self.rows, Vec::new(self.alloc));
        self.write(rt, &Reply::Rows(Rows::from_vec(rows)))
    }

    // A value, or the end of a row.
    fn row_line(&mut self, word: &str, rest: &str) -> Result<bool, Fail> {
        match word {
            "null" => self.values.push(Value::Null)?,
            "true" => self.values.push(Value::Bool(true))?,
            "false" => self.values.push(Value::Bool(false))?,
            "int" => self.values.push(Value::Int(rest.parse()?))?,
            "text" => self.values.push(text_value(self.alloc, rest)?)?,
            "row" => self.end_row(1)?,
            "rows" => self.end_row(cases::number(rest))?,
            _ => return Ok(false),
        }
        Ok(true)
    }

    // A reply of one line.
    fn reply_of(word: &str, rest: &str) -> Result<Option<Reply>, Fail> {
        let node = cases::number(rest).min(255) as u8;
        Ok(match word {
            "inserted" => Some(Reply::Inserted(rest.parse()?)),
            "created" => Some(Reply::Created),
            "altered" => Some(Reply::Altered),
            "begun" => Some(Reply::Begun),
            "committed" => Some(Reply::Committed),
            "rolled_back" => Some(Reply::RolledBack),
            "fault" => Some(Reply::Error(fault_named(rest))),
            "host" => Some(Reply::Error(Fault::Host { node })),
            "link_lost" => Some(Reply::Error(Fault::LinkLost { node })),
            "link_failed" => Some(Reply::Error(Fault::LinkFailed { node })),
            _ => None,
        })
    }

    fn line(&mut self, rt: HostRuntime, word: &str, rest: &str) -> Result<(), Fail> {
        if self.row_line(word, rest)? {
            return Ok(());
        }
        if let Some(reply) = Case::reply_of(word, rest)? {
            return self.write(rt, &reply);
        }
        match word {
            "write" => self.write_rows(rt)?,
            "fails" => self.fails = cases::numbers(self.alloc, rest)?,
            _ => {
                println!(rt; "{word} {rest}")?;
                self.fails.clear();
            }
        }
        Ok(())
    }
}

/// Shows the cases of `replies.txt`.
pub fn run(rt: HostRuntime) -> Result<(), Fail> {
    let alloc = rt.alloc();
    let text = cases::text_of(rt, "replies.txt")?;
    let mut case = Case {
        alloc,
        rows: Vec::new(alloc),
        values: Vec::new(alloc),
        fails: Vec::new(alloc),
    };
    for line in text.as_str().lines() {
        if let Some((word, rest)) = cases::line_of(line) {
            case.line(rt, word, rest)?;
        }
    }
    Ok(())
}
