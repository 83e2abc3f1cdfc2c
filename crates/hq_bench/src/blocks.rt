//! Blocks written and read.

use hq_block::{decode_block, encode_block};
use hq_value::{Chars, Kind, Kinds, NoMemory, Row, Sequence, Value, all_fit};
use std::alloc::Global;

/// Rows of one column, and how often their block is written and read.
#[derive(Clone, Copy, Debug)]
pub struct Blocks {
    kind: Kind,
    rows: u32,
    writes: u64,
    reads: u64,
}

/// How many rows were read, and the length of a block.
#[derive(Clone, Copy, Debug)]
pub struct Done {
    pub rows: u64,
    pub bytes: usize,
}

fn kind_named(word: &str) -> Option<Kind> {
    match word {
        "int" => Some(Kind::Int),
        "text" => Some(Kind::Text),
        _ => None,
    }
}

// The texts have 28 bytes.
fn value(alloc: Global, kind: Kind, number: u32) -> Result<Value, NoMemory> {
    if kind != Kind::Text {
        return Ok(Value::Int(i64::from(number)));
    }
    let text = "a text of twenty-eight bytes";
    if text.len() > Chars::MOST {
        return Ok(Value::Null);
    }
    Ok(Value::Text(Chars::from_str(alloc, text)?))
}

fn rows(alloc: Global, kind: Kind, count: u32) -> Result<Vec<Row>, NoMemory> {
    let mut rows = Vec::new(alloc);
    for number in 0..count {
        rows.push(Row::one(alloc, value(alloc, kind, number)?))?;
    }
    Ok(rows)
}

fn kinds(alloc: Global, kind: Kind) -> Result<Kinds, NoMemory> {
    let mut kinds = Sequence::new(alloc);
    kinds.push(kind)?;
    Ok(kinds)
}

// The block of the rows, if they are for one.
fn encode(alloc: Global, kinds: &Kinds, rows: &[Row]) -> Option<Vec<u8>> {
    if kinds.len() != 1 || rows.is_empty() || !all_fit(kinds, rows) {
        return None;
    }
    encode_block(alloc, kinds, rows).ok()
}

impl Blocks {
    /// What the words ask for.
    pub fn asked(words: &[String]) -> Option<Blocks> {
        let [layer, kind, rows, writes, reads] = words else {
            return None;
        };
        if layer.as_str() != "blocks" {
            return None;
        }
        Some(Blocks {
            kind: kind_named(kind)?,
            rows: rows.parse().ok()?,
            writes: writes.parse().ok()?,
            reads: reads.parse().ok()?,
        })
    }

    /// Writes and reads. None comes where the rows are not for one block, or without memory.
    pub fn run(&self, alloc: Global) -> Option<Done> {
        let kinds = kinds(alloc, self.kind).ok()?;
        let rows = rows(alloc, self.kind, self.rows).ok()?;
        let mut block = encode(alloc, &kinds, &rows)?;
        for _ in 0..self.writes {
            block = encode(alloc, &kinds, &rows)?;
        }
        let mut read: u64 = 0;
        for _ in 0..self.reads {
            let (found, _) = decode_block(alloc, &kinds, &block).ok()?;
            read = read.wrapping_add(found.len() as u64);
        }
        Some(Done {
            rows: read,
            bytes: block.len(),
        })
    }
}
