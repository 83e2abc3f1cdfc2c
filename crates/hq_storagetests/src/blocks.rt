//! Rows and blocks of rows in bytes.
ghost use Rattle.std.specs.Prelude.{length, IfSome};
ghost use Rattle.hq_block.specs.Heads.{HeadLength};

use crate::values::{Values, show_row};
use hq_block::{
    BlockFault, Bounds, EncodeFault, RowFault, decode_block, encode_block, fitting_rows,
    head_length, put_row, read_head, read_row, row_length,
};
use hq_cases as cases;
use hq_value::{Kind, Kinds, Row, Value, all_fit, fits};
use std::alloc::Global;
use std::test::Fail;

// The kinds of columns, the rows so far, and bytes.
#[derive(Drop)]
struct Case {
    alloc: Global,
    kinds: Kinds,
    values: Values,
    rows: Vec<Row>,
    bytes: Vec<u8>,
}

/// The kinds that words name.
pub fn kinds_of(alloc: Global, text: &str) -> Result<Kinds, Fail> {
    let mut kinds = Kinds::new(alloc);
    for word in text.split_whitespace() {
        kinds.push(match word {
            "bool" => Kind::Bool,
            "int" => Kind::Int,
            _ => Kind::Text,
        })?;
    }
    Ok(kinds)
}

// The head and the bounds that begin the bytes, where they are all there.
fn head_of(bytes: &[u8]) -> Option<&[u8]>
    ensures { IfSome result (λ head. HeadLength head.now (length head.now)) }
{
    let head = bytes.get(..head_length(bytes)?)?;
    let length = head_length(head)?;
    if length == head.len() {
        Some(head)
    } else {
        None
    }
}

impl Case {
    // The block of the rows, which is then the bytes.
    fn encode(&mut self, rt: HostRuntime) -> Result<(), Fail> {
        if self.kinds.is_empty() || self.kinds.len() > 64 || self.rows.is_empty() {
            return Ok(());
        }
        if !all_fit(&self.kinds, &self.rows) {
            return Ok(());
        }
        let count = fitting_rows(&self.kinds, &self.rows);
        match encode_block(self.alloc, &self.kinds, &self.rows) {
            Ok(block) => {
                let shown = cases::shown(self.alloc, &block)?;
                println!(rt; "  {count} rows fit: {shown}")?;
                self.bytes = block;
            }
            Err(EncodeFault::TooLarge) => println!(rt; "  {count} rows fit: too large")?,
            Err(EncodeFault::NoMemory) => println!(rt; "  no memory")?,
        }
        Ok(())
    }

    // The rows of the block that begins the bytes.
    fn decode(&self, rt: HostRuntime) -> Result<(), Fail> {
        match decode_block(self.alloc, &self.kinds, &self.bytes) {
            Ok((rows, length)) => {
                let same = rows == self.rows;
                println!(rt; "  {} rows in {length} bytes, {same}", rows.len())?;
            }
            Err(BlockFault::NotABlock) => println!(rt; "  no block")?,
            Err(BlockFault::NoMemory) => println!(rt; "  no memory")?,
        }
        Ok(())
    }

    // The head that begins the bytes, and what it says.
    fn head(&self, rt: HostRuntime) -> Result<(), Fail> {
        let Some(bytes) = head_of(&self.bytes) else {
            println!(rt; "  no head")?;
            return Ok(());
        };
        let length = bytes.len();
        match read_head(self.alloc, &self.kinds, bytes) {
            Ok(head) => {
                let (all, columns) = (head.length, head.columns);
                print!(rt; "  {length} bytes of head, {all} in all, {columns} columns:")?;
                for bounds in head.bounds.as_slice() {
                    self.bounds(rt, bounds)?;
                }
                println!(rt; "")?;
            }
            Err(BlockFault::NotABlock) => println!(rt; "  {length} bytes of head, no block")?,
            Err(BlockFault::NoMemory) => println!(rt; "  no memory")?,
        }
        Ok(())
    }

    // The least and the greatest value of a column.
    fn bounds(&self, rt: HostRuntime, bounds: &Bounds) -> Result<(), Fail> {
        match bounds {
            Bounds::Range {
                least: Value::Int(least),
                greatest: Value::Int(greatest),
            } => print!(rt; " {least} to {greatest}")?,
            Bounds::Range { .. } => print!(rt; " truths")?,
            Bounds::Empty => print!(rt; " all NULL")?,
            Bounds::Text => print!(rt; " text")?,
        }
        Ok(())
    }

    // The row that begins the bytes.
    fn read(&self, rt: HostRuntime) -> Result<(), Fail> {
        match read_row(self.alloc, &self.kinds, &self.bytes) {
            Ok((row, length)) => {
                let mut line = String::new(self.alloc);
                show_row(&mut line, &row)?;
                println!(rt; "  {length} bytes:{line}")?;
            }
            Err(RowFault::NotARow) => println!(rt; "  no row")?,
            Err(RowFault::NoMemory) => println!(rt; "  no memory")?,
        }
        Ok(())
    }

    // Adds the last row to the bytes.
    fn put(&mut self, rt: HostRuntime) -> Result<(), Fail> {
        let Some(row) = self.rows.last() else {
            return Ok(());
        };
        if row.len() > 64 || !fits(&self.kinds, row) {
            return Ok(());
        }
        let length = row_length(row);
        put_row(&mut self.bytes, &self.kinds, row)?;
        let shown = cases::shown(self.alloc, &self.bytes)?;
        println!(rt; "  {length} bytes more: {shown}")?;
        Ok(())
    }

    fn line(&mut self, rt: HostRuntime, word: &str, rest: &str) -> Result<(), Fail> {
        if self.values.line(word, rest)? {
            return Ok(());
        }
        match word {
            "kinds" => self.kinds = kinds_of(self.alloc, rest)?,
            "row" => {
                let row = self.values.row()?;
                self.rows.push(row)?;
            }
            "drop" => {
                let _ = self.rows.pop();
            }
            "bytes" => {
                self.bytes.clear();
                cases::add(&mut self.bytes, rest)?;
            }
            "more" => cases::add(&mut self.bytes, rest)?,
            "many" => cases::add_many(&mut self.bytes, rest)?,
            "encode" => self.encode(rt)?,
            "decode" => self.decode(rt)?,
            "head" => self.head(rt)?,
            "read" => self.read(rt)?,
            "put" => self.put(rt)?,
            _ => {
                println!(rt; "{word} {rest}")?;
                self.rows.clear();
                self.bytes.clear();
            }
        }
        Ok(())
    }
}

/// Shows the cases of `blocks.txt`.
pub fn run(rt: HostRuntime) -> Result<(), Fail> {
    let alloc = rt.alloc();
    let text = cases::text_of(rt, "blocks.txt")?;
    let mut case = Case {
        alloc,
        kinds: Kinds::new(alloc),
        values: Values::new(alloc),
        rows: Vec::new(alloc),
        bytes: Vec::new(alloc),
    };
    for line in text.as_str().lines() {
        if let Some((word, rest)) = cases::line_of(line) {
            case.line(rt, word, rest)?;
        }
    }
    Ok(())
}
