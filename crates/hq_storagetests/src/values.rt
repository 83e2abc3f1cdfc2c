//! Values, rows, their order, their key bytes and buckets; numbers in bytes.

use hq_cases as cases;
use hq_value::{
    Chars, Keys, Row, Value, bucket_of, compare_rows, compare_values, put_key, read_u16, read_u32,
    read_u64, sort_in_row_order,
};
use std::alloc::Global;
use std::cmp::Ordering;
use std::test::Fail;

/// The values of a row, one a line.
#[derive(Drop)]
pub struct Values {
    alloc: Global,
    all: Vec<Value>,
}

// The values so far, the rows of those before, and bytes.
#[derive(Drop)]
struct Case {
    alloc: Global,
    values: Values,
    rows: Vec<Row>,
    bytes: Vec<u8>,
}

impl Values {
    pub fn new(alloc: Global) -> Values {
        Values {
            alloc,
            all: Vec::new(alloc),
        }
    }

    /// Takes a line that gives a value, and says whether it does. `xs COUNT` is a text of so many letters.
    pub fn line(&mut self, word: &str, rest: &str) -> Result<bool, Fail> {
        match word {
            "null" => self.all.push(Value::Null)?,
            "true" => self.all.push(Value::Bool(true))?,
            "false" => self.all.push(Value::Bool(false))?,
            "int" => self.all.push(Value::Int(rest.parse()?))?,
            "text" => self.all.push(text_value(self.alloc, rest)?)?,
            "xs" => {
                let mut text = String::new(self.alloc);
                for _ in 0..cases::number(rest) {
                    text.push('x')?;
                }
                self.all.push(text_value(self.alloc, text.as_str())?)?;
            }
            _ => return Ok(false),
        }
        Ok(true)
    }

    /// The row of the values, and then there are none.
    pub fn row(&mut self) -> Result<Row, Fail> {
        let mut row = Row::new(self.alloc);
        for value in &self.all {
            row.push(value.copy()?)?;
        }
        self.all.clear();
        Ok(row)
    }
}

fn text_value(alloc: Global, text: &str) -> Result<Value, Fail> {
    if text.len() > Chars::MOST {
        return Ok(Value::Null);
    }
    Ok(Value::Text(Chars::from_str(alloc, text)?))
}

fn sign(order: Ordering) -> char {
    match order {
        Ordering::Less => '<',
        Ordering::Equal => '=',
        Ordering::Greater => '>',
    }
}

/// Adds the values of a row, each behind a blank.
pub fn show_row(out: &mut String, row: &Row) -> Result<(), Fail> {
    for value in row.as_slice() {
        match value {
            Value::Bool(true) => out.push_str(" true")?,
            Value::Bool(false) => out.push_str(" false")?,
            Value::Int(n) => write!(out, " {n}")?,
            Value::Text(text) => {
                let text = text.as_str();
                write!(out, " {text}")?;
            }
            Value::Null => out.push_str(" null")?,
        }
    }
    Ok(())
}

impl Case {
    // How each value stands to each.
    fn compare(&self, rt: HostRuntime) -> Result<(), Fail> {
        for low in &self.values.all {
            let mut line = String::new(self.alloc);
            for high in &self.values.all {
                line.push(sign(compare_values(low, high)))?;
            }
            println!(rt; "  {line}")?;
        }
        Ok(())
    }

    // How each row stands to each.
    fn compare_rows(&self, rt: HostRuntime) -> Result<(), Fail> {
        for low in &self.rows {
            let mut line = String::new(self.alloc);
            for high in &self.rows {
                line.push(sign(compare_rows(low, high)))?;
            }
            println!(rt; "  {line}")?;
        }
        Ok(())
    }

    fn sort(&mut self, rt: HostRuntime) -> Result<(), Fail> {
        sort_in_row_order(&mut self.rows);
        for row in &self.rows {
            let mut line = String::new(self.alloc);
            show_row(&mut line, row)?;
            println!(rt; " {line}")?;
        }
        Ok(())
    }

    // The bucket of each value as the only key of its row.
    fn buckets(&self, rt: HostRuntime) -> Result<(), Fail> {
        for value in &self.values.all {
            let mut keys = Keys::new(self.alloc);
            keys.push(0)?;
            let bucket = bucket_of(&Row::one(self.alloc, value.copy()?), &keys);
            println!(rt; "  {bucket}")?;
        }
        Ok(())
    }

    fn keys(&self, rt: HostRuntime) -> Result<(), Fail> {
        let mut bytes = Vec::new(self.alloc);
        for value in &self.values.all {
            put_key(&mut bytes, value)?;
        }
        let shown = cases::shown(self.alloc, &bytes)?;
        println!(rt; "  {shown}")?;
        Ok(())
    }

    fn line(&mut self, rt: HostRuntime, word: &str, rest: &str) -> Result<(), Fail> {
        if self.values.line(word, rest)? {
            return Ok(());
        }
        match word {
            "compare" => self.compare(rt)?,
            "row" => {
                let row = self.values.row()?;
                self.rows.push(row)?;
            }
            "compare_rows" => self.compare_rows(rt)?,
            "sort" => self.sort(rt)?,
            "buckets" => self.buckets(rt)?,
            "keys" => self.keys(rt)?,
            "bytes" => cases::add(&mut self.bytes, rest)?,
            "u16" => println!(rt; "  {:?}", read_u16(&self.bytes, rest.parse()?))?,
            "u32" => println!(rt; "  {:?}", read_u32(&self.bytes, rest.parse()?))?,
            "u64" => println!(rt; "  {:?}", read_u64(&self.bytes, rest.parse()?))?,
            _ => {
                println!(rt; "{word} {rest}")?;
                self.values.all.clear();
                self.rows.clear();
                self.bytes.clear();
            }
        }
        Ok(())
    }
}

/// Shows the cases of `values.txt`.
pub fn run(rt: HostRuntime) -> Result<(), Fail> {
    let alloc = rt.alloc();
    let text = cases::text_of(rt, "values.txt")?;
    let mut case = Case {
        alloc,
        values: Values::new(alloc),
        rows: Vec::new(alloc),
        bytes: Vec::new(alloc),
    };
    for line in text.as_str().lines() {
        if let Some((word, rest)) = cases::line_of(line) {
            case.line(rt, word, rest)?;
        }
    }
    Ok(())
}
