//! Texts read as statements.
use hq_sql::parse;
use hq_value::NoMemory;
use std::alloc::Global;

/// What a text is made of.
#[derive(Clone, Copy, Debug)]
enum Shape {
    Ints,
    Texts,
    Select,
}

/// A text with so many tuples or items, and how often it is read.
#[derive(Clone, Copy, Debug)]
pub struct Parses {
    shape: Shape,
    parts: u32,
    times: u64,
}

fn shape_named(word: &str) -> Option<Shape> {
    match word {
        "ints" => Some(Shape::Ints),
        "texts" => Some(Shape::Texts),
        "select" => Some(Shape::Select),
        _ => None,
    }
}

fn front(shape: Shape) -> &'static str {
    match shape {
        Shape::Ints => "INSERT INTO t VALUES (1,2,3)",
        Shape::Texts => "INSERT INTO t VALUES (1,'')",
        Shape::Select => "SELECT amount",
    }
}

fn part(shape: Shape) -> &'static str {
    match shape {
        Shape::Ints => ",(1234567,-42,890)",
        Shape::Texts => ",(1234567,'a text of twenty-eight bytes')",
        Shape::Select => ", t.amount * 2 - (price + 17) AS total",
    }
}

fn back(shape: Shape) -> &'static str {
    match shape {
        Shape::Select =>
            " FROM t WHERE amount > 10 AND NOT price IS NULL ORDER BY total DESC LIMIT 10",
        _ => "",
    }
}

impl Parses {
    /// What the words ask for.
    pub fn asked(words: &[String]) -> Option<Parses> {
        let [layer, shape, parts, times] = words else {
            return None;
        };
        if layer.as_str() != "parse" {
            return None;
        }
        Some(Parses {
            shape: shape_named(shape)?,
            parts: parts.parse().ok()?,
            times: times.parse().ok()?,
        })
    }

    fn text(&self, alloc: Global) -> Result<String, NoMemory> {
        let mut text = String::from_str(alloc, front(self.shape))?;
        for _ in 0..self.parts {
            text.push_str(part(self.shape))?;
        }
        text.push_str(back(self.shape))?;
        Ok(text)
    }

    /// Reads the text so often, and says how long it is. None comes where it is no statement, or without memory.
    pub fn run(&self, alloc: Global) -> Option<usize> {
        let text = self.text(alloc).ok()?;
        for _ in 0..self.times {
            let _ = parse(alloc, text.as_bytes()).ok()?;
        }
        Some(text.len())
    }
}
