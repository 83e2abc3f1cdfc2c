//! Rows and expressions as cases give them: a row is a line of values, and an expression a line of parts, each behind
//! its operands.

use hq_algebra::{ArithKind, CompareKind, Expr, Keys16};
use hq_cases as cases;
use hq_value::{Chars, Kind, Kinds, Row, Value};
use sqlite_items::Boxed;
use std::alloc::Global;
use std::test::Fail;

fn text_value(alloc: Global, text: &str) -> Result<Value, Fail> {
    if text.len() > Chars::MOST {
        return Ok(Value::Null);
    }
    Ok(Value::Text(Chars::from_str(alloc, text)?))
}

fn value_of(alloc: Global, word: &str) -> Result<Value, Fail> {
    match word {
        "null" => Ok(Value::Null),
        "true" => Ok(Value::Bool(true)),
        "false" => Ok(Value::Bool(false)),
        _ => match word.parse::<i64>() {
            Ok(number) => Ok(Value::Int(number)),
            Err(_) => text_value(alloc, word),
        },
    }
}

/// The row of a line of values.
pub fn row_of(alloc: Global, text: &str) -> Result<Row, Fail> {
    let mut row = Row::new(alloc);
    for word in text.split_whitespace() {
        row.push(value_of(alloc, word)?)?;
    }
    Ok(row)
}

/// Equal rows.
pub fn copied(alloc: Global, rows: &[Row]) -> Result<Vec<Row>, Fail> {
    let mut copy = Vec::new(alloc);
    for row in rows {
        copy.push(row.copy(alloc)?)?;
    }
    Ok(copy)
}

/// The kinds of a line.
pub fn kinds_of(alloc: Global, text: &str) -> Result<Kinds, Fail> {
    let mut kinds = Kinds::new(alloc);
    for word in text.split_whitespace() {
        kinds.push(match word {
            "bool" => Kind::Bool,
            "int" => Kind::Int,
            _ => Kind::Text,
        })?;
    }
    Ok(kinds)
}

/// A place of a column.
pub fn place(text: &str) -> u16 {
    cases::number(text).min(65_535) as u16
}

/// The places of columns that a line names.
pub fn places(alloc: Global, text: &str) -> Result<Keys16, Fail> {
    let mut keys = Keys16::new(alloc);
    for word in text.split_whitespace() {
        keys.push(place(word))?;
    }
    Ok(keys)
}

/// The last expression, NULL where there is none.
pub fn popped(stack: &mut Vec<Expr>) -> Expr {
    match stack.pop() {
        Some(e) => e,
        None => Expr::Literal(Value::Null),
    }
}

fn arith(alloc: Global, stack: &mut Vec<Expr>, kind: ArithKind) -> Result<Expr, Fail> {
    let right = popped(stack);
    let left = popped(stack);
    Ok(Expr::Arith {
        kind,
        left: Boxed::new(alloc, left)?,
        right: Boxed::new(alloc, right)?,
    })
}

fn compare(alloc: Global, stack: &mut Vec<Expr>, kind: CompareKind) -> Result<Expr, Fail> {
    let right = popped(stack);
    let left = popped(stack);
    Ok(Expr::Compare {
        kind,
        left: Boxed::new(alloc, left)?,
        right: Boxed::new(alloc, right)?,
    })
}

fn and(alloc: Global, stack: &mut Vec<Expr>) -> Result<Expr, Fail> {
    let right = popped(stack);
    let left = popped(stack);
    Ok(Expr::And {
        left: Boxed::new(alloc, left)?,
        right: Boxed::new(alloc, right)?,
    })
}

fn or(alloc: Global, stack: &mut Vec<Expr>) -> Result<Expr, Fail> {
    let right = popped(stack);
    let left = popped(stack);
    Ok(Expr::Or {
        left: Boxed::new(alloc, left)?,
        right: Boxed::new(alloc, right)?,
    })
}

// A column, as `c0`, or a value.
fn leaf(alloc: Global, word: &str) -> Result<Expr, Fail> {
    match word.strip_prefix("c") {
        Some(number) => Ok(Expr::Column(place(number))),
        None => Ok(Expr::Literal(value_of(alloc, word)?)),
    }
}

// The part that a word names, over the expressions so far.
fn part(alloc: Global, stack: &mut Vec<Expr>, word: &str) -> Result<Expr, Fail> {
    match word {
        "+" => arith(alloc, stack, ArithKind::Plus),
        "-" => arith(alloc, stack, ArithKind::Minus),
        "*" => arith(alloc, stack, ArithKind::Times),
        "=" => compare(alloc, stack, CompareKind::Equal),
        "<>" => compare(alloc, stack, CompareKind::NotEqual),
        "<" => compare(alloc, stack, CompareKind::Less),
        "<=" => compare(alloc, stack, CompareKind::AtMost),
        ">" => compare(alloc, stack, CompareKind::Greater),
        ">=" => compare(alloc, stack, CompareKind::AtLeast),
        "and" => and(alloc, stack),
        "or" => or(alloc, stack),
        "not" => Ok(Expr::Not(Boxed::new(alloc, popped(stack))?)),
        "is_null" => Ok(Expr::IsNull(Boxed::new(alloc, popped(stack))?)),
        _ => leaf(alloc, word),
    }
}

/// Adds the expressions of a line.
pub fn push_parts(alloc: Global, stack: &mut Vec<Expr>, text: &str) -> Result<(), Fail> {
    for word in text.split_whitespace() {
        let e = part(alloc, stack, word)?;
        stack.push(e)?;
    }
    Ok(())
}
