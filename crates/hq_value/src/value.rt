//! Values and their order.
ghost use Rattle.std.specs.Prelude.{◌≡◌, IfOk};
ghost use Rattle.hq_value.specs.Order.{value_cmp};

use crate::{Chars, NoMemory};
use std::cmp::Ordering;

/// A value of a row. The variants stand in value order: NULL is last.
#[derive(Debug, PartialEq, Eq, PartialOrd, Ord, Hash, Drop)]
pub enum Value {
    Bool(bool),
    Int(i64),
    Text(Chars),
    Null,
}

impl Value {
    /// An equal value.
    pub fn copy(&self) -> Result<Value, NoMemory>
        ensures { IfOk result (λ copy. copy ≡ self.now) }
    {
        match self {
            Value::Bool(b) => Ok(Value::Bool(*b)),
            Value::Int(n) => Ok(Value::Int(*n)),
            Value::Text(text) => Ok(Value::Text(text.copy()?)),
            Value::Null => Ok(Value::Null),
        }
    }
}

/// Value order: FALSE before TRUE, integers by value, texts by bytes; Bool before Int before Text before NULL.
pub fn compare_values(a: &Value, b: &Value) -> Ordering
    ensures { result ≡ value_cmp a.now b.now }
{
    a.cmp(b)
}
