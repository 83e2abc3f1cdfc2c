//! The least and the greatest of values.
ghost use Rattle.std.specs.Prelude.{◌≡◌};
ghost use Rattle.hq_meaning.specs.Aggregates.{falling_cmp};
ghost use Rattle.hq_ops.specs.Folds.{order_of};

use hq_value::{Value, compare_values};
use std::cmp::Ordering;

/// Which value is sought.
#[derive(Clone, Copy, Debug, PartialEq, Eq)]
pub enum Extreme {
    Least,
    Greatest,
}

impl Extreme {
    /// The order in which the value that is sought comes first.
    pub fn compare(self, a: &Value, b: &Value) -> Ordering
        ensures { result ≡ order_of self a.now b.now }
    {
        match self {
            Extreme::Least => compare_values(a, b),
            Extreme::Greatest => compare_falling(a, b),
        }
    }
}

// The greatest first, NULL last.
fn compare_falling(a: &Value, b: &Value) -> Ordering
    ensures { result ≡ falling_cmp a.now b.now }
{
    match (a, b) {
        (Value::Null, Value::Null) => Ordering::Equal,
        (Value::Null, _) => Ordering::Greater,
        (_, Value::Null) => Ordering::Less,
        _ => compare_values(b, a),
    }
}
