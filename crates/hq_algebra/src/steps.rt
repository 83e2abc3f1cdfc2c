//! The steps of an evaluation, each over values.
ghost use Rattle.std.specs.Prelude.{◌≡◌};
ghost use Rattle.hq_algebra.specs.Outcome.{option_outcome};
ghost use Rattle.hq_algebra.specs.Steps as exact;

use crate::{ArithKind, CompareKind};
use hq_value::{Value, compare_values};

/// A step of arithmetic, or none where it leaves 64 bits.
pub fn step(kind: ArithKind, left: &Value, right: &Value) -> Option<Value>
    ensures { option_outcome result ≡ exact.arith_of kind left.now right.now }
{
    if let Value::Int(a) = left {
        if let Value::Int(b) = right {
            let n = checked(kind, *a, *b)?;
            return Some(Value::Int(n));
        }
    }
    Some(Value::Null)
}

fn checked(kind: ArithKind, a: i64, b: i64) -> Option<i64>
    ensures { exact.Steps result (exact.exact_step kind a b) }
{
    match kind {
        ArithKind::Plus => a.checked_add(b),
        ArithKind::Minus => a.checked_sub(b),
        ArithKind::Times => a.checked_mul(b),
    }
}

/// A comparison: unknown where a side is NULL.
pub fn compared(kind: CompareKind, left: &Value, right: &Value) -> Value
    ensures { result ≡ exact.compare_of kind left.now right.now }
{
    if is_null(left) || is_null(right) {
        return Value::Null;
    }
    Value::Bool(kind.passes(compare_values(left, right)))
}

pub fn is_null(value: &Value) -> bool
    ensures { result ≡ exact.is_null value.now }
{
    matches!(value, Value::Null)
}

/// TRUE or FALSE, or none where the value is unknown.
pub fn truth(value: &Value) -> Option<bool>
    ensures { result ≡ exact.truth value.now }
{
    match value {
        Value::Bool(b) => Some(*b),
        _ => None,
    }
}

/// The value of a truth. What is unknown is NULL.
pub fn from_truth(truth: Option<bool>) -> Value
    ensures { result ≡ exact.from_truth truth }
{
    match truth {
        Some(b) => Value::Bool(b),
        None => Value::Null,
    }
}

pub fn and(a: Option<bool>, b: Option<bool>) -> Option<bool>
    ensures { result ≡ exact.and_truth a b }
{
    match (a, b) {
        (Some(false), _) | (_, Some(false)) => Some(false),
        (Some(true), Some(true)) => Some(true),
        _ => None,
    }
}

pub fn or(a: Option<bool>, b: Option<bool>) -> Option<bool>
    ensures { result ≡ exact.or_truth a b }
{
    match (a, b) {
        (Some(true), _) | (_, Some(true)) => Some(true),
        (Some(false), Some(false)) => Some(false),
        _ => None,
    }
}

pub fn not(a: Option<bool>) -> Option<bool>
    ensures { result ≡ exact.not_truth a }
{
    match a {
        Some(b) => Some(!b),
        None => None,
    }
}
