//! The value of an expression over a row.
ghost use Rattle.std.specs.Prelude.{◌≡◌};
ghost use Rattle.hq_algebra.specs.Outcome.{Is, of_one, of_two, of_two_values};
ghost use Rattle.hq_algebra.specs.Steps.{arith_of, compare_of, and_of, or_of, not_of, is_null_of};
ghost use Rattle.hq_algebra.specs.Eval as spec;
ghost use Rattle.hq_algebra.specs.Answer.{Agrees, IsOfText, value_of, seen_outcome};

use crate::steps::{and, compared, from_truth, is_null, not, or, step, truth};
use crate::{ArithKind, CompareKind, Expr};
use hq_value::{Row, Value};

/// What an expression gives over a row, or that there was no memory for it.
#[derive(Debug, Drop)]
pub enum Evaluated {
    Is(Value),
    /// A step of arithmetic left 64 bits.
    Fault,
    NoMemory,
}

/// A value that was computed, or one that stands in the row or the expression.
#[derive(Drop)]
pub enum Seen<'a> {
    Made(Value),
    Kept(&'a Value),
}

impl Seen<'_> {
    /// The value.
    pub fn get(&self) -> &Value
        ensures { result.now ≡ value_of self.now }
    {
        match self {
            Seen::Made(value) => value,
            Seen::Kept(value) => value,
        }
    }
}

/// The value of an expression over a row. Both operands of a part are evaluated. A text that is returned is shared
/// with the row or the expression, and only that can want memory. The call is nested at most as deep as the expression, so no deeper than its parts and one.
pub fn eval(e: &Expr, row: &Row) -> Evaluated
    ensures value { Agrees result (spec.eval e.now row.now) }
    ensures no_memory { result ≡ Evaluated.NoMemory → IsOfText (spec.eval e.now row.now) }
{
    match look(e, row.as_slice()) {
        Some(Seen::Made(value)) => Evaluated::Is(value),
        Some(Seen::Kept(value)) => copied(value),
        None => Evaluated::Fault,
    }
}

fn copied(value: &Value) -> Evaluated
    ensures value { Agrees result (Is value.now) }
    ensures no_memory { result ≡ Evaluated.NoMemory → IsOfText (Is value.now) }
{
    match value {
        Value::Bool(b) => Evaluated::Is(Value::Bool(*b)),
        Value::Int(n) => Evaluated::Is(Value::Int(*n)),
        Value::Text(text) => match text.copy() {
            Ok(text) => Evaluated::Is(Value::Text(text)),
            Err(_) => Evaluated::NoMemory,
        },
        Value::Null => Evaluated::Is(Value::Null),
    }
}

/// The value of an expression over a row, or none at a fault. It takes no memory. The call is nested at most as deep as
/// the expression.
pub fn look<'a>(e: &'a Expr, row: &'a [Value]) -> Option<Seen<'a>>
    ensures { seen_outcome result ≡ spec.eval e.now row.now }
{
    match e {
        Expr::Column(place) => Some(column(row, *place)),
        Expr::Literal(value) => Some(Seen::Kept(value)),
        Expr::Arith { kind, left, right } => {
            arith(*kind, look(left.get(), row), look(right.get(), row))
        }
        Expr::Compare { kind, left, right } => {
            compare(*kind, look(left.get(), row), look(right.get(), row))
        }
        Expr::And { left, right } => both(look(left.get(), row), look(right.get(), row)),
        Expr::Or { left, right } => either(look(left.get(), row), look(right.get(), row)),
        Expr::Not(of) => opposite(look(of.get(), row)),
        Expr::IsNull(of) => absent(look(of.get(), row)),
    }
}

fn column(row: &[Value], place: u16) -> Seen<'_>
    ensures { value_of result ≡ spec.column row.now place }
{
    match row.get(place as usize) {
        Some(value) => Seen::Kept(value),
        None => Seen::Made(Value::Null),
    }
}

fn arith<'a>(kind: ArithKind, left: Option<Seen>, right: Option<Seen>) -> Option<Seen<'a>>
    ensures { seen_outcome result ≡ of_two (arith_of kind) (seen_outcome left.entry) (seen_outcome right.entry) }
{
    let left = left?;
    let right = right?;
    let value = step(kind, left.get(), right.get())?;
    Some(Seen::Made(value))
}

fn compare<'a>(kind: CompareKind, left: Option<Seen>, right: Option<Seen>) -> Option<Seen<'a>>
    ensures { seen_outcome result ≡ of_two_values (compare_of kind) (seen_outcome left.entry) (seen_outcome right.entry) }
{
    let left = left?;
    let right = right?;
    Some(Seen::Made(compared(kind, left.get(), right.get())))
}

fn both<'a>(left: Option<Seen>, right: Option<Seen>) -> Option<Seen<'a>>
    ensures { seen_outcome result ≡ of_two_values and_of (seen_outcome left.entry) (seen_outcome right.entry) }
{
    let left = left?;
    let right = right?;
    let truth = and(truth(left.get()), truth(right.get()));
    Some(Seen::Made(from_truth(truth)))
}

fn either<'a>(left: Option<Seen>, right: Option<Seen>) -> Option<Seen<'a>>
    ensures { seen_outcome result ≡ of_two_values or_of (seen_outcome left.entry) (seen_outcome right.entry) }
{
    let left = left?;
    let right = right?;
    let truth = or(truth(left.get()), truth(right.get()));
    Some(Seen::Made(from_truth(truth)))
}

fn opposite<'a>(of: Option<Seen>) -> Option<Seen<'a>>
    ensures { seen_outcome result ≡ of_one not_of (seen_outcome of.entry) }
{
    let of = of?;
    Some(Seen::Made(from_truth(not(truth(of.get())))))
}

fn absent<'a>(of: Option<Seen>) -> Option<Seen<'a>>
    ensures { seen_outcome result ≡ of_one is_null_of (seen_outcome of.entry) }
{
    let of = of?;
    Some(Seen::Made(Value::Bool(is_null(of.get()))))
}
