//! Kinds of columns, and rows that fit them.
ghost use Rattle.std.specs.Prelude.{◌≡◌, ◌↔◌, IsTrue, All, IfOk};
ghost use Rattle.hq_value.specs.Kinds.{IsOfKind, Fits, AreFit, is_of_kind, fits, are_fit, kinds_of};

use crate::{Column, NoMemory, Row, Sequence, Value};
use std::alloc::Global;

/// The kind of a column's values.
#[derive(Clone, Copy, Debug, PartialEq, Eq)]
pub enum Kind {
    Bool,
    Int,
    Text,
}

/// Kinds of columns in order.
pub type Kinds = Sequence<Kind>;

impl Value {
    /// Whether the value is NULL or of the kind.
    pub fn is_of_kind(&self, kind: Kind) -> bool
        ensures test { result ≡ is_of_kind kind self.now }
        ensures fact { IsTrue result ↔ IsOfKind kind self.now }
    {
        matches!(
            (kind, self),
            (_, Value::Null)
                | (Kind::Bool, Value::Bool(_))
                | (Kind::Int, Value::Int(_))
                | (Kind::Text, Value::Text(_))
        )
    }
}

/// Whether a row fits the kinds: as many values as kinds, each NULL or of its column's kind.
pub fn fits(kinds: &Kinds, row: &Row) -> bool
    ensures test { result ≡ fits kinds.now row.now }
    ensures fact { IsTrue result ↔ Fits kinds.now row.now }
{
    values_fit(kinds.as_slice(), row.as_slice())
}

fn values_fit(kinds: &[Kind], values: &[Value]) -> bool
    ensures test { result ≡ fits kinds.now values.now }
    ensures fact { IsTrue result ↔ Fits kinds.now values.now }
{
    let Some((kind, kinds)) = kinds.split_first() else {
        return values.is_empty();
    };
    let Some((value, values)) = values.split_first() else {
        return false;
    };
    value.is_of_kind(*kind) && values_fit(kinds, values)
}

/// Whether each of the rows fits the kinds.
pub fn all_fit(kinds: &Kinds, rows: &[Row]) -> bool
    ensures test { result ≡ are_fit kinds.now rows.now }
    ensures fact { IsTrue result ↔ AreFit kinds.now rows.now }
{
    for row in rows {
        if !fits(kinds, row) {
            return false;
        }
    }
    true
}

/// The kinds of columns.
pub fn kinds_of(alloc: Global, columns: &[Column]) -> Result<Kinds, NoMemory>
    ensures { IfOk result (λ kinds. kinds ≡ kinds_of columns.now) }
{
    let mut kinds = Vec::with_capacity(alloc, columns.len())?;
    for column in columns {
        kinds.push(column.kind)?;
    }
    Ok(Sequence::from_vec(kinds))
}
