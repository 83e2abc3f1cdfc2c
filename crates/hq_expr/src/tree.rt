//! Expressions as trees. Parentheses are gone.

use crate::long_text::LongText;
use hq_value::{ArithKind, CompareKind, Name};
use sqlite_items::Boxed;

/// A column, also with the source that it is of.
#[derive(Debug, Drop)]
pub struct ColumnRef {
    pub source: Option<Name>,
    pub column: Name,
}

/// A literal.
#[derive(Debug, Drop)]
pub enum Literal {
    Null,
    Bool(bool),
    Int(i64),
    Text(LongText),
}

/// An aggregate over an expression.
#[derive(Clone, Copy, Debug, PartialEq, Eq)]
pub enum AggregateKind {
    Count,
    Sum,
    Min,
    Max,
}

/// An expression: what an item, ON, WHERE or HAVING says.
#[derive(Debug, Drop)]
pub enum SqlExpr {
    Literal(Literal),
    Column(ColumnRef),
    CountAll,
    Aggregate {
        kind: AggregateKind,
        of: Boxed<SqlExpr>,
    },
    Arith {
        kind: ArithKind,
        left: Boxed<SqlExpr>,
        right: Boxed<SqlExpr>,
    },
    Compare {
        kind: CompareKind,
        left: Boxed<SqlExpr>,
        right: Boxed<SqlExpr>,
    },
    And {
        left: Boxed<SqlExpr>,
        right: Boxed<SqlExpr>,
    },
    Or {
        left: Boxed<SqlExpr>,
        right: Boxed<SqlExpr>,
    },
    Not(Boxed<SqlExpr>),
    IsNull(Boxed<SqlExpr>),
}
