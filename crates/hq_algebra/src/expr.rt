//! Expressions.
use hq_value::{ArithKind, CompareKind, Sequence, Value};
use sqlite_items::Boxed;

/// An expression over a row. A column is named by its place in the row, from 0.
#[derive(Debug, Drop)]
pub enum Expr {
    Column(u16),
    Literal(Value),
    Arith {
        kind: ArithKind,
        left: Boxed<Expr>,
        right: Boxed<Expr>,
    },
    Compare {
        kind: CompareKind,
        left: Boxed<Expr>,
        right: Boxed<Expr>,
    },
    And {
        left: Boxed<Expr>,
        right: Boxed<Expr>,
    },
    Or {
        left: Boxed<Expr>,
        right: Boxed<Expr>,
    },
    Not(Boxed<Expr>),
    IsNull(Boxed<Expr>),
}

/// Expressions in order.
pub type Exprs = Sequence<Expr>;
