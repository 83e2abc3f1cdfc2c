//! Aggregates.
use crate::Expr;
use hq_value::Sequence;

/// What is computed over the rows of a group. All but CountAll skip NULL.
#[derive(Debug, Drop)]
pub enum Aggregate {
    CountAll,
    Count(Expr),
    Sum(Expr),
    Min(Expr),
    Max(Expr),
}

/// Aggregates in order.
pub type Aggregates = Sequence<Aggregate>;
