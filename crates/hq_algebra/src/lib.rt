//! Expressions, queries and plans as values; what an expression means, and the kinds of what an operator gives.
#![tactic(auto)]

mod aggregate;
mod copies;
mod evaluate;
mod expr;
mod kinds;
mod laws;
mod misfit;
mod op;
mod operators;
mod plan;
mod query;
mod steps;

pub use aggregate::{Aggregate, Aggregates};
pub use copies::{copy_aggregates, copy_exprs, copy_keys, copy_kinds, copy_order};
pub use evaluate::{Evaluated, Seen, eval, look};
pub use expr::{Expr, Exprs};
pub use hq_value::{ArithKind, CompareKind, Keys16};
pub use kinds::{ExprKind, aggregate_kind, expr_kind};
pub use laws::conditions_never_fault;
pub use misfit::Misfit;
pub use op::{Op, SortKey, SortKeys};
pub use operators::{checked_kinds, kinds_of, partial_kinds};
pub use plan::{Motion, Plan, Slice, Slices};
pub use query::{Query, Tables32};
