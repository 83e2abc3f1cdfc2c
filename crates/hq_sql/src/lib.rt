//! Statements of SQL.
#![tactic(auto)]

mod alter;
mod clauses;
mod create;
mod insert;
mod laws;
mod lists;
mod names;
mod select;
mod sources;
mod statement;
mod text;
mod tree;

pub use hq_expr::{
    AggregateKind, ArithKind, ColumnRef, CompareKind, Literal, LongText, ParseFault, SqlExpr,
};
pub use laws::{one_reading, parsed_statements_fit, statements_are_found};
pub use text::{control, parse};
pub use tree::{
    ColumnRefs, Conds, CreateStatement, InsertInput, InsertStatement, Item, Items, Literals, Names,
    OrderBy, OrderKey, OrderKeys, SelectStatement, SourceName, Sources, Statement, Tuples,
};
