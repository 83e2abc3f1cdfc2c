//! What a statement is answered.
use crate::Fault;
use hq_value::{Row, Sequence};

/// Rows, seen as a list.
pub type Rows = Sequence<Row>;

/// The answer to a statement.
#[derive(Debug, PartialEq, Eq, Drop)]
pub enum Reply {
    /// The rows of a query, in the order in which they are printed.
    Rows(Rows),
    /// How many rows were inserted.
    Inserted(u64),
    /// A table was made.
    Created,
    /// A column was added to a table.
    Altered,
    /// A transaction began.
    Begun,
    /// A transaction was committed.
    Committed,
    /// A transaction was rolled back.
    RolledBack,
    /// The statement was refused.
    Error(Fault),
}
