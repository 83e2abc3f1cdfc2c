//! Operators.
use crate::{Aggregates, Expr, Exprs};
use hq_value::{Keys16, Kinds, Sequence};
use sqlite_items::Boxed;

/// A column by which rows are sorted: in value order, or in its reverse.
#[derive(Clone, Copy, Debug, PartialEq, Eq)]
pub struct SortKey {
    pub column: u16,
    pub descending: bool,
}

/// The columns by which rows are sorted, the first before the others.
pub type SortKeys = Sequence<SortKey>;

/// An operator of a slice, with its inputs.
#[derive(Debug, Drop)]
pub enum Op {
    /// The rows of a table that the node has.
    Scan {
        table: u32,
        kinds: Kinds,
    },
    /// The rows that an earlier slice sent.
    Receive {
        slice: u8,
        kinds: Kinds,
    },
    /// The rows at which the condition is true.
    Filter {
        cond: Expr,
        input: Boxed<Op>,
    },
    /// The values of the items over each row.
    Project {
        items: Exprs,
        input: Boxed<Op>,
    },
    /// The pairs whose keys are equal and not NULL. The left columns come first.
    Join {
        left_keys: Keys16,
        right_keys: Keys16,
        left: Boxed<Op>,
        right: Boxed<Op>,
    },
    /// Groups by keys: the keys, and what each aggregate has come to so far. A count is one Int, a sum is two, and
    /// the least and the greatest are one value.
    Partial {
        keys: Keys16,
        aggregates: Aggregates,
        input: Boxed<Op>,
    },
    /// The groups of partial ones by their first columns: the keys, and the value of each aggregate.
    Final {
        keys: u16,
        aggregates: Aggregates,
        input: Boxed<Op>,
    },
    /// The first of equal rows.
    Distinct(Boxed<Op>),
    /// The rows by the keys, ties by row order; where there is a limit, so many of the first.
    Sort {
        order: SortKeys,
        limit: Option<u64>,
        input: Boxed<Op>,
    },
}
