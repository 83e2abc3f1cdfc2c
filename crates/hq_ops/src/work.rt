//! What an operator keeps between its rows.

use crate::chains::Chains;
use crate::end::Stop;
use crate::gathered::Gathered;
use crate::groups::GroupBy;
use hq_algebra::{Expr, Exprs, Keys16, SortKeys};
use hq_value::Row;
use indexmap::IndexSet;

/// What an operator keeps: the right rows of a Join by their keys, its groups, the first of equal rows, all rows that
/// are sorted at the end; or how it has ended.
#[derive(Drop)]
pub enum Work<'a> {
    Filter(&'a Expr),
    Project(&'a Exprs),
    Join {
        left_keys: &'a Keys16,
        right_keys: &'a Keys16,
        right: Chains<'a>,
    },
    Group {
        by: GroupBy<'a>,
        gathered: Gathered<'a>,
    },
    Distinct(IndexSet<Row>),
    Sort {
        order: &'a SortKeys,
        limit: Option<u64>,
        rows: Vec<Row>,
    },
    Ended(Stop),
}
