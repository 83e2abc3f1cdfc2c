//! Queries.
ghost use Rattle.std.specs.Prelude.{◌<◌, ◌≤◌, ◌+◌, ◌++◌, ◌||◌, ◌&&◌, not, IsTrue, length};
ghost use Rattle.hq_algebra.specs.Rules.{is_empty, cannot_fault, are_small, arguments, fit_sources, are_below, are_within};

use crate::{Aggregates, Exprs, Keys16, SortKeys};
use hq_value::Sequence;

/// Numbers of tables.
pub type Tables32 = Sequence<u32>;

/// A bound query. Its columns are those of its sources one after the other; where it is grouped, `having` and
/// `items` speak of the columns of `groups` and then of the aggregates, and else there are no groups, aggregates
/// or `having`. Conditions and `having` hold no arithmetic, so they can't fault.
#[derive(Debug, Drop)]
pub struct Query {
    pub sources: Tables32,
    pub conds: Exprs,
    pub grouped: bool,
    pub groups: Keys16,
    pub aggregates: Aggregates,
    pub having: Exprs,
    pub items: Exprs,
    pub distinct: bool,
    pub order: SortKeys,
    pub limit: Option<u64>,
    ghost some_sources: { 0 < length sources },
    ghost few_sources: { length sources ≤ 8 },
    ghost some_items: { 0 < length items },
    ghost few_items: { length items ≤ 64 },
    ghost conds_fault_never: { IsTrue (cannot_fault conds) },
    ghost having_faults_never: { IsTrue (cannot_fault having) },
    ghost small: { IsTrue (are_small (conds ++ having ++ items ++ arguments aggregates)) },
    ghost plain: { IsTrue (grouped || (is_empty groups && is_empty aggregates && is_empty having)) },
    ghost counts_of_one: { IsTrue (fit_sources sources aggregates) },
    ghost group_columns: { IsTrue (not grouped || are_below (length groups + length aggregates) (having ++ items)) },
    ghost order_columns: { IsTrue (are_within order (length items)) },
}
