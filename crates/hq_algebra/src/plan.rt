//! Plans.
use crate::{Keys16, Op};
use hq_value::Sequence;

/// Where a slice's rows go.
#[derive(Debug, Drop)]
pub enum Motion {
    /// All rows to the lowest node in use.
    Gather,
    /// All rows to each node in use.
    Broadcast,
    /// Each row to the node that owns its bucket by these columns.
    Redistribute(Keys16),
    /// The rows of the plan.
    Result,
}

/// A part of a plan that a node runs by itself.
#[derive(Debug, Drop)]
pub struct Slice {
    pub out: Motion,
    pub root: Op,
}

/// Slices in order. Each is received by a later one.
pub type Slices = Sequence<Slice>;

/// How a query is run on the nodes.
#[derive(Debug, Drop)]
pub struct Plan {
    pub slices: Slices,
}
