//! How a further source meets those before it.
use hq_algebra::Keys16;

/// Where the rows go at which a source is joined.
#[derive(Clone, Copy, Debug, PartialEq, Eq)]
pub enum Way {
    /// Those of the table go to all nodes.
    CopyRight,
    /// Those before it go to all nodes.
    CopyLeft,
    /// Both go to the nodes of their keys.
    MoveBoth,
    /// Those before it go to the nodes of their keys, where the table's lie.
    MoveLeft,
    /// Those of the table go to the nodes of their keys, where those before it lie.
    MoveRight,
    /// Both lie on the nodes of their keys.
    Stay,
}

/// A further source: its table, the columns by which it is joined, and where the rows go.
#[derive(Debug, Drop)]
pub struct Step {
    pub table: u32,
    pub left_keys: Keys16,
    pub right_keys: Keys16,
    pub way: Way,
}
