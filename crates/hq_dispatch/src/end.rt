//! How a query ends.

use hq_value::{FileId, Row};

/// How a query ended: with its rows, or without. Of several faults that one slice met it is that of the lowest node, and
/// it goes before an evaluation that faults.
#[derive(Debug, Drop)]
pub enum QueryEnd {
    /// The rows of the plan, in their order.
    Rows(Vec<Row>),
    /// Some evaluation faults.
    Numeric,
    /// The store of a node failed.
    Store,
    /// The host of this node failed.
    Host {
        node: u8,
    },
    /// The link of this node counted 32 troubles since its last new acknowledgement.
    LinkLost {
        node: u8,
    },
    /// The link of this node failed.
    LinkFailed {
        node: u8,
    },
    /// This node read bytes of the file from `at` on that begin no block.
    BadBlock {
        node: u8,
        file: FileId,
        at: u64,
        bytes: Vec<u8>,
    },
    NoMemory,
}
