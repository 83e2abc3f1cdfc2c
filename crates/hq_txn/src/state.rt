//! The states of a transaction, and how a write ends.

use hq_value::NoMemory;

/// Where a transaction stands. An idle one has no lane; a failed one writes and commits nothing.
#[derive(Clone, Copy, Debug, PartialEq, Eq)]
pub enum TxnState {
    Idle,
    Open,
    Failed,
}

/// Why rows were not written. Of several faults it is that of the lowest node; a fault goes before want of memory.
#[derive(Clone, Copy, Debug, PartialEq, Eq)]
pub enum WriteEnd {
    /// The store of a node failed.
    Store,
    /// The host of this node failed.
    Host { node: u8 },
    NoMemory,
}

impl From<NoMemory> for WriteEnd {
    ghost use Rattle.std.specs.Prelude.{◌≡◌};
    ghost use Rattle.hq_txn.specs.declared.state.WriteEnd.TheVariants as end;

    ghost from_gives = { λ _ why. why ≡ end.NoMemory };

    fn from(_: NoMemory) -> Self {
        WriteEnd::NoMemory
    }
}
