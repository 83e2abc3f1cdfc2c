//! A session.
ghost use Rattle.std.specs.Prelude.{◌≡◌, ◌<◌, ◌≤◌, false, []};
ghost use Rattle.hq_session.specs.Keeps.{IsSound, nodes_of, number_of, txn_of};
ghost use Rattle.hq_session.specs.Waits.{awaited_of};

use crate::awaited::Awaited;
use hq_store::{SealCopy, StoredFile};
use hq_txn::{Txn, TxnState};
use std::alloc::Global;

/// A session over a catalogue of so many nodes: its transaction with the lanes in hand, and what it waits for. It must be
/// spent by `close`, when it has no lane.
pub struct Session<F: StoredFile, Z: SealCopy> {
    pub(crate) alloc: Global,
    pub(crate) number: u32,
    pub(crate) nodes: u8,
    pub(crate) txn: Txn<F, Z>,
    pub(crate) awaited: Awaited,
}

impl<F: StoredFile, Z: SealCopy> Session<F, Z> {
    /// A session of this number that has read nothing. It takes no memory.
    pub fn new(alloc: Global, number: u32, nodes: u8) -> Session<F, Z>
        requires some { 0 < nodes }
        requires few { nodes ≤ 16 }
        ensures number { number_of result ≡ number }
        ensures nodes { nodes_of result ≡ nodes }
        ensures idle { txn_of result ≡ record { state = TxnState.Idle; snapshot = false; lanes = []; spare = 0 } }
        ensures awaited { awaited_of result ≡ Awaited.Piece }
        ensures sound { IsSound (txn_of result) }
    {
        Session {
            alloc,
            number,
            nodes,
            txn: Txn::new(alloc),
            awaited: Awaited::Piece,
        }
    }

    /// Ends it, when it has no lane.
    pub fn close(self)
        requires { (txn_of self).lanes ≡ [] }
    {
        let Session {
            alloc: _,
            number: _,
            nodes: _,
            txn,
            awaited: _,
        } = self;
        txn.close();
    }
}
