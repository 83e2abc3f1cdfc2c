//! A transaction: the lanes that it has in hand, rows written to them by all nodes at once, and what is left of them at a
//! commit or an abort.
#![tactic(auto)]

mod lanes;
mod moves;
mod prepare;
mod shares;
mod state;
mod task;
mod tasks;
mod txn;
mod write;

pub use state::{TxnState, WriteEnd};
pub use txn::Txn;
