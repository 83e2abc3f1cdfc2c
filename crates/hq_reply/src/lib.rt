//! Replies, and the texts by which they are answered.
#![tactic(auto)]

mod buffer;
mod fault;
mod numbers;
mod reply;
mod rows;
mod values;
mod write;

pub use fault::Fault;
pub use reply::{Reply, Rows};
pub use write::write_reply;
