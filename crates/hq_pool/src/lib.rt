//! The lanes of a table: where each is, and which one is lent next.
#![tactic(auto)]

mod lend;
mod lent;
mod next;
mod pool;
mod slot;

pub use hq_log::{Next, Place};
pub use lent::Lent;
pub use pool::Pool;
pub use slot::Slot;
