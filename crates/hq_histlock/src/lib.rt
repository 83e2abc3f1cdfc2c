//! A lock over a value that keeps a history: what each of many sessions did stands in the one history that its
//! owner gets back.
#![tactic(auto)]

mod lock;
mod pass;
mod rule;
mod view;

pub use lock::HistLock;
pub use pass::{Held, Pass};
pub use rule::Logged;
pub use view::{Ended, View};
