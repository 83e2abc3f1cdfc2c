//! The hosts of nodes, what a node runs with, and which node owns which bucket.
#![tactic(auto)]

mod bench;
mod host;
mod list_host;
mod owners;
mod probe;
mod sure_host;

pub use bench::{Bench, Benches};
pub use host::Host;
pub use list_host::ListHost;
pub use owners::assign;
pub use probe::probe_all;
pub use sure_host::SureHost;
