//! A store in memory for tests that tells nothing of its files and seals, and whose reads may give other bytes than
//! were written.
#![tactic(auto)]

mod file;
mod store;

pub use file::{UntoldFile, UntoldSeal};
pub use store::{Reads, UntoldStore};
