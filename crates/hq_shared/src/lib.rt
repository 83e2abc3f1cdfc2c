//! A value that many sessions ask, each under its pass of the lock: one ask is one step of the value, at the end of
//! all that the session has seen.
#![tactic(auto)]

mod desk;

pub use desk::{Answering, SharedDesk};
