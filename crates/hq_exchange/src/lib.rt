//! Exchanges that give lists.
#![tactic(auto)]

mod lists;
mod whole;

pub use whole::exchange;
