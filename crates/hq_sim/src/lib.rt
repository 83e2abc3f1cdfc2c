//! A link in memory that loses, repeats and reorders by a plan.
#![tactic(auto)]

mod act;
mod held;
mod script;
mod sim;

pub use act::Act;
pub use sim::SimLink;
