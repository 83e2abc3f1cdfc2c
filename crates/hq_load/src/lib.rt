//! The scripts of a load: statements that are made from a number.
#![tactic(auto)]

mod rows;
mod script;

pub use script::load_script;
