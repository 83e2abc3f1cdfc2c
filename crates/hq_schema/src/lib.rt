//! What CREATE TABLE and ALTER TABLE make of the tables that are there, and these tables by their numbers.
#![tactic(auto)]

mod alter;
mod create;
mod laws;
mod numbers;

pub use alter::{AlterFault, add_column};
pub use create::{CreateFault, MOST_TABLES, create_table};
pub use laws::numbers_are_apart;
pub use numbers::{Defs, keep_the_rules, numbered};
