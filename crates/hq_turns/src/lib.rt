//! What a session asked and was answered in a running statement, and what it owes: definitions and their laws. Nothing
//! here runs.
#![tactic(auto)]

mod laws;
mod worked;

pub use laws::{quiet_counts_tell_no_fault, statements_follow_one_another};
pub use worked::{a_refused_statement, a_select_after_an_insert, a_store_that_fails};
