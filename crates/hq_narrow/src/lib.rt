//! Plans in which only some columns of each source travel. Each law is the contract of a function that does nothing.
#![tactic(auto)]

mod laws;
mod taken;

pub use laws::{
    taken_queries_are_bound, taken_rows_keep_rules, taken_scans_stand_under_their_guards,
    taking_columns_keeps_meaning, widened_plans_are_well_formed, widened_plans_mean_the_same,
};
pub use taken::Taken;
