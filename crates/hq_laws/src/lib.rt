//! Laws between what queries mean and what plans mean. Each is the contract of a function that does nothing.
#![tactic(auto)]

mod groups;
mod joins;
mod motions;
mod orders;
mod plans;

pub use groups::{finals_look_at_no_expression, splitting_keeps_groups};
pub use joins::{copying_keeps_joins, equated_keys_match, regrouping_keeps_joins};
pub use motions::{dealt_nodes_are_in_use, motions_split_lists};
pub use orders::{renaming_keeps_rules, sources_may_change_places};
pub use plans::{
    equated_joins_stand, final_places_fit, gathered_plans_are_well_formed, gathering_keeps_meaning,
    guarded_scans_are_tested, guards_stand, held_tests_are_said, joining_on_nodes_keeps_meaning,
    joining_plans_are_well_formed, said_tests_stand, scans_stand_under_their_guards,
    sources_stand_in_scans,
};
