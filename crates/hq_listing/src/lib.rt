//! Plans whose select list is evaluated on all nodes, so that of the columns only its values travel to the last slice.
//! Each law is the contract of a function that does nothing.
#![tactic(auto)]

mod laws;

pub use laws::{
    listed_scans_stand_under_their_guards, listing_on_nodes_keeps_meaning,
    listing_plans_are_well_formed,
};
