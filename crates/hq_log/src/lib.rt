//! What the entries of a catalogue's log leave of the places of lanes and of the nodes' marks, and which entries
//! are lawful.
#![tactic(auto)]

mod laws;
mod place;

pub use laws::{legal_logs_grow, marks_follow_the_log, pools_follow_the_log, the_next_place};
pub use place::{Next, Place};
