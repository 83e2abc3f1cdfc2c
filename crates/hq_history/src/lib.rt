//! The history of a catalogue: its log, in which each entry carries what it left there for good. It is plain data
//! that contracts speak of, and no code makes it.
#![tactic(auto)]

mod laws;
mod noted;

pub use laws::{
    beginnings_are_ordered, entries_have_places, files_follow_the_history, histories_grow,
};
pub use noted::{Deposit, Growth, Noted};
