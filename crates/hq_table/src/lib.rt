//! Tables whose rows lie in the files of one lane.
#![tactic(auto)]

mod append;
mod commit;
mod scan;
mod spread;
mod table;
mod write;

pub use table::Table;
