//! What opens the sources and sinks of sessions, and the words that name the files.
#![tactic(auto)]

mod doors;
mod make;
mod memory;
mod opening;
mod plan;
mod words;

pub use doors::Doors;
pub use memory::MemDoors;
pub use opening::{Opening, Parts};
pub use plan::FilePlan;
pub use words::{Command, FileName, WordFault, read_words};
