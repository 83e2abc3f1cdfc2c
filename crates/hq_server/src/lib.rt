//! Sessions: from the bytes that come in to the bytes that go out.
#![tactic(auto)]

mod database;
mod run;
mod session;
mod why;

pub use hq_doors::{
    Command, Doors, FileName, FilePlan, MemDoors, Opening, Parts, WordFault, read_words,
};
pub use run::{RunEnd, SessionEnd, run_alone};
pub use session::serve_alone;
pub use why::EndWhy;
