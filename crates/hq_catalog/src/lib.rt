//! The catalogue: the one state of the engine. It has the tables, the lanes that are at home, the seals of what is
//! committed, the marks of the nodes, and the log of all that was answered. Here is what is asked of it and what it
//! answers, its history, and what holds of every catalogue.
#![tactic(auto)]

mod ask;
mod books;
mod catalogue;
mod commits;
mod copies;
mod define;
mod desk;
mod kept;
mod kind;
mod laws;
mod plan;
mod prepare;
mod ready;
mod settle;
mod table;

pub use ask::{Answer, Ask};
pub use catalogue::Catalogue;
pub use kept::{Change, Grown};
pub use laws::{a_step_has_its_causes, others_change_nothing_that_may_be_asked};
pub use ready::Ready;
