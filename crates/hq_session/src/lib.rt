//! A session by turns: it is handed a piece of its input or an answer of the catalogue, and asks, replies or does nothing.
//! It knows no lock and no log but what it asks and is answered.
#![tactic(auto)]

mod awaited;
mod begin;
mod commit;
mod define;
mod laws;
mod next;
mod pieces;
mod reading;
mod refuse;
mod session;
mod settle;
mod stores;
mod tables;
mod turn;

pub use laws::answers_can_be_heard;
pub use session::Session;
pub use turn::{Input, Turn};
