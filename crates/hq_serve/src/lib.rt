//! A session is served: its input is read piece by piece, what its statements ask is answered at a desk, and each reply
//! is written before the next piece is read.
#![tactic(auto)]

mod alone;
mod desk;
mod pieces;
mod serve;
mod settle;

pub use desk::Desk;
pub use serve::{serve_alone, serve_at};
