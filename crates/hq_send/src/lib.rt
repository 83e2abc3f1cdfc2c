//! The sending end of a stream.
#![tactic(auto)]

mod sender;

pub use sender::Sender;
