//! The receiving end of a stream.
#![tactic(auto)]

mod receiver;
mod slot;
mod take;
mod took;

pub use receiver::Receiver;
pub use take::Take;
pub use took::Took;
