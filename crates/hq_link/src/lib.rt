//! Datagrams, and the links that carry them.
#![tactic(auto)]

mod codec;
mod counts;
mod datagram;
mod laws;
mod link;
mod pair;
mod reading;
mod route;
mod writing;

pub use codec::{GramFault, decode_datagram, encode_datagram};
pub use datagram::{Datagram, Packet, Payload};
pub use laws::one_spelling;
pub use link::{Got, Link, LinkFault};
pub use pair::UdpPair;
pub use reading::{Seen, read};
pub use route::Route;
pub use writing::write;
