//! Datagrams.
ghost use Rattle.std.specs.Prelude.{◌≡◌};

use crate::Route;
use std::marker::Model;

/// What a datagram is.
#[derive(Clone, Copy, Debug, PartialEq, Eq)]
pub enum Packet {
    Data,
    Eos,
    Ack,
    Probe,
}

/// The bytes that a datagram brings.
#[derive(Debug, Drop)]
pub struct Payload {
    bytes: Vec<u8>,
}

impl Model for Payload {
    ghost use Rattle.std.specs.Prelude.{List, ℕ};

    ghost Value = { List ℕ };

    ghost view = { λ p. p.bytes.items };
}

impl Payload {
    /// The bytes of a payload.
    pub fn new(bytes: Vec<u8>) -> Payload
        ensures { result ≡ bytes.items }
    {
        Payload { bytes }
    }

    /// Its bytes.
    pub fn as_slice(&self) -> &[u8]
        ensures { result.now ≡ self.now }
    {
        self.bytes.as_slice()
    }
}

/// A datagram of a stream between two nodes.
#[derive(Debug, Drop)]
pub struct Datagram {
    pub kind: Packet,
    pub from: u8,
    pub to: u8,
    pub motion: u16,
    pub query: u64,
    pub seq: u64,
    pub payload: Payload,
}

impl Datagram {
    /// The stream that it is of.
    pub fn route(&self) -> Route
        ensures { result ≡ record { from = self.now.from; to = self.now.to; motion = self.now.motion; query = self.now.query } }
    {
        Route {
            from: self.from,
            to: self.to,
            motion: self.motion,
            query: self.query,
        }
    }
}
