//! The sending end.
ghost use Rattle.std.specs.Prelude.{◌≡◌, ◌+◌, ◌^◌, ◌<◌, ◌≤◌, ◌↔◌, ℕ, suc, true, false, List, length, take, Some, None, IfSome, nat_lt};
ghost use Rattle.hq_stream.specs.Piece.{Piece, eos, piece_at};
ghost use Rattle.hq_link.specs.Gram.{gram_bytes};
ghost use Rattle.hq_link.specs.Streams.{gram_of};
ghost use Rattle.hq_send.specs.Sending.{due_now, after_due, is_new, after_ack, after_quiet};

use hq_link::{Packet, Route, write};
use std::marker::Model;

/// How many bytes a piece has at most.
const PIECE: usize = 1200;

/// How many numbers are on their way at most.
const WINDOW: u64 = 16;

/// The sending end of a stream.
#[derive(Drop)]
pub struct Sender {
    route: Route,
    bytes: Vec<u8>,
    next: u64,
    acked: u64,
    again: bool,
}

impl Model for Sender {
    ghost use Rattle.std.specs.Prelude.{◌≡◌, ◌<◌, ◌≤◌, suc, true};
    ghost use Rattle.hq_stream.specs.Piece.{eos};
    ghost use Rattle.hq_send.specs.Sending.{Sending};

    ghost Value = { Sending };

    ghost view = { λ s. record { route = s.route; stream = s.bytes.items; next = s.next; acked = s.acked; again = s.again } };

    ghost invariant = { λ s. (s.next ≤ suc (eos s.bytes.items)) × (s.acked ≤ s.next) × (s.again ≡ true → s.acked < s.next) };
}

impl Sender {
    /// The end that has sent nothing yet of these bytes, from one node to another, both below 16.
    pub fn new(from: u8, to: u8, query: u64, motion: u16, bytes: Vec<u8>) -> Sender
        requires from { from < 16 }
        requires to { to < 16 }
        ensures { result ≡ record { route = record { from = from; to = to; query = query; motion = motion }; stream = bytes.items; next = 0; acked = 0; again = false } }
    {
        Sender {
            route: Route {
                from,
                to,
                query,
                motion,
            },
            bytes,
            next: 0,
            acked: 0,
            again: false,
        }
    }

    /// The stream that it sends.
    pub fn route(&self) -> Route
        ensures { result ≡ self.now.route }
    {
        self.route
    }

    // The number of the end.
    fn eos(&self) -> u64
        ensures value { result ≡ eos self.now.stream }
        ensures bound { result < 2 ^ 60 }
        ensures acked { self.now.acked ≤ suc result }
        ensures next { self.now.next ≤ suc result }
    {
        (self.bytes.len().div_ceil(PIECE)) as u64
    }

    /// The next number to send: the lowest not acknowledged where it is due again, else the lowest never sent. None
    /// exactly where that is behind the end, or 16 or more above the lowest not acknowledged.
    pub fn due(&mut self) -> Option<u64>
        ensures due { result ≡ due_now self.old }
        ensures after { self.new ≡ after_due self.old }
        ensures in_stream { IfSome result (λ n. n ≤ eos self.old.stream) }
        ensures in_window { IfSome result (λ n. (self.old.acked ≤ n) × (n < self.old.acked + 16)) }
    {
        let eos = self.eos();
        if self.again {
            self.again = false;
            return Some(self.acked);
        }
        if self.next <= eos && self.next < self.acked + WINDOW {
            let n = self.next;
            self.next += 1;
            return Some(n);
        }
        None
    }

    /// Writes the Data or Eos of the number, at most that of the end, to the front of `into`, which holds 1,224 bytes,
    /// and says how many bytes it takes. The piece is copied once.
    pub fn datagram(&self, seq: u64, into: &mut [u8]) -> usize
        requires seq { seq ≤ eos self.now.stream }
        requires room { 1224 ≤ length into.old }
        ensures least { 24 ≤ result }
        ensures most { result ≤ 1224 }
        ensures written { (piece : Piece) → piece_at self.now.stream seq ≡ Some piece → take result into.new ≡ gram_bytes (gram_of self.now.route seq piece) }
    {
        if seq == self.eos() {
            return write(Packet::Eos, self.route, seq, &[], into);
        }
        let start = seq as usize * PIECE;
        let end = self.bytes.len().min(start + PIECE);
        write(Packet::Data, self.route, seq, &self.bytes[start..end], into)
    }

    /// Notes which number the receiver wants. True exactly where that is new: above the earlier ones, and at most one
    /// above the end.
    pub fn on_ack(&mut self, seq: u64) -> bool
        ensures new { result ≡ is_new self.old seq }
        ensures after { self.new ≡ after_ack self.old seq }
    {
        let eos = self.eos();
        if self.acked < seq && seq <= eos + 1 {
            self.acked = seq;
            self.next = self.next.max(seq);
            self.again = false;
            return true;
        }
        false
    }

    /// The lowest number not acknowledged.
    pub fn lowest(&self) -> u64
        ensures { result ≡ self.now.acked }
    {
        self.acked
    }

    /// The lowest number not acknowledged is due again, where it was due before.
    pub fn on_quiet(&mut self)
        ensures { self.new ≡ after_quiet self.old }
    {
        self.again = self.acked < self.next;
    }

    /// Whether the end was acknowledged.
    pub fn finished(&self) -> bool
        ensures finished { (result ≡ true) ↔ (self.now.acked ≡ suc (eos self.now.stream)) }
        ensures test { result ≡ nat_lt (eos self.now.stream) self.now.acked }
    {
        let eos = self.eos();
        self.acked > eos
    }
}
