//! A place for a piece that came ahead.
ghost use Rattle.std.specs.Prelude.{◌≡◌, ◌+◌, ◌<◌, ◌≤◌, ◌++◌, ℕ, List, [], true, false, length, Some, None, vec_len, vec_capacity, IfOk};
ghost use Rattle.hq_stream.specs.Piece.{Piece, Bytes, End};
ghost use Rattle.hq_recv.specs.Slots.{Gives};

use hq_value::NoMemory;
use std::alloc::Global;
use std::marker::Model;

/// How many bytes a piece has at most.
pub(crate) const PIECE: usize = 1200;

/// What stands in a place.
#[derive(Clone, Copy, Debug, PartialEq, Eq)]
pub(crate) enum Filling {
    Empty,
    Bytes,
    End,
}

/// A place for a piece, with room for its bytes.
#[derive(Drop)]
pub(crate) struct Slot {
    filling: Filling,
    bytes: Vec<u8>,
}

impl Model for Slot {
    ghost use Rattle.std.specs.Prelude.{◌≡◌, ◌≤◌, ◌<◌, Option, length, vec_capacity};
    ghost use Rattle.hq_stream.specs.Piece.{Piece};
    ghost use Rattle.hq_recv.specs.Slots.{seen_as};

    ghost Value = { Option Piece };

    ghost view = { λ s. seen_as s.filling s.bytes.items };

    ghost invariant = { λ s. (1200 ≤ vec_capacity s.bytes) × (length s.bytes.items ≤ 1200) };
}

impl Slot {
    /// An empty place.
    pub(crate) fn new(alloc: Global) -> Result<Slot, NoMemory>
        ensures { IfOk result (λ slot. slot ≡ None) }
    {
        let bytes = Vec::with_capacity(alloc, PIECE)?;
        Ok(Slot {
            filling: Filling::Empty,
            bytes,
        })
    }

    /// Keeps the bytes of a Data.
    pub(crate) fn keep(&mut self, bytes: &[u8])
        requires { length bytes.now ≤ 1200 }
        ensures { self.new ≡ Some (Bytes bytes.now) }
    {
        self.bytes.clear();
        match self.bytes.extend_from_slice(bytes) {
            Ok(()) => self.filling = Filling::Bytes,
            Err(_) => unreachable!(),
        }
    }

    /// Keeps the end.
    pub(crate) fn keep_end(&mut self)
        ensures { self.new ≡ Some End }
    {
        self.filling = Filling::End;
    }

    pub(crate) fn clear(&mut self)
        ensures { self.new ≡ None }
    {
        self.filling = Filling::Empty;
    }

    /// Gives what it has, bytes at the end of `got`, and is empty then.
    pub(crate) fn give(&mut self, got: &mut Vec<u8>) -> Filling
        requires { vec_len got.old + 1200 ≤ vec_capacity got.old }
        ensures empty { self.new ≡ None }
        ensures gave { Gives self.old result got.old.items got.new.items }
        ensures room { vec_capacity got.old ≤ vec_capacity got.new }
        ensures len { vec_len got.new ≤ vec_len got.old + 1200 }
    {
        let filling = self.filling;
        self.filling = Filling::Empty;
        match filling {
            Filling::Empty => Filling::Empty,
            Filling::End => Filling::End,
            Filling::Bytes => {
                append_sure(got, &self.bytes);
                Filling::Bytes
            }
        }
    }
}

/// Adds bytes where there is room.
pub(crate) fn append_sure(got: &mut Vec<u8>, bytes: &[u8])
    requires { vec_len got.old + length bytes.now ≤ vec_capacity got.old }
    ensures items { got.new.items ≡ got.old.items ++ bytes.now }
    ensures capacity { vec_capacity got.old ≤ vec_capacity got.new }
    ensures len { vec_len got.new ≡ vec_len got.old + length bytes.now }
{
    match got.extend_from_slice(bytes) {
        Ok(()) => (),
        Err(_) => unreachable!(),
    }
}
