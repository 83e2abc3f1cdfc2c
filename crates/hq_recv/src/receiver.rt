//! The receiving end.
ghost use Rattle.std.specs.Prelude.{◌≡◌, ◌≢◌, ◌+◌, ◌-◌, ◌*◌, ◌^◌, ◌<◌, ◌≤◌, ◌++◌, ℕ, List, [], true, false, length, take, drop, replicate, Some, None, vec_len, vec_capacity, slice_set, IfOk, OnOk, OnErr, Ok};
ghost use Rattle.hq_stream.specs.Piece.{Piece, Bytes, End};
ghost use Rattle.hq_stream.specs.TwoEnds.{Sent};
ghost use Rattle.hq_stream.specs.Receiving.{Receiving, fresh, came, is_over};
ghost use Rattle.hq_link.specs.Gram.{may_bring};
ghost use Rattle.hq_link.specs.Seen.{seen};
ghost use Rattle.hq_link.specs.Streams.{piece_in, piece_for};
ghost use Rattle.hq_recv.specs.Taking.{Taker, took, took_of, after, drained, with_more};
ghost use Rattle.hq_recv.specs.Slots.{IsTaken, IsSettled, IsWaiting, IsShort, piece_from};

use crate::slot::{Filling, PIECE, Slot, append_sure};
use crate::took::Brought;
use crate::{Take, Took};
use hq_link::{Packet, Route, Seen, read};
use hq_value::NoMemory;
use std::alloc::Global;
use std::marker::Model;

/// How many numbers, from the wanted one on, have a place.
const WINDOW: usize = 16;

/// From this number on a window would pass the numbers of a datagram, so nothing more is taken.
const LAST: u64 = u64::MAX - 15;

/// The receiving end of a stream.
#[derive(Drop)]
pub struct Receiver {
    route: Route,
    wanted: u64,
    got: Vec<u8>,
    ended: bool,
    slots: Vec<Slot>,
}

impl Model for Receiver {
    ghost use Rattle.std.specs.Prelude.{◌≡◌, length};
    ghost use Rattle.hq_recv.specs.Taking.{Taker};
    ghost use Rattle.hq_recv.specs.Slots.{IsWaiting};

    ghost Value = { Taker };

    ghost view = { λ r. record { route = r.route; state = record { wanted = r.wanted; got = r.got.items; ended = r.ended; kept = r.slots.items } } };

    ghost invariant = { λ r. (length r.slots.items ≡ 16) × IsWaiting r.slots.items };
}

impl Receiver {
    /// The end that has nothing yet, of a stream between two nodes, both below 16. It has the room for the pieces
    /// that come ahead.
    pub fn new(
        alloc: Global,
        from: u8,
        to: u8,
        query: u64,
        motion: u16,
    ) -> Result<Receiver, NoMemory>
        requires from { from < 16 }
        requires to { to < 16 }
        ensures { IfOk result (λ r. r ≡ record { route = record { from = from; to = to; query = query; motion = motion }; state = fresh }) }
    {
        let slots = slots(alloc)?;
        Ok(Receiver {
            route: Route {
                from,
                to,
                query,
                motion,
            },
            wanted: 0,
            got: Vec::new(alloc),
            ended: false,
            slots,
        })
    }

    /// The stream that it receives.
    pub fn route(&self) -> Route
        ensures { result ≡ self.now.route }
    {
        self.route
    }

    /// Takes the piece that the bytes bring, where it is of this stream and in the window. Only a New one may find no
    /// memory, and then nothing changes.
    pub fn accept(&mut self, bytes: &[u8]) -> Result<Took, NoMemory>
        ensures took { IfOk result (λ t. t ≡ took self.old.state (piece_in self.old.route bytes.now)) }
        ensures state { OnOk result (self.new ≡ record self.old { state = after self.old.state (piece_in self.old.route bytes.now) }) }
        ensures err { OnErr result (self.new ≡ self.old) }
        ensures memory { OnErr result (took self.old.state (piece_in self.old.route bytes.now) ≡ Took.New) }
    {
        match read(bytes) {
            Some(d) => self.accept_seen(d),
            None => Ok(Took::Foreign),
        }
    }

    fn accept_seen(&mut self, d: Seen<'_>) -> Result<Took, NoMemory>
        requires short { length d.payload.now ≤ 1200 }
        ensures took { IfOk result (λ t. t ≡ took self.old.state (piece_for self.old.route (Some (seen d.entry)))) }
        ensures state { OnOk result (self.new ≡ record self.old { state = after self.old.state (piece_for self.old.route (Some (seen d.entry))) }) }
        ensures err { OnErr result (self.new ≡ self.old) }
        ensures memory { OnErr result (took self.old.state (piece_for self.old.route (Some (seen d.entry))) ≡ Took.New) }
    {
        if !self.route.has(&d) {
            return Ok(Took::Foreign);
        }
        match d.kind {
            Packet::Data => self.accept_at(d.seq, Brought::Bytes(d.payload)),
            Packet::Eos => self.accept_at(d.seq, Brought::End),
            Packet::Ack => Ok(Took::Foreign),
            Packet::Probe => Ok(Took::Foreign),
        }
    }

    fn accept_at(&mut self, n: u64, brought: Brought<'_>) -> Result<Took, NoMemory>
        requires { IsShort brought }
        ensures took { IfOk result (λ t. t ≡ took_of self.old.state n) }
        ensures state { OnOk result (self.new ≡ record self.old { state = came self.old.state n (piece_from brought.entry) }) }
        ensures err { OnErr result (self.new ≡ self.old) }
        ensures memory { OnErr result (took_of self.old.state n ≡ Took.New) }
    {
        if n < self.wanted {
            return Ok(Took::Old);
        }
        if self.ended || self.wanted >= LAST || n - self.wanted >= WINDOW as u64 {
            return Ok(Took::Foreign);
        }
        if n == self.wanted {
            return match brought {
                Brought::Bytes(bytes) => self.take_bytes(bytes),
                Brought::End => Ok(self.take_end()),
            };
        }
        let place = (n - self.wanted) as usize;
        keep(&mut self.slots, place, brought);
        Ok(Took::Ahead)
    }

    // Takes the wanted bytes and the pieces that follow.
    fn take_bytes(&mut self, bytes: &[u8]) -> Result<Took, NoMemory>
        requires short { length bytes.now ≤ 1200 }
        requires goes_on { is_over self.old.state ≡ false }
        ensures took { IfOk result (λ t. t ≡ Took.New) }
        ensures state { OnOk result (self.new ≡ record self.old { state = came self.old.state self.old.state.wanted (Bytes bytes.now) }) }
        ensures err { OnErr result (self.new ≡ self.old) }
    {
        self.got.reserve(WINDOW * PIECE)?;
        let (count, ended) = settle(&mut self.slots, &mut self.got, bytes);
        self.wanted += count as u64;
        self.ended = ended;
        Ok(Took::New)
    }

    // Takes the wanted end. What is kept stands behind it.
    fn take_end(&mut self) -> Took
        requires { is_over self.old.state ≡ false }
        ensures took { result ≡ Took.New }
        ensures state { self.new ≡ record self.old { state = came self.old.state self.old.state.wanted End } }
    {
        clear(&mut self.slots);
        self.wanted += 1;
        self.ended = true;
        Took::New
    }

    /// The next number wanted.
    pub fn on_probe(&self) -> u64
        ensures { result ≡ self.now.state.wanted }
    {
        self.wanted
    }

    /// Whether the end was taken.
    pub fn finished(&self) -> bool
        ensures { result ≡ self.now.state.ended }
    {
        self.ended
    }

    /// Hands over the bytes that were taken, in order, and keeps the pieces that came ahead. Want of memory leaves
    /// all as it was.
    pub fn drain<T: Take>(&mut self, take: &mut T) -> Result<(), NoMemory>
        ensures state { OnOk result (self.new ≡ drained self.old) }
        ensures more { OnOk result ((n : ℕ) → T.taken take.new n ≡ with_more (T.taken take.old) self.old.route.from self.old.state.got n) }
        ensures err { OnErr result (self.new ≡ self.old) }
        ensures refused { OnErr result ((n : ℕ) → T.taken take.new n ≡ T.taken take.old n) }
    {
        if self.got.is_empty() {
            return Ok(());
        }
        take.take(self.route.from, &self.got)?;
        self.got.clear();
        Ok(())
    }

    /// The bytes of the whole stream that were not handed over, once its end was taken.
    pub fn stream(self) -> Vec<u8>
        requires { self.state.ended ≡ true }
        ensures { result.items ≡ self.state.got }
    {
        let Receiver { got, .. } = self;
        got
    }
}

fn slots(alloc: Global) -> Result<Vec<Slot>, NoMemory>
    ensures { IfOk result (λ slots. slots.items ≡ replicate 16 None) }
{
    let mut slots = Vec::with_capacity(alloc, WINDOW)?;
    for _place in 0..WINDOW {
        let slot = Slot::new(alloc)?;
        slots.push(slot)?;
    }
    Ok(slots)
}

// Puts a piece into a place.
fn keep(slots: &mut Vec<Slot>, place: usize, brought: Brought<'_>)
    requires short { IsShort brought }
    requires place { place < length slots.old.items }
    ensures { slots.new.items ≡ slice_set slots.old.items place (Some (piece_from brought.entry)) }
{
    let slot = &mut slots[place];
    match brought {
        Brought::Bytes(bytes) => slot.keep(bytes),
        Brought::End => slot.keep_end(),
    }
}

// Takes the bytes and the pieces that follow, and says how many and whether the end was one of them; then it is no
// longer kept what came behind the end.
fn settle(slots: &mut Vec<Slot>, got: &mut Vec<u8>, bytes: &[u8]) -> (usize, bool)
    requires short { length bytes.now ≤ 1200 }
    requires room { vec_len got.old + 19200 ≤ vec_capacity got.old }
    requires places { length slots.old.items ≡ 16 }
    requires waiting { IsWaiting slots.old.items }
    ensures settled { IsSettled slots.old.items bytes.now got.old.items result.0 result.1 got.new.items slots.new.items }
    ensures count { result.0 ≤ 16 }
    ensures waiting { IsWaiting slots.new.items }
    ensures places { length slots.new.items ≡ 16 }
{
    let (count, ended) = take_front(slots, got, bytes);
    if ended {
        clear(slots);
    } else {
        slots.rotate_left(count);
    }
    (count, ended)
}

fn clear(slots: &mut Vec<Slot>)
    requires { length slots.old.items ≡ 16 }
    ensures { slots.new.items ≡ replicate 16 None }
{
    for i in 0..WINDOW {
        let slot = &mut slots[i];
        slot.clear();
    }
}

// Takes the bytes and the pieces in the places behind the first. The places are empty then.
fn take_front(slots: &mut Vec<Slot>, got: &mut Vec<u8>, bytes: &[u8]) -> (usize, bool)
    requires short { length bytes.now ≤ 1200 }
    requires room { vec_len got.old + 19200 ≤ vec_capacity got.old }
    requires places { length slots.old.items ≡ 16 }
    requires waiting { IsWaiting slots.old.items }
    ensures taken { IsTaken slots.old.items bytes.now got.old.items result.0 result.1 got.new.items }
    ensures count { result.0 ≤ 16 }
    ensures waiting { result.1 ≡ false → IsWaiting (drop result.0 slots.old.items) }
    ensures slots { slots.new.items ≡ replicate result.0 None ++ drop result.0 slots.old.items }
{
    append_sure(got, bytes);
    for i in 1..WINDOW {
        let slot = &mut slots[i];
        match slot.give(got) {
            Filling::Empty => return (i, false),
            Filling::Bytes => (),
            Filling::End => return (i + 1, true),
        }
    }
    (WINDOW, false)
}
