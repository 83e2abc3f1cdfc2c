//! What passes know. Contracts alone speak of these types: no value of them is made.
use hq_history::Noted;
use std::collections::LinkedList;

/// A number whose pass was given back: its entries, what it had seen, and what pass 0 had seen until then.
pub struct Ended {
    pub number: u32,
    pub entries: LinkedList<Noted>,
    pub seen: LinkedList<Noted>,
    pub before: LinkedList<Noted>,
}

/// What a pass knows: its number, the history as it has seen it, and its own entries in that; for pass 0 the
/// history that the lock was opened on, the first number of a pass and the next one, and the numbers given back.
pub struct View {
    pub number: u32,
    /// It wasn't given back.
    pub live: bool,
    /// It has the turn.
    pub turn: bool,
    /// It is pass 0.
    pub chief: bool,
    /// The value isn't in the lock yet.
    pub raw: bool,
    pub fixed: u64,
    pub first: u32,
    pub next: u32,
    pub opened: LinkedList<Noted>,
    pub seen: LinkedList<Noted>,
    pub mine: LinkedList<Noted>,
    pub ended: LinkedList<Ended>,
}
