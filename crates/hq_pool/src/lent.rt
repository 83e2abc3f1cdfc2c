//! What a pool lends.

/// What a pool answers to who wants a lane: a clean lane, a lane with a tail that has to be cut off first, or the
/// number of a lane that was never lent; or that all are out, and how many these are.
#[derive(Debug, PartialEq, Eq, Drop)]
pub enum Lent<T> {
    Clean(u8, T),
    Sweep(u8, T),
    Fresh(u8),
    AllOut { out: u8 },
}
