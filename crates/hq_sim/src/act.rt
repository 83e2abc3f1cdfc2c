//! What a link in memory does at a call.

/// What a call of a link in memory does. A `send` takes the first act left where that is `FailSend`, a `next` where it
/// is any other. A `next` that takes none is `Give`. All but `Give` are troubles.
#[derive(Clone, Copy, Debug, PartialEq, Eq)]
pub enum Act {
    /// Gives the first that is flying.
    Give,
    /// Loses the first that is flying, and is quiet.
    Lose,
    /// Gives the first that is flying, and leaves it there.
    Repeat,
    /// Gives the one at that place of those that are flying, from 0, or the last.
    Late(u32),
    /// Gives the one at that place of all that were ever sent, from 0, or the last.
    Stale(u32),
    /// A `send` fails.
    FailSend,
    /// A `next` fails.
    FailNext,
}
