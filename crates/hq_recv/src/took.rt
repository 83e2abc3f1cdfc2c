//! What a receiver makes of a datagram.

/// What a receiver makes of a datagram.
#[derive(Clone, Copy, Debug, PartialEq, Eq)]
pub enum Took {
    /// The wanted piece, which was taken, and the kept ones that follow.
    New,
    /// Taken before.
    Old,
    /// Kept for later.
    Ahead,
    /// Nothing of this stream, or a number 16 or more above the wanted one, or behind the end that was taken.
    Foreign,
}

/// What a Data or an Eos brings.
#[derive(Clone, Copy)]
pub(crate) enum Brought<'a> {
    Bytes(&'a [u8]),
    End,
}
