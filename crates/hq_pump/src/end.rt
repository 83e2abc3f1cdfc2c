//! How an exchange ends without the streams.

/// Why an exchange did not give its streams.
#[derive(Clone, Copy, Debug, PartialEq, Eq)]
pub enum ExchangeEnd {
    /// So many troubles came since the last new acknowledgement, or the start. The number is the lowest not
    /// acknowledged of the first stream that isn't finished.
    LinkLost { seq: u64, troubles: u64 },
    /// The link failed.
    LinkFailed,
    NoMemory,
}
