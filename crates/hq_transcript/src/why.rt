/// Why a session ended.
#[derive(Clone, Copy, Debug, PartialEq, Eq)]
pub enum EndWhy {
    /// The input was read to its end.
    End,
    /// A read of the source failed.
    SourceFault,
    /// A write of the sink failed.
    SinkFault,
    /// The input has more than 100,000 pieces or more than 4,294,967,296 bytes.
    InputLimit,
    /// There was no memory to begin with.
    NoMemory,
}
