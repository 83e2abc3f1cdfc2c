//! What a catalogue keeps of the entries that left something for good.
use hq_value::{Column, FileId, TableDef};

/// What a Create or an Alter left: the place of its entry in the log, and the table that was made, or the column that
/// was added and the number of its table.
#[derive(Drop)]
pub enum Change {
    Made {
        place: u64,
        def: TableDef,
    },
    Added {
        place: u64,
        table: u32,
        column: Column,
    },
}

/// What a Commit added to one file: the place of its entry in the log, and the committed length of the file before it
/// and after it. The bytes between the two lie under the file's seal.
#[derive(Clone, Copy, Debug, PartialEq, Eq)]
pub struct Grown {
    pub file: FileId,
    pub place: u64,
    pub before: u64,
    pub after: u64,
}
