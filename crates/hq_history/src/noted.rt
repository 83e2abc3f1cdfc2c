//! Entries with their deposits. Contracts alone speak of these types: no value of them is made.
use hq_value::{Column, Entry, FileId, TableDef};
use std::collections::LinkedList;

/// What a Commit added to one file: the committed length before it and after it, and the bytes between the two.
/// Where seals tell nothing of their bytes, there are none.
pub struct Growth {
    pub file: FileId,
    pub before: u64,
    pub after: u64,
    pub bytes: LinkedList<u8>,
}

/// What an entry left for good: a Create the table that it made, or nothing; an Alter the column that it added and
/// the number of its table, or nothing; a Commit what it added to files, each of them once; other entries nothing.
pub enum Deposit {
    Nothing,
    Made(TableDef),
    Added { table: u32, column: Column },
    Published(LinkedList<Growth>),
}

/// An entry of the log with its deposit.
pub struct Noted {
    pub entry: Entry,
    pub deposit: Deposit,
}
