//! How a scan ends, and what ends it early.

use hq_value::Row;

/// How a scan of a range of blocks ended: with its rows, or by a fault of the store, by bytes of the file from `at`
/// on that begin no block, or without memory.
#[derive(Debug, Drop)]
pub enum ScanEnd {
    Rows(Vec<Row>),
    Store,
    BadBlock { at: u64, bytes: Vec<u8> },
    NoMemory,
}

/// Why a cursor passed no block: a fault of the store, bytes of the file from `at` on that begin no block, or no memory.
#[derive(Debug, Drop)]
pub enum ScanFault {
    Store,
    BadBlock { at: u64, bytes: Vec<u8> },
    NoMemory,
}
