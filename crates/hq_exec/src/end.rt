//! How slices end.
ghost use Rattle.std.specs.Prelude.{◌≡◌};

use hq_lane::ScanFault;
use hq_value::{FileId, NoMemory as OutOfMemory, Row};
use std::alloc::{AllocError, AllocFailed};

/// How a slice ended whose rows are put bit by bit. A fault of the store or of the host goes before Numeric.
#[derive(Debug, Drop)]
pub enum FlowEnd {
    /// All rows were put.
    Done,
    /// An evaluation faulted.
    Numeric,
    /// A fault of the store.
    Store,
    /// The host did not answer.
    Host,
    /// Bytes of the file from `at` on that begin no block.
    BadBlock {
        file: FileId,
        at: u64,
        bytes: Vec<u8>,
    },
    NoMemory,
}

/// How a slice ended that gives a list of rows.
#[derive(Debug, Drop)]
pub enum SliceEnd {
    Rows(Vec<Row>),
    /// An evaluation faulted.
    Numeric,
    /// A fault of the store.
    Store,
    /// The host did not answer.
    Host,
    /// Bytes of the file from `at` on that begin no block.
    BadBlock {
        file: FileId,
        at: u64,
        bytes: Vec<u8>,
    },
    NoMemory,
}

/// What ends the reading of files.
#[derive(Debug, Drop)]
pub enum Ending {
    Store,
    BadBlock {
        file: FileId,
        at: u64,
        bytes: Vec<u8>,
    },
    NoMemory,
}

impl Ending {
    ghost use Rattle.std.specs.Prelude.{◌≡◌, Err, ℕ, List};
    ghost use Rattle.hq_exec.specs.Faults.{ended};

    /// What ends a file's reading.
    pub fn of(file: FileId, fault: ScanFault) -> Ending
        ensures { result ≡ ended file fault }
    {
        match fault {
            ScanFault::Store => Ending::Store,
            ScanFault::BadBlock { at, bytes } => Ending::BadBlock { file, at, bytes },
            ScanFault::NoMemory => Ending::NoMemory,
        }
    }
}

impl From<OutOfMemory> for Ending {
    ghost use Rattle.hq_exec.specs.declared.end.Ending.TheVariants.{NoMemory};

    ghost from_gives = { λ _ e. e ≡ NoMemory };

    fn from(_: OutOfMemory) -> Self {
        Ending::NoMemory
    }
}

impl From<AllocError> for Ending {
    ghost use Rattle.hq_exec.specs.declared.end.Ending.TheVariants.{NoMemory};

    ghost from_gives = { λ _ e. e ≡ NoMemory };

    fn from(_: AllocError) -> Self {
        Ending::NoMemory
    }
}

impl<T: Drop> From<AllocFailed<T>> for Ending {
    ghost use Rattle.hq_exec.specs.declared.end.Ending.TheVariants.{NoMemory};

    ghost from_gives = { λ _ e. e ≡ NoMemory };

    fn from(_: AllocFailed<T>) -> Self {
        Ending::NoMemory
    }
}

/// Why a line of pipes gives nothing.
#[derive(Clone, Copy, Debug, PartialEq, Eq)]
pub enum Halt {
    Numeric,
    NoMemory,
}

impl From<OutOfMemory> for Halt {
    ghost use Rattle.hq_exec.specs.declared.end.Halt.TheVariants.{NoMemory};

    ghost from_gives = { λ _ e. e ≡ NoMemory };

    fn from(_: OutOfMemory) -> Self {
        Halt::NoMemory
    }
}
