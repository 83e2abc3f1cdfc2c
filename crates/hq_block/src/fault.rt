//! Why a row or a block was not read or written.
ghost use Rattle.std.specs.Prelude.{◌≡◌};

use hq_value::NoMemory as OutOfMemory;
use std::alloc::{AllocError, AllocFailed};

/// Why no row was read.
#[derive(Clone, Copy, Debug, PartialEq, Eq)]
pub enum RowFault {
    /// The bytes begin with no row of the kinds.
    NotARow,
    NoMemory,
}

/// Why no block was read.
#[derive(Clone, Copy, Debug, PartialEq, Eq)]
pub enum BlockFault {
    /// The bytes begin with no block of the kinds.
    NotABlock,
    NoMemory,
}

/// Why no block was written.
#[derive(Clone, Copy, Debug, PartialEq, Eq)]
pub enum EncodeFault {
    /// The block would be longer than 65,536 bytes.
    TooLarge,
    NoMemory,
}

/// What reading met in place of what it sought.
#[derive(Clone, Copy, Debug, PartialEq, Eq)]
pub enum Misread {
    /// The bytes do not begin with it.
    Absent,
    NoMemory,
}

impl From<AllocError> for Misread {
    ghost use Rattle.hq_block.specs.declared.fault.Misread.TheVariants.{NoMemory};

    ghost from_gives = { λ _ e. e ≡ NoMemory };

    fn from(_: AllocError) -> Self {
        Misread::NoMemory
    }
}

impl<T: Drop> From<AllocFailed<T>> for Misread {
    ghost use Rattle.hq_block.specs.declared.fault.Misread.TheVariants.{NoMemory};

    ghost from_gives = { λ _ e. e ≡ NoMemory };

    fn from(_: AllocFailed<T>) -> Self {
        Misread::NoMemory
    }
}

impl From<OutOfMemory> for Misread {
    ghost use Rattle.hq_block.specs.declared.fault.Misread.TheVariants.{NoMemory};

    ghost from_gives = { λ _ e. e ≡ NoMemory };

    fn from(_: OutOfMemory) -> Self {
        Misread::NoMemory
    }
}

impl From<Misread> for RowFault {
    ghost use Rattle.hq_block.specs.Fault.{row_fault};

    ghost from_gives = { λ e f. f ≡ row_fault e };

    fn from(misread: Misread) -> Self {
        match misread {
            Misread::Absent => RowFault::NotARow,
            Misread::NoMemory => RowFault::NoMemory,
        }
    }
}

impl From<Misread> for BlockFault {
    ghost use Rattle.hq_block.specs.Fault.{block_fault};

    ghost from_gives = { λ e f. f ≡ block_fault e };

    fn from(misread: Misread) -> Self {
        match misread {
            Misread::Absent => BlockFault::NotABlock,
            Misread::NoMemory => BlockFault::NoMemory,
        }
    }
}

impl From<AllocError> for EncodeFault {
    ghost use Rattle.hq_block.specs.declared.fault.EncodeFault.TheVariants.{NoMemory};

    ghost from_gives = { λ _ e. e ≡ NoMemory };

    fn from(_: AllocError) -> Self {
        EncodeFault::NoMemory
    }
}

impl From<OutOfMemory> for EncodeFault {
    ghost use Rattle.hq_block.specs.declared.fault.EncodeFault.TheVariants.{NoMemory};

    ghost from_gives = { λ _ e. e ≡ NoMemory };

    fn from(_: OutOfMemory) -> Self {
        EncodeFault::NoMemory
    }
}
