//! How an operator ends.
ghost use Rattle.std.specs.Prelude.{◌≡◌};
ghost use Rattle.hq_ops.specs.Ends.{end_of};

use hq_value::{NoMemory as OutOfMemory, Row};
use std::alloc::{AllocError, AllocFailed};

/// What an operator gives.
#[derive(Debug, Drop)]
pub enum OpEnd {
    Rows(Vec<Row>),
    /// A step of arithmetic, a count or a sum left 64 bits.
    Numeric,
    NoMemory,
}

/// Why a step of an operator gives nothing.
#[derive(Clone, Copy, Debug, PartialEq, Eq)]
pub enum Stop {
    /// A step of arithmetic, a count or a sum left 64 bits.
    Numeric,
    NoMemory,
}

impl OpEnd {
    ghost use Rattle.std.specs.Prelude.{◌≡◌, Bool, List, IfOk};
    ghost use Rattle.hq_value.specs.declared.value.Value.{Value};
    ghost use Rattle.hq_ops.specs.Ends.{Gives, IsNumericAt, StopsAt, ended};

    /// The rows, or why there are none.
    pub(crate) fn of(rows: Result<Vec<Row>, Stop>) -> OpEnd
        ensures rows { (wanted : List (List Value)) → IfOk rows (λ found. found.items ≡ wanted) → Gives result wanted }
        ensures numeric { (faults : Bool) → StopsAt rows faults → IsNumericAt result faults }
        ensures is { result ≡ ended rows }
    {
        match rows {
            Ok(rows) => OpEnd::Rows(rows),
            Err(Stop::Numeric) => OpEnd::Numeric,
            Err(Stop::NoMemory) => OpEnd::NoMemory,
        }
    }
}

/// The end of an operator that stops.
pub fn end_of(stop: Stop) -> OpEnd
    ensures { result ≡ end_of stop }
{
    match stop {
        Stop::Numeric => OpEnd::Numeric,
        Stop::NoMemory => OpEnd::NoMemory,
    }
}

impl From<AllocError> for Stop {
    ghost use Rattle.hq_ops.specs.declared.end.Stop.TheVariants.{NoMemory};

    ghost from_gives = { λ _ e. e ≡ NoMemory };

    fn from(_: AllocError) -> Self {
        Stop::NoMemory
    }
}

impl<T: Drop> From<AllocFailed<T>> for Stop {
    ghost use Rattle.hq_ops.specs.declared.end.Stop.TheVariants.{NoMemory};

    ghost from_gives = { λ _ e. e ≡ NoMemory };

    fn from(_: AllocFailed<T>) -> Self {
        Stop::NoMemory
    }
}

impl From<OutOfMemory> for Stop {
    ghost use Rattle.hq_ops.specs.declared.end.Stop.TheVariants.{NoMemory};

    ghost from_gives = { λ _ e. e ≡ NoMemory };

    fn from(_: OutOfMemory) -> Self {
        Stop::NoMemory
    }
}
