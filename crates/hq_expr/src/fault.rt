//! Why a text isn't read.

use hq_value::NoMemory;
use std::alloc::{AllocError, AllocFailed};

/// A text isn't one of the grammar, or there was no memory.
#[derive(Clone, Copy, Debug, PartialEq, Eq)]
pub enum ParseFault {
    Syntax,
    NoMemory,
}

impl From<AllocError> for ParseFault {
    ghost use Rattle.std.specs.Prelude.{◌≡◌};
    ghost use Rattle.hq_expr.specs.declared.fault.ParseFault.TheVariants.{NoMemory};

    ghost from_gives = { λ _ e. e ≡ NoMemory };

    fn from(_: AllocError) -> ParseFault {
        ParseFault::NoMemory
    }
}

impl From<NoMemory> for ParseFault {
    ghost use Rattle.std.specs.Prelude.{◌≡◌};
    ghost use Rattle.hq_expr.specs.declared.fault.ParseFault.TheVariants.{NoMemory as Starved};

    ghost from_gives = { λ _ e. e ≡ Starved };

    fn from(_: NoMemory) -> ParseFault {
        ParseFault::NoMemory
    }
}

impl<T: Drop> From<AllocFailed<T>> for ParseFault {
    ghost use Rattle.std.specs.Prelude.{◌≡◌};
    ghost use Rattle.hq_expr.specs.declared.fault.ParseFault.TheVariants.{NoMemory as Starved};

    ghost from_gives = { λ _ e. e ≡ Starved };

    fn from(_: AllocFailed<T>) -> ParseFault {
        ParseFault::NoMemory
    }
}
