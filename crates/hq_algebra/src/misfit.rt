//! Why an operator has no output kinds.
ghost use Rattle.std.specs.Prelude.{◌≡◌};

use hq_value::NoMemory as OutOfMemory;
use std::alloc::{AllocError, AllocFailed};

/// Why no kinds were found.
#[derive(Clone, Copy, Debug, PartialEq, Eq)]
pub enum Misfit {
    /// A column is out of range, or a kind does not fit.
    Wrong,
    NoMemory,
}

impl From<AllocError> for Misfit {
    ghost use Rattle.hq_algebra.specs.declared.misfit.Misfit.TheVariants.{NoMemory};

    ghost from_gives = { λ _ e. e ≡ NoMemory };

    fn from(_: AllocError) -> Self {
        Misfit::NoMemory
    }
}

impl<T: Drop> From<AllocFailed<T>> for Misfit {
    ghost use Rattle.hq_algebra.specs.declared.misfit.Misfit.TheVariants.{NoMemory};

    ghost from_gives = { λ _ e. e ≡ NoMemory };

    fn from(_: AllocFailed<T>) -> Self {
        Misfit::NoMemory
    }
}

impl From<OutOfMemory> for Misfit {
    ghost use Rattle.hq_algebra.specs.declared.misfit.Misfit.TheVariants.{NoMemory};

    ghost from_gives = { λ _ e. e ≡ NoMemory };

    fn from(_: OutOfMemory) -> Self {
        Misfit::NoMemory
    }
}
