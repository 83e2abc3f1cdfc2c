//! Why no plan was read.
ghost use Rattle.std.specs.Prelude.{◌≡◌};

use hq_value::NoMemory as OutOfMemory;
use std::alloc::{AllocError, AllocFailed};

/// Why no plan was read.
#[derive(Clone, Copy, Debug, PartialEq, Eq)]
pub enum PlanFault {
    /// The bytes are no plan.
    NotAPlan,
    NoMemory,
}

impl From<AllocError> for PlanFault {
    ghost use Rattle.hq_planwire.specs.declared.fault.PlanFault.TheVariants.{NoMemory};

    ghost from_gives = { λ _ e. e ≡ NoMemory };

    fn from(_: AllocError) -> Self {
        PlanFault::NoMemory
    }
}

impl<T: Drop> From<AllocFailed<T>> for PlanFault {
    ghost use Rattle.hq_planwire.specs.declared.fault.PlanFault.TheVariants.{NoMemory};

    ghost from_gives = { λ _ e. e ≡ NoMemory };

    fn from(_: AllocFailed<T>) -> Self {
        PlanFault::NoMemory
    }
}

impl From<OutOfMemory> for PlanFault {
    ghost use Rattle.hq_planwire.specs.declared.fault.PlanFault.TheVariants.{NoMemory};

    ghost from_gives = { λ _ e. e ≡ NoMemory };

    fn from(_: OutOfMemory) -> Self {
        PlanFault::NoMemory
    }
}
