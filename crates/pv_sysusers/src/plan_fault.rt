//! Why there is no plan.
ghost use Rattle.std.specs.Prelude.{◌≡◌};
ghost use Rattle.pv_sysusers.specs.declared.plan_fault.PlanFault.TheVariants.{Memory};

use pv_path::Bytes;
use std::alloc::{AllocError, AllocFailed};

/// The error of [`crate::plan`]: why there are no new texts.
#[derive(Drop)]
pub enum PlanFault {
    /// No number is left for the group or the user of this name: the pool has no number that nobody has.
    NoFreeId(Bytes),
    /// Out of memory.
    Memory,
}

impl From<AllocError> for PlanFault {
    ghost from_gives = { λ _ e. e ≡ Memory };

    fn from(_error: AllocError) -> PlanFault {
        PlanFault::Memory
    }
}

impl<T: Drop> From<AllocFailed<T>> for PlanFault {
    ghost from_gives = { λ _ e. e ≡ Memory };

    fn from(_error: AllocFailed<T>) -> PlanFault {
        PlanFault::Memory
    }
}
