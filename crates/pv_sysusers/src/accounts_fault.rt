//! Why a run over a tree gave up.
ghost use Rattle.std.specs.Prelude.{◌≡◌};
ghost use Rattle.pv_sysusers.specs.declared.accounts_fault.AccountsFault.TheVariants.{Memory};

use pv_path::Bytes;
use std::alloc::{AllocError, AllocFailed};

/// The error of [`crate::accounts_run`]: why a run over a tree gave up.
#[derive(Drop)]
pub enum AccountsFault {
    /// No number is left for the group or the user of this name. No step was done.
    NoFreeId(Bytes),
    /// The tree refused a step, or could not do it, and counted a fault. This was the last step that was asked for.
    Failed,
    /// Out of memory. Some steps may have been done.
    Memory,
}

impl From<AllocError> for AccountsFault {
    ghost from_gives = { λ _ e. e ≡ Memory };

    fn from(_error: AllocError) -> AccountsFault {
        AccountsFault::Memory
    }
}

impl<T: Drop> From<AllocFailed<T>> for AccountsFault {
    ghost from_gives = { λ _ e. e ≡ Memory };

    fn from(_error: AllocFailed<T>) -> AccountsFault {
        AccountsFault::Memory
    }
}
