//! Why a text is not a list of ACL entries.
ghost use Rattle.std.specs.Prelude.{◌≡◌};
ghost use Rattle.pv_acl.specs.declared.acl_fault.AclFault.TheVariants.{Memory};

use std::alloc::{AllocError, AllocFailed};
use thiserror::Error;

/// Why a text is not a list of ACL entries. The variants are in the order in which one entry is checked.
#[derive(Clone, Copy, Debug, PartialEq, Eq, Error)]
pub enum AclFault {
    /// The entry has no bytes, for example between two commas in a row.
    #[error("EmptyEntry")]
    EmptyEntry,
    /// The entry does not have three parts, its tag is unknown, or an entry for the mask or for others has a name.
    #[error("BadTag")]
    BadTag,
    /// The name is neither an allowed ID (see `written_id`) nor a name that the lookup finds.
    #[error("UnknownName")]
    UnknownName,
    /// The permissions are not one to three characters of `r`, `w`, `x` and `-`, or one of the letters is repeated.
    #[error("BadPerm")]
    BadPerm,
    /// An allocation failed.
    #[error("Memory")]
    Memory,
}

impl From<AllocError> for AclFault {
    ghost from_gives = { λ _ fault. fault ≡ Memory };

    fn from(_error: AllocError) -> AclFault {
        AclFault::Memory
    }
}

impl<T: Drop> From<AllocFailed<T>> for AclFault {
    ghost from_gives = { λ _ fault. fault ≡ Memory };

    fn from(_error: AllocFailed<T>) -> AclFault {
        AclFault::Memory
    }
}
