//! Why a text is not a path.
ghost use Rattle.std.specs.Prelude.{◌≡◌};
ghost use Rattle.pv_path.specs.declared.path_fault.PathFault.TheVariants.{Memory};

use std::alloc::AllocError;
use thiserror::Error;

/// Why a text is not a path. The variants are in the order of the checks. The faults of a single component (the last
/// three before `Memory`) are looked for component by component, from the left.
#[derive(Clone, Copy, Debug, PartialEq, Eq, Error)]
pub enum PathFault {
    /// The text does not begin with a slash.
    #[error("NotAbsolute")]
    NotAbsolute,
    /// The text has a NUL byte.
    #[error("BadByte")]
    BadByte,
    /// The text has more than 4,095 bytes.
    #[error("PathTooLong")]
    PathTooLong,
    /// A component is `.` or `..`.
    #[error("DotComponent")]
    DotComponent,
    /// A component has more than 240 bytes. A name in a tree may have 255, but its staging name, which is longer, must
    /// be a name too.
    #[error("NameTooLong")]
    NameTooLong,
    /// A component begins with `.#tf-`, so it is a staging name, which belongs to the program.
    #[error("StagingName")]
    StagingName,
    /// An allocation failed.
    #[error("Memory")]
    Memory,
}

impl From<AllocError> for PathFault {
    ghost from_gives = { λ _ fault. fault ≡ Memory };

    fn from(_error: AllocError) -> PathFault {
        PathFault::Memory
    }
}
