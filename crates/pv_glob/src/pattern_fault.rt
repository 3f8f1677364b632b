//! Why a text is not a pattern.
ghost use Rattle.std.specs.Prelude.{◌≡◌};
ghost use Rattle.pv_glob.specs.declared.pattern_fault.PatternFault.TheVariants.{Memory};

use std::alloc::AllocError;
use thiserror::Error;

/// Why a text is not a pattern. The variants are in the order of the checks, as `parse_pattern` makes them.
#[derive(Clone, Copy, Debug, PartialEq, Eq, Error)]
pub enum PatternFault {
    /// The text does not begin with a slash.
    #[error("NotAbsolute")]
    NotAbsolute,
    /// The text has a NUL byte.
    #[error("BadByte")]
    BadByte,
    /// The text has more than 4,095 bytes.
    #[error("PathTooLong")]
    PathTooLong,
    /// A component is `.` or `..`.
    #[error("DotComponent")]
    DotComponent,
    /// A component begins with `.#tf-`, as staging names do.
    #[error("StagingName")]
    StagingName,
    /// A bracket has no end.
    #[error("UnclosedBracket")]
    UnclosedBracket,
    /// A range in a bracket ends below its start, or at a class.
    #[error("BadRange")]
    BadRange,
    /// A bracket has a class that does not exist, or one that begins with `[.` or `[=`.
    #[error("BadClass")]
    BadClass,
    /// The braces of a component are not balanced, a pair of them is empty, or there are too many expansions.
    ///
    /// This component and those before it may have at most 256 together.
    #[error("Brace")]
    Brace,
    /// A component ends with a backslash that is not itself escaped.
    #[error("TrailingBackslash")]
    TrailingBackslash,
    /// An allocation failed.
    #[error("Memory")]
    Memory,
}

impl From<AllocError> for PatternFault {
    ghost from_gives = { λ _ fault. fault ≡ Memory };

    fn from(_error: AllocError) -> PatternFault {
        PatternFault::Memory
    }
}
