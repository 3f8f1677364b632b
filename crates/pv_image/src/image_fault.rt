//! Why bytes are not an image.
ghost use Rattle.std.specs.Prelude.{◌≡◌};
ghost use Rattle.pv_image.specs.declared.image_fault.ImageFault.TheVariants.{Memory};

use std::alloc::{AllocError, AllocFailed};
use thiserror::Error;

/// Why bytes are not an image.
///
/// The number in a variant is that of the first line with a defect, counted from 1. Lines that are notes (they begin
/// with `: `) count too.
#[derive(Clone, Copy, Debug, PartialEq, Eq, Error)]
pub enum ImageFault {
    /// The input has more bytes than are allowed. `read_image` never returns this error. It is for callers that check
    /// the length of their input themselves.
    #[error("TooLong")]
    TooLong,
    /// The first line that is not a note is not the header of a version. A note begins with a colon and a space.
    #[error("BadHeader")]
    BadHeader(u64),
    /// The line is not the spelling of anything that may come after the lines before it. Each thing has exactly one
    /// spelling.
    #[error("BadLine")]
    BadLine(u64),
    /// The letter of a fact, or the path of a node, is not greater than the one before it.
    #[error("OutOfOrder")]
    OutOfOrder(u64),
    /// The first node is not the root directory, the parent of a path is not a directory that was read before, or
    /// the image ends before any node.
    #[error("NoParent")]
    NoParent(u64),
    /// The line has no line feed, or the input ends where this line should begin.
    #[error("Truncated")]
    Truncated(u64),
    /// Memory ran out.
    #[error("Memory")]
    Memory,
}

impl From<AllocError> for ImageFault {
    ghost from_gives = { λ _ e. e ≡ Memory };

    fn from(_e: AllocError) -> ImageFault {
        ImageFault::Memory
    }
}

impl<T: Drop> From<AllocFailed<T>> for ImageFault {
    ghost from_gives = { λ _ e. e ≡ Memory };

    fn from(_e: AllocFailed<T>) -> ImageFault {
        ImageFault::Memory
    }
}
