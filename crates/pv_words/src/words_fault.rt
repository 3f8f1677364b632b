//! Why arguments were not read.
ghost use Rattle.std.specs.Prelude.{◌≡◌};
ghost use Rattle.pv_words.specs.declared.words_fault.WordsFault.TheVariants.{Memory};

use std::alloc::AllocError;
use thiserror::Error;

/// Why arguments were not read.
#[derive(Clone, Copy, Debug, PartialEq, Eq, Error)]
pub enum WordsFault {
    /// The arguments mean nothing, so the usage was wrong.
    #[error("Usage")]
    Usage,
    /// An allocation failed.
    #[error("Memory")]
    Memory,
}

impl From<AllocError> for WordsFault {
    ghost from_gives = { λ _ fault. fault ≡ Memory };

    fn from(_error: AllocError) -> WordsFault {
        WordsFault::Memory
    }
}
