//! Why a transfer of bytes failed.
ghost use Rattle.std.specs.Prelude.{◌≡◌};
ghost use Rattle.pv_io.specs.declared.transfer_fault.ReadAllFault.TheVariants.{Memory, ReadFault};

use std::alloc::AllocError;
use thiserror::Error;

/// A read or a write failed. The source or sink has counted a fault.
#[derive(Clone, Copy, Debug, PartialEq, Eq, Error)]
#[error("Failed")]
pub struct Failed;

/// Why the input was not read to its end.
#[derive(Clone, Copy, Debug, PartialEq, Eq, Error)]
pub enum ReadAllFault {
    /// A read failed: the source's count of faults rose.
    #[error("ReadFault")]
    ReadFault,
    /// The source gave more than [`MOST_BYTES`](crate::MOST_BYTES) bytes.
    #[error("TooLong")]
    TooLong,
    /// An allocation failed.
    #[error("Memory")]
    Memory,
}

impl From<Failed> for ReadAllFault {
    ghost from_gives = { λ _ fault. fault ≡ ReadFault };

    fn from(_failed: Failed) -> ReadAllFault {
        ReadAllFault::ReadFault
    }
}

impl From<AllocError> for ReadAllFault {
    ghost from_gives = { λ _ fault. fault ≡ Memory };

    fn from(_error: AllocError) -> ReadAllFault {
        ReadAllFault::Memory
    }
}

/// A write failed: the sink's count of faults rose.
#[derive(Clone, Copy, Debug, PartialEq, Eq, Error)]
#[error("WriteFault")]
pub struct WriteFault;

impl From<Failed> for WriteFault {
    fn from(_failed: Failed) -> WriteFault {
        WriteFault
    }
}
