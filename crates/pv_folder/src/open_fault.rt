//! Why a folder is not opened.
ghost use Rattle.std.specs.Prelude.{◌≡◌};
ghost use Rattle.pv_folder.specs.declared.open_fault.OpenFault.TheVariants.{Memory};
ghost use Rattle.pv_folder.specs.Opening.{of_host, of_image};

use crate::host::HostFault;
use pv_image::ImageFault;
use pv_path::Bytes;
use std::alloc::{AllocError, AllocFailed};
use std::fmt;
use thiserror::Error;

/// Why a folder is not opened. All except `HostFailed` and `Memory` are defects of the folder.
#[derive(Drop, Error)]
pub enum OpenFault {
    /// The host failed, and its count of faults rose.
    #[error("HostFailed")]
    HostFailed,
    /// The folder has no directory `tree`, or `manifest` or `manifest.new` is present and not a file.
    #[error("NotPrepared")]
    NotPrepared,
    /// The manifest is not an image, for this reason.
    #[error("BadManifest")]
    BadManifest(ImageFault),
    /// An object is neither a directory nor a file, or its name is not allowed in a tree. Or it was gone when it
    /// was to be listed or read.
    ///
    /// The bytes are its path in the folder as printed bytes, such as `/tree/run/socket`.
    #[error("OddObject")]
    OddObject(Bytes),
    /// Below `tree` there are more than 1,000,000 objects, or the files have more than 67,108,864 bytes (64 MiB)
    /// together.
    #[error("TooLarge")]
    TooLarge,
    /// Memory ran out.
    #[error("Memory")]
    Memory,
}

impl fmt::Debug for OpenFault {
    fn fmt<W: fmt::Write>(&self, f: &mut fmt::Formatter<W>) -> fmt::Result {
        fmt::Display::fmt(self, f)
    }
}

impl From<AllocError> for OpenFault {
    ghost from_gives = { λ _ e. e ≡ Memory };

    fn from(_e: AllocError) -> OpenFault {
        OpenFault::Memory
    }
}

impl<T: Drop> From<AllocFailed<T>> for OpenFault {
    ghost from_gives = { λ _ e. e ≡ Memory };

    fn from(_e: AllocFailed<T>) -> OpenFault {
        OpenFault::Memory
    }
}

impl From<HostFault> for OpenFault {
    ghost from_gives = { λ fault e. e ≡ of_host fault };

    fn from(fault: HostFault) -> OpenFault {
        match fault {
            HostFault::Failed => OpenFault::HostFailed,
            HostFault::Memory => OpenFault::Memory,
        }
    }
}

impl From<ImageFault> for OpenFault {
    ghost from_gives = { λ fault e. e ≡ of_image fault };

    fn from(fault: ImageFault) -> OpenFault {
        match fault {
            ImageFault::Memory => OpenFault::Memory,
            _ => OpenFault::BadManifest(fault),
        }
    }
}
