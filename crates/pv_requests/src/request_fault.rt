//! Why a text is not a line of sysusers.d(5).
ghost use Rattle.std.specs.Prelude.{◌≡◌};
ghost use Rattle.pv_requests.specs.Faults.{name_of, of_expansion};
ghost use Rattle.pv_requests.specs.declared.request_fault.RequestFault.TheVariants.{Memory};

use pv_text::{ExpandFault, FieldFault};
use std::alloc::{AllocError, AllocFailed};
use thiserror::Error;

/// Why a text is not a line of sysusers.d(5), in the order in which the checks are made. Running out of memory is
/// always `Memory`, never an error of a part.
#[derive(Clone, Copy, Debug, PartialEq, Eq, Error)]
pub enum RequestFault {
    /// The line cannot be split into fields.
    #[error("{0}")]
    Field(FieldFault),
    /// The type is not one of `u`, `u!`, `g`, `m` and `r`.
    #[error("BadType")]
    BadType,
    /// The field ID of an `m` or `r` line is omitted.
    #[error("MissingField")]
    MissingField,
    /// A specifier (such as `%b`) is unknown, or its value is not known.
    #[error("{0}")]
    Expand(ExpandFault),
    /// A user or a group cannot have this name, or an `r` line has one.
    #[error("BadName")]
    BadName,
    /// The ID of a `u` or `g` line is not valid. It can be `-`, a number or an allowed path, and on a `u` line also
    /// `UID:GID` or `UID:GROUP`.
    #[error("BadId")]
    BadId,
    /// The field ID of an `r` line is neither a number nor two numbers in order, such as `500-900`.
    #[error("BadRange")]
    BadRange,
    /// The account cannot have this comment, home directory or shell, or there is a field after Shell.
    #[error("BadField")]
    BadField,
    /// Memory ran out.
    #[error("Memory")]
    Memory,
}

impl From<AllocError> for RequestFault {
    ghost from_gives = { λ _ e. e ≡ Memory };

    fn from(_error: AllocError) -> RequestFault {
        RequestFault::Memory
    }
}

impl<T: Drop> From<AllocFailed<T>> for RequestFault {
    ghost from_gives = { λ _ e. e ≡ Memory };

    fn from(_error: AllocFailed<T>) -> RequestFault {
        RequestFault::Memory
    }
}

impl From<ExpandFault> for RequestFault {
    ghost from_gives = { λ f e. e ≡ of_expansion f };

    fn from(fault: ExpandFault) -> RequestFault {
        match fault {
            ExpandFault::Memory => RequestFault::Memory,
            fault => RequestFault::Expand(fault),
        }
    }
}

/// Returns the name of an error as messages print it, such as `BadType`.
///
/// An error may wrap that of a part: splitting into fields, or expanding a specifier. Then the name is that of the
/// inner error, such as `TooFew`. The name has no index in it. The call does not allocate.
pub fn name_of(fault: RequestFault) -> &'static [u8]
    ensures { result.now ≡ name_of fault }
{
    match fault {
        RequestFault::Field(fault) => fault.name(),
        RequestFault::BadType => b"BadType",
        RequestFault::MissingField => b"MissingField",
        RequestFault::Expand(fault) => fault.name(),
        RequestFault::BadName => b"BadName",
        RequestFault::BadId => b"BadId",
        RequestFault::BadRange => b"BadRange",
        RequestFault::BadField => b"BadField",
        RequestFault::Memory => b"Memory",
    }
}
