//! Why a text is not a line.
ghost use Rattle.std.specs.Prelude.{◌≡◌};
ghost use Rattle.pv_lines.specs.declared.line_fault.LineFault.TheVariants.{Memory};
ghost use Rattle.pv_lines.specs.Faults.{of_acl, of_expansion, of_path, of_pattern};

use pv_acl::AclFault;
use pv_age::AgeFault;
use pv_glob::PatternFault;
use pv_path::PathFault;
use pv_text::{ExpandFault, FieldFault};
use std::alloc::{AllocError, AllocFailed};
use thiserror::Error;

/// Why a text is not a line. `read_line` says which error comes first. Running out of memory is always `Memory`,
/// never an error of a part.
#[derive(Clone, Copy, Debug, Error)]
pub enum LineFault {
    /// The line cannot be split into fields.
    #[error(transparent)]
    Field(FieldFault),
    /// The field Type is empty, or does not begin with the letter of a type.
    #[error("UnknownType")]
    UnknownType,
    /// The field Type has a modifier that the type does not take, or one modifier twice.
    #[error("BadModifier")]
    BadModifier,
    /// A specifier (such as `%b`) in the path or in the argument is unknown, or its value is not known.
    #[error(transparent)]
    Expand(ExpandFault),
    /// The path of the line, its copy source or its link target is not valid.
    #[error(transparent)]
    Path(PathFault),
    /// The pattern of the line is not valid.
    #[error(transparent)]
    Pattern(PatternFault),
    /// The path is the root or the pattern matches it, but the type or the modifier `$` does not allow this.
    #[error("RootPath")]
    RootPath,
    /// The mode is not one to five octal digits of at most 07777, after the prefixes `~` and `:`.
    #[error("BadMode")]
    BadMode,
    /// The user is neither a valid UID nor a name that the lookup knows.
    #[error("UnknownUser")]
    UnknownUser,
    /// The group is neither a valid GID nor a name that the lookup knows.
    #[error("UnknownGroup")]
    UnknownGroup,
    /// The age is not valid.
    #[error(transparent)]
    Age(AgeFault),
    /// The type needs an argument and it is omitted, or it is empty and the type does not allow this.
    #[error("ArgumentNeeded")]
    ArgumentNeeded,
    /// The modifier `~` was given, and the argument is not Base64.
    #[error("BadBase64")]
    BadBase64,
    /// The argument is not `MAJOR:MINOR` with two decimal numbers below 2^32.
    #[error("BadDevice")]
    BadDevice,
    /// The argument is not a list of `NAME=VALUE` words with allowed names and values, or a quote stays open.
    #[error("BadAttribute")]
    BadAttribute,
    /// The argument has a byte that is not a file attribute flag, or it has no flag and not the sign `=`.
    #[error("BadLetter")]
    BadLetter,
    /// The argument is not a list of ACL entries.
    #[error(transparent)]
    Acl(AclFault),
    /// Memory ran out.
    #[error("Memory")]
    Memory,
}

impl From<AllocError> for LineFault {
    ghost from_gives = { λ _ e. e ≡ Memory };

    fn from(_error: AllocError) -> LineFault {
        LineFault::Memory
    }
}

impl<T: Drop> From<AllocFailed<T>> for LineFault {
    ghost from_gives = { λ _ e. e ≡ Memory };

    fn from(_error: AllocFailed<T>) -> LineFault {
        LineFault::Memory
    }
}

impl From<ExpandFault> for LineFault {
    ghost from_gives = { λ f e. e ≡ of_expansion f };

    fn from(fault: ExpandFault) -> LineFault {
        match fault {
            ExpandFault::Memory => LineFault::Memory,
            fault => LineFault::Expand(fault),
        }
    }
}

impl From<PathFault> for LineFault {
    ghost from_gives = { λ f e. e ≡ of_path f };

    fn from(fault: PathFault) -> LineFault {
        match fault {
            PathFault::Memory => LineFault::Memory,
            fault => LineFault::Path(fault),
        }
    }
}

impl From<PatternFault> for LineFault {
    ghost from_gives = { λ f e. e ≡ of_pattern f };

    fn from(fault: PatternFault) -> LineFault {
        match fault {
            PatternFault::Memory => LineFault::Memory,
            fault => LineFault::Pattern(fault),
        }
    }
}

impl From<AclFault> for LineFault {
    ghost from_gives = { λ f e. e ≡ of_acl f };

    fn from(fault: AclFault) -> LineFault {
        match fault {
            AclFault::Memory => LineFault::Memory,
            fault => LineFault::Acl(fault),
        }
    }
}
