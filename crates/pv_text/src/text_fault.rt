//! Why a line cannot be split into fields, and why the specifiers of a text cannot be expanded.
ghost use Rattle.std.specs.Prelude.{◌≡◌};
ghost use Rattle.pv_text.specs.declared.text_fault.ExpandFault.TheVariants.{Memory};
ghost use Rattle.pv_text.specs.FaultNames.{expansion_name, field_name};

use std::alloc::{AllocError, AllocFailed};
use thiserror::Error;

/// Why a configuration line cannot be split into fields. The number in a variant is the index of the faulty byte in the
/// line, counted from 0.
#[derive(Clone, Copy, Debug, PartialEq, Eq, Error)]
pub enum FieldFault {
    /// There is a NUL byte at this index.
    #[error("BadByte")]
    BadByte(usize),
    /// The quote at this index is never closed.
    #[error("OpenQuote")]
    OpenQuote(usize),
    /// The byte at this index follows a closing quote, and is not a blank.
    #[error("GluedQuote")]
    GluedQuote(usize),
    /// The backslash at this index begins no escape.
    #[error("BadEscape")]
    BadEscape(usize),
    /// The line has no Type, or no Path.
    #[error("TooFew")]
    TooFew,
}

impl FieldFault {
    /// Returns the name of the fault as messages have it, such as `BadEscape`, without the index. The call does not
    /// allocate.
    pub fn name(self) -> &'static [u8]
        ensures { result.now ≡ field_name self }
    {
        match self {
            FieldFault::BadByte(_) => b"BadByte",
            FieldFault::OpenQuote(_) => b"OpenQuote",
            FieldFault::GluedQuote(_) => b"GluedQuote",
            FieldFault::BadEscape(_) => b"BadEscape",
            FieldFault::TooFew => b"TooFew",
        }
    }
}

/// Why the specifiers of a text cannot be expanded.
#[derive(Clone, Copy, Debug, PartialEq, Eq, Error)]
pub enum ExpandFault {
    /// The tool does not know the specifier, or a percent sign is the last byte.
    #[error("UnknownSpecifier")]
    UnknownSpecifier,
    /// The specifier needs a fact that the image does not give.
    #[error("MissingFact")]
    MissingFact,
    /// An allocation failed.
    #[error("Memory")]
    Memory,
}

impl ExpandFault {
    /// Returns the name of the fault as messages have it, such as `MissingFact`. The call does not allocate.
    pub fn name(self) -> &'static [u8]
        ensures { result.now ≡ expansion_name self }
    {
        match self {
            ExpandFault::UnknownSpecifier => b"UnknownSpecifier",
            ExpandFault::MissingFact => b"MissingFact",
            ExpandFault::Memory => b"Memory",
        }
    }
}

impl From<AllocError> for ExpandFault {
    ghost from_gives = { λ _ e. e ≡ Memory };

    fn from(_e: AllocError) -> ExpandFault {
        ExpandFault::Memory
    }
}

impl<T: Drop> From<AllocFailed<T>> for ExpandFault {
    ghost from_gives = { λ _ e. e ≡ Memory };

    fn from(_e: AllocFailed<T>) -> ExpandFault {
        ExpandFault::Memory
    }
}
