//! The location of a configuration line: its file and its line number.
ghost use Rattle.std.specs.Prelude.{◌≡◌, IfOk};

use crate::one_line::OneLine;
use std::alloc::AllocError;

/// The location of a configuration line: its file and its line number.
#[derive(Drop)]
pub struct Place {
    /// The path of the file, printed as messages have it.
    pub file: OneLine,
    /// The line number, counted from 1.
    pub number: u32,
}

impl Place {
    /// Returns a copy of the location. The only error is `AllocError`.
    pub fn copy(&self) -> Result<Place, AllocError>
        ensures { IfOk result (λ place. place ≡ self.now) }
    {
        Ok(Place {
            file: self.file.copy()?,
            number: self.number,
        })
    }
}
