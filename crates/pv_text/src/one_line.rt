//! Texts without a line feed.
ghost use Rattle.std.specs.Prelude.{◌≡◌, ℕ, true, List, IfOk};
ghost use Rattle.pv_path.specs.Printing.{printed_path};
ghost use Rattle.pv_text.specs.Lines.{is_line};

use pv_path::{Bytes, TreePath, print_path};
use std::alloc::{AllocError, Global};
use std::marker::Model;

/// A text without a line feed, so that a message about it is one line.
///
/// In contracts, a value is the list of its bytes.
#[derive(Drop)]
pub struct OneLine {
    bytes: Bytes,
}

impl Model for OneLine {
    ghost Value = { List ℕ };

    ghost view = { λ text. text.bytes };

    ghost invariant = { λ text. is_line text.bytes ≡ true };
}

impl OneLine {
    /// Makes a value from a copy of a text. The text must have no line feed. The only error is `AllocError`.
    pub fn copy_of(alloc: Global, text: &[u8]) -> Result<OneLine, AllocError>
        requires { is_line text.now ≡ true }
        ensures { IfOk result (λ copy. copy ≡ text.now) }
    {
        Ok(OneLine {
            bytes: Bytes::copy_of(alloc, text)?,
        })
    }

    /// Makes the text of a path as messages have it, by `print_path` of pv_path. The only error is `AllocError`.
    pub fn of_path(alloc: Global, path: &TreePath) -> Result<OneLine, AllocError>
        ensures { IfOk result (λ text. text ≡ printed_path path.now) }
    {
        let text = print_path(alloc, path)?;
        Ok(OneLine {
            bytes: Bytes::from_vec(text),
        })
    }

    /// Returns a copy of the text. The only error is `AllocError`.
    pub fn copy(&self) -> Result<OneLine, AllocError>
        ensures { IfOk result (λ copy. copy ≡ self.now) }
    {
        Ok(OneLine {
            bytes: self.bytes.copy()?,
        })
    }

    /// Returns the bytes of the text. None of them is a line feed.
    pub fn as_slice(&self) -> &[u8]
        ensures value { result.now ≡ self.now }
        ensures line { is_line self.now ≡ true }
    {
        self.bytes.as_slice()
    }
}
