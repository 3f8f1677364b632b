//! The interface of readers of single lines.
ghost use Rattle.std.specs.Prelude.{◌≡◌, ◌++◌, ℕ, List, Option, IfOk, IfSome, OnOk, OnErr};
ghost use Rattle.pv_text.specs.declared.place.Place.{Place as PlaceValue};

use pv_text::{Messages, Place};
use std::alloc::{AllocError, Global};

/// A way to read one line of a configuration, such as that of systemd-tmpfiles.
pub trait LineReader {
    /// What a line is read as.
    type Line: Drop;

    /// In contracts: what a line at a location is read as, or nothing if the line is not valid.
    ghost line_read: { Self → PlaceValue → List ℕ → Option Self.Line };

    /// In contracts: the messages about a line at a location.
    ghost messages_for: { Self → PlaceValue → List ℕ → List (List ℕ) };

    /// In contracts: what holds for each line that is read.
    ghost is_whole: { Self → Self.Line → Type 0 };

    /// Reads a line, and adds the messages about it.
    ///
    /// - `line` is the line without its line feed.
    /// - `place` is its location.
    ///
    /// The answer is the line, or `None` if it is not valid. The only error is `AllocError`, and then no message was
    /// added.
    fn read(
        &self,
        alloc: Global,
        line: &[u8],
        place: &Place,
        messages: &mut Messages,
    ) -> Result<Option<Self::Line>, AllocError>
        ensures read { IfOk result (λ read. read ≡ line_read self.now place.now line.now) }
        ensures whole { IfOk result (λ read. IfSome read (is_whole self.now)) }
        ensures new_messages { OnOk result (messages.new ≡ messages.old ++ messages_for self.now place.now line.now) }
        ensures err { OnErr result (messages.new ≡ messages.old) };
}
