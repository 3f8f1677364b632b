//! The fields of a configuration line, borrowed from the line.
ghost use Rattle.std.specs.Prelude.{◌≡◌, ◌≤◌, length, Ok, None, IfSome, slice_get};
ghost use Rattle.std.specs.List.{AllByRecursion};
ghost use Rattle.std.specs.Option.{option_map};
ghost use Rattle.pv_text.specs.Escapes.{HasGoodEscapes};
ghost use Rattle.pv_text.specs.Fields.{Cut, cut_code, IsChecked, fields_of, text_at};

use crate::spans::Spans;
use std::marker::Model;

/// The 2 to 7 fields of a configuration line, borrowed from it. For tmpfiles.d(5) they are Type, Path, Mode, User,
/// Group, Age and Argument. For sysusers.d(5) the first six are Type, Name, ID, GECOS, Home and Shell.
///
/// If a line has fewer than seven fields, it lacks the last ones. In contracts, a value is the line and the spans of
/// its fields.
#[derive(Drop)]
pub struct Fields<'a> {
    line: &'a [u8],
    spans: Spans,
}

impl<'a> Model for Fields<'a> {
    ghost Value = { Cut };

    ghost coded = { cut_code };

    ghost view = { λ f. record { line = f.line.now; spans = f.spans } };

    ghost invariant = { λ f. (length f.spans ≤ 7) × AllByRecursion (IsChecked f.line.now) f.spans };
}

impl<'a> Fields<'a> {
    /// Makes the value from a line and the spans of its fields.
    pub(crate) fn of(line: &'a [u8], spans: Spans) -> Fields<'a>
        requires few { length spans ≤ 7 }
        requires checked { AllByRecursion (IsChecked line.now) spans }
        ensures { result ≡ record { line = line.now; spans = spans } }
    {
        Fields { line, spans }
    }

    /// Returns where a field is in the line: the index of its first byte, and the index after its last byte.
    ///
    /// Fields count from 0, which is Type, to 6, which is Argument. Bytes count from 0. The quotes of a quoted
    /// field are outside of its span. Returns `None` if the line does not have this field.
    pub fn span(&self, i: usize) -> Option<(usize, usize)>
        ensures value { result ≡ slice_get self.now.spans i }
        ensures seven { 7 ≤ i → result ≡ None }
    {
        self.spans.get(i)
    }

    /// Returns the bytes of a field as they are in the line, without its quotes. Escapes are not replaced: `unescape`
    /// does this.
    ///
    /// Fields count from 0, which is Type, to 6, which is Argument. Returns `None` if the line does not have this
    /// field.
    pub fn field(&self, i: usize) -> Option<&'a [u8]>
        ensures value { let spelt = option_map (text_at self.now.line) (slice_get self.now.spans i) in
            option_map (λ text. text.now) result ≡ spelt }
        ensures checked { IfSome result (λ text. HasGoodEscapes text.now) }
        ensures seven { 7 ≤ i → result ≡ None }
    {
        let (start, end) = self.spans.get(i)?;
        Some(&self.line[start..end])
    }
}
