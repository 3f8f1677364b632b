//! The field Type: a letter and its modifiers.
ghost use Rattle.std.specs.Prelude.{◌≡◌};
ghost use Rattle.std.specs.List.{list_all};
ghost use Rattle.pv_lines.specs.TypeField.{has_mark, stand_once, takes, typed_of, with_marks};

use crate::line_fault::LineFault;
use crate::types::{Row, type_of};

/// A type with its modifiers.
#[derive(Clone, Copy)]
pub(crate) struct Typed {
    /// What the type takes.
    pub row: Row,
    /// Whether it has the modifier `+`, by itself or as the type `F`.
    pub plus: bool,
    /// Whether it has the modifier `!`.
    pub boot: bool,
    /// Whether it has the modifier `-`.
    pub minus: bool,
    /// Whether it has the modifier `=`.
    pub replace: bool,
    /// Whether it has the modifier `~`.
    pub encoded: bool,
    /// Whether it has the modifier `$`.
    pub purge: bool,
}

/// Returns whether a modifier is among some.
fn has_mark(marks: &[u8], mark: u8) -> bool
    ensures { result ≡ has_mark marks.now mark }
{
    marks.iter().any(|other| *other == mark)
}

/// Returns whether a type takes a modifier.
fn takes(row: Row, mark: u8) -> bool
    ensures { result ≡ takes row mark }
{
    match mark {
        b'!' | b'-' => true,
        b'+' => row.plus,
        b'=' => row.replace,
        b'~' => row.encoded,
        b'$' => row.creates,
        _ => false,
    }
}

/// Returns whether a type takes each of some modifiers.
fn takes_all(row: Row, marks: &[u8]) -> bool
    ensures { result ≡ list_all (takes row) marks.now }
{
    marks.iter().all(|mark| takes(row, *mark))
}

/// Returns whether no modifier comes twice.
fn stand_once(marks: &[u8]) -> bool
    ensures { result ≡ stand_once marks.now }
{
    let mut rest = marks;
    while let [mark, after @ ..] = rest {
        if has_mark(after, *mark) {
            return false;
        }
        rest = after;
    }
    true
}

/// Returns a type with the modifiers that follow its letter.
fn with_marks(row: Row, marks: &[u8]) -> Typed
    ensures { result ≡ with_marks row marks.now }
{
    Typed {
        row,
        plus: row.always_plus || has_mark(marks, b'+'),
        boot: has_mark(marks, b'!'),
        minus: has_mark(marks, b'-'),
        replace: has_mark(marks, b'='),
        encoded: has_mark(marks, b'~'),
        purge: has_mark(marks, b'$'),
    }
}

/// Reads the field Type, or gives its error. The call does not allocate.
pub(crate) fn typed_of(text: &[u8]) -> Result<Typed, LineFault>
    ensures { result ≡ typed_of text.now }
{
    let [letter, marks @ ..] = text else {
        return Err(LineFault::UnknownType);
    };
    let Some(row) = type_of(*letter) else {
        return Err(LineFault::UnknownType);
    };
    if takes_all(row, marks) && stand_once(marks) {
        Ok(with_marks(row, marks))
    } else {
        Err(LineFault::BadModifier)
    }
}
