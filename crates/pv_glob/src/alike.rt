//! Finds runs of bytes that lead to the same state, without a test of each byte.
ghost use Rattle.std.specs.Prelude.{◌≡◌, ◌≢◌, ◌⊎◌, ◌≤◌, ℕ, true, false, IfSome};
ghost use Rattle.pv_glob.specs.declared.element.Element.TheVariants.{Byte};
ghost use Rattle.pv_glob.specs.Marked.{is_marked, is_wild};

use crate::element::Element;

/// Returns whether an element is `*` or `?`.
pub(crate) fn is_wild(element: &Element) -> bool
    ensures { result ≡ is_wild element.now }
{
    matches!(element, Element::Any | Element::Many)
}

/// Returns the byte of one of two elements that matches this byte alone, if there is such an element.
pub(crate) fn written_in(left: &Element, right: &Element) -> Option<u8>
    ensures { IfSome result (λ written. (left.now ≡ Byte written) ⊎ (right.now ≡ Byte written)) }
{
    match (left, right) {
        (Element::Byte(byte), _) => Some(*byte),
        (_, Element::Byte(byte)) => Some(*byte),
        _ => None,
    }
}

/// Returns the last byte of a run from `byte` on that either is `written` alone or does not have `written`.
pub(crate) fn last_beside(written: u8, byte: u8) -> u8
    ensures later { byte ≤ result }
    ensures alike { (b : ℕ) → byte ≤ b → b ≤ result → (b ≡ byte) ⊎ ((b ≢ written) × (byte ≢ written)) }
{
    if byte < written {
        written - 1
    } else if byte == written {
        byte
    } else {
        255
    }
}

/// Returns the last byte of a run from `byte` on that `*` and `?` treat alike, whatever bytes came before.
pub(crate) fn last_unmarked(byte: u8) -> u8
    ensures later { byte ≤ result }
    ensures alike { (b : ℕ) → byte ≤ b → b ≤ result → (b ≡ byte) ⊎ ((is_marked b ≡ false) × (is_marked byte ≡ false)) }
{
    match byte {
        1..=34 => 34,
        36..=44 => 44,
        48..=101 => 101,
        103..=115 => 115,
        117..=255 => 255,
        _ => byte,
    }
}
