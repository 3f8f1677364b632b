//! The elements of patterns: bytes, wildcards and sets of bytes.
ghost use Rattle.std.specs.Prelude.{◌≡◌, IfOk};
ghost use Rattle.std.specs.List.{list_any};
ghost use Rattle.pv_glob.specs.Matching.{in_range, in_set};

use pv_path::Sequence;
use std::alloc::AllocError;

/// The bytes from `low` to `high`, both included, by value.
#[derive(Clone, Copy, PartialEq, Eq)]
pub struct ByteRange {
    /// The least byte.
    pub low: u8,
    /// The greatest byte. If it is less than `low`, the range has no bytes.
    pub high: u8,
}

impl ByteRange {
    /// Returns whether the range has this byte.
    fn has(self, byte: u8) -> bool
        ensures { result ≡ in_range byte self }
    {
        self.low <= byte && byte <= self.high
    }
}

/// The set of bytes for which a bracket stands: those in at least one range, or those in none.
#[derive(Clone, Drop)]
pub struct ByteSet {
    /// Whether the bytes are those in no range. The bracket then begins with `!` or `^`.
    pub negated: bool,
    /// The ranges of the bracket, in their order.
    pub ranges: Sequence<ByteRange>,
}

impl ByteSet {
    /// Returns whether the set has this byte (glob(7)).
    pub fn has(&self, byte: u8) -> bool
        ensures { result ≡ in_set self.now byte }
    {
        let listed = is_listed(self.ranges.as_slice(), byte);
        if self.negated { !listed } else { listed }
    }
}

/// Returns whether at least one of the ranges has this byte.
fn is_listed(ranges: &[ByteRange], byte: u8) -> bool
    ensures { result ≡ list_any (in_range byte) ranges.now }
{
    ranges.iter().any(|range| range.has(byte))
}

/// One element of a component (glob(7)). A period at the beginning of a name is matched only by `Byte`.
#[derive(Clone, Drop)]
pub enum Element {
    /// Exactly this byte.
    Byte(u8),
    /// `?`: any one byte.
    Any,
    /// `*`: any number of bytes, including none.
    Many,
    /// A bracket: one byte of a set.
    OneOf(ByteSet),
}

/// One component of a pattern: the elements that match one name of a path.
pub type Component = Sequence<Element>;

impl Element {
    /// Returns a copy of the element. The only error is `AllocError`.
    pub fn copy(&self) -> Result<Element, AllocError>
        ensures { IfOk result (λ copy. copy ≡ self.now) }
    {
        self.clone()
    }
}

/// Returns a copy of the component.
pub(crate) fn copy_of(component: &Component) -> Result<Component, AllocError>
    ensures { IfOk result (λ copy. copy ≡ component.now) }
{
    component.clone()
}
