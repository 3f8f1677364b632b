//! Where the fields of a line are.
ghost use Rattle.std.specs.Prelude.{◌≡◌, ℕ, ◌<◌, ◌≤◌, List, [], ◌∷◌, ◌++◌, take, length, slice_get};

use std::marker::Model;

/// The spans of up to seven fields: the index of the first byte, and the index after the last byte.
///
/// In contracts, a value is the list of spans.
#[derive(Drop)]
pub(crate) struct Spans {
    places: [(usize, usize); 7],
    count: usize,
}

impl Model for Spans {
    ghost Value = { List (ℕ × ℕ) };

    ghost view = { λ s. take s.count s.places };

    ghost invariant = { λ s. (s.count ≤ 7) × (length s.places ≡ 7) };
}

impl Spans {
    /// Returns a value without spans.
    pub(crate) fn new() -> Spans
        ensures { result ≡ [] }
    {
        Spans {
            places: [(0, 0); 7],
            count: 0,
        }
    }

    /// Adds a span at the end. There must be fewer than seven.
    pub(crate) fn push(&mut self, span: (usize, usize))
        requires { length self.old < 7 }
        ensures { self.new ≡ self.old ++ span ∷ [] }
    {
        self.places[self.count] = span;
        self.count += 1;
    }

    /// Returns the number of spans.
    pub(crate) fn len(&self) -> usize
        ensures value { result ≡ length self.now }
        ensures few { result ≤ 7 }
    {
        self.count
    }

    /// Returns the span at an index counted from 0, or `None` past the last span.
    pub(crate) fn get(&self, i: usize) -> Option<(usize, usize)>
        ensures { result ≡ slice_get self.now i }
    {
        if i < self.count {
            Some(self.places[i])
        } else {
            None
        }
    }
}
