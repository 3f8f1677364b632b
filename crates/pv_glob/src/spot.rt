//! The states of the automaton of two components, and their numbers.
ghost use Rattle.std.specs.Prelude.{◌≡◌, ℕ, ◌+◌, ◌*◌, ◌<◌, ◌≤◌, ◌^◌};
ghost use Rattle.pv_glob.specs.Pairs.{number_of, spot_at};

use crate::beginning::Beginning;

/// A state of the automaton of two components: an index in each component, and how the word began.
#[derive(Clone, Copy)]
pub struct Spot {
    /// The index in the left component.
    pub left: usize,
    /// The index in the right component.
    pub right: usize,
    /// How the word began.
    pub begun: Beginning,
}

/// Returns the number of a state. The right component has `width` - 1 elements, and the left one at most `most`.
pub(crate) fn number_of(width: usize, most: usize, spot: Spot) -> u32
    requires left { spot.left ≤ most }
    requires right { spot.right < width }
    requires range { 7 * ((most + 1) * width) < 2 ^ 32 }
    ensures value { result ≡ number_of width spot }
    ensures inside { result < 7 * ((most + 1) * width) }
{
    let cell = spot.left * width + spot.right;
    (7 * cell) as u32 + spot.begun.number()
}

/// Returns the state with a number.
pub(crate) fn spot_at(width: usize, most: usize, number: u32) -> Spot
    requires width { 0 < width }
    requires inside { number < 7 * ((most + 1) * width) }
    ensures value { result ≡ spot_at width number }
    ensures left { result.left ≤ most }
    ensures right { result.right < width }
{
    let cell = (number / 7) as usize;
    Spot {
        left: cell / width,
        right: cell % width,
        begun: Beginning::numbered(number % 7),
    }
}
