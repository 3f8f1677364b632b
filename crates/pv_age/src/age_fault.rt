//! Why a text is not an age.
use thiserror::Error;

/// Why a text is not an age. The list of timestamp letters is checked first, then pair by pair the number, its unit
/// and the sum so far.
#[derive(Clone, Copy, Debug, PartialEq, Eq, Error)]
pub enum AgeFault {
    /// The list of timestamp letters before the `:` is empty, or a byte in it is not such a letter.
    #[error("BadStampLetter")]
    BadStampLetter,
    /// Where a number must begin, there is no digit. A text without any number gives this error too.
    #[error("BadNumber")]
    BadNumber,
    /// The letters after a number are not a unit.
    #[error("BadUnit")]
    BadUnit,
    /// A number with its unit, or the sum so far, does not fit into 64 bits as microseconds.
    #[error("Overflow")]
    Overflow,
}
