//! The configuration that was read.
use pv_path::Sequence;

/// What a run reads as its configuration.
#[derive(Drop)]
pub struct Configuration<L> {
    /// The lines that were read, file by file in the order in which the files are read.
    pub lines: Sequence<L>,
    /// Whether a line was left out because it is not valid.
    pub invalid: bool,
    /// Whether a word was given for which no file was found.
    pub missing: bool,
    /// How many lines the files have, including those that were skipped or are not valid. If several different words
    /// name one file, its lines count once for each of them.
    pub count: u32,
}
