//! What a report lists: the lines that share a path, and the lines with a hazard.
use crate::pair::PairList;
use pv_path::Sequence;
use pv_table::Reason;

/// A line with a hazard. The line is given by its index, counted from 0.
#[derive(Drop)]
pub struct Unrepeatable {
    /// The index of the line.
    pub line: u32,
    /// The hazard.
    pub reason: Reason,
}

/// A list of lines with their hazards. In contracts, a value is the list of these.
pub type ReasonList = Sequence<Unrepeatable>;

/// A report on lines: which of them share a path, and which have a hazard.
#[derive(Drop)]
pub struct Report {
    /// Each pair of lines that share a path, with the first such path. The list is in the order of the first indices,
    /// then of the second ones.
    pub pairs: PairList,
    /// Each line with each of its hazards. The list is in the order of the indices, then of the hazards: append,
    /// source, below, input, mask.
    pub unrepeatable: ReasonList,
}
