//! Pairs of heads, each with a path.
use pv_path::{Sequence, TreePath};

/// Two heads, or two lines, with a path that they share. They are given by their indices, counted from 0.
#[derive(Drop)]
pub struct Pair {
    /// The index of the first one.
    pub first: u32,
    /// The index of the second one, which is greater.
    pub second: u32,
    /// The path.
    pub path: TreePath,
}

/// A list of pairs. In contracts, a value is the list of the pairs.
pub type PairList = Sequence<Pair>;
