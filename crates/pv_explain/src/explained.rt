//! The explanation of one path.
use pv_path::{Bytes, Sequence};
use pv_steps::Node;
use pv_text::Place;

/// What a line does at a path.
#[derive(Clone, Copy, Debug, PartialEq, Eq)]
pub enum Act {
    /// The path is absent before the line, and there is an object after it.
    Makes,
    /// There is an object before the line, and the path is absent after it.
    Removes,
    /// There is an object before and after the line, and the two differ in more than timestamps.
    Changes,
}

/// What one line does at a path.
#[derive(Drop)]
pub struct LineAct {
    /// The location of the line: its file and line number.
    pub place: Place,
    /// What the line does.
    pub act: Act,
}

/// A list of what lines do, in the order of the create phase. In contracts, a value is the list of these.
pub type ActList = Sequence<LineAct>;

/// The explanation of a path: what lines do there in the create phase, and the object there at the end.
#[derive(Drop)]
pub struct Explained {
    /// Each line that changes what is at the path, in the order of the create phase.
    pub acts: ActList,
    /// The node at the end with its payload, or `None` if the path is absent then. The timestamps of the node have no
    /// meaning.
    pub node: Option<(Node, Bytes)>,
}
