//! What a line asks for in the create phase, whatever its type letter is.
ghost use Rattle.std.specs.Prelude.{◌≡◌};
ghost use Rattle.pv_table.specs.Repeatable.{sets_of};
ghost use Rattle.pv_table.specs.Turns.{top_of};

use crate::action_table::mode_for_new;
use pv_lines::LineMode;
use pv_path::{Sequence, TreePath};
use pv_walk::{Guard, NewFile, Operation, Test, TopNode};

/// A list of operations, in the order in which they are done.
pub type OperationList = Sequence<Operation>;

/// What a line asks for in the create phase, whatever its type letter is (tmpfiles.d(5), "Type").
#[derive(Drop)]
pub enum Action {
    /// An object is made at the path of the line, or the object there is adjusted.
    Create(Making),
    /// The object at another path is copied to the path of the line, or the object there is adjusted.
    Copy(Copying),
    /// The objects at the paths that the line names are adjusted.
    Adjust(Adjustment),
    /// The line does nothing in the create phase.
    Idle,
}

impl Action {
    /// Returns what the line sets on an object that it does not replace. The call does not allocate.
    pub fn sets(&self) -> &[Operation]
        ensures { result.now ≡ sets_of self.now }
    {
        match self {
            Action::Create(making) => making.sets.as_slice(),
            Action::Copy(copying) => copying.sets.as_slice(),
            Action::Adjust(adjustment) => adjustment.sets.as_slice(),
            Action::Idle => &[],
        }
    }
}

/// What a line asks for if it makes an object at its path.
#[derive(Drop)]
pub struct Making {
    /// The object that is made if there is none, or if the one at the path is replaced.
    pub new: NewFile,
    /// The test that an object at the path must pass to be kept: one that fails it is replaced. With `None` no object
    /// is replaced.
    pub renew: Option<Test>,
    /// What is set on an object at the path that is kept, if it has the kind of `new`. If it has another kind, it is
    /// left as it is, with a message.
    pub sets: OperationList,
}

/// What a line asks for if it copies an object to its path.
///
/// If nothing is at the path, a copy of the source with everything below it is put there. The same happens if a
/// directory is copied and an empty directory is at the path.
#[derive(Drop)]
pub struct Copying {
    /// The path of the source. If it is absent, the line does nothing.
    pub source: TreePath,
    /// The mode of the top of the copy, if the line gives one.
    pub mode: Option<LineMode>,
    /// The UID of the top of the copy, if the line gives an owner.
    pub uid: Option<u32>,
    /// The GID of the top of the copy, if the line gives an owning group.
    pub gid: Option<u32>,
    /// Whether an object at the path that is not of the kind of the source is replaced.
    pub renews: bool,
    /// What is set on an object at the path that is kept, if it has the kind of the source. If it has another kind, it
    /// is left as it is, with a message.
    pub sets: OperationList,
}

impl Copying {
    /// Returns the mode and the owners that the top of the copy gets.
    ///
    /// `directory` says whether it is a directory. The three special bits (07000) of a masked mode are for
    /// directories alone. The call does not allocate.
    pub fn top(&self, directory: bool) -> TopNode
        ensures { result ≡ top_of self.now directory }
    {
        TopNode {
            mode: self.mode.map(|mode| mode_for_new(Some(mode), directory)),
            uid: self.uid,
            gid: self.gid,
        }
    }
}

/// What a line asks for if it adjusts present objects.
#[derive(Drop)]
pub struct Adjustment {
    /// Whether everything below the named paths is adjusted too.
    pub deep: bool,
    /// Which objects at the named paths are adjusted. Any other is left as it is, with a message.
    pub wanted: Guard,
    /// What is set on them.
    pub sets: OperationList,
}
