//! The changes of a host in memory, as it records them.
ghost use Rattle.std.specs.Prelude.{◌≡◌, IfOk};

use pv_path::{Bytes, TreePath};
use std::alloc::AllocError;

/// One change of a host.
#[derive(Clone, Drop)]
pub(crate) enum HostChange {
    /// A directory was made.
    MakeDir { path: TreePath },
    /// A file was written as a whole.
    WriteFile { path: TreePath, bytes: Bytes },
    /// The object at a path was moved to another path, with everything below it.
    Rename { from: TreePath, to: TreePath },
    /// A file was removed.
    RemoveFile { path: TreePath },
    /// An empty directory was removed.
    RemoveDir { path: TreePath },
}

impl HostChange {
    /// Copies the change.
    pub(crate) fn copy(&self) -> Result<HostChange, AllocError>
        ensures { IfOk result (λ change. change ≡ self.now) }
    {
        self.clone()
    }
}
