//! One account file whose text changes.
use pv_path::{Bytes, TreePath};
use pv_walk::Metadata;

/// The new text of one account file, with the metadata that the new file gets.
#[derive(Drop)]
pub struct Edit {
    /// The path of the file, such as /etc/group.
    pub path: TreePath,
    /// The new text.
    pub text: Bytes,
    /// Owners, mode, ACL, extended attributes and file attribute flags.
    pub metadata: Metadata,
}
