//! The versions of the image format.

/// A version of the image format. Both versions are read, and version 2 is written.
#[derive(Clone, Copy, PartialEq, Eq)]
pub enum Version {
    /// Nodes have neither extended attributes nor file attribute flags.
    One,
    /// Nodes may have both.
    Two,
}
