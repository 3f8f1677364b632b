//! The age by which the contents of a directory are cleaned.
use pv_age::Age;

/// The age by which the contents of a directory are cleaned (tmpfiles.d(5), "Age").
#[derive(Clone, Copy)]
pub struct Scope {
    /// The age.
    pub age: Age,
    /// Whether a line that names the directory itself gives the age. If this is `false`, the age comes from a directory
    /// above. Only if this is `true` can the prefix `~` of the age spare the first level: what is directly in the
    /// directory.
    pub own: bool,
}
