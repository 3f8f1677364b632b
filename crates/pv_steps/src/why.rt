//! The reasons why a walk along a path is refused.
/// Why a path is refused at one of its components: walking it would be an unsafe path transition (tmpfiles.d(5)).
///
/// At one component, the reasons are looked for in the order of the variants.
#[derive(Clone, Copy, PartialEq, Eq)]
pub enum Why {
    /// A component before the last one is a symbolic link.
    Link,
    /// A component before the last one is present, and it is neither a directory nor a link.
    NotDirectory,
    /// The directory above the component does not belong to root, and the component belongs to a user other than the
    /// owner of that directory.
    ///
    /// An absent component counts as owned by root, except that the caller names the user to whom an absent last
    /// component is to belong.
    UnsafeOwner,
}
