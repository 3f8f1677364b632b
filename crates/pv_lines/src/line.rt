//! A line as it was read: all that it asks for, and its location (tmpfiles.d(5)).
use pv_acl::AclLine;
use pv_age::Age;
use pv_glob::Pattern;
use pv_path::{Bytes, TreePath};
use pv_steps::{AttrList, LetterHow, LetterSet};
use pv_text::Place;

/// A line of a configuration, as it was read (tmpfiles.d(5)).
///
/// In a line from `read_line`, the modifiers, the age and the argument are only those that its type takes.
#[derive(Drop)]
pub struct Line {
    /// The letter of its type, as an ASCII byte. The type `F` is kept as `f` with `plus`.
    pub letter: u8,
    /// Whether the modifier `+` was given, or the type is `F`. What it does depends on the type.
    pub plus: bool,
    /// Whether the modifier `!` was given: the line is active only with `--boot`.
    pub boot: bool,
    /// Whether the modifier `-` was given: if the line is refused in the create phase, this does not count as a
    /// failure.
    pub minus: bool,
    /// Whether the modifier `=` was given: an object of another kind at the path is replaced.
    pub replace: bool,
    /// Whether the modifier `~` was given: the argument was written in Base64. `argument` has the decoded bytes.
    pub encoded: bool,
    /// Whether the modifier `$` was given: the purge phase removes the path.
    pub purge: bool,
    /// The path, or the pattern of paths.
    pub path: LinePath,
    /// The text of the path or pattern, after escapes were replaced, specifiers were expanded, and `/var/run/` at the
    /// beginning was read as `/run/`.
    pub path_text: Bytes,
    /// Whether the path began with `/var/run/`, which is read as `/run/`.
    pub moved: bool,
    /// The mode, if one was given.
    pub mode: Option<LineMode>,
    /// The owner, if one was given.
    pub user: Option<LineId>,
    /// The owning group, if one was given.
    pub group: Option<LineId>,
    /// The age, if the type uses one and it was given.
    pub age: Option<Age>,
    /// The argument, as the type of the line reads it.
    pub argument: Argument,
    /// The location of the line: its file and its line number.
    pub place: Place,
}

/// The path or the pattern of a line.
#[derive(Drop)]
pub enum LinePath {
    /// One path. Types that create an object have a path.
    Literal(TreePath),
    /// The paths that a pattern matches (glob(7)). All other types have a pattern.
    Glob(Pattern),
}

/// A mode as a line gives it (tmpfiles.d(5), "Mode").
#[derive(Clone, Copy, PartialEq, Eq)]
pub struct LineMode {
    /// The 12 bits of chmod(2), 0 to 07777.
    pub value: u16,
    /// Whether the prefix `~` was given: the mode is masked by the permissions that an existing object has.
    pub masked: bool,
    /// Whether the prefix `:` was given: the mode is only for new objects.
    pub new_only: bool,
}

/// An owner or an owning group as a line gives it (tmpfiles.d(5), "User, Group").
#[derive(Clone, Copy, PartialEq, Eq)]
pub struct LineId {
    /// The UID or GID, at most 4294967294. A name was already looked up.
    pub id: u32,
    /// Whether the prefix `:` was given: the owner is only for new objects.
    pub new_only: bool,
}

/// The argument of a line, as the type of the line reads it (tmpfiles.d(5), "Argument").
#[derive(Drop)]
pub enum Argument {
    /// Types `f` and `F`: the content of the file, or `None` if the argument was omitted.
    FileBytes(Option<Bytes>),
    /// Type `w`: the bytes to write.
    WriteBytes(Bytes),
    /// Type `L`: the target of the symbolic link, 1 to 4095 bytes without NUL. If the argument was omitted, it is the
    /// path of the line below `/usr/share/factory`.
    Target(Bytes),
    /// Type `C`: the path that is copied. If the argument was omitted, it is the path of the line below
    /// `/usr/share/factory`.
    Source(TreePath),
    /// Types `c` and `b`: the major and the minor number of the device.
    Device { major: u32, minor: u32 },
    /// Types `a` and `A`: ACL entries (acl(5)).
    Entries(AclLine),
    /// Types `t` and `T`: extended attributes (xattr(7)).
    Attrs(AttrList),
    /// Types `h` and `H`: file attribute flags, and whether they are added, taken away or set (chattr(1)).
    Letters { how: LetterHow, letters: LetterSet },
    /// All other types: they take no argument, and a given one is ignored.
    Ignored,
}
