//! A line as it was read: what it asks for, and its location (sysusers.d(5)).
use pv_path::{Bytes, TreePath};
use pv_text::Place;

/// A line of a configuration, as it was read (sysusers.d(5), "Type").
#[derive(Drop)]
pub enum Request {
    /// The types `u` and `u!`: a user. It asks for a group of the same name too, unless the ID names a primary group.
    User {
        /// The name of the user.
        name: Bytes,
        /// Where the UID comes from.
        id: UserId,
        /// Whether the type is `u!`: the account is locked, so that nobody can log in with it.
        locked: bool,
        /// The full name or another comment, if one was given.
        gecos: Option<Bytes>,
        /// The home directory, if one was given.
        home: Option<Bytes>,
        /// The login shell, if one was given.
        shell: Option<Bytes>,
        /// The location of the line: its file and its line number.
        place: Place,
    },
    /// The type `g`: a group.
    Group {
        /// The name of the group.
        name: Bytes,
        /// Where the GID comes from.
        id: GroupId,
        /// The location of the line: its file and its line number.
        place: Place,
    },
    /// The type `m`: a user becomes a member of a group.
    Member {
        /// The name of the user.
        user: Bytes,
        /// The name of the group.
        group: Bytes,
        /// The location of the line: its file and its line number.
        place: Place,
    },
    /// The type `r`: numbers that new users and groups may get.
    Range {
        /// The lowest number.
        first: u32,
        /// The highest number.
        last: u32,
        /// The location of the line: its file and its line number.
        place: Place,
    },
}

/// Where the UID of a user comes from (sysusers.d(5), "ID").
#[derive(Drop)]
pub enum UserId {
    /// `-`: a free number is chosen.
    Auto,
    /// This number, as UID and as GID of the group of the same name. It is 0 to 4294967294, except 65535.
    Number(u32),
    /// A path: the UID and the GID are those of the object at it.
    Path(TreePath),
    /// `UID:GID` or `UID:GROUP`: this UID or, if it is `-`, a free one, and a primary group.
    Primary { uid: Option<u32>, group: Primary },
}

/// The primary group of a user (sysusers.d(5), "ID").
#[derive(Drop)]
pub enum Primary {
    /// The group with this GID.
    Gid(u32),
    /// The group with this name.
    Name(Bytes),
}

/// Where the GID of a group comes from (sysusers.d(5), "ID").
#[derive(Drop)]
pub enum GroupId {
    /// `-`: a free number is chosen.
    Auto,
    /// This number. It is 0 to 4294967294, except 65535.
    Number(u32),
    /// A path: the GID is that of the object at it.
    Path(TreePath),
}
