//! Rows of operations on one object.
use crate::lines::Nobody;
use pv_acl::{Acl, How, parse_acl, print_acl};
use pv_path::Bytes;
use pv_steps::{Kind, LetterHow, special_bits};
use pv_walk::{Change, Guard, ObjectState, Operation, Test, run_operations};
use std::alloc::{AllocError, Global};
use std::test::Fail;
use test_sheet::{attrs_of, letters_of, plain_node};

/// What a row of a table asks for. New objects are owned by 9. Modes and entries are for objects that are not links.
#[derive(Clone, Copy)]
enum Ask<'a> {
    Make(Kind, &'a [u8]),
    Renew(Kind, &'a [u8], Test),
    Erase,
    Write(&'a [u8]),
    Append(&'a [u8]),
    Owner(Option<u32>, Option<u32>),
    Set(u16),
    Mask(u16),
    Put(&'a [u8], How),
    Attr(&'a [u8], &'a [u8]),
    Letters(LetterHow, &'a [u8]),
}

/// An object with mode 0644.
fn object(alloc: Global, kind: Kind, payload: &[u8], uid: u32) -> Result<ObjectState, AllocError> {
    let mut node = plain_node(alloc, kind, 0o644);
    node.uid = uid;
    node.gid = uid;
    ObjectState::of(alloc, &node, payload)
}

fn change(alloc: Global, ask: Ask<'_>) -> Result<Change, Fail> {
    Ok(match ask {
        Ask::Write(bytes) => Change::Write(Bytes::copy_of(alloc, bytes)?),
        Ask::Append(bytes) => Change::Append(Bytes::copy_of(alloc, bytes)?),
        Ask::Set(mode) => Change::Mode {
            mode,
            masked: false,
        },
        Ask::Mask(mode) => Change::Mode { mode, masked: true },
        Ask::Put(text, how) => Change::Entries {
            line: parse_acl(alloc, text, &Nobody)?,
            how,
        },
        Ask::Owner(uid, gid) => Change::Owner { uid, gid },
        Ask::Attr(name, value) => Change::Attrs(attrs_of(alloc, &[(name, value)])?),
        Ask::Letters(how, bytes) => Change::Letters {
            how,
            letters: letters_of(bytes),
        },
        _ => Change::Owner {
            uid: None,
            gid: None,
        },
    })
}

fn operation(alloc: Global, ask: Ask<'_>) -> Result<Operation, Fail> {
    Ok(match ask {
        Ask::Make(kind, payload) => Operation::Make(object(alloc, kind, payload, 9)?),
        Ask::Renew(kind, payload, test) => {
            let new = object(alloc, kind, payload, 9)?;
            Operation::Renew { test, new }
        }
        Ask::Erase => Operation::Erase,
        Ask::Set(_) | Ask::Mask(_) | Ask::Put(_, _) => Operation::Apply {
            guard: Guard::NoLink,
            change: change(alloc, ask)?,
        },
        _ => Operation::Apply {
            guard: Guard::Every,
            change: change(alloc, ask)?,
        },
    })
}

fn operations(alloc: Global, action_of: &[Ask<'_>]) -> Result<Vec<Operation>, Fail> {
    let mut operations = Vec::new(alloc);
    for ask in action_of {
        operations.push(operation(alloc, *ask)?)?;
    }
    Ok(operations)
}

/// An object of a kind and a mode, owned by root.
fn object_with(alloc: Global, kind: Kind, mode: u16) -> Result<ObjectState, AllocError> {
    let mut start = object(alloc, kind, b"", 0)?;
    start.metadata.special = special_bits(mode);
    start.metadata.acl = Acl::of_mode(alloc, mode);
    Ok(start)
}

/// What some operations leave of an object of a kind and a mode, done once or twice.
fn left_after(
    alloc: Global,
    kind: Kind,
    mode: u16,
    action_of: &[Ask<'_>],
    times: u32,
) -> Result<Option<ObjectState>, Fail> {
    let operations = operations(alloc, action_of)?;
    let mut object_state = Some(object_with(alloc, kind, mode)?);
    for _ in 0..times {
        object_state = run_operations(alloc, operations.as_slice(), object_state)?;
    }
    Ok(object_state)
}

/// The mode of an object; 0 if there is none.
fn mode_of(object_state: &Option<ObjectState>) -> u16 {
    match object_state {
        Some(object_state) => {
            let metadata = &object_state.metadata;
            metadata.acl.access.mode(metadata.special % 8)
        }
        None => 0,
    }
}

/// The text of the ACL of an object; an empty one if there is none.
fn acl_text(alloc: Global, object_state: &Option<ObjectState>) -> Result<Vec<u8>, AllocError> {
    match object_state {
        Some(object_state) => print_acl(alloc, &object_state.metadata.acl),
        None => Ok(Vec::new(alloc)),
    }
}

/// What is tested, the kind and the mode of an object, operations, and the mode after one run and after a second run.
const MODES: &[(&str, Kind, u16, &[Ask<'_>], u16, u16)] = &[
    (
        "a mask beside a base entry, which a second run meets",
        Kind::File,
        0,
        &[Ask::Mask(0o755), Ask::Put(b"u::r", How::Replace)],
        0o400,
        0o444,
    ),
    (
        "no execution",
        Kind::File,
        0o640,
        &[Ask::Mask(0o4755)],
        0o644,
        0o644,
    ),
    (
        "a directory",
        Kind::Directory,
        0o640,
        &[Ask::Mask(0o4755)],
        0o4644,
        0o4644,
    ),
    (
        "granted to others",
        Kind::File,
        0o001,
        &[Ask::Mask(0o755)],
        0o111,
        0o111,
    ),
    (
        "two masks",
        Kind::File,
        0o444,
        &[Ask::Mask(0o200), Ask::Mask(0o777)],
        0,
        0,
    ),
    (
        "set after a mask",
        Kind::File,
        0,
        &[Ask::Mask(0o755), Ask::Set(0o4640)],
        0o4640,
        0o4640,
    ),
    (
        "a link",
        Kind::Link,
        0o777,
        &[Ask::Set(0o644)],
        0o777,
        0o777,
    ),
];

/// The mode of an object after some operations.
fn mode_after(
    alloc: Global,
    kind: Kind,
    mode: u16,
    action_of: &[Ask<'_>],
    times: u32,
) -> Result<u16, Fail> {
    Ok(mode_of(&left_after(alloc, kind, mode, action_of, times)?))
}

#[test]
fn modes_are_set_and_masked(rt: HostRuntime) -> Result<(), Fail> {
    for &(what, kind, mode, action_of, once, twice) in MODES {
        let first = mode_after(rt.alloc(), kind, mode, action_of, 1)?;
        let second = mode_after(rt.alloc(), kind, mode, action_of, 2)?;
        assert_eq!(rt; first, once, "{what}");
        assert_eq!(rt; second, twice, "{what}");
    }
    Ok(())
}

/// An entry for a user, with a mask.
const USER: Ask<'_> = Ask::Put(b"u:1000:rw,m::r", How::Add);

/// The kind of an object with mode 0750, operations, and its ACL after one run, which a second run keeps.
const ENTRIES: &[(Kind, &[Ask<'_>], &[u8])] = &[
    (
        Kind::File,
        &[USER, Ask::Put(b"u:5:r,d:u:5:r", How::Replace)],
        b"u:5:r--",
    ),
    (
        Kind::File,
        &[USER, Ask::Put(b"u:5:r", How::Add)],
        b"u:5:r--,u:1000:rw-,m::r--",
    ),
    (Kind::Link, &[USER, USER], b"-"),
    // A default part begins with the base entries that stand when it is made first, and keeps them.
    (
        Kind::Directory,
        &[Ask::Put(b"d:u:5:r", How::Add), Ask::Set(0o700)],
        b"d:u::rwx,d:u:5:r--,d:g::r-x,d:o::---",
    ),
    (
        Kind::Directory,
        &[Ask::Set(0o711), Ask::Put(b"o::r,d:m::x", How::Replace)],
        b"d:u::rwx,d:g::--x,d:m::--x,d:o::r--",
    ),
];

/// The ACL of an object with mode 0750 after some operations.
fn acl_after(
    alloc: Global,
    kind: Kind,
    action_of: &[Ask<'_>],
    times: u32,
) -> Result<Vec<u8>, Fail> {
    let object_state = left_after(alloc, kind, 0o750, action_of, times)?;
    Ok(acl_text(alloc, &object_state)?)
}

#[test]
fn entries_are_put(rt: HostRuntime) -> Result<(), Fail> {
    for &(kind, action_of, text) in ENTRIES {
        for times in 1..=2u32 {
            let seen = acl_after(rt.alloc(), kind, action_of, times)?;
            assert!(rt; seen.as_slice() == text, "{text:?} {times}");
        }
    }
    Ok(())
}

/// What operations leave of an object owned by 5, or of none.
fn left(
    alloc: Global,
    old: Option<(Kind, &[u8])>,
    action_of: &[Ask<'_>],
) -> Result<Option<ObjectState>, Fail> {
    let operations = operations(alloc, action_of)?;
    let start = match old {
        Some((kind, payload)) => Some(object(alloc, kind, payload, 5)?),
        None => None,
    };
    Ok(run_operations(alloc, operations.as_slice(), start)?)
}

fn is_left(object_state: &Option<ObjectState>, payload: &[u8], owners: (u32, u32)) -> bool {
    match object_state {
        Some(object_state) => {
            object_state.body.payload.as_slice() == payload
                && object_state.metadata.uid == owners.0
                && object_state.metadata.gid == owners.1
        }
        None => false,
    }
}

fn is_owned(object_state: &Option<ObjectState>, owner: u32) -> bool {
    match object_state {
        Some(object_state) => object_state.metadata.uid == owner,
        None => false,
    }
}

const FILE: Option<(Kind, &[u8])> = Some((Kind::File, b"old"));

const LINK: Option<(Kind, &[u8])> = Some((Kind::Link, b"old"));

const DIRECTORY: Option<(Kind, &[u8])> = Some((Kind::Directory, b""));

const MAKE: Ask<'_> = Ask::Make(Kind::File, b"made");

const GROUP: Ask<'_> = Ask::Owner(None, Some(4));

const APPEND: Ask<'_> = Ask::Append(b"er");

/// What is tested, the object before, operations, and the bytes and the owners that they leave.
const LEFT: &[(&str, Option<(Kind, &[u8])>, &[Ask<'_>], &[u8], (u32, u32))] = &[
    ("made", None, &[MAKE, GROUP], b"made", (9, 4)),
    ("present", FILE, &[MAKE, GROUP], b"old", (5, 4)),
    ("made anew", FILE, &[Ask::Erase, MAKE], b"made", (9, 9)),
    ("appended", FILE, &[APPEND, GROUP], b"older", (5, 4)),
    (
        "written",
        FILE,
        &[APPEND, Ask::Write(b"new")],
        b"new",
        (5, 5),
    ),
    (
        "no file",
        LINK,
        &[APPEND, Ask::Write(b"new")],
        b"old",
        (5, 5),
    ),
];

/// What is tested, the object before, and operations that leave none.
const NOTHING_LEFT: &[(&str, Option<(Kind, &[u8])>, &[Ask<'_>])] = &[
    ("made and erased", None, &[MAKE, Ask::Erase]),
    ("erased and written", FILE, &[Ask::Erase, Ask::Write(b"x")]),
    (
        "absent",
        None,
        &[Ask::Write(b"x"), Ask::Owner(Some(1), None)],
    ),
];

/// Whether operations leave an object with these bytes and owners.
fn leaves(
    alloc: Global,
    old: Option<(Kind, &[u8])>,
    action_of: &[Ask<'_>],
    payload: &[u8],
    owners: (u32, u32),
) -> Result<bool, Fail> {
    Ok(is_left(&left(alloc, old, action_of)?, payload, owners))
}

/// Whether operations leave no object.
fn leaves_nothing(
    alloc: Global,
    old: Option<(Kind, &[u8])>,
    action_of: &[Ask<'_>],
) -> Result<bool, Fail> {
    Ok(left(alloc, old, action_of)?.is_none())
}

#[test]
fn objects_are_made_written_and_erased(rt: HostRuntime) -> Result<(), Fail> {
    for &(what, old, action_of, payload, owners) in LEFT {
        assert!(rt;
            leaves(rt.alloc(), old, action_of, payload, owners)?,
            "{what}"
        );
    }
    for &(what, old, action_of) in NOTHING_LEFT {
        assert!(rt; leaves_nothing(rt.alloc(), old, action_of)?, "{what}");
    }
    Ok(())
}

/// A test of the kind alone.
const KIND: Test = Test {
    exact: false,
    spares_directories: false,
};

/// A test that looks at the target of a link too.
const EXACT: Test = Test {
    exact: true,
    spares_directories: false,
};

/// A test that spares directories.
const SPARING: Test = Test {
    exact: false,
    spares_directories: true,
};

/// What is tested, the object before, the kind, the payload and the test of a new one, and whether the new one is left.
const RENEWED: &[(&str, Option<(Kind, &[u8])>, Kind, &[u8], Test, bool)] = &[
    ("another kind", LINK, Kind::File, b"new", KIND, true),
    ("the kind alone", LINK, Kind::Link, b"new", KIND, false),
    ("another target", LINK, Kind::Link, b"new", EXACT, true),
    ("the same target", LINK, Kind::Link, b"old", EXACT, false),
    ("bytes", FILE, Kind::File, b"new", EXACT, false),
    (
        "a spared directory",
        DIRECTORY,
        Kind::Fifo,
        b"",
        SPARING,
        false,
    ),
    ("a directory", DIRECTORY, Kind::Fifo, b"", EXACT, true),
];

/// Whether an operation leaves an object of this owner.
fn leaves_to(
    alloc: Global,
    old: Option<(Kind, &[u8])>,
    ask: Ask<'_>,
    owner: u32,
) -> Result<bool, Fail> {
    Ok(is_owned(&left(alloc, old, &[ask])?, owner))
}

#[test]
fn wrong_objects_are_renewed(rt: HostRuntime) -> Result<(), Fail> {
    for &(what, old, kind, payload, test, is_new) in RENEWED {
        let owner = if is_new { 9 } else { 5 };
        let ask = Ask::Renew(kind, payload, test);
        assert!(rt; leaves_to(rt.alloc(), old, ask, owner)?, "{what}");
    }
    Ok(())
}

const VALUE: Ask<'_> = Ask::Attr(b"user.a", b"1");

const LATER: Ask<'_> = Ask::Attr(b"user.a", b"2");

const ADD: Ask<'_> = Ask::Letters(LetterHow::Add, b"ai");

const TAKE: Ask<'_> = Ask::Letters(LetterHow::Take, b"a");

const PUT: Ask<'_> = Ask::Letters(LetterHow::Put, b"uA");

/// The kind of an object without bytes, operations, and the value of its attribute and its letters after them.
const EXTRAS: &[(Kind, &[Ask<'_>], &[u8], &[u8])] = &[
    (Kind::File, &[VALUE, LATER, ADD, TAKE], b"2", b"i"),
    (Kind::Directory, &[ADD, PUT, VALUE, TAKE], b"1", b"Au"),
    (Kind::Fifo, &[VALUE, ADD, PUT, LATER], b"2", b""),
    (Kind::Link, &[VALUE, ADD, PUT, LATER], b"", b""),
];

/// Whether operations leave an object with this value of its attribute and these letters.
fn leaves_extras(
    alloc: Global,
    kind: Kind,
    action_of: &[Ask<'_>],
    value: &[u8],
    letters: &[u8],
) -> Result<bool, Fail> {
    let seen = left(alloc, Some((kind, b"")), action_of)?;
    has_extras(alloc, &seen, value, letters)
}

#[test]
fn attributes_and_letters_change(rt: HostRuntime) -> Result<(), Fail> {
    for &(kind, action_of, value, letters) in EXTRAS {
        let holds = leaves_extras(rt.alloc(), kind, action_of, value, letters)?;
        assert!(rt; holds, "{kind:?}");
    }
    Ok(())
}

/// Whether an object has these letters and one attribute with this value, or none where the value is empty.
fn has_extras(
    alloc: Global,
    object_state: &Option<ObjectState>,
    value: &[u8],
    letters: &[u8],
) -> Result<bool, Fail> {
    let Some(object_state) = object_state else {
        return Ok(false);
    };
    let seen = match object_state.metadata.attrs.as_slice() {
        [] => b"".as_slice(),
        [attr, ..] => attr.value.as_slice(),
    };
    Ok(seen == value && object_state.metadata.letters.letters(alloc)?.as_slice() == letters)
}
