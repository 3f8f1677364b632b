//! Reads where the numbers of users and groups come from, and ranges of numbers.
ghost use Rattle.std.specs.Prelude.{◌≡◌, ◌==◌, Some, None, IfOk, if◌then◌else◌};
ghost use Rattle.std.specs.List.{slice_split};
ghost use Rattle.pv_requests.specs.Numbers.{group_id_in, plain_group_id, plain_user_id, is_account_file, is_account_place, number_or_dash, ordered, path_in, primary_in, range_in, user_id_by, user_id_in, with_primary};

use crate::field_texts::is_dash;
use crate::names::is_account_name;
use crate::request::{GroupId, Primary, UserId};
use pv_accounts::{cut, uncut};
use pv_acl::written_id;
use pv_path::{Bytes, PathFault, TreePath, parse_path};
use std::alloc::{AllocError, Global};

/// Returns whether a name is that of an account file.
fn is_account_file(name: &[u8]) -> bool
    ensures { result ≡ is_account_file name.now }
{
    name == b"passwd".as_slice()
        || name == b"group".as_slice()
        || name == b"shadow".as_slice()
        || name == b"gshadow".as_slice()
}

/// Returns whether a path is the root, /etc, or an account file in it.
fn is_account_place(path: &TreePath) -> bool
    ensures { result ≡ is_account_place path.now }
{
    match path.names() {
        [] => true,
        [directory] => directory.bytes() == b"etc".as_slice(),
        [directory, file] => {
            let named = is_account_file(file.bytes());
            directory.bytes() == b"etc".as_slice() && named
        }
        _ => false,
    }
}

/// Reads the path of an object whose numbers are taken, or gives nothing.
fn path_in(alloc: Global, text: &[u8]) -> Result<Option<TreePath>, AllocError>
    ensures { IfOk result (λ found. found ≡ path_in text.now) }
{
    match parse_path(alloc, text) {
        Ok(path) => Ok(other_place(path)),
        Err(PathFault::Memory) => Err(AllocError),
        Err(_) => Ok(None),
    }
}

/// Refuses the root, /etc and the account files.
fn other_place(path: TreePath) -> Option<TreePath>
    ensures { result ≡ (if is_account_place path then None else Some path) }
{
    if is_account_place(&path) {
        None
    } else {
        Some(path)
    }
}

/// Reads `-` or a number.
fn number_or_dash(text: &[u8]) -> Option<Option<u32>>
    ensures { result ≡ number_or_dash text.now }
{
    if is_dash(text) {
        return Some(None);
    }
    let n = written_id(text)?;
    Some(Some(n))
}

/// Reads the primary group of a user: a number or a name.
fn primary_in(alloc: Global, text: &[u8]) -> Result<Option<Primary>, AllocError>
    ensures { IfOk result (λ found. found ≡ primary_in text.now) }
{
    if let Some(n) = written_id(text) {
        return Ok(Some(Primary::Gid(n)));
    }
    if is_account_name(text) {
        Ok(Some(Primary::Name(Bytes::copy_of(alloc, text)?)))
    } else {
        Ok(None)
    }
}

/// Reads `UID:GID` or `UID:GROUP`, from what is before the colon and what is after it.
fn with_primary(alloc: Global, first: &[u8], second: &[u8]) -> Result<Option<UserId>, AllocError>
    ensures { IfOk result (λ found. found ≡ with_primary first.now second.now) }
{
    let Some(uid) = number_or_dash(first) else {
        return Ok(None);
    };
    match primary_in(alloc, second)? {
        Some(group) => Ok(Some(UserId::Primary { uid, group })),
        None => Ok(None),
    }
}

/// Reads the ID of a `u` line that has no colon and is not a path.
fn plain_user_id(text: &[u8]) -> Option<UserId>
    ensures { result ≡ plain_user_id text.now }
{
    if is_dash(text) {
        return Some(UserId::Auto);
    }
    Some(UserId::Number(written_id(text)?))
}

/// Reads the ID of a `u` line that is not a path.
fn user_id_by(alloc: Global, text: &[u8]) -> Result<Option<UserId>, AllocError>
    ensures { IfOk result (λ found. found ≡ user_id_by (slice_split (λ b. b == 58) text.now)) }
{
    let Some((first, rest)) = cut(text, b':') else {
        return Ok(plain_user_id(text));
    };
    match uncut(rest, b':') {
        Some(second) => with_primary(alloc, first, second),
        None => Ok(None),
    }
}

/// Reads the ID of a `u` line: `-`, a number, a path, `UID:GID` or `UID:GROUP`.
pub(crate) fn user_id_in(alloc: Global, text: &[u8]) -> Result<Option<UserId>, AllocError>
    ensures { IfOk result (λ found. found ≡ user_id_in text.now) }
{
    if text.first() != Some(&b'/') {
        return user_id_by(alloc, text);
    }
    match path_in(alloc, text)? {
        Some(path) => Ok(Some(UserId::Path(path))),
        None => Ok(None),
    }
}

/// Reads the ID of a `g` line that is not a path.
fn plain_group_id(text: &[u8]) -> Option<GroupId>
    ensures { result ≡ plain_group_id text.now }
{
    if is_dash(text) {
        return Some(GroupId::Auto);
    }
    Some(GroupId::Number(written_id(text)?))
}

/// Reads the ID of a `g` line: `-`, a number or a path.
pub(crate) fn group_id_in(alloc: Global, text: &[u8]) -> Result<Option<GroupId>, AllocError>
    ensures { IfOk result (λ found. found ≡ group_id_in text.now) }
{
    if text.first() != Some(&b'/') {
        return Ok(plain_group_id(text));
    }
    match path_in(alloc, text)? {
        Some(path) => Ok(Some(GroupId::Path(path))),
        None => Ok(None),
    }
}

/// Returns two numbers if the first is not greater than the second.
fn ordered(first: u32, last: u32) -> Option<(u32, u32)>
    ensures { result ≡ ordered first last }
{
    if first <= last {
        Some((first, last))
    } else {
        None
    }
}

/// Reads the range of an `r` line: `N` or `FROM-TO`.
pub(crate) fn range_in(text: &[u8]) -> Option<(u32, u32)>
    ensures { result ≡ range_in text.now }
{
    let Some((first, rest)) = cut(text, b'-') else {
        let n = written_id(text)?;
        return Some((n, n));
    };
    let last = uncut(rest, b'-')?;
    ordered(written_id(first)?, written_id(last)?)
}
