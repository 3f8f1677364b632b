//! Applies the entries of a configuration line to an ACL (tmpfiles.d(5), types `a` and `A`).
ghost use Rattle.std.specs.Prelude.{◌≡◌, true, IfOk, if◌then◌else◌};
ghost use Rattle.pv_acl.specs.Parts.{is_acl};
ghost use Rattle.pv_acl.specs.Applying.{part_after, default_after, acl_after, kept, is_line};

use crate::line::{AclLine, EntryList, How};
use crate::part::{Acl, Part};
use std::alloc::{AllocError, Global};

/// Applies the entries of a configuration line to the ACL `old`, and returns the result (tmpfiles.d(5), type `a`).
///
/// - The access entries of the line change the access part.
/// - If `directory` says that the object is a directory, the default entries change the default part. Otherwise it
///   stays.
/// - A part for which the line has no entries stays as it was.
/// - A base entry of the line replaces that of the part. Of two entries for the same user, group, base entry or mask,
///   the later one counts.
/// - With `How::Replace` the part keeps none of its old named entries and no old mask. With `How::Add` they stay,
///   unless the line has an entry for the same user or group, or a mask.
/// - If the line has default entries and the directory has no default part yet, a new one begins with the base entries
///   that the access part has after the line was applied.
///
/// If `old` and the entries of the line are allowed (permissions of at most 7, IDs of at most 4294967294), so is
/// the result. The only error is `AllocError`.
pub fn apply_entries(
    alloc: Global,
    old: &Acl,
    line: &AclLine,
    how: How,
    directory: bool,
) -> Result<Acl, AllocError>
    ensures after { IfOk result (λ acl. acl ≡ acl_after old.now line.now how directory) }
    ensures allowed { IfOk result (λ acl. is_acl old.now ≡ true → is_line line.now ≡ true → is_acl acl ≡ true) }
{
    let access = change_part(alloc, &old.access, &line.access, how)?;
    let entries = &line.default_part;
    let default_part = change_default(alloc, &access, &old.default_part, entries, how, directory)?;
    Ok(Acl {
        access,
        default_part,
    })
}

/// Returns a part after the entries of a line for it.
fn change_part(
    alloc: Global,
    part: &Part,
    entries: &EntryList,
    how: How,
) -> Result<Part, AllocError>
    ensures { IfOk result (λ new. new ≡ part_after how part.now entries.now) }
{
    if entries.is_empty() {
        return part.copy();
    }
    let mut new = keep(alloc, part, how)?;
    for entry in entries.as_slice() {
        new.put(*entry)?;
    }
    Ok(new)
}

/// Returns what stays of a part before the entries of a line are put into it.
fn keep(alloc: Global, part: &Part, how: How) -> Result<Part, AllocError>
    ensures { IfOk result (λ new. new ≡ kept how part.now) }
{
    match how {
        How::Replace => Ok(part.base(alloc)),
        How::Add => part.copy(),
    }
}

/// Returns the default part after the entries of a line for it. Only that of a directory changes.
fn change_default(
    alloc: Global,
    access: &Part,
    part: &Option<Part>,
    entries: &EntryList,
    how: How,
    directory: bool,
) -> Result<Option<Part>, AllocError>
    ensures { let changed = default_after how access.now part.now entries.now in
        IfOk result (λ new. new ≡ (if directory then changed else part.now)) }
{
    if !directory || entries.is_empty() {
        return part.clone();
    }
    let new = match part {
        Some(part) => change_part(alloc, part, entries, how)?,
        None => change_part(alloc, &access.base(alloc), entries, how)?,
    };
    Ok(Some(new))
}
