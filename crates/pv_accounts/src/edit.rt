//! Adds new entries and new members to account files, and keeps all other lines byte for byte.
ghost use Rattle.std.specs.Prelude.{◌≡◌, ◌<◌, ◌≤◌, ◌==◌, ◌∷◌, [], ◌++◌, true, map, length, OnOk, IfOk};
ghost use Rattle.std.specs.List.{flat_map, list_any, slice_split};
ghost use Rattle.std.specs.Str.{bytes_eq};
ghost use Rattle.pv_accounts.specs.Bytes.{comma, line_end};
ghost use Rattle.pv_accounts.specs.Edits.{text_of, lacks_end, is_behind_new, with_entry, appended, entry_place};
ghost use Rattle.pv_accounts.specs.Edits.{members_of, is_member, member_suffix, longer, with_member};
ghost use Rattle.pv_accounts.specs.Entries.{is_group, is_gshadow};
ghost use Rattle.pv_accounts.specs.Files.{lines_of};
ghost use Rattle.pv_accounts.specs.Kinds.{has_members, test_of};

use crate::cutting::cut;
use crate::entry::{group_entry, gshadow_parts};
use crate::find::{Kind, place_of};
use std::alloc::{AllocError, Global};

/// Returns the text of an account file with one more line.
///
/// - `file` is the text of the file.
/// - `entry` is the new line, without a line feed.
///
/// The new line comes before the first line that begins with `+`. If there is no such line, it comes at the end, and
/// the text then ends with a line feed. A last line without a line feed gets one first. All other lines stay as they
/// are.
///
/// The only error is `AllocError`.
pub fn append_entry(alloc: Global, file: &[u8], entry: &[u8]) -> Result<Vec<u8>, AllocError>
    ensures text { IfOk result (λ text. text.items ≡ text_of (with_entry entry.now (lines_of file.now))) }
    ensures lines { let lines = with_entry entry.now (lines_of file.now) in
        lacks_end entry.now ≡ true → IfOk result (λ text. lines_of text.items ≡ lines) }
{
    append_entries(alloc, file, &[entry])
}

/// Returns the text of an account file with more lines, all at one location.
///
/// - `file` is the text of the file.
/// - `entries` are the new lines, in their order, each without a line feed.
///
/// The new lines come before the first line that begins with `+`. If there is no such line, they come at the end, and
/// the text then ends with a line feed. A last line without a line feed gets one first. All other lines stay as they
/// are. If `entries` is empty, the text is unchanged.
///
/// The only error is `AllocError`.
pub fn append_entries(alloc: Global, file: &[u8], entries: &[&[u8]]) -> Result<Vec<u8>, AllocError>
    ensures { IfOk result (λ text. text.items ≡ appended (map (λ entry. entry.now) entries.now) file.now) }
{
    if entries.is_empty() {
        return Vec::from_slice(alloc, file);
    }
    let pieces = split(alloc, file)?;
    let lines = pieces.as_slice();
    let at = entry_place(lines);
    if at < lines.len() {
        joined(alloc, &lines[..at], entries, lines[at], &lines[at + 1..])
    } else {
        joined(alloc, lines, entries, b"", &[])
    }
}

/// Returns the text of /etc/group with a user added at the end of the members of a group (group(5)). For the members in
/// /etc/gshadow use `add_member_in`.
///
/// - `file` is the text of /etc/group.
/// - `group` is the name of the group. The first entry with this name counts.
/// - `user` is the name of the user.
///
/// The text is unchanged if the user is already a member in this entry, or if the file has no entry of the group. All
/// other lines stay as they are.
///
/// The only error is `AllocError`.
///
/// For example, for the group `adm` and the user `alice` the line `adm:x:4:syslog` becomes `adm:x:4:syslog,alice`.
pub fn add_member(
    alloc: Global,
    file: &[u8],
    group: &[u8],
    user: &[u8],
) -> Result<Vec<u8>, AllocError>
    ensures text { let lines = with_member is_group group.now user.now (lines_of file.now) in
        IfOk result (λ text. text.items ≡ text_of lines) }
    ensures lines { let lines = with_member is_group group.now user.now (lines_of file.now) in
        lacks_end user.now ≡ true → IfOk result (λ text. lines_of text.items ≡ lines) }
{
    add_member_in(alloc, Kind::Group, file, group, user)
}

/// Returns the text of /etc/group or /etc/gshadow with a user added at the end of the members of a group. For
/// /etc/group, `add_member` does the same.
///
/// - `kind` says which file it is. It must be `Kind::Group` or `Kind::Gshadow`.
/// - `file` is the text of the file.
/// - `group` is the name of the group. The first entry with this name counts.
/// - `user` is the name of the user.
///
/// The text is unchanged if the user is already a member in this entry, or if the file has no entry of the group. All
/// other lines stay as they are.
///
/// The only error is `AllocError`.
pub fn add_member_in(
    alloc: Global,
    kind: Kind,
    file: &[u8],
    group: &[u8],
    user: &[u8],
) -> Result<Vec<u8>, AllocError>
    requires { has_members kind ≡ true }
    ensures text { let lines = with_member (test_of kind) group.now user.now (lines_of file.now) in
        IfOk result (λ text. text.items ≡ text_of lines) }
    ensures lines { let lines = with_member (test_of kind) group.now user.now (lines_of file.now) in
        lacks_end user.now ≡ true → IfOk result (λ text. lines_of text.items ≡ lines) }
{
    let pieces = split(alloc, file)?;
    let lines = pieces.as_slice();
    let at = place_of(kind, file, group);
    if at < lines.len() {
        let line = longer(alloc, kind, lines[at], user)?;
        joined(alloc, &lines[..at], &[], line.as_slice(), &lines[at + 1..])
    } else {
        Vec::from_slice(alloc, file)
    }
}

/// Splits a file into its lines.
fn split(alloc: Global, file: &[u8]) -> Result<Vec<&[u8]>, AllocError>
    ensures { IfOk result (λ lines. map (λ line. line.now) lines.items ≡ lines_of file.now) }
{
    file.split(|b| *b == b'\n').collect(alloc)
}

/// Counts the lines before a new entry.
fn entry_place(lines: &[&[u8]]) -> usize
    ensures { result ≡ entry_place (map (λ line. line.now) lines.now) }
{
    for (at, line) in lines.iter().enumerate() {
        if is_behind_new(at + 1 == lines.len(), line) {
            return at;
        }
    }
    lines.len()
}

/// Returns whether a new entry comes before a line. This is a line that begins with `+`, or the empty one after the
/// last line feed.
fn is_behind_new(is_last: bool, line: &[u8]) -> bool
    ensures { result ≡ is_behind_new is_last line.now }
{
    match line {
        [] => is_last,
        [b, ..] => *b == b'+',
    }
}

/// Joins lines of the file, new entries between them, one line, and the lines after it.
fn joined(
    alloc: Global,
    front: &[&[u8]],
    entries: &[&[u8]],
    line: &[u8],
    back: &[&[u8]],
) -> Result<Vec<u8>, AllocError>
    ensures { let before = map (λ line. line.now) front.now ++ map (λ entry. entry.now) entries.now in
        let after = map (λ line. line.now) back.now in
        IfOk result (λ text. text.items ≡ text_of (before ++ line.now ∷ after)) }
{
    let mut text = Vec::new(alloc);
    add_ended(&mut text, front)?;
    add_ended(&mut text, entries)?;
    text.extend_from_slice(line)?;
    add_begun(&mut text, back)?;
    Ok(text)
}

/// Adds lines, each with a line feed after it.
fn add_ended(text: &mut Vec<u8>, lines: &[&[u8]]) -> Result<(), AllocError>
    ensures { let added = flat_map (λ line. line.now ++ line_end ∷ []) lines.now in
        OnOk result (text.new.items ≡ text.old.items ++ added) }
{
    for line in lines {
        text.extend_from_slice(line)?;
        text.push(b'\n')?;
    }
    Ok(())
}

/// Adds lines, each with a line feed before it.
fn add_begun(text: &mut Vec<u8>, lines: &[&[u8]]) -> Result<(), AllocError>
    ensures { let added = flat_map (λ line. line_end ∷ line.now) lines.now in
        OnOk result (text.new.items ≡ text.old.items ++ added) }
{
    for next in lines {
        text.push(b'\n')?;
        text.extend_from_slice(next)?;
    }
    Ok(())
}

/// Returns the line of a group with a user at the end of its members. If the user is a member, the line is unchanged.
fn longer(alloc: Global, kind: Kind, line: &[u8], user: &[u8]) -> Result<Vec<u8>, AllocError>
    requires { has_members kind ≡ true }
    ensures { IfOk result (λ text. text.items ≡ longer (test_of kind) user.now line.now) }
{
    let members = members_in(kind, line);
    let mut text = Vec::from_slice(alloc, line)?;
    if is_member(user, members) {
        return Ok(text);
    }
    if !members.is_empty() {
        text.push(b',')?;
    }
    text.extend_from_slice(user)?;
    Ok(text)
}

/// Returns the members of a group: the last of the four fields of its entry.
fn members_in(kind: Kind, line: &[u8]) -> &[u8]
    requires { has_members kind ≡ true }
    ensures { result.now ≡ members_of (test_of kind) line.now }
{
    match kind {
        Kind::Group => group_members(line),
        Kind::Gshadow => gshadow_members(line),
        Kind::Passwd | Kind::Shadow => unreachable!(),
    }
}

/// Returns the members in an entry of /etc/group.
fn group_members(line: &[u8]) -> &[u8]
    ensures { result.now ≡ members_of is_group line.now }
{
    match group_entry(line) {
        Some(entry) => entry.members,
        None => b"",
    }
}

/// Returns the members in an entry of /etc/gshadow.
fn gshadow_members(line: &[u8]) -> &[u8]
    ensures { result.now ≡ members_of is_gshadow line.now }
{
    match gshadow_parts(line) {
        Some(fields) => fields.3,
        None => b"",
    }
}

/// Returns whether a user is among some members.
fn is_member(user: &[u8], members: &[u8]) -> bool
    ensures { result ≡ is_member user.now members.now }
{
    !members.is_empty() && is_piece(user, members)
}

/// Returns whether a word is one of those between commas.
fn is_piece(word: &[u8], text: &[u8]) -> bool
    ensures { result ≡ list_any (λ piece. bytes_eq piece word.now) (slice_split (λ c. c == comma) text.now) }
{
    let mut rest = text;
    while let Some((piece, more)) = cut(rest, b',') {
        if piece == word {
            return true;
        }
        rest = more;
    }
    rest == word
}
