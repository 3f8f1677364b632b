//! Finds entries by name and by ID. Of two entries with one name the first counts.
ghost use Rattle.std.specs.Prelude.{◌≡◌, ◌≤◌, option_and_then, IfSome};
ghost use Rattle.std.specs.List.{find, position_or_len};
ghost use Rattle.std.specs.Option.{option_map};
ghost use Rattle.pv_accounts.specs.Entries.{entry_of};
ghost use Rattle.pv_accounts.specs.Files.{lines_of, name_of, entry_named, id_in, id_named, holds_beside, holder_of};
ghost use Rattle.pv_accounts.specs.InUse.{named_in};
ghost use Rattle.pv_accounts.specs.Kinds.{test_of, is_entry_named, only_if, chosen_at};

use crate::cutting::cut;
use crate::entry::{group_entry, gshadow_parts, passwd_entry, shadow_entry};
use pv_acl::decimal_id;

/// Which account file a text is.
#[derive(Clone, Copy)]
pub enum Kind {
    /// /etc/passwd, with an entry for each user (passwd(5)).
    Passwd,
    /// /etc/group, with an entry for each group (group(5)).
    Group,
    /// /etc/shadow, with the passwords of users (shadow(5)).
    Shadow,
    /// /etc/gshadow, with the passwords and the administrators of groups (gshadow(5)).
    Gshadow,
}

/// Returns the name of the entry that a line is, if it is one.
pub(crate) fn name_in(kind: Kind, line: &[u8]) -> Option<&[u8]>
    ensures { option_map (λ name. name.now) result ≡ option_map name_of (entry_of (test_of kind) line.now) }
{
    match kind {
        Kind::Passwd => {
            let entry = passwd_entry(line)?;
            Some(entry.name)
        }
        Kind::Group => {
            let entry = group_entry(line)?;
            Some(entry.name)
        }
        Kind::Shadow => {
            let entry = shadow_entry(line)?;
            Some(entry.name)
        }
        Kind::Gshadow => {
            let fields = gshadow_parts(line)?;
            Some(fields.0)
        }
    }
}

/// Returns whether a line is an entry with this name.
pub(crate) fn is_entry_named(kind: Kind, line: &[u8], name: &[u8]) -> bool
    ensures { result ≡ is_entry_named (test_of kind) name.now line.now }
{
    match name_in(kind, line) {
        Some(found) => found == name,
        None => false,
    }
}

/// Returns the first line of a file that is an entry with this name, or `None` if there is none.
///
/// - `kind` says which of the four files it is.
/// - `file` is the text of the file.
///
/// The line is a slice of the file, without its line feed. The call does not allocate.
pub fn find_line<'a>(kind: Kind, file: &'a [u8], name: &[u8]) -> Option<&'a [u8]>
    ensures line { option_map (λ line. line.now) result ≡ find (is_entry_named (test_of kind) name.now) (lines_of file.now) }
    ensures entry { let line = option_map (λ line. line.now) result in
        option_and_then (entry_of (test_of kind)) line ≡ entry_named (test_of kind) file.now name.now }
{
    let mut rest = file;
    while let Some((line, more)) = cut(rest, b'\n') {
        if is_entry_named(kind, line, name) {
            return Some(line);
        }
        rest = more;
    }
    if is_entry_named(kind, rest, name) {
        Some(rest)
    } else {
        None
    }
}

/// Counts the lines before the first entry with this name. If there is no such entry, the answer is the number of all
/// lines.
pub(crate) fn place_of(kind: Kind, file: &[u8], name: &[u8]) -> usize
    ensures { result ≡ position_or_len (is_entry_named (test_of kind) name.now) (lines_of file.now) }
{
    let mut rest = file;
    let mut place = 0;
    while let Some((line, more)) = cut(rest, b'\n') {
        if is_entry_named(kind, line, name) {
            return place;
        }
        place += 1;
        rest = more;
    }
    if is_entry_named(kind, rest, name) {
        place
    } else {
        place + 1
    }
}

/// Returns the ID of the entry that a line is: its third field, if that is a decimal ID.
fn id_in(kind: Kind, line: &[u8]) -> Option<u32>
    ensures { result ≡ option_and_then id_in (entry_of (test_of kind) line.now) }
{
    match kind {
        Kind::Passwd => {
            let entry = passwd_entry(line)?;
            decimal_id(entry.uid)
        }
        Kind::Group => {
            let entry = group_entry(line)?;
            decimal_id(entry.gid)
        }
        Kind::Shadow => {
            let entry = shadow_entry(line)?;
            decimal_id(entry.changed)
        }
        Kind::Gshadow => {
            let fields = gshadow_parts(line)?;
            decimal_id(fields.2)
        }
    }
}

/// Returns the name and the ID of the entry that a line is, if it is an entry with an ID.
pub(crate) fn named_in(kind: Kind, line: &[u8]) -> Option<(&[u8], u32)>
    ensures { option_map (λ named. (named.0.now, named.1)) result ≡ named_in (test_of kind) line.now }
{
    let name = name_in(kind, line)?;
    let id = id_in(kind, line)?;
    Some((name, id))
}

/// Returns the ID of the first entry with this name, if there is one.
pub(crate) fn find_id(kind: Kind, file: &[u8], name: &[u8]) -> Option<u32>
    ensures value { result ≡ id_named (test_of kind) file.now name.now }
    ensures small { IfSome result (λ id. id ≤ 4294967294) }
{
    let line = find_line(kind, file, name)?;
    id_in(kind, line)
}

/// What an entry is searched by: its ID, and a name that it does not have.
#[derive(Clone, Copy)]
struct Sought<'a> {
    id: u32,
    but: &'a [u8],
}

/// Returns the name of the entry that a line is, if it is searched for.
fn name_beside<'a>(kind: Kind, line: &'a [u8], sought: Sought<'_>) -> Option<&'a [u8]>
    ensures { let held = option_and_then (only_if (holds_beside sought.entry.id sought.entry.but.now)) (entry_of (test_of kind) line.now) in
        option_map (λ name. name.now) result ≡ option_map name_of held }
{
    let name = name_in(kind, line)?;
    if id_in(kind, line) == Some(sought.id) && name != sought.but {
        Some(name)
    } else {
        None
    }
}

/// Returns the name of the entry at the line with this index, if it is searched for and no earlier entry has its
/// name.
fn holder_at<'a>(
    kind: Kind,
    file: &[u8],
    place: usize,
    line: &'a [u8],
    sought: Sought<'_>,
) -> Option<&'a [u8]>
    ensures { let held = chosen_at (test_of kind) (lines_of file.now) place sought.entry.id sought.entry.but.now line.now in
        option_map (λ name. name.now) result ≡ option_map name_of held }
{
    let name = name_beside(kind, line, sought)?;
    if place_of(kind, file, name) == place {
        Some(name)
    } else {
        None
    }
}

/// Returns the name of the first entry that has this ID and a name other than `but`. Of two entries with one name only
/// the first counts.
pub(crate) fn find_holder<'a>(kind: Kind, file: &'a [u8], id: u32, but: &[u8]) -> Option<&'a [u8]>
    ensures { option_map (λ name. name.now) result ≡ holder_of (test_of kind) file.now id but.now }
{
    let sought = Sought { id, but };
    let mut rest = file;
    let mut place = 0;
    while let Some((line, more)) = cut(rest, b'\n') {
        if let Some(name) = holder_at(kind, file, place, line, sought) {
            return Some(name);
        }
        place += 1;
        rest = more;
    }
    holder_at(kind, file, place, rest, sought)
}
