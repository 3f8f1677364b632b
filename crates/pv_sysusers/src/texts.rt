//! The texts of the account files with new entries and new members (passwd(5), group(5), shadow(5), gshadow(5)).
ghost use Rattle.std.specs.Prelude.{◌≡◌, [], ◌∷◌, ◌++◌, true, map, unwrap_or, if◌then◌else◌, IfOk, OnOk};
ghost use Rattle.std.specs.List.{flat_map, list_any};
ghost use Rattle.std.specs.Str.{bytes_eq};
ghost use Rattle.pv_accounts.specs.Among.{is_among};
ghost use Rattle.pv_accounts.specs.Edits.{appended};
ghost use Rattle.pv_accounts.specs.Entries.{is_gshadow, is_shadow};
ghost use Rattle.pv_accounts.specs.Kinds.{has_members, test_of};
ghost use Rattle.pv_gshadow.specs.GroupPasswords.{new_group};
ghost use Rattle.pv_sysusers.specs.Shown.{shown, shown_line};
ghost use Rattle.pv_sysusers.specs.Texts.{group_line, group_text, gshadow_text, has_entry, is_known, membership_of, own_shell, passwd_line, passwd_start, passwd_text, shadow_end, shadow_line, shadow_lines, shadow_text, with_memberships, without_entry};

use crate::lines::Line;
use crate::members::with_memberships;
use crate::needs::Need;
use crate::users::NewUser;
use pv_accounts::{EntryNames, Kind, append_entries};
use pv_gshadow::new_group;
use pv_path::Bytes;
use std::alloc::{AllocError, Global};

/// Returns the entry of a new group in /etc/group: `NAME:x:GID:`.
fn group_line(alloc: Global, group: &(Bytes, u32)) -> Result<Vec<u8>, AllocError>
    ensures { IfOk result (λ line. line.items ≡ group_line group.now) }
{
    let gid = group.1.to_string(alloc)?;
    let mut line = Vec::from_slice(alloc, group.0.as_slice())?;
    line.extend_from_slice(b":x:")?;
    line.extend_from_slice(gid.as_bytes())?;
    line.extend_from_slice(b":")?;
    Ok(line)
}

/// Returns the shell of a user for whom none is given: `/bin/sh` for UID 0, and otherwise `/usr/sbin/nologin`.
fn own_shell(uid: u32) -> &'static [u8]
    ensures { result.now ≡ own_shell uid }
{
    if uid == 0 {
        b"/bin/sh"
    } else {
        b"/usr/sbin/nologin"
    }
}

/// Returns a text, or another one if it is omitted.
fn or_own<'a>(text: &'a Option<Bytes>, own: &'a [u8]) -> &'a [u8]
    ensures { result.now ≡ unwrap_or text.now own.now }
{
    match text {
        Some(text) => text.as_slice(),
        None => own,
    }
}

/// Returns the first fields of the entry of a new user: `NAME:x:UID:GID:`.
fn passwd_start(alloc: Global, user: &NewUser) -> Result<Vec<u8>, AllocError>
    ensures { IfOk result (λ line. line.items ≡ passwd_start user.now) }
{
    let uid = user.uid.to_string(alloc)?;
    let gid = user.gid.to_string(alloc)?;
    let mut line = Vec::from_slice(alloc, user.account.name.as_slice())?;
    line.extend_from_slice(b":x:")?;
    line.extend_from_slice(uid.as_bytes())?;
    line.extend_from_slice(b":")?;
    line.extend_from_slice(gid.as_bytes())?;
    line.extend_from_slice(b":")?;
    Ok(line)
}

/// Returns the entry of a new user in /etc/passwd: `NAME:x:UID:GID:GECOS:HOME:SHELL`.
fn passwd_line(alloc: Global, user: &NewUser) -> Result<Vec<u8>, AllocError>
    ensures { IfOk result (λ line. line.items ≡ passwd_line user.now) }
{
    let mut line = passwd_start(alloc, user)?;
    line.extend_from_slice(or_own(&user.account.gecos, b""))?;
    line.extend_from_slice(b":")?;
    line.extend_from_slice(or_own(&user.account.home, b"/"))?;
    line.extend_from_slice(b":")?;
    line.extend_from_slice(or_own(&user.account.shell, own_shell(user.uid)))?;
    Ok(line)
}

/// Returns the last fields of an entry in /etc/shadow. A locked account has expired on day 1 since 1970-01-01.
fn shadow_end(locked: bool) -> &'static [u8]
    ensures { result.now ≡ shadow_end locked }
{
    if locked { b":::::1:" } else { b"::::::" }
}

/// Returns the entry of a new user in /etc/shadow, without a password: `NAME:!*:DAY::::::`.
fn shadow_line(alloc: Global, day: u64, user: &NewUser) -> Result<Vec<u8>, AllocError>
    ensures { IfOk result (λ line. line.items ≡ shadow_line day user.now) }
{
    let number = day.to_string(alloc)?;
    let mut line = Vec::from_slice(alloc, user.account.name.as_slice())?;
    line.extend_from_slice(b":!*:")?;
    line.extend_from_slice(number.as_bytes())?;
    line.extend_from_slice(shadow_end(user.account.locked))?;
    Ok(line)
}

/// Returns lines as slices.
fn slices(alloc: Global, lines: &[Vec<u8>]) -> Result<Vec<&[u8]>, AllocError>
    ensures { IfOk result (λ slices. map (λ s. s.now) slices.items ≡ map (λ line. line.items) lines.entry.now) }
{
    let mut slices = Vec::new(alloc);
    for line in lines {
        slices.push(line.as_slice())?;
    }
    Ok(slices)
}

/// Returns a file with more entries.
fn with_lines(alloc: Global, file: &[u8], lines: &[Vec<u8>]) -> Result<Vec<u8>, AllocError>
    ensures { IfOk result (λ text. text.items ≡ appended (map (λ line. line.items) lines.now) file.now) }
{
    let entries = slices(alloc, lines)?;
    append_entries(alloc, file, entries.as_slice())
}

/// Returns the entries of new groups in /etc/group.
fn group_lines(alloc: Global, made: &[(Bytes, u32)]) -> Result<Vec<Vec<u8>>, AllocError>
    ensures { IfOk result (λ lines. map (λ line. line.items) lines.items ≡ map group_line made.now) }
{
    let mut lines = Vec::new(alloc);
    for group in made {
        lines.push(group_line(alloc, group)?)?;
    }
    Ok(lines)
}

/// Returns the entries of new users in /etc/passwd.
fn passwd_lines(alloc: Global, made: &[NewUser]) -> Result<Vec<Vec<u8>>, AllocError>
    ensures { IfOk result (λ lines. map (λ line. line.items) lines.items ≡ map passwd_line made.now) }
{
    let mut lines = Vec::new(alloc);
    for user in made {
        lines.push(passwd_line(alloc, user)?)?;
    }
    Ok(lines)
}

/// Returns the text of /etc/group with new groups and new members.
pub(crate) fn group_text(
    alloc: Global,
    made: &[(Bytes, u32)],
    lines: &[Line<'_>],
    file: &[u8],
) -> Result<Bytes, AllocError>
    ensures { let members = flat_map membership_of (shown lines.now) in
        IfOk result (λ text. text ≡ group_text made.now members file.now) }
{
    let entries = group_lines(alloc, made)?;
    let text = with_lines(alloc, file, &entries)?;
    Ok(Bytes::from_vec(with_memberships(alloc, Kind::Group, text, lines)?))
}

/// Returns the text of /etc/passwd with new users.
pub(crate) fn passwd_text(alloc: Global, made: &[NewUser], file: &[u8]) -> Result<Bytes, AllocError>
    ensures { IfOk result (λ text. text ≡ passwd_text made.now file.now) }
{
    let entries = passwd_lines(alloc, made)?;
    Ok(Bytes::from_vec(with_lines(alloc, file, &entries)?))
}

/// Adds the entry of a new user in /etc/shadow, unless the file has an entry of this name.
fn add_shadow_line(
    alloc: Global,
    day: u64,
    known: &EntryNames<'_>,
    lines: &mut Vec<Vec<u8>>,
    user: &NewUser,
) -> Result<(), AllocError>
    ensures { let old = map (λ line. line.items) lines.old.items in
        OnOk result (map (λ line. line.items) lines.new.items
        ≡ old ++ (if is_among known.now user.now.account.name then [] else shadow_line day user.now ∷ [])) }
{
    if known.contains(user.account.name.as_slice()) {
        return Ok(());
    }
    lines.push(shadow_line(alloc, day, user)?)?;
    Ok(())
}

/// Returns the text of /etc/shadow with those new users that have no entry yet.
pub(crate) fn shadow_text(
    alloc: Global,
    day: u64,
    made: &[NewUser],
    file: &[u8],
) -> Result<Bytes, AllocError>
    ensures { IfOk result (λ text. text ≡ shadow_text day made.now file.now) }
{
    let known = EntryNames::of(alloc, Kind::Shadow, file)?;
    let mut entries = Vec::new(alloc);
    for user in made {
        add_shadow_line(alloc, day, &known, &mut entries, user)?;
    }
    Ok(Bytes::from_vec(with_lines(alloc, file, &entries)?))
}

/// Returns the names of needed groups that have no entry in /etc/gshadow yet, each once.
fn without_entry<'a>(
    alloc: Global,
    file: &'a [u8],
    needs: &'a [Need],
) -> Result<Vec<&'a [u8]>, AllocError>
    ensures { IfOk result (λ names. map (λ n. n.now) names.items ≡ without_entry is_gshadow file.entry.now [] needs.entry.now) }
{
    let mut known = EntryNames::of(alloc, Kind::Gshadow, file)?;
    let mut names = Vec::new(alloc);
    for need in needs {
        let name = need.name.as_slice();
        if !known.contains(name) {
            known.add(name)?;
            names.push(name)?;
        }
    }
    Ok(names)
}

/// Returns the entries of groups in /etc/gshadow.
fn gshadow_lines(alloc: Global, names: &[&[u8]]) -> Result<Vec<Vec<u8>>, AllocError>
    ensures { IfOk result (λ lines. map (λ line. line.items) lines.items ≡ map new_group (map (λ n. n.now) names.now)) }
{
    let mut lines = Vec::new(alloc);
    for name in names {
        lines.push(new_group(alloc, name)?)?;
    }
    Ok(lines)
}

/// Returns the text of /etc/gshadow with needed groups and new members.
pub(crate) fn gshadow_text(
    alloc: Global,
    needs: &[Need],
    lines: &[Line<'_>],
    file: &[u8],
) -> Result<Bytes, AllocError>
    ensures { let members = flat_map membership_of (shown lines.now) in
        IfOk result (λ text. text ≡ gshadow_text needs.now members file.now) }
{
    let names = without_entry(alloc, file, needs)?;
    let entries = gshadow_lines(alloc, &names)?;
    let text = with_lines(alloc, file, &entries)?;
    Ok(Bytes::from_vec(with_memberships(alloc, Kind::Gshadow, text, lines)?))
}
