//! Which lines are entries, and their fields (passwd(5), group(5), shadow(5), gshadow(5)).
ghost use Rattle.std.specs.Prelude.{◌≡◌, ℕ, List, ◌∷◌, [], false, MatchOption};
ghost use Rattle.std.specs.Option.{option_map};
ghost use Rattle.pv_acl.specs.Spelling.{decimal_id};
ghost use Rattle.pv_accounts.specs.Entries.{is_entry_name, is_decimal_id, fields_of, entry_of};
ghost use Rattle.pv_accounts.specs.Entries.{is_passwd, is_group, is_shadow, is_gshadow};
ghost use Rattle.pv_accounts.specs.EntryFields.{passwd_fields, group_fields, shadow_fields};

use crate::cutting::{cut, uncut};
use pv_acl::decimal_id;

/// An entry of /etc/passwd (passwd(5)), each field a slice of the file.
///
/// A line is an entry if it has exactly seven fields between colons, and both IDs are decimal numbers from 0 to
/// 4294967294. The name must not be empty and must not begin with `+`, `-` or `#`.
#[derive(Clone, Copy)]
pub struct PasswdEntry<'a> {
    /// The login name.
    pub name: &'a [u8],
    /// The encrypted password, or `x` if the password is in /etc/shadow.
    pub password: &'a [u8],
    /// The numeric user ID, in decimal.
    pub uid: &'a [u8],
    /// The numeric ID of the user's primary group, in decimal.
    pub gid: &'a [u8],
    /// The full name of the user, or another comment.
    pub gecos: &'a [u8],
    /// The path of the home directory.
    pub home: &'a [u8],
    /// The path of the program that is started at login.
    pub shell: &'a [u8],
}

/// An entry of /etc/group (group(5)), each field a slice of the file.
///
/// A line is an entry if it has exactly four fields between colons, and the GID is a decimal number from 0 to
/// 4294967294. The name must not be empty and must not begin with `+`, `-` or `#`.
#[derive(Clone, Copy)]
pub struct GroupEntry<'a> {
    /// The name of the group.
    pub name: &'a [u8],
    /// The encrypted password of the group, or `x` if the password is in /etc/gshadow.
    pub password: &'a [u8],
    /// The numeric group ID, in decimal.
    pub gid: &'a [u8],
    /// The names of the members, with commas between them.
    pub members: &'a [u8],
}

/// An entry of /etc/shadow (shadow(5)), each field a slice of the file.
///
/// A line is an entry if it has exactly nine fields between colons. The name must not be empty and must not begin
/// with `+`, `-` or `#`. The other fields are not checked.
#[derive(Clone, Copy)]
pub struct ShadowEntry<'a> {
    /// The login name.
    pub name: &'a [u8],
    /// The encrypted password, or a text such as `!` or `*`, with which no password can match.
    pub password: &'a [u8],
    /// The date of the last change of the password, in days since 1970-01-01 UTC.
    pub changed: &'a [u8],
    /// The minimum age of the password before it may be changed, in days.
    pub least: &'a [u8],
    /// The maximum age of the password after which it must be changed, in days.
    pub most: &'a [u8],
    /// How many days before the password expires the user is warned.
    pub warn: &'a [u8],
    /// How many days after the password has expired it is still accepted.
    pub inactive: &'a [u8],
    /// The date on which the account expires, in days since 1970-01-01 UTC.
    pub expire: &'a [u8],
    /// Reserved for future use.
    pub reserved: &'a [u8],
}

/// Reads a line as an entry of /etc/passwd, if it is one.
pub(crate) fn passwd_entry(line: &[u8]) -> Option<PasswdEntry<'_>>
    ensures { option_map passwd_fields result ≡ entry_of is_passwd line.now }
{
    let entry = seven_fields(line)?;
    if is_entry_name(entry.name) && is_decimal_id(entry.uid) && is_decimal_id(entry.gid) {
        Some(entry)
    } else {
        None
    }
}

/// Reads a line as an entry of /etc/group, if it is one.
pub(crate) fn group_entry(line: &[u8]) -> Option<GroupEntry<'_>>
    ensures { option_map group_fields result ≡ entry_of is_group line.now }
{
    let (name, password, gid, members) = four_fields(line)?;
    if is_entry_name(name) && is_decimal_id(gid) {
        Some(GroupEntry {
            name,
            password,
            gid,
            members,
        })
    } else {
        None
    }
}

/// Reads a line as an entry of /etc/gshadow (gshadow(5)).
///
/// The answer is the four fields of the entry, as slices of the line: the name of the group, its encrypted password,
/// its administrators and its members. It is `None` unless the line has exactly four fields between colons and the
/// name is allowed. A name must not be empty and must not begin with `+`, `-` or `#`. The call does not allocate.
pub fn gshadow_parts(line: &[u8]) -> Option<(&[u8], &[u8], &[u8], &[u8])>
    ensures { let fields = option_map (λ f. f.0.now ∷ f.1.now ∷ f.2.now ∷ f.3.now ∷ []) result in
        fields ≡ entry_of is_gshadow line.now }
{
    let fields = four_fields(line)?;
    if is_entry_name(fields.0) {
        Some(fields)
    } else {
        None
    }
}

/// Reads a line as an entry of /etc/shadow, if it is one.
pub(crate) fn shadow_entry(line: &[u8]) -> Option<ShadowEntry<'_>>
    ensures { option_map shadow_fields result ≡ entry_of is_shadow line.now }
{
    let entry = nine_fields(line)?;
    if is_entry_name(entry.name) {
        Some(entry)
    } else {
        None
    }
}

/// Splits off the first three fields of a line, if something follows them.
fn three_fields(line: &[u8]) -> Option<(&[u8], &[u8], &[u8], &[u8])>
    ensures { MatchOption result ((is_passwd (fields_of line.now) ≡ false) × (is_shadow (fields_of line.now) ≡ false))
        (λ f. fields_of line.now ≡ f.0.now ∷ f.1.now ∷ f.2.now ∷ fields_of f.3.now) }
{
    let (name, rest) = cut(line, b':')?;
    let (password, rest) = cut(rest, b':')?;
    let (third, rest) = cut(rest, b':')?;
    Some((name, password, third, rest))
}

/// Splits a line that has exactly four fields. Such a line is an entry of /etc/group or /etc/gshadow. It may also be
/// the end of a longer entry, after three fields of /etc/passwd or five of /etc/shadow.
fn four_fields(line: &[u8]) -> Option<(&[u8], &[u8], &[u8], &[u8])>
    ensures { MatchOption result
        ((is_group (fields_of line.now) ≡ false) × (is_gshadow (fields_of line.now) ≡ false)
        × ((a b c : List ℕ) → is_passwd (a ∷ b ∷ c ∷ fields_of line.now) ≡ false)
        × ((a b c d e : List ℕ) → is_shadow (a ∷ b ∷ c ∷ d ∷ e ∷ fields_of line.now) ≡ false))
        (λ f. fields_of line.now ≡ f.0.now ∷ f.1.now ∷ f.2.now ∷ f.3.now ∷ []) }
{
    let (first, rest) = cut(line, b':')?;
    let (second, rest) = cut(rest, b':')?;
    let (third, rest) = cut(rest, b':')?;
    let fourth = uncut(rest, b':')?;
    Some((first, second, third, fourth))
}

/// Splits a line that has exactly seven fields.
fn seven_fields(line: &[u8]) -> Option<PasswdEntry<'_>>
    ensures { MatchOption result (is_passwd (fields_of line.now) ≡ false)
        (λ entry. fields_of line.now ≡ passwd_fields entry) }
{
    let (name, password, uid, rest) = three_fields(line)?;
    let (gid, gecos, home, shell) = four_fields(rest)?;
    Some(PasswdEntry {
        name,
        password,
        uid,
        gid,
        gecos,
        home,
        shell,
    })
}

/// Splits a line that has exactly nine fields.
fn nine_fields(line: &[u8]) -> Option<ShadowEntry<'_>>
    ensures { MatchOption result (is_shadow (fields_of line.now) ≡ false)
        (λ entry. fields_of line.now ≡ shadow_fields entry) }
{
    let (name, password, changed, rest) = three_fields(line)?;
    let (least, rest) = cut(rest, b':')?;
    let (most, rest) = cut(rest, b':')?;
    let (warn, inactive, expire, reserved) = four_fields(rest)?;
    Some(ShadowEntry {
        name,
        password,
        changed,
        least,
        most,
        warn,
        inactive,
        expire,
        reserved,
    })
}

/// Returns whether an entry may have this name: it is not empty, and does not begin with `+`, `-` or `#`.
fn is_entry_name(name: &[u8]) -> bool
    ensures { result ≡ is_entry_name name.now }
{
    match name {
        [] => false,
        [b, ..] => *b != b'+' && *b != b'-' && *b != b'#',
    }
}

/// Returns whether a text is a decimal ID: 0 to 4294967294 without leading zeros.
fn is_decimal_id(text: &[u8]) -> bool
    ensures { result ≡ is_decimal_id text.now }
{
    decimal_id(text).is_some()
}
