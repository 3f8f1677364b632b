//! The names of users and groups, and the texts of an account: comment, home directory and shell.
ghost use Rattle.std.specs.Prelude.{◌≡◌, map};
ghost use Rattle.std.specs.List.{list_all};
ghost use Rattle.pv_requests.specs.Names.{is_account_name, is_comment, is_name_part, is_name_start, is_place, is_text_byte};

use pv_path::Bytes;

/// Returns whether a byte is an ASCII letter or `_`.
fn is_name_start(b: u8) -> bool
    ensures { result ≡ is_name_start b }
{
    (b'A' <= b && b <= b'Z') || (b'a' <= b && b <= b'z') || b == b'_'
}

/// Returns whether a byte is an ASCII letter, a digit, `_` or `-`.
fn is_name_part(b: u8) -> bool
    ensures { result ≡ is_name_part b }
{
    is_name_start(b) || (b'0' <= b && b <= b'9') || b == b'-'
}

/// Returns whether all bytes are ASCII letters, digits, `_` or `-`.
fn has_name_parts(name: &[u8]) -> bool
    ensures { result ≡ list_all is_name_part name.now }
{
    name.iter().all(|b| is_name_part(*b))
}

/// Returns whether a user or a group may get this name (sysusers.d(5), "Name").
///
/// A name has 1 to 31 ASCII letters, digits, `_` and `-`. The first is a letter or `_`. The call does not allocate.
pub fn is_account_name(name: &[u8]) -> bool
    ensures { result ≡ is_account_name name.now }
{
    match name {
        [] => false,
        [b, rest @ ..] => {
            let parts = has_name_parts(rest);
            is_name_start(*b) && parts && rest.len() <= 30
        }
    }
}

/// Returns whether a byte may be in a text of an account: it is neither a colon nor a control character.
fn is_text_byte(b: u8) -> bool
    ensures { result ≡ is_text_byte b }
{
    32 <= b && b != b':' && b != 127
}

/// Returns whether all bytes may be in a text of an account.
fn is_text(text: &[u8]) -> bool
    ensures { result ≡ list_all is_text_byte text.now }
{
    text.iter().all(|b| is_text_byte(*b))
}

/// Returns whether an account may have this comment, such as a full name. None at all is allowed.
pub(crate) fn is_comment(text: &Option<Bytes>) -> bool
    ensures { result ≡ is_comment text.now }
{
    match text {
        Some(text) => is_text(text.as_slice()),
        None => true,
    }
}

/// Returns whether an account may have this home directory or shell: an absolute path. None at all is allowed.
pub(crate) fn is_place(text: &Option<Bytes>) -> bool
    ensures { result ≡ is_place text.now }
{
    match text {
        Some(text) => is_absolute_text(text.as_slice()),
        None => true,
    }
}

/// Returns whether a text of an account begins with a slash.
fn is_absolute_text(text: &[u8]) -> bool
    ensures { result ≡ is_place (Some text.now) }
{
    let plain = is_text(text);
    text.first() == Some(&b'/') && plain
}
