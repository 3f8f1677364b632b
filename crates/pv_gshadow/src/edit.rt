//! New groups and new members in /etc/gshadow (gshadow(5)). All other lines are kept byte for byte.
ghost use Rattle.std.specs.Prelude.{◌≡◌, true, IfOk};
ghost use Rattle.pv_accounts.specs.Edits.{lacks_end, text_of, with_entry, with_member};
ghost use Rattle.pv_accounts.specs.Entries.{is_gshadow};
ghost use Rattle.pv_accounts.specs.Files.{lines_of};
ghost use Rattle.pv_gshadow.specs.GroupPasswords.{new_group};

use pv_accounts::{Kind, add_member_in, append_entry};
use std::alloc::{AllocError, Global};

/// Returns the text of /etc/gshadow with one more entry, `NAME:!*::`, which is that of [`new_group`].
///
/// `file` is the old text, and `name` is the name of the group. The entry comes before the first line that begins with
/// `+`, otherwise at the end. If the entry comes at the end, it ends with a line feed, and a last line without a line
/// feed gets one before it. All other lines stay as they are.
///
/// The call does not check whether the group has an entry already, or whether its name is allowed. If the name has no
/// line feed, the lines of the new text are exactly the old lines and the new entry.
///
/// The only error is `AllocError`.
pub fn add_group(alloc: Global, file: &[u8], name: &[u8]) -> Result<Vec<u8>, AllocError>
    ensures text { let lines = with_entry (new_group name.now) (lines_of file.now) in
        IfOk result (λ text. text.items ≡ text_of lines) }
    ensures lines { let lines = with_entry (new_group name.now) (lines_of file.now) in
        lacks_end (new_group name.now) ≡ true → IfOk result (λ text. lines_of text.items ≡ lines) }
{
    append_entry(alloc, file, &new_group(alloc, name)?)
}

/// Returns the entry of a new group, `NAME:!*::`, without a line feed. The group has no usable password, no
/// administrators and no members.
///
/// For example, the entry of `app` is `app:!*::`. The only error is `AllocError`.
pub fn new_group(alloc: Global, name: &[u8]) -> Result<Vec<u8>, AllocError>
    ensures { IfOk result (λ entry. entry.items ≡ new_group name.now) }
{
    let mut entry = Vec::from_slice(alloc, name)?;
    entry.extend_from_slice(b":!*::")?;
    Ok(entry)
}

/// Returns the text of /etc/gshadow with a user added at the end of the members of a group.
///
/// `file` is the old text, and `group` and `user` are names. The first entry of the group counts. The text is unchanged
/// if the group has no entry, or if the user is one of its members already. All other lines stay as they are.
///
/// For example, adding `alice` to `app` makes `app:!*::` into `app:!*::alice`, and `app:!*::bob` into
/// `app:!*::bob,alice`.
///
/// If the user's name has no line feed, the lines of the new text are exactly the old lines with this one change. The
/// only error is `AllocError`.
pub fn add_gshadow_member(
    alloc: Global,
    file: &[u8],
    group: &[u8],
    user: &[u8],
) -> Result<Vec<u8>, AllocError>
    ensures text { let lines = with_member is_gshadow group.now user.now (lines_of file.now) in
        IfOk result (λ text. text.items ≡ text_of lines) }
    ensures lines { let lines = with_member is_gshadow group.now user.now (lines_of file.now) in
        lacks_end user.now ≡ true → IfOk result (λ text. lines_of text.items ≡ lines) }
{
    add_member_in(alloc, Kind::Gshadow, file, group, user)
}
