//! Views of the account files, which borrow the text and do not copy it.
ghost use Rattle.std.specs.Prelude.{◌≡◌, ◌≤◌, IfSome};
ghost use Rattle.std.specs.Option.{option_map};
ghost use Rattle.pv_accounts.specs.Entries.{is_passwd, is_group, is_shadow};
ghost use Rattle.pv_accounts.specs.EntryFields.{passwd_fields, group_fields, shadow_fields};
ghost use Rattle.pv_accounts.specs.Files.{entry_named, id_named, holder_of};

use crate::entry::{GroupEntry, PasswdEntry, ShadowEntry, group_entry, passwd_entry, shadow_entry};
use crate::find::{Kind, find_holder, find_id, find_line};
use std::marker::Model;

/// A view of /etc/passwd by its entries (passwd(5)). In contracts, a value is the list of the bytes of the file.
#[derive(Drop)]
pub struct PasswdView<'a> {
    file: &'a [u8],
}

impl<'a> Model for PasswdView<'a> {
    ghost use Rattle.std.specs.Prelude.{ℕ, List};

    ghost Value = { List ℕ };

    ghost view = { λ v. v.file.now };
}

/// Returns a view of a text of /etc/passwd. The call accepts any text, since lines that are not entries are passed
/// over. The call does not allocate.
pub fn passwd_view(file: &[u8]) -> PasswdView<'_>
    ensures { result ≡ file.now }
{
    PasswdView { file }
}

impl<'a> PasswdView<'a> {
    /// Returns the first entry with this name, or `None` if there is none. The call does not allocate.
    pub fn entry(&self, name: &[u8]) -> Option<PasswdEntry<'a>>
        ensures { option_map passwd_fields result ≡ entry_named is_passwd self.now name.now }
    {
        passwd_entry(find_line(Kind::Passwd, self.file, name)?)
    }

    /// Returns the UID of the first entry with this name, or `None` if there is none. The call does not allocate.
    ///
    /// For example, with the line `www-data:x:33:33::/var/www:/usr/sbin/nologin` the name `www-data` has the UID 33.
    pub fn uid_of(&self, name: &[u8]) -> Option<u32>
        ensures value { result ≡ id_named is_passwd self.now name.now }
        ensures small { IfSome result (λ id. id ≤ 4294967294) }
    {
        find_id(Kind::Passwd, self.file, name)
    }

    /// Returns the name of the first entry that has this UID and a name other than `but`, or `None` if there is none.
    ///
    /// Of two entries with one name only the first counts. The call does not allocate.
    pub fn holder(&self, id: u32, but: &[u8]) -> Option<&'a [u8]>
        ensures { option_map (λ name. name.now) result ≡ holder_of is_passwd self.now id but.now }
    {
        find_holder(Kind::Passwd, self.file, id, but)
    }
}

/// A view of /etc/group by its entries (group(5)). In contracts, a value is the list of the bytes of the file.
#[derive(Drop)]
pub struct GroupView<'a> {
    file: &'a [u8],
}

impl<'a> Model for GroupView<'a> {
    ghost use Rattle.std.specs.Prelude.{ℕ, List};

    ghost Value = { List ℕ };

    ghost view = { λ v. v.file.now };
}

/// Returns a view of a text of /etc/group. The call accepts any text, since lines that are not entries are passed over.
/// The call does not allocate.
pub fn group_view(file: &[u8]) -> GroupView<'_>
    ensures { result ≡ file.now }
{
    GroupView { file }
}

impl<'a> GroupView<'a> {
    /// Returns the first entry with this name, or `None` if there is none. The call does not allocate.
    pub fn entry(&self, name: &[u8]) -> Option<GroupEntry<'a>>
        ensures { option_map group_fields result ≡ entry_named is_group self.now name.now }
    {
        group_entry(find_line(Kind::Group, self.file, name)?)
    }

    /// Returns the GID of the first entry with this name, or `None` if there is none. The call does not allocate.
    pub fn gid_of(&self, name: &[u8]) -> Option<u32>
        ensures value { result ≡ id_named is_group self.now name.now }
        ensures small { IfSome result (λ id. id ≤ 4294967294) }
    {
        find_id(Kind::Group, self.file, name)
    }

    /// Returns the name of the first entry that has this GID and a name other than `but`, or `None` if there is none.
    ///
    /// Of two entries with one name only the first counts. The call does not allocate.
    pub fn holder(&self, id: u32, but: &[u8]) -> Option<&'a [u8]>
        ensures { option_map (λ name. name.now) result ≡ holder_of is_group self.now id but.now }
    {
        find_holder(Kind::Group, self.file, id, but)
    }
}

/// A view of /etc/shadow by its entries (shadow(5)). In contracts, a value is the list of the bytes of the file.
#[derive(Drop)]
pub struct ShadowView<'a> {
    file: &'a [u8],
}

impl<'a> Model for ShadowView<'a> {
    ghost use Rattle.std.specs.Prelude.{ℕ, List};

    ghost Value = { List ℕ };

    ghost view = { λ v. v.file.now };
}

/// Returns a view of a text of /etc/shadow. The call accepts any text, since lines that are not entries are passed
/// over. The call does not allocate.
pub fn shadow_view(file: &[u8]) -> ShadowView<'_>
    ensures { result ≡ file.now }
{
    ShadowView { file }
}

impl<'a> ShadowView<'a> {
    /// Returns the first entry with this name, or `None` if there is none. The call does not allocate.
    pub fn entry(&self, name: &[u8]) -> Option<ShadowEntry<'a>>
        ensures { option_map shadow_fields result ≡ entry_named is_shadow self.now name.now }
    {
        shadow_entry(find_line(Kind::Shadow, self.file, name)?)
    }
}
