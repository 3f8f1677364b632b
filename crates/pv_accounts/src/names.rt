//! Looks up the IDs of users and groups in the account files.
ghost use Rattle.std.specs.Prelude.{◌≡◌};
ghost use Rattle.pv_accounts.specs.Entries.{is_passwd, is_group};
ghost use Rattle.pv_accounts.specs.Files.{id_or_root, is_root};

use crate::views::{GroupView, PasswdView};
use pv_acl::Names;

/// A lookup of users and groups in two account files. The name `root` always has the ID 0, whatever the files say.
#[derive(Drop)]
pub struct FileNames<'a> {
    /// The file in which users are looked up.
    pub passwd: PasswdView<'a>,
    /// The file in which groups are looked up.
    pub group: GroupView<'a>,
}

impl<'a> Names for FileNames<'a> {
    ghost uid_named = { λ names name. id_or_root is_passwd names.passwd name };

    ghost gid_named = { λ names name. id_or_root is_group names.group name };

    fn uid_of(&self, name: &[u8]) -> Option<u32> {
        if is_root(name) {
            Some(0)
        } else {
            self.passwd.uid_of(name)
        }
    }

    fn gid_of(&self, name: &[u8]) -> Option<u32> {
        if is_root(name) {
            Some(0)
        } else {
            self.group.gid_of(name)
        }
    }
}

/// Returns whether a name is that of the superuser.
fn is_root(name: &[u8]) -> bool
    ensures { result ≡ is_root name.now }
{
    name == b"root".as_slice()
}
