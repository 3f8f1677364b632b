//! How the IDs of users and groups are looked up by name.
ghost use Rattle.std.specs.Prelude.{◌≡◌, ◌≤◌, ℕ, List, Option, IfSome};

/// A lookup of users and groups by name, as the account files have them (passwd(5), group(5)). `FileNames` of
/// pv_accounts is a lookup in the texts of these files.
pub trait Names {
    /// In contracts: the ID of the user with a name, or `None` if there is no such user.
    ghost uid_named: { Self → List ℕ → Option ℕ };

    /// In contracts: the ID of the group with a name, or `None` if there is no such group.
    ghost gid_named: { Self → List ℕ → Option ℕ };

    /// Returns the ID of the user with this name, 0 to 4294967294, or `None` if there is no such user.
    fn uid_of(&self, name: &[u8]) -> Option<u32>
        ensures found { result ≡ uid_named self.now name.now }
        ensures small { IfSome result (λ id. id ≤ 4294967294) };

    /// Returns the ID of the group with this name, 0 to 4294967294, or `None` if there is no such group.
    fn gid_of(&self, name: &[u8]) -> Option<u32>
        ensures found { result ≡ gid_named self.now name.now }
        ensures small { IfSome result (λ id. id ≤ 4294967294) };
}
