//! A lookup of names that knows no user and no group.
use pv_acl::Names;

/// Knows no user and no group, so that lines give owners by their numbers.
pub(crate) struct Nobody;

impl Names for Nobody {
    ghost use Rattle.std.specs.Prelude.{None};

    ghost uid_named = { λ _ _. None };

    ghost gid_named = { λ _ _. None };

    fn uid_of(&self, _name: &[u8]) -> Option<u32> {
        None
    }

    fn gid_of(&self, _name: &[u8]) -> Option<u32> {
        None
    }
}
