//! A name that is sought, and its first eight bytes as one number, which answers most comparisons.
ghost use Rattle.std.specs.Prelude.{◌≡◌};
ghost use Rattle.pv_path.specs.Names.{name_cmp};

use pv_path::Name;
use std::cmp::Ordering;
use std::marker::Model;

/// A name that is sought, with its head: its first eight bytes as one number, which is read once for a search.
///
/// In contracts, a value is the name.
#[derive(Drop)]
pub(crate) struct SoughtName<'a> {
    head: u64,
    name: &'a Name,
}

impl<'a> Model for SoughtName<'a> {
    ghost use Rattle.std.specs.Prelude.{◌≡◌, List, ℕ, true};
    ghost use Rattle.pv_path.specs.Heads.{head_of};
    ghost use Rattle.pv_path.specs.Names.{is_name};

    ghost Value = { List ℕ };

    ghost view = { λ s. s.name.now };

    ghost invariant = { λ s. (s.head ≡ head_of s.name.now) × (is_name s.name.now ≡ true) };
}

impl<'a> SoughtName<'a> {
    /// Prepares a name for a search.
    pub(crate) fn of(name: &'a Name) -> SoughtName<'a>
        ensures { result ≡ name.now }
    {
        SoughtName {
            head: name.head(),
            name,
        }
    }

    /// Compares a name with the one that is sought. The bytes are compared only if the heads are equal and each name has
    /// eight bytes or more.
    #[tactic(auto, using(pv_path::proofs::HeadLaws::told_less, pv_path::proofs::HeadLaws::told_greater, pv_path::proofs::HeadLaws::told_equal))]
    pub(crate) fn order_of(&self, name: &Name) -> Ordering
        ensures { result ≡ name_cmp name.now self.now }
    {
        let head = name.head();
        if head < self.head {
            return Ordering::Less;
        }
        if self.head < head {
            return Ordering::Greater;
        }
        if head % 256 == 0 {
            return Ordering::Equal;
        }
        name.cmp(self.name)
    }
}
