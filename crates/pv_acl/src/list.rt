//! Named entries in their order: users by ID, then groups by ID.
ghost use Rattle.std.specs.Prelude.{◌≡◌, ◌≢◌, ◌≤◌, true, [], ◌∷◌, ◌++◌, length, OnOk, OnErr, IfOk, slice_get};
ghost use Rattle.std.specs.Bool.{OnTrue, OnFalse};
ghost use Rattle.std.specs.List.{prefix_len};
ghost use Rattle.std.specs.Cmp.Lexicographic.{pointwise, lists_per, lists_equiv};
ghost use Rattle.std.specs.Option.{option_copied, option_map};
ghost use Rattle.pv_acl.specs.contracts.perm.NamedEq.TheImpl.Laws as named_equiv;
ghost use Rattle.pv_acl.specs.contracts.perm.NamedPartialEq.TheImpl.Laws as named_per;
ghost use Rattle.pv_acl.specs.NamedEntries.{is_ordered, is_before, all_before, put_named, is_empty};

use crate::perm::Named;
use pv_path::RareList;
use std::alloc::{AllocError, Global};
use std::marker::Model;

/// The named entries of a part (acl(5)): users by ID, then groups by ID, each user and each group at most once.
///
/// In contracts, a value is the list of its entries.
#[derive(Clone, Drop)]
pub struct NamedList {
    items: RareList<Named>,
}

impl Model for NamedList {
    ghost use Rattle.std.specs.Prelude.{◌≡◌, true, List};
    ghost use Rattle.pv_acl.specs.declared.perm.Named.{Named};
    ghost use Rattle.pv_acl.specs.NamedEntries.{is_ordered};

    ghost Value = { List Named };

    ghost view = { λ l. l.items };

    ghost invariant = { λ l. is_ordered l.items ≡ true };
}

impl NamedList {
    /// Returns the empty list. The call does not allocate.
    pub fn new(alloc: Global) -> NamedList
        ensures { result ≡ [] }
    {
        NamedList {
            items: RareList::new(alloc),
        }
    }

    /// Adds an entry at the end.
    ///
    /// The entry must come after all entries of the list. The only error is `AllocError`, and then the list is
    /// unchanged.
    pub fn push(&mut self, item: Named) -> Result<(), AllocError>
        requires { all_before self.old item ≡ true }
        ensures ok { OnOk result (self.new ≡ self.old ++ item ∷ []) }
        ensures err { OnErr result (self.new ≡ self.old) }
    {
        self.items.push(item)?;
        Ok(())
    }

    /// Puts an entry where the order has it. It replaces the entry for the same user or group, if there is one.
    ///
    /// The only error is `AllocError`, and then the list is unchanged.
    pub fn put(&mut self, item: Named) -> Result<(), AllocError>
        ensures ok { OnOk result (self.new ≡ put_named item self.old) }
        ensures err { OnErr result (self.new ≡ self.old) }
    {
        let at = index_of(self.items.as_slice(), &item);
        if speaks_of(self.items.as_slice(), at, &item) {
            self.items.set(at, item);
            return Ok(());
        }
        self.items.insert(at, item)?;
        Ok(())
    }

    /// Returns the number of entries.
    pub fn len(&self) -> usize
        ensures { result ≡ length self.now }
    {
        self.items.as_slice().len()
    }

    /// Returns whether there are no entries.
    pub fn is_empty(&self) -> bool
        ensures { result ≡ is_empty self.now }
    {
        self.items.as_slice().is_empty()
    }

    /// Returns the entry at an index counted from 0, or `None` past the last entry.
    pub fn get(&self, i: usize) -> Option<&Named>
        ensures { option_copied result ≡ slice_get self.now i }
    {
        self.items.as_slice().get(i)
    }

    /// Returns the entries as a slice, in their order.
    pub fn as_slice(&self) -> &[Named]
        ensures value { result.now ≡ self.now }
        ensures ordered { is_ordered self.now ≡ true }
    {
        self.items.as_slice()
    }

    /// Returns a copy of the list. The only error is `AllocError`.
    pub fn copy(&self) -> Result<NamedList, AllocError>
        ensures { IfOk result (λ copy. copy ≡ self.now) }
    {
        self.clone()
    }
}

impl PartialEq for NamedList {
    ghost eq = { pointwise ⟦<Named as PartialEq>⟧.eq };

    ghost laws = { lists_per named_per.laws-law };

    fn eq(&self, other: &NamedList) -> bool {
        self.items == other.items
    }
}

impl Eq for NamedList {
    ghost laws = { lists_equiv named_equiv.laws-law };
}

/// Returns how many of the first entries come before `item`.
fn index_of(items: &[Named], item: &Named) -> usize
    ensures index { result ≡ prefix_len (λ x. is_before x item.now) items.now }
    ensures within { result ≤ length items.now }
{
    items
        .iter()
        .take_while(|x| x.who.is_before(item.who))
        .count()
}

/// Returns whether the entry at an index is for the user or group of `item`.
fn speaks_of(items: &[Named], at: usize, item: &Named) -> bool
    ensures yes { OnTrue result (option_map (λ x. x.who) (slice_get items.now at) ≡ Some item.now.who) }
    ensures no { OnFalse result (option_map (λ x. x.who) (slice_get items.now at) ≢ Some item.now.who) }
{
    match items.get(at) {
        Some(x) => x.who == item.who,
        None => false,
    }
}
