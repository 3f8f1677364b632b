//! Objects in a directory of a host, and sorted lists of them.
ghost use Rattle.std.specs.Prelude.{◌≡◌, ◌↔◌, true, [], ◌∷◌, ◌++◌, length, slice_get, IsTrue, OnOk, OnErr, IfOk, if◌then◌else◌};
ghost use Rattle.std.specs.Option.{option_copied};
ghost use Rattle.pv_folder.specs.Lists.{all_before, comes_before, is_ordered};

use pv_path::Bytes;
use std::alloc::{AllocError, Global};
use std::marker::Model;

/// The kind of an object of a host.
#[derive(Clone, Copy, PartialEq, Eq)]
pub enum HostKind {
    /// A directory.
    Directory,
    /// A regular file.
    File,
    /// Any other object.
    Other,
}

/// An object in a directory of a host.
#[derive(Drop)]
pub struct HostItem {
    /// The name of the object in its directory.
    pub name: Bytes,
    /// The kind of the object.
    pub kind: HostKind,
}

/// The objects in a directory, sorted by the bytes of their names, each name once (readdir(3)).
///
/// In contracts, a value is the list of objects.
#[derive(Drop)]
pub struct HostList {
    items: Vec<HostItem>,
}

impl Model for HostList {
    ghost use Rattle.std.specs.Prelude.{◌≡◌, true, List};
    ghost use Rattle.pv_folder.specs.declared.item.HostItem.{HostItem as Item};
    ghost use Rattle.pv_folder.specs.Lists.{is_ordered};

    ghost Value = { List Item };

    ghost view = { λ l. l.items.items };

    ghost invariant = { λ l. is_ordered l.items.items ≡ true };
}

impl HostList {
    /// Returns an empty list. The call does not allocate.
    pub fn new(alloc: Global) -> HostList
        ensures { result ≡ [] }
    {
        HostList {
            items: Vec::new(alloc),
        }
    }

    /// Appends an object, whose name must come after all names in the list. If memory runs out, the list is as
    /// before.
    pub fn push(&mut self, item: HostItem) -> Result<(), AllocError>
        requires { all_before self.old item ≡ true }
        ensures ok { OnOk result (self.new ≡ self.old ++ item ∷ []) }
        ensures err { OnErr result (self.new ≡ self.old) }
    {
        self.items.push(item)?;
        Ok(())
    }

    /// Appends an object if its name comes after all names in the list, and tells whether it did.
    ///
    /// If the answer is `Ok(false)`, or memory runs out, the list is as before.
    pub fn put_last(&mut self, item: HostItem) -> Result<bool, AllocError>
        ensures last { IfOk result (λ put. put ≡ all_before self.old item) }
        ensures ok { IfOk result (λ put. self.new ≡ (if put then self.old ++ item ∷ [] else self.old)) }
        ensures err { OnErr result (self.new ≡ self.old) }
    {
        if !comes_last(self.items.as_slice(), &item) {
            return Ok(false);
        }
        self.push(item)?;
        Ok(true)
    }

    /// Returns the number of objects. The call does not allocate.
    pub fn len(&self) -> usize
        ensures { result ≡ length self.now }
    {
        self.items.len()
    }

    /// Returns the object at an index counted from 0, or `None` if the index is not below the length. The call does not
    /// allocate.
    pub fn get(&self, i: usize) -> Option<&HostItem>
        ensures { option_copied result ≡ slice_get self.now i }
    {
        self.items.get(i)
    }

    /// Returns the objects as a slice, in byte order of their names. The call does not allocate.
    pub fn as_slice(&self) -> &[HostItem]
        ensures value { result.now ≡ self.now }
        ensures ordered { is_ordered self.now ≡ true }
    {
        self.items.as_slice()
    }
}

/// Returns whether the name of an item comes before that of another.
fn comes_before(x: &HostItem, y: &HostItem) -> bool
    ensures { result ≡ comes_before x.now y.now }
{
    x.name.as_slice().cmp(y.name.as_slice()).is_lt()
}

/// Returns whether an item comes after all items of a sorted list. Only the last item is compared.
fn comes_last(items: &[HostItem], item: &HostItem) -> bool
    requires { is_ordered items.now ≡ true }
    ensures { result ≡ all_before items.now item.now }
{
    match items {
        [] => true,
        [.., last] => comes_before(last, item),
    }
}
