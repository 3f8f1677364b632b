//! Lists that are empty for most objects. An empty one is two words long, and items are kept in a separate
//! allocation.
ghost use Rattle.std.specs.Prelude.{◌≡◌, ◌<◌, ◌≤◌, [], ◌∷◌, ◌++◌, length, set, OnOk, OnErr, IfOk};
ghost use Rattle.std.specs.List.{AllZip, insert};
ghost use Rattle.std.specs.Cmp.Lexicographic.{pointwise, lists_per, lists_equiv};

use std::alloc::{AllocError, Global};
use std::marker::Model;

/// A list that is empty for most objects. An empty one takes two machine words and no allocation.
///
/// In contracts, a value is the list of its items.
#[derive(Drop)]
pub struct RareList<T> {
    alloc: Global,
    items: Option<Box<Vec<T>>>,
}

impl<T> Model for RareList<T> {
    ghost use Rattle.std.specs.Prelude.{List};
    ghost use Rattle.pv_path.specs.Rare.{items_in};

    ghost Value = { List T };

    ghost view = { λ l. items_in l.items };
}

impl<T> RareList<T> {
    /// Returns the empty list. The call does not allocate.
    pub fn new(alloc: Global) -> Self
        ensures { result ≡ [] }
    {
        RareList { alloc, items: None }
    }

    /// Returns the items as a slice. The call does not allocate.
    pub fn as_slice(&self) -> &[T]
        ensures { result.now ≡ self.now }
    {
        match &self.items {
            Some(items) => items.as_slice(),
            None => &[],
        }
    }
}

impl<T: Drop> RareList<T> {
    /// Adds an item at the end. The only error is `AllocError`, and then the list is unchanged.
    pub fn push(&mut self, item: T) -> Result<(), AllocError>
        ensures ok { OnOk result (self.new ≡ self.old ++ item ∷ []) }
        ensures err { OnErr result (self.new ≡ self.old) }
    {
        match &mut self.items {
            Some(items) => items.push(item)?,
            None => self.items = Some(one_item(self.alloc, item)?),
        }
        Ok(())
    }

    /// Inserts an item at an index counted from 0, and moves the items from there on one index up.
    ///
    /// The index must be at most the length. The only error is `AllocError`, and then the list is unchanged.
    pub fn insert(&mut self, at: usize, item: T) -> Result<(), AllocError>
        requires { at ≤ length self.old }
        ensures ok { OnOk result (self.new ≡ insert self.old at item) }
        ensures err { OnErr result (self.new ≡ self.old) }
    {
        match &mut self.items {
            Some(items) => items.insert(at, item)?,
            None => self.items = Some(one_item(self.alloc, item)?),
        }
        Ok(())
    }

    /// Replaces the item at an index counted from 0, which must be below the length. The call does not allocate.
    pub fn set(&mut self, at: usize, item: T)
        requires { at < length self.old }
        ensures { self.new ≡ set self.old at item }
    {
        match &mut self.items {
            Some(items) => items[at] = item,
            None => unreachable!(),
        }
    }
}

/// Returns a list of one item, in an allocation of its own.
fn one_item<T: Drop>(alloc: Global, item: T) -> Result<Box<Vec<T>>, AllocError>
    ensures { IfOk result (λ items. items.value.items ≡ item ∷ []) }
{
    let mut items = Vec::new(alloc);
    items.push(item)?;
    Ok(Box::new(alloc, items)?)
}

/// Returns a copy of the items, in an allocation of its own.
fn apart<T: Clone>(alloc: Global, items: &Vec<T>) -> Result<Box<Vec<T>>, AllocError>
    ensures { IfOk result (λ copy. AllZip T.is_clone items.now.items copy.value.items) }
{
    Ok(Box::new(alloc, items.clone()?)?)
}

impl<T: Clone> Clone for RareList<T> {
    ghost is_clone = { AllZip T.is_clone };

    fn clone(&self) -> Result<Self, AllocError> {
        let items = match &self.items {
            Some(items) => Some(apart(self.alloc, items)?),
            None => None,
        };
        Ok(RareList {
            alloc: self.alloc,
            items,
        })
    }
}

impl<T: PartialEq> PartialEq for RareList<T> {
    ghost eq = { pointwise T.eq };

    ghost laws = { lists_per T.laws };

    fn eq(&self, other: &Self) -> bool {
        self.as_slice() == other.as_slice()
    }
}

impl<T: Eq> Eq for RareList<T> {
    ghost laws = { lists_equiv T.Eq.laws };
}
