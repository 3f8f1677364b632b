//! Extended attributes of objects, and ordered lists of them (xattr(7)).
ghost use Rattle.std.specs.Prelude.{◌≡◌, ◌≢◌, ◌↔◌, ◌≤◌, true, not, ◌==◌, Some, [], ◌∷◌, ◌++◌, length, IsTrue, OnOk, OnErr, IfOk, slice_get};
ghost use Rattle.std.specs.Bool.{OnTrue, OnFalse};
ghost use Rattle.std.specs.List.{list_any, list_all, prefix_len};
ghost use Rattle.std.specs.Option.{option_copied, option_map};
ghost use Rattle.pv_steps.specs.Attributes.{is_attr_name, is_attr, are_attrs, comes_before, all_before, put_attr, put_attrs, inner_bytes};

use pv_path::{Bytes, RareList};
use std::alloc::{AllocError, Global};
use std::marker::Model;

/// An extended attribute of an object: a name and a value (xattr(7)).
#[derive(Clone, Drop, PartialEq, Eq)]
pub struct Attr {
    /// The complete name, such as `user.comment`: a namespace, a period and the rest.
    pub name: Bytes,
    /// The value: any bytes, at most 65536 of them.
    pub value: Bytes,
}

impl Attr {
    /// Copies the attribute. The only error is `AllocError`.
    pub fn copy(&self) -> Result<Attr, AllocError>
        ensures { IfOk result (λ attr. attr ≡ self.now) }
    {
        self.clone()
    }
}

/// Returns whether bytes can be the name of an extended attribute (xattr(7)).
///
/// A name has 1 to 255 bytes without NUL, and a period that is neither the first byte nor the last. Names in the
/// namespace `system` are not allowed, because ACLs are kept there. The call does not allocate.
///
/// For example, `user.comment` is a name; `comment`, `user.` and `system.posix_acl_access` are not.
pub fn is_attr_name(name: &[u8]) -> bool
    ensures { result ≡ is_attr_name name.now }
{
    name.len() <= 255 && has_no_nul(name) && has_inner_period(name) && !name.starts_with(b"system.")
}

/// Returns whether an extended attribute can have this name and this value: `is_attr_name` holds, and the value has at
/// most 65536 bytes. The call does not allocate.
pub fn is_attr(name: &[u8], value: &[u8]) -> bool
    ensures { result ≡ is_attr name.now value.now }
{
    is_attr_name(name) && value.len() <= 65_536
}

/// Returns whether no byte is NUL.
pub(crate) fn has_no_nul(bytes: &[u8]) -> bool
    ensures { result ≡ list_all (λ b. not (b == 0)) bytes.now }
{
    bytes.iter().all(|b| *b != 0)
}

/// Returns whether there is a period that is neither the first byte nor the last.
fn has_inner_period(name: &[u8]) -> bool
    ensures { result ≡ list_any (λ b. b == 46) (inner_bytes name.now) }
{
    match name {
        [_, inner @ .., _] => has_period(inner),
        _ => false,
    }
}

fn has_period(bytes: &[u8]) -> bool
    ensures { result ≡ list_any (λ b. b == 46) bytes.now }
{
    bytes.iter().any(|b| *b == b'.')
}

/// The extended attributes of one object, sorted by the bytes of their names, each name once (xattr(7)).
///
/// Each name and each value is allowed (`is_attr`). In contracts, a value is the list of attributes.
#[derive(Clone, Drop)]
pub struct AttrList {
    items: RareList<Attr>,
}

impl Model for AttrList {
    ghost use Rattle.std.specs.Prelude.{◌≡◌, true, List};
    ghost use Rattle.pv_steps.specs.declared.attr.Attr.{Attr};
    ghost use Rattle.pv_steps.specs.Attributes.{are_attrs};

    ghost Value = { List Attr };

    ghost view = { λ l. l.items };

    ghost invariant = { λ l. are_attrs l.items ≡ true };
}

impl AttrList {
    /// Returns an empty list. The call does not allocate.
    pub fn new(alloc: Global) -> AttrList
        ensures { result ≡ [] }
    {
        AttrList {
            items: RareList::new(alloc),
        }
    }

    /// Appends an attribute. Its name must come after all names in the list, and its name and value must be allowed
    /// (`is_attr`).
    ///
    /// If memory runs out, the list is as before.
    pub fn push(&mut self, item: Attr) -> Result<(), AllocError>
        requires allowed { is_attr item.name item.value ≡ true }
        requires last { all_before self.old item ≡ true }
        ensures ok { OnOk result (self.new ≡ self.old ++ item ∷ []) }
        ensures err { OnErr result (self.new ≡ self.old) }
    {
        self.items.push(item)?;
        Ok(())
    }

    /// Sets an attribute: inserts it in order, or replaces the attribute that has the same name.
    ///
    /// The name and the value must be allowed (`is_attr`). If memory runs out, the list is as before.
    pub fn put(&mut self, item: Attr) -> Result<(), AllocError>
        requires { is_attr item.name item.value ≡ true }
        ensures ok { OnOk result (self.new ≡ put_attr item self.old) }
        ensures err { OnErr result (self.new ≡ self.old) }
    {
        let at = place_of(self.items.as_slice(), &item);
        if is_named_as(self.items.as_slice(), at, &item) {
            self.items.set(at, item);
            return Ok(());
        }
        self.items.insert(at, item)?;
        Ok(())
    }

    /// Returns a copy of the list with all attributes of `given` set in it, as `put` sets them.
    ///
    /// An attribute of `given` replaces one of the same name. The only error is `AllocError`.
    pub fn with_all(&self, given: &AttrList) -> Result<AttrList, AllocError>
        ensures { IfOk result (λ all. all ≡ put_attrs given.now self.now) }
    {
        let mut all = self.copy()?;
        for attr in given.as_slice() {
            all.put(attr.copy()?)?;
        }
        Ok(all)
    }

    /// Returns the number of attributes. The call does not allocate.
    pub fn len(&self) -> usize
        ensures { result ≡ length self.now }
    {
        self.items.as_slice().len()
    }

    /// Returns the attribute at an index counted from 0, or `None` if the index is not below the length. The call does
    /// not allocate.
    pub fn get(&self, i: usize) -> Option<&Attr>
        ensures { option_copied result ≡ slice_get self.now i }
    {
        self.items.as_slice().get(i)
    }

    /// Returns the attributes as a slice, in byte order of their names. The call does not allocate.
    pub fn as_slice(&self) -> &[Attr]
        ensures value { result.now ≡ self.now }
        ensures allowed { are_attrs self.now ≡ true }
    {
        self.items.as_slice()
    }

    /// Returns whether there is no attribute. The call does not allocate.
    pub fn is_empty(&self) -> bool
        ensures { IsTrue result ↔ (self.now ≡ []) }
    {
        self.items.as_slice().is_empty()
    }

    /// Returns whether two lists have the same names with the same values. The call does not allocate.
    pub fn is_same(&self, other: &AttrList) -> bool
        ensures { IsTrue result ↔ (self.now ≡ other.now) }
    {
        self.items.as_slice() == other.items.as_slice()
    }

    /// Copies the list. The only error is `AllocError`.
    pub fn copy(&self) -> Result<AttrList, AllocError>
        ensures { IfOk result (λ copy. copy ≡ self.now) }
    {
        self.clone()
    }
}

/// Counts the attributes at the front of the list whose names come before the name of this one.
fn place_of(items: &[Attr], item: &Attr) -> usize
    ensures place { result ≡ prefix_len (λ x. comes_before x item.now) items.now }
    ensures within { result ≤ length items.now }
{
    items.iter().take_while(|x| is_before(x, item)).count()
}

/// Returns whether the name of an attribute comes before that of another.
fn is_before(x: &Attr, y: &Attr) -> bool
    ensures { result ≡ comes_before x.now y.now }
{
    x.name.as_slice().cmp(y.name.as_slice()).is_lt()
}

fn is_same_bytes(a: &Bytes, b: &Bytes) -> bool
    ensures { IsTrue result ↔ (a.now ≡ b.now) }
{
    a.is_same(b)
}

/// Returns whether there is an attribute at an index, and it has the same name as `item`.
fn is_named_as(items: &[Attr], at: usize, item: &Attr) -> bool
    ensures yes { OnTrue result (option_map (λ x. x.name) (slice_get items.now at) ≡ Some item.now.name) }
    ensures no { OnFalse result (option_map (λ x. x.name) (slice_get items.now at) ≢ Some item.now.name) }
{
    match items.get(at) {
        Some(x) => is_same_bytes(&x.name, &item.name),
        None => false,
    }
}
