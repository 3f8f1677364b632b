//! The children of a directory: names with the numbers of their slots, in byte order of the names.
ghost use Rattle.std.specs.Prelude.{◌≡◌, ℕ, ◌+◌, ◌^◌, ◌<◌, ◌≤◌, List, [], ◌++◌, ◌∷◌, length, map, Some, IfOk, IfSome, IfErr, OnOk, OnErr, MatchResult, slice_get, true};
ghost use Rattle.std.specs.Option.{option_copied};
ghost use Rattle.std.specs.FinMap as fin;
ghost use Rattle.pv_tree.specs.Finding.{IsFoundAt, IsGapAt};
ghost use Rattle.pv_path.specs.Names.{name_cmp};
ghost use Rattle.pv_tree.specs.Children.{IsSorted, orders_of, without};

use crate::binary_search::{Probe, find, place_of};
use crate::sought_name::SoughtName;
use pv_path::{Name, NameList};
use std::alloc::{AllocError, Global};
use std::cell::Cell;
use std::cmp::Ordering;
use std::collections::VecDeque;
use std::marker::Model;
use std::mem::replace;

/// The names of children beside one that is sought.
#[derive(Drop)]
struct NameProbe<'a> {
    entries: &'a VecDeque<(Name, usize)>,
    name: &'a SoughtName<'a>,
    left: u32,
}

impl<'a> Probe for NameProbe<'a> {
    ghost orders = { λ p. orders_of p.name.now p.entries.now.items };

    ghost left = { λ p. p.left };

    fn compare(&mut self, i: usize) -> Ordering {
        self.left -= 1;
        self.name.order_of(&self.entries[i].0)
    }
}

/// The names of children that lie in a row beside one that is sought, which are asked faster.
#[derive(Drop)]
struct RowProbe<'a> {
    entries: &'a [(Name, usize)],
    name: &'a SoughtName<'a>,
    left: u32,
}

impl<'a> Probe for RowProbe<'a> {
    ghost orders = { λ p. orders_of p.name.now p.entries.now };

    ghost left = { λ p. p.left };

    fn compare(&mut self, i: usize) -> Ordering {
        self.left -= 1;
        self.name.order_of(&self.entries[i].0)
    }
}

/// The number at a place of a row, where a name stands there.
fn number_there(entries: &[(Name, usize)], i: usize, name: &SoughtName<'_>) -> Option<usize>
    requires { IsSorted entries.now }
    ensures { IfSome result (λ number. Some number ≡ fin.find name_cmp name.now entries.now) }
{
    let entry = entries.get(i)?;
    if name.order_of(&entry.0).is_eq() {
        Some(entry.1)
    } else {
        None
    }
}

/// The number at a name in a row, or nothing if it is absent. It makes at most 64 queries.
fn number_sought(
    entries: &[(Name, usize)],
    last: &Cell<usize>,
    name: &SoughtName<'_>,
) -> Option<usize>
    requires { IsSorted entries.now }
    ensures { result ≡ fin.find name_cmp name.now entries.now }
{
    let mut probe = RowProbe {
        entries,
        name,
        left: 64,
    };
    match find(&mut probe, entries.len()) {
        Some(i) => {
            last.set(i);
            Some(entries[i].1)
        }
        None => None,
    }
}

/// The number that stands at a name in a row, or nothing if it is absent. What is sought is mostly what was found
/// last, or stands after it.
fn number_in(entries: &[(Name, usize)], last: &Cell<usize>, name: &SoughtName<'_>) -> Option<usize>
    requires { IsSorted entries.now }
    ensures { result ≡ fin.find name_cmp name.now entries.now }
{
    let at = last.get();
    if let Some(number) = number_there(entries, at, name) {
        return Some(number);
    }
    let next = at.wrapping_add(1);
    if let Some(number) = number_there(entries, next, name) {
        last.set(next);
        return Some(number);
    }
    number_sought(entries, last, name)
}

/// The number that stands at a name, or nothing if it is absent. The entries lie in two rows, of which the second is
/// mostly empty.
fn number_of(
    entries: &VecDeque<(Name, usize)>,
    last: &Cell<usize>,
    name: &SoughtName<'_>,
) -> Option<usize>
    requires { IsSorted entries.now.items }
    ensures { result ≡ fin.find name_cmp name.now entries.now.items }
{
    let (first, second) = entries.as_slices();
    match number_in(first, last, name) {
        Some(number) => Some(number),
        None => number_in(second, last, name),
    }
}

/// Whether each name stands before one.
fn is_after_all(entries: &VecDeque<(Name, usize)>, name: &SoughtName<'_>) -> bool
    requires { IsSorted entries.now.items }
    ensures { result ≡ true → IsGapAt (orders_of name.now entries.now.items) (length entries.now.items) }
{
    match entries.back() {
        Some(last) => name.order_of(&last.0).is_lt(),
        None => true,
    }
}

/// The index of a name, or otherwise the index at which it would be put. A name after all others costs one query.
fn place(entries: &VecDeque<(Name, usize)>, name: &SoughtName<'_>) -> Result<usize, usize>
    requires { IsSorted entries.now.items }
    ensures found { IfOk result (IsFoundAt (orders_of name.now entries.now.items)) }
    ensures gap { IfErr result (IsGapAt (orders_of name.now entries.now.items)) }
    ensures within { MatchResult result (λ i. i < length entries.now.items) (λ i. i ≤ length entries.now.items) }
{
    if is_after_all(entries, name) {
        return Err(entries.len());
    }
    let mut probe = NameProbe {
        entries,
        name,
        left: 64,
    };
    place_of(&mut probe, entries.len())
}

/// Puts a number at a place, and gives back the one that stood there.
fn replace_at(entries: &mut VecDeque<(Name, usize)>, i: usize, number: usize) -> usize
    requires { i < length entries.old.items }
    ensures put { (name : List ℕ) → IsFoundAt (orders_of name entries.old.items) i →
        entries.new.items ≡ fin.put name_cmp name number entries.old.items }
    ensures old { (name : List ℕ) → IsFoundAt (orders_of name entries.old.items) i →
        Some result ≡ fin.find name_cmp name entries.old.items }
{
    let entry = &mut entries[i];
    replace(&mut entry.1, number)
}

/// Puts a number at a name, and gives back the one that stood there.
fn put_in(
    entries: &mut VecDeque<(Name, usize)>,
    name: Name,
    number: usize,
) -> Result<Option<usize>, AllocError>
    requires { IsSorted entries.old.items }
    ensures ok { OnOk result (entries.new.items ≡ fin.put name_cmp name number entries.old.items) }
    ensures old { IfOk result (λ old. old ≡ fin.find name_cmp name entries.old.items) }
    ensures err { OnErr result (entries.new.items ≡ entries.old.items) }
{
    match place(entries, &SoughtName::of(&name)) {
        Ok(i) => Ok(Some(replace_at(entries, i, number))),
        Err(i) => {
            entries.insert(i, (name, number))?;
            Ok(None)
        }
    }
}

/// Takes the entry of a name out, if there is one.
fn take_out(entries: &mut VecDeque<(Name, usize)>, name: &SoughtName<'_>) -> Option<usize>
    requires { IsSorted entries.old.items }
    ensures items { entries.new.items ≡ without name.now entries.old.items }
    ensures old { result ≡ fin.find name_cmp name.now entries.old.items }
{
    match place(entries, name) {
        Ok(i) => match entries.remove(i) {
            Some(entry) => Some(entry.1),
            None => unreachable!(),
        },
        Err(_) => None,
    }
}

/// The children of a directory. Clauses see the map from their names to their numbers.
#[derive(Drop)]
pub(crate) struct Children {
    /// In byte order of the names, each name once.
    entries: VecDeque<(Name, usize)>,
    /// The place of what was found last.
    last: Cell<usize>,
}

impl Model for Children {
    ghost use Rattle.std.specs.FinMap as fin;
    ghost use Rattle.pv_tree.specs.Children as kids;
    ghost use Rattle.pv_tree.specs.Children.{children_code, IsSorted};

    ghost Value = { kids.Children };

    ghost coded = { children_code };

    ghost view = { λ c. fin.from_sorted c.entries.items };

    ghost invariant = { λ c. IsSorted c.entries.items };
}

impl Children {
    /// No children. It takes no memory.
    pub(crate) fn new(alloc: Global) -> Children
        ensures { result ≡ fin.empty }
    {
        Children {
            entries: VecDeque::new(alloc),
            last: Cell::new(0),
        }
    }

    /// How many children there are. It takes no memory.
    pub(crate) fn count(&self) -> usize
        ensures { result ≡ length (fin.entries self.now) }
    {
        self.entries.len()
    }

    /// The number of the child with a name, or nothing if there is none. It takes no memory.
    pub(crate) fn get(&self, name: &Name) -> Option<usize>
        ensures { result ≡ fin.get self.now name.now }
    {
        number_of(&self.entries, &self.last, &SoughtName::of(name))
    }

    /// Puts a child at a name, and gives back the number of the one that it replaces. After running out of memory
    /// the children are as before.
    pub(crate) fn put(&mut self, name: Name, number: usize) -> Result<Option<usize>, AllocError>
        ensures ok { OnOk result (self.new ≡ fin.insert self.old name number) }
        ensures old { IfOk result (λ old. old ≡ fin.get self.old name) }
        ensures err { OnErr result (self.new ≡ self.old) }
    {
        put_in(&mut self.entries, name, number)
    }

    /// Takes the child with a name out, and gives back its number, if there is one.
    pub(crate) fn remove(&mut self, name: &Name) -> Option<usize>
        ensures items { self.new ≡ fin.remove self.old name.now }
        ensures old { result ≡ fin.get self.old name.now }
    {
        take_out(&mut self.entries, &SoughtName::of(name))
    }

    /// The names, in byte order.
    pub(crate) fn names(&self, alloc: Global) -> Result<NameList, AllocError>
        ensures { IfOk result (λ names. names ≡ fin.keys self.now) }
    {
        names_of(alloc, &self.entries)
    }

    /// The child at a place in byte order of the names, counted from 0, or nothing past the end. It takes
    /// no memory.
    pub(crate) fn child(&self, i: usize) -> Option<&(Name, usize)>
        ensures child { option_copied result ≡ slice_get (fin.entries self.now) i }
        ensures within { IfSome result (λ _. i + 1 < 2 ^ 64) }
    {
        self.entries.get(i)
    }
}

/// Copies of the names of entries.
fn names_of(alloc: Global, entries: &VecDeque<(Name, usize)>) -> Result<NameList, AllocError>
    ensures { IfOk result (λ names. names ≡ map (λ e. e.0) entries.now.items) }
{
    let mut names = NameList::new(alloc);
    for i in 0..entries.len() {
        names.push(entries[i].0.copy()?)?;
    }
    Ok(names)
}
