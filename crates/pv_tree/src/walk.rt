//! A walk over all objects of a tree, or over those at and below a path, in the order of their paths.
ghost use Rattle.std.specs.Prelude.{◌≡◌, ℕ, ◌+◌, ◌<◌, ◌^◌, List, [], ◌∷◌, ◌++◌, length, drop, filter, map, true, false, Some, None, IfOk, IfSome, OnOk, OnErr, slice_get};
ghost use Rattle.std.specs.Option.{option_copied, option_map};
ghost use Rattle.std.specs.List.{list_all};
ghost use Rattle.pv_path.specs.Paths.{has_names, is_prefix};
ghost use Rattle.pv_tree.specs.Slots.{IsForest, entries_in};
ghost use Rattle.pv_tree.specs.Walks.{IsWay, children_in, left_in};

use crate::slot::Slot;
use crate::slots::child_of;
use pv_path::{Name, TreePath};
use pv_steps::Node;
use std::alloc::{AllocError, Global};
use std::marker::Model;

/// One object of a tree that is walked: its path, its node and its payload.
#[derive(Clone, Copy)]
pub struct WalkEntry<'a> {
    /// The components of the path from the root on. The slice is empty for the root.
    pub names: &'a [Name],
    /// The node of the object.
    pub node: &'a Node,
    /// The bytes of a file or the target of a link; empty for other kinds.
    pub payload: &'a [u8],
}

/// A walk over all objects of a tree, or over those at and below a path. They come in the order of their paths: a
/// directory comes before what is in it.
///
/// In contracts, a value is the list of the paths and objects that are left, the current one first.
#[derive(Drop)]
pub struct Walk<'a> {
    slots: &'a Vec<Slot>,
    /// The path of the current object.
    names: Vec<Name>,
    /// The slots from the root to the current object. With each goes the index of the child where the walk goes on.
    opened: Vec<(usize, usize)>,
}

impl<'a> Model for Walk<'a> {
    ghost use Rattle.std.specs.Prelude.{List, ℕ, length, true};
    ghost use Rattle.pv_steps.specs.declared.object.Object.{Object as ObjectValue};

    ghost Value = { List (List (List ℕ) × ObjectValue) };

    ghost use Rattle.pv_tree.specs.Walks.{left_in, IsWalk};

    ghost view = { λ w. left_in true (length w.slots.now.items) w.slots.now.items w.names.items w.opened.items };

    ghost invariant = { λ w. IsWalk w.slots.now.items w.names.items w.opened.items };
}

impl<'a> Walk<'a> {
    /// Returns a walk that begins at the root, over slots that make a tree.
    pub(crate) fn of(alloc: Global, slots: &'a Vec<Slot>) -> Result<Walk<'a>, AllocError>
        requires { IsForest slots.now.items }
        ensures { IfOk result (λ walk. walk ≡ entries_in (length slots.now.items) slots.now.items 0) }
    {
        let mut opened = Vec::new(alloc);
        opened.push((0, 0))?;
        Ok(Walk {
            slots,
            names: Vec::new(alloc),
            opened,
        })
    }

    /// Returns a walk over the objects at and below the path of some names, over slots that make a tree. If the path is
    /// absent, the walk is at its end.
    pub(crate) fn below(
        alloc: Global,
        slots: &'a Vec<Slot>,
        names: &[Name],
    ) -> Result<Walk<'a>, AllocError>
        requires { IsForest slots.now.items }
        ensures { IfOk result (λ walk. walk
            ≡ filter (λ e. is_prefix names.now e.0) (entries_in (length slots.now.items) slots.now.items 0)) }
    {
        let opened = opened_along(alloc, slots, names)?;
        Ok(Walk {
            slots,
            names: names.to_vec(alloc)?,
            opened,
        })
    }

    /// Returns the current object of the walk, or `None` if the walk is at its end. The call does not allocate.
    ///
    /// For example, the first answer for a walk that `MemTree::walk` begins is the root.
    pub fn place(&self) -> Option<WalkEntry<'_>>
        ensures { option_map (λ p. (p.names.now, record { node = p.node.now; payload = p.payload.now })) result
            ≡ slice_get self.now 0 }
    {
        match self.opened.last() {
            Some(last) => {
                let slot = &self.slots[last.0];
                Some(WalkEntry {
                    names: self.names.as_slice(),
                    node: &slot.node,
                    payload: slot.content.payload(),
                })
            }
            None => None,
        }
    }

    /// Goes on to the next object. The only error is `AllocError`.
    ///
    /// After the last object the walk is at its end, where `advance` does nothing. After an error the walk is at
    /// its end, too.
    pub fn advance(&mut self) -> Result<(), AllocError>
        ensures ok { OnOk result (self.new ≡ drop 1 self.old) }
        ensures err { OnErr result (self.new ≡ []) }
    {
        match go_on(self.slots, &mut self.names, &mut self.opened) {
            Ok(()) => Ok(()),
            Err(fault) => {
                self.opened.clear();
                Err(fault)
            }
        }
    }
}

/// Returns how many children a slot has.
fn child_count(slots: &Vec<Slot>, number: usize) -> usize
    ensures { result ≡ length (children_in slots.now.items number) }
{
    match slots.get(number) {
        Some(slot) => slot.content.child_count(),
        None => 0,
    }
}

/// Returns the slots along the path of some names, opened for a walk over the objects at and below this path. The slots
/// above the path have no child left to visit. The list is empty if the path is absent.
fn opened_along(
    alloc: Global,
    slots: &Vec<Slot>,
    names: &[Name],
) -> Result<Vec<(usize, usize)>, AllocError>
    ensures way { IfOk result (λ opened. IsWay slots.now.items names.now opened.items) }
    ensures left { IfOk result (λ opened. left_in true (length slots.now.items) slots.now.items names.now opened.items
        ≡ filter (λ e. is_prefix names.now e.0) (entries_in (length slots.now.items) slots.now.items 0)) }
{
    let mut opened = Vec::with_capacity(alloc, names.len() + 1)?;
    let mut number = 0;
    for name in names {
        let Some(child) = child_of(slots, number, name) else {
            return Ok(Vec::new(alloc));
        };
        opened.push((number, child_count(slots, number)))?;
        number = child;
    }
    opened.push((number, 0))?;
    Ok(opened)
}

/// Returns the paths of the objects that are left of a walk, in order. If the answer is Ok, the walk is then at its
/// end.
pub(crate) fn paths_left(alloc: Global, walk: &mut Walk<'_>) -> Result<Vec<TreePath>, AllocError>
    requires { list_all (λ e. has_names e.0) walk.old ≡ true }
    ensures { IfOk result (λ paths. paths.items ≡ map (λ e. e.0) walk.old) }
{
    let mut paths = Vec::new(alloc);
    while let Some(entry) = walk.place() {
        paths.push(TreePath::of(alloc, entry.names)?)?;
        walk.advance()?;
    }
    Ok(paths)
}

/// Returns the child of a slot at an index in the order of the names, if there is one.
fn child_at(slots: &Vec<Slot>, number: usize, i: usize) -> Option<&(Name, usize)>
    ensures child { option_copied result ≡ slice_get (children_in slots.now.items number) i }
    ensures within { IfSome result (λ _. i + 1 < 2 ^ 64) }
{
    match slots.get(number) {
        Some(slot) => slot.content.child(i),
        None => None,
    }
}

/// Opens a child of the deepest open slot. After this child, the walk goes on with the next one.
fn open_child(
    names: &mut Vec<Name>,
    opened: &mut Vec<(usize, usize)>,
    number: usize,
    next: usize,
    child: &(Name, usize),
) -> Result<(), AllocError>
    requires { next + 1 < 2 ^ 64 }
    ensures names { OnOk result (names.new.items ≡ names.old.items ++ child.now.0 ∷ []) }
    ensures opened { OnOk result
        (opened.new.items ≡ (opened.old.items ++ (number, next + 1) ∷ []) ++ (child.now.1, 0) ∷ []) }
{
    opened.push((number, next + 1))?;
    opened.push((child.1, 0))?;
    names.push(child.0.copy()?)?;
    Ok(())
}

/// Opens the next child of the deepest slot that has one left, and closes those that have none.
fn go_on(
    slots: &Vec<Slot>,
    names: &mut Vec<Name>,
    opened: &mut Vec<(usize, usize)>,
) -> Result<(), AllocError>
    requires { IsWay slots.now.items names.old.items opened.old.items }
    ensures way { OnOk result (IsWay slots.now.items names.new.items opened.new.items) }
    ensures left { OnOk result
        (left_in true (length slots.now.items) slots.now.items names.new.items opened.new.items
        ≡ left_in false (length slots.now.items) slots.now.items names.old.items opened.old.items) }
{
    while let Some((number, next)) = opened.pop() {
        if let Some(child) = child_at(slots, number, next) {
            return open_child(names, opened, number, next, child);
        }
        let _closed = names.pop();
    }
    Ok(())
}
