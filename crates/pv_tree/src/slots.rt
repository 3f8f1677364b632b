//! The slots of the tree: where a path leads among them, and the edits of one slot.
ghost use Rattle.std.specs.Prelude.{◌≡◌, ◌≢◌, ℕ, ◌+◌, ◌-◌, ◌<◌, ◌≤◌, List, [], ◌∷◌, ◌++◌, length, take, vec_len, vec_capacity, Some, None, is_some, IfOk, OnOk, OnErr, slice_get};
ghost use Rattle.std.specs.List.{list_any};
ghost use Rattle.std.specs.Option.{option_copied, option_map};
ghost use Rattle.std.specs.FinMap as fin;
ghost use Rattle.pv_path.specs.Paths.{parent_of};
ghost use Rattle.pv_steps.specs.declared.node.Kind.TheVariants.{Directory};
ghost use Rattle.pv_steps.specs.Objects.{IsObject, is_directory, modified, changed};
ghost use Rattle.pv_steps.specs.Trees.{IsPresentIn, beside};
ghost use Rattle.pv_tree.specs.Changes.{change_of, with_node};
ghost use Rattle.pv_tree.specs.Edges.{led, IsSet, IsChanged, IsPlaced};
ghost use Rattle.pv_tree.specs.Growth.{IsShared};
ghost use Rattle.pv_tree.specs.Held.{root_alone};
ghost use Rattle.pv_tree.specs.Slots.{child_in, child_of_slot, files_of, object_in, object_of, number_in, places_in, next_number, IsTreeOf};

use crate::content::Content;
use crate::slot::{Slot, change, note_content, note_name, put_node};
use pv_path::{Bytes, Name, TreePath};
use pv_steps::{Node, Step};
use std::alloc::{AllocError, Global};

/// The number of the child that a slot has by a name, or nothing if it has none.
pub(crate) fn child_of(slots: &Vec<Slot>, number: usize, name: &Name) -> Option<usize>
    ensures { result ≡ child_in slots.now.items number name.now }
{
    match slots.get(number) {
        Some(slot) => slot.content.get(name),
        None => None,
    }
}

/// The number to which some names lead from a number, or nothing if they lead nowhere. It asks each directory once.
fn number_from(slots: &Vec<Slot>, start: usize, names: &[Name]) -> Option<usize>
    ensures { result ≡ led (child_in slots.now.items) start names.now }
{
    let mut number = start;
    for name in names {
        number = child_of(slots, number, name)?;
    }
    Some(number)
}

/// The number at the path of some names, or nothing if it is absent. It asks each directory once.
pub(crate) fn number_at(slots: &Vec<Slot>, names: &[Name]) -> Option<usize>
    ensures { result ≡ number_in slots.now.items names.now }
{
    number_from(slots, 0, names)
}

/// Counts the names that two paths share at their beginning.
pub(crate) fn shared_names(first: &[Name], second: &[Name]) -> usize
    ensures { IsShared first.now second.now result }
{
    let mut count = 0;
    while count < first.len() && count < second.len() && first[count] == second[count] {
        count += 1;
    }
    count
}

/// The number at the path of some names, or nothing if it is absent. If the path of the names `known` is a prefix, only
/// the directories below it are asked. Its number is `start`.
///
/// Comparing names is far cheaper than asking directories.
pub(crate) fn number_near(
    slots: &Vec<Slot>,
    known: &[Name],
    start: usize,
    names: &[Name],
) -> Option<usize>
    requires { number_in slots.now.items known.now ≡ Some start }
    ensures { result ≡ number_in slots.now.items names.now }
{
    if names.len() < known.len() {
        return number_at(slots, names);
    }
    let shared = shared_names(known, names);
    if shared < known.len() {
        return number_at(slots, names);
    }
    number_from(slots, start, &names[shared..])
}

/// Whether the object with a number is a directory.
pub(crate) fn is_directory_in(slots: &Vec<Slot>, number: usize) -> bool
    requires { number < length slots.now.items }
    ensures { option_map (λ o. is_directory o.node.kind) (object_in slots.now.items number) ≡ Some result }
{
    slots[number].node.kind.is_directory()
}

/// The slot of the child that a slot has by a name, or nothing if it has none.
fn child_slot<'a>(slots: &'a Vec<Slot>, slot: &Slot, name: &Name) -> Option<&'a Slot>
    ensures { option_copied result ≡ child_of_slot slots.now.items slot.now name.now }
{
    match slot.content.get(name) {
        Some(number) => slots.get(number),
        None => None,
    }
}

/// The nodes of the objects along some names: at index `k` the node at the first `k` of them. The list ends before the
/// first of them that is absent. It asks each directory once.
pub(crate) fn nodes_along<'a>(
    alloc: Global,
    slots: &'a Vec<Slot>,
    names: &[Name],
) -> Result<Vec<&'a Node>, AllocError>
    ensures nodes { IfOk result (λ nodes. (k : ℕ) → k ≤ length names.now
        → option_copied (slice_get nodes.items k) ≡ option_map (λ o. o.node) (places_in slots.now.items (take k names.now))) }
    ensures length { IfOk result (λ nodes. length nodes.items ≤ length names.now + 1) }
{
    let mut nodes = Vec::with_capacity(alloc, names.len() + 1)?;
    let mut place = slots.first();
    for name in names {
        let Some(slot) = place else {
            return Ok(nodes);
        };
        nodes.push(&slot.node)?;
        place = child_slot(slots, slot, name);
    }
    if let Some(slot) = place {
        nodes.push(&slot.node)?;
    }
    Ok(nodes)
}

/// Whether one of the directories along some names has a child by the name that is given for it. It asks each directory
/// for two names at most.
pub(crate) fn has_beside(slots: &Vec<Slot>, names: &[Name], others: &[Name]) -> bool
    ensures { result ≡ list_any (λ p. is_some (number_in slots.now.items p)) (beside names.now others.now) }
{
    let mut number = 0;
    for (name, other) in names.iter().zip(others) {
        if child_of(slots, number, other).is_some() {
            return true;
        }
        match child_of(slots, number, name) {
            Some(child) => number = child,
            None => return false,
        }
    }
    false
}

/// The names of the directory that a path lies in.
pub(crate) fn parent_names(path: &TreePath) -> &[Name]
    ensures { result.now ≡ parent_of path.now }
{
    match path.names() {
        [] => path.names(),
        [names @ .., _] => names,
    }
}

/// A path, and the number of the directory that it lies in.
#[derive(Clone, Copy)]
pub(crate) struct Location<'a> {
    pub path: &'a TreePath,
    pub directory: usize,
}

/// The number at a path, or nothing if it is absent.
pub(crate) fn number_of(slots: &Vec<Slot>, at: Location<'_>) -> Option<usize>
    requires { number_in slots.now.items (parent_of at.path.now) ≡ Some at.directory }
    ensures { result ≡ number_in slots.now.items at.entry.path.now }
{
    match at.path.name() {
        Some(name) => child_of(slots, at.directory, name),
        None => Some(at.directory),
    }
}

/// The number of the directory that another path lies in.
pub(crate) fn directory_near(slots: &Vec<Slot>, at: Location<'_>, path: &TreePath) -> usize
    requires directory { number_in slots.now.items (parent_of at.path.now) ≡ Some at.directory }
    requires present { IsPresentIn (places_in slots.now.items) (parent_of path.now) }
    ensures { number_in slots.now.items (parent_of path.now) ≡ Some result }
{
    match number_near(
        slots,
        parent_names(at.path),
        at.directory,
        parent_names(path),
    ) {
        Some(number) => number,
        None => unreachable!(),
    }
}

/// The last name of a path that is not the root.
pub(crate) fn own_name(path: &TreePath) -> &Name
    requires { path.now ≢ [] }
    ensures { path.now ≡ parent_of path.now ++ result.now ∷ [] }
{
    match path.name() {
        Some(name) => name,
        None => unreachable!(),
    }
}

/// Puts a child into a slot, and gives back the number of the one that it replaces. After running out of memory
/// the slots are as before.
pub(crate) fn put_child(
    slots: &mut Vec<Slot>,
    number: usize,
    name: Name,
    child: usize,
) -> Result<Option<usize>, AllocError>
    requires { number < length slots.old.items }
    ensures edges { OnOk result
        (IsSet number name (Some child) (child_in slots.old.items) (child_in slots.new.items)) }
    ensures objects { object_in slots.new.items ≡ object_in slots.old.items }
    ensures old { IfOk result (λ old. old ≡ child_in slots.old.items number name) }
    ensures err { OnErr result (slots.new.items ≡ slots.old.items) }
    ensures length { length slots.new.items ≡ length slots.old.items }
    ensures capacity { vec_capacity slots.new ≡ vec_capacity slots.old }
{
    let slot = &mut slots[number];
    slot.content.put(name, child)
}

/// Takes a child out of a slot, and gives back its number, if there is one.
pub(crate) fn remove_child(slots: &mut Vec<Slot>, number: usize, name: &Name) -> Option<usize>
    requires { number < length slots.old.items }
    ensures edges { IsSet number name.now None (child_in slots.old.items) (child_in slots.new.items) }
    ensures objects { object_in slots.new.items ≡ object_in slots.old.items }
    ensures old { result ≡ child_in slots.old.items number name.now }
    ensures length { length slots.new.items ≡ length slots.old.items }
{
    let slot = &mut slots[number];
    slot.content.remove(name)
}

/// Notes at a directory that it gained or lost a child.
pub(crate) fn touch(slots: &mut Vec<Slot>, number: usize, now: u64)
    requires { number < length slots.old.items }
    ensures objects { IsChanged number (modified now) (object_in slots.old.items) (object_in slots.new.items) }
    ensures edges { child_in slots.new.items ≡ child_in slots.old.items }
    ensures length { length slots.new.items ≡ length slots.old.items }
{
    let slot = &mut slots[number];
    note_content(slot, now);
}

/// Notes at an object that it got a new name.
pub(crate) fn renew(slots: &mut Vec<Slot>, number: usize, now: u64)
    requires { number < length slots.old.items }
    ensures objects { IsChanged number (changed now) (object_in slots.old.items) (object_in slots.new.items) }
    ensures edges { child_in slots.new.items ≡ child_in slots.old.items }
    ensures length { length slots.new.items ≡ length slots.old.items }
{
    let slot = &mut slots[number];
    note_name(slot, now);
}

/// Does a step that changes the object with a number. After running out of memory the slots are as before.
pub(crate) fn change_slot(
    slots: &mut Vec<Slot>,
    number: usize,
    step: &Step,
    now: u64,
) -> Result<(), AllocError>
    requires { number < length slots.old.items }
    ensures objects { OnOk result
        (IsChanged number (change_of step.now now) (object_in slots.old.items) (object_in slots.new.items)) }
    ensures edges { child_in slots.new.items ≡ child_in slots.old.items }
    ensures err { OnErr result (slots.new.items ≡ slots.old.items) }
    ensures length { length slots.new.items ≡ length slots.old.items }
{
    let slot = &mut slots[number];
    change(slot, step, now)
}

/// Gives the object with a number another node.
pub(crate) fn set_node(slots: &mut Vec<Slot>, number: usize, node: Node)
    requires { number < length slots.old.items }
    ensures objects { IsChanged number (with_node node) (object_in slots.old.items) (object_in slots.new.items) }
    ensures edges { child_in slots.new.items ≡ child_in slots.old.items }
    ensures length { length slots.new.items ≡ length slots.old.items }
{
    let slot = &mut slots[number];
    put_node(slot, node);
}

/// The number that the next new slot gets.
pub(crate) fn next_number(slots: &Vec<Slot>, free: &Vec<usize>) -> usize
    ensures { result ≡ next_number slots.now.items free.now.items }
{
    match free.last() {
        Some(number) => *number,
        None => slots.len(),
    }
}

/// Gives a slot without children the next number. With room it takes no memory.
pub(crate) fn place(slots: &mut Vec<Slot>, free: &mut Vec<usize>, slot: Slot)
    requires childless { slot.content.children ≡ fin.empty }
    requires room { vec_len slots.old < vec_capacity slots.old }
    requires within { (i : ℕ) → slice_get free.old.items (length free.old.items - 1) ≡ Some i
        → i < length slots.old.items }
    ensures placed { IsPlaced (next_number slots.old.items free.old.items) (object_of slot)
        (child_in slots.old.items) (object_in slots.old.items) (child_in slots.new.items) (object_in slots.new.items) }
    ensures free { free.new.items ≡ take (length free.old.items - 1) free.old.items }
    ensures length { length slots.old.items ≤ length slots.new.items }
    ensures number { next_number slots.old.items free.old.items < length slots.new.items }
{
    match free.pop() {
        Some(number) => slots[number] = slot,
        None => push_within(slots, slot),
    }
}

/// The slots of a root alone.
pub(crate) fn root_slots(alloc: Global, root: Node) -> Result<Vec<Slot>, AllocError>
    requires kind { root.kind ≡ Directory }
    requires object { IsObject (record { node = root; payload = [] }) }
    ensures tree { IfOk result (λ slots. IsTreeOf slots.items []) }
    ensures files { IfOk result (λ slots. files_of slots.items ≡ root_alone root) }
{
    let content = Content::of(alloc, Bytes::new(alloc))?;
    let mut slots = Vec::new(alloc);
    slots.push(Slot {
        node: root,
        content,
    })?;
    Ok(slots)
}

/// Adds an item if there is room for it.
pub(crate) fn push_within<T: Drop>(items: &mut Vec<T>, item: T)
    requires { vec_len items.old < vec_capacity items.old }
    ensures { items.new.items ≡ items.old.items ++ item ∷ [] }
{
    match items.push(item) {
        Ok(()) => {}
        Err(_) => unreachable!(),
    }
}
