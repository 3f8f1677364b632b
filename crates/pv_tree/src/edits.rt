//! The edits of the tree: an object is changed, added, removed, or moved with everything below it.
ghost use Rattle.std.specs.Prelude.{◌≡◌, ◌≢◌, ℕ, ◌<◌, List, [], ◌∷◌, ◌++◌, length, vec_len, vec_capacity, Some, IfOk, OnOk, OnErr};
ghost use Rattle.std.specs.Option.{option_to_list};
ghost use Rattle.pv_path.specs.Paths.{Path, parent_of};
ghost use Rattle.pv_steps.specs.Objects.{fresh};
ghost use Rattle.pv_steps.specs.Trees.{IsPresentIn, IsTreeIn};
ghost use Rattle.pv_steps.specs.Steps.{HasRoom, Movable, put_at, on_at, made, gone, moved};
ghost use Rattle.pv_tree.specs.Changes.{IsRemovable, change_of, with_node};
ghost use Rattle.pv_tree.specs.Edges.{IsSet};
ghost use Rattle.pv_tree.specs.Slots.{IsForest, AreFree, child_in, next_number, number_in, object_in, places_in};

use crate::content::Content;
use crate::slot::Slot;
use crate::slots::{
    Location, change_slot, child_of, directory_near, next_number, number_at, number_of, own_name,
    place, push_within, put_child, remove_child, renew, set_node, touch,
};
use pv_path::{Bytes, Name, TreePath};
use pv_steps::{Kind, Node, Object, Step};
use std::alloc::{AllocError, Global};

/// Returns a new object without a payload, of a kind that is not a device.
pub(crate) fn plain(alloc: Global, kind: Kind, mode: u16, now: u64) -> Object
    ensures { result ≡ fresh kind mode [] 0 0 now }
{
    Object::fresh(alloc, kind, mode, Bytes::new(alloc), 0, 0, now)
}

/// Adds an object at an absent path to its directory, whose slot number is known, and gives the number of the new
/// object.
///
/// If memory runs out, the slots are as before.
pub(crate) fn put_below(
    alloc: Global,
    slots: &mut Vec<Slot>,
    free: &mut Vec<usize>,
    directory: usize,
    path: &TreePath,
    object: Object,
) -> Result<usize, AllocError>
    requires forest { IsForest slots.old.items }
    requires free { AreFree slots.old.items free.old.items }
    requires room { HasRoom (places_in slots.old.items) path.now }
    requires directory { number_in slots.old.items (parent_of path.now) ≡ Some directory }
    ensures forest { IsForest slots.new.items }
    ensures free { AreFree slots.new.items free.new.items }
    ensures ok { OnOk result (places_in slots.new.items ≡ put_at path.now (Some object) (places_in slots.old.items)) }
    ensures number { IfOk result (λ i. number_in slots.new.items path.now ≡ Some i) }
    ensures others { OnOk result
        ((q : Path) → q ≢ path.now → number_in slots.new.items q ≡ number_in slots.old.items q) }
    ensures err { OnErr result (slots.new.items ≡ slots.old.items) }
{
    let Object { node, payload } = object;
    let content = Content::of(alloc, payload)?;
    let number = name_next(slots, free, directory, own_name(path))?;
    place(slots, free, Slot { node, content });
    Ok(number)
}

/// Enters a name in a directory for the next new slot, makes room for this slot, and gives its number.
///
/// If memory runs out, the slots are as before.
fn name_next(
    slots: &mut Vec<Slot>,
    free: &Vec<usize>,
    directory: usize,
    name: &Name,
) -> Result<usize, AllocError>
    requires { directory < length slots.old.items }
    ensures number { IfOk result (λ i. i ≡ next_number slots.old.items free.now.items) }
    ensures edges { IfOk result (λ i.
        IsSet directory name.now (Some i) (child_in slots.old.items) (child_in slots.new.items)) }
    ensures objects { object_in slots.new.items ≡ object_in slots.old.items }
    ensures length { length slots.new.items ≡ length slots.old.items }
    ensures room { OnOk result (vec_len slots.new < vec_capacity slots.new) }
    ensures err { OnErr result (slots.new.items ≡ slots.old.items) }
{
    slots.reserve(1)?;
    let number = next_number(slots, free);
    put_child(slots, directory, name.copy()?, number)?;
    Ok(number)
}

/// Adds a new object at an absent path in a directory, and sets the timestamps of this directory as for a change of
/// its content.
///
/// If memory runs out, the slots are as before.
pub(crate) fn make(
    alloc: Global,
    slots: &mut Vec<Slot>,
    free: &mut Vec<usize>,
    at: Location<'_>,
    object: Object,
    now: u64,
) -> Result<(), AllocError>
    requires forest { IsForest slots.old.items }
    requires free { AreFree slots.old.items free.old.items }
    requires room { HasRoom (places_in slots.old.items) at.path.now }
    requires directory { number_in slots.old.items (parent_of at.path.now) ≡ Some at.directory }
    ensures forest { IsForest slots.new.items }
    ensures free { AreFree slots.new.items free.new.items }
    ensures ok { OnOk result (places_in slots.new.items ≡ made now at.entry.path.now object (places_in slots.old.items)) }
    ensures directory { OnOk result (number_in slots.new.items (parent_of at.entry.path.now) ≡ Some at.entry.directory) }
    ensures err { OnErr result (slots.new.items ≡ slots.old.items) }
{
    put_below(alloc, slots, free, at.directory, at.path, object)?;
    touch(slots, at.directory, now);
    Ok(())
}

/// Does a step that changes the object at a path, if there is one.
///
/// If memory runs out, the slots are as before.
pub(crate) fn change_at(
    slots: &mut Vec<Slot>,
    at: Location<'_>,
    step: &Step,
    now: u64,
) -> Result<(), AllocError>
    requires forest { IsForest slots.old.items }
    requires directory { number_in slots.old.items (parent_of at.path.now) ≡ Some at.directory }
    ensures forest { IsForest slots.new.items }
    ensures free { (free : List ℕ) → AreFree slots.old.items free → AreFree slots.new.items free }
    ensures ok { OnOk result
        (places_in slots.new.items ≡ on_at at.entry.path.now (change_of step.now now) (places_in slots.old.items)) }
    ensures edges { child_in slots.new.items ≡ child_in slots.old.items }
    ensures err { OnErr result (slots.new.items ≡ slots.old.items) }
{
    match number_of(slots, at) {
        Some(number) => change_slot(slots, number, step, now),
        None => Ok(()),
    }
}

/// Replaces the node of the object at the path of these names, if there is one.
pub(crate) fn set_node_at(slots: &mut Vec<Slot>, names: &[Name], node: Node)
    requires { IsForest slots.old.items }
    ensures forest { IsForest slots.new.items }
    ensures free { (free : List ℕ) → AreFree slots.old.items free → AreFree slots.new.items free }
    ensures places { places_in slots.new.items ≡ on_at names.now (with_node node) (places_in slots.old.items) }
    ensures edges { child_in slots.new.items ≡ child_in slots.old.items }
{
    match number_at(slots, names) {
        Some(number) => set_node(slots, number, node),
        None => {}
    }
}

/// Appends a number, if there is one, to the free numbers. There must be room.
fn release(free: &mut Vec<usize>, number: Option<usize>)
    requires { vec_len free.old < vec_capacity free.old }
    ensures { free.new.items ≡ free.old.items ++ option_to_list number }
{
    if let Some(number) = number {
        push_within(free, number);
    }
}

/// Removes the object at a path, below which there is nothing, and sets the timestamps of its directory as for a
/// change of its content.
///
/// If memory runs out, the slots are as before.
pub(crate) fn unmake(
    slots: &mut Vec<Slot>,
    free: &mut Vec<usize>,
    at: Location<'_>,
    now: u64,
) -> Result<(), AllocError>
    requires forest { IsForest slots.old.items }
    requires free { AreFree slots.old.items free.old.items }
    requires removable { IsRemovable (places_in slots.old.items) at.path.now }
    requires directory { number_in slots.old.items (parent_of at.path.now) ≡ Some at.directory }
    ensures forest { IsForest slots.new.items }
    ensures free { AreFree slots.new.items free.new.items }
    ensures ok { OnOk result (places_in slots.new.items ≡ gone now at.entry.path.now (places_in slots.old.items)) }
    ensures directory { OnOk result (number_in slots.new.items (parent_of at.entry.path.now) ≡ Some at.entry.directory) }
    ensures err { OnErr result (slots.new.items ≡ slots.old.items) }
{
    free.reserve(1)?;
    let number = remove_child(slots, at.directory, own_name(at.path));
    touch(slots, at.directory, now);
    release(free, number);
    Ok(())
}

/// Renames the object at a path, with everything below it. If memory runs out, the slots are as before.
pub(crate) fn rename(
    slots: &mut Vec<Slot>,
    free: &mut Vec<usize>,
    from: &TreePath,
    to: Location<'_>,
    now: u64,
) -> Result<(), AllocError>
    requires forest { IsForest slots.old.items }
    requires free { AreFree slots.old.items free.old.items }
    requires tree { IsTreeIn (places_in slots.old.items) }
    requires movable { Movable (places_in slots.old.items) from.now to.path.now }
    requires directory { number_in slots.old.items (parent_of to.path.now) ≡ Some to.directory }
    ensures forest { IsForest slots.new.items }
    ensures free { AreFree slots.new.items free.new.items }
    ensures ok { OnOk result (places_in slots.new.items ≡ moved now from.now to.entry.path.now (places_in slots.old.items)) }
    ensures directory { OnOk result (number_in slots.new.items (parent_of to.entry.path.now) ≡ Some to.entry.directory) }
    ensures err { OnErr result (slots.new.items ≡ slots.old.items) }
{
    free.reserve(1)?;
    let source = directory_near(slots, to, from);
    let old_name = own_name(from);
    let Some(number) = child_of(slots, source, old_name) else {
        unreachable!();
    };
    let replaced = put_child(slots, to.directory, own_name(to.path).copy()?, number)?;
    remove_child(slots, source, old_name);
    touch(slots, to.directory, now);
    touch(slots, source, now);
    renew(slots, number, now);
    release(free, replaced);
    Ok(())
}
