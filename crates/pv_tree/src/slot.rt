//! One numbered slot of the tree, and what is changed in it.
ghost use Rattle.std.specs.Prelude.{◌≡◌, ℕ, OnOk, OnErr};
ghost use Rattle.pv_steps.specs.Objects.{modified, changed, with_acl, with_attrs, with_content, with_letters, with_mode, with_owner, with_stamps};
ghost use Rattle.pv_tree.specs.Changes.{change_of, with_node};
ghost use Rattle.pv_tree.specs.Slots.{on_object};

use crate::content::Content;
use pv_acl::Acl;
use pv_path::Bytes;
use pv_steps::{AttrList, LetterSet, Node, Step, special_bits};
use std::alloc::AllocError;

/// A node, and what its object holds: a payload, or the numbers of its children by name, of which only a directory has
/// any.
#[derive(Drop)]
pub(crate) struct Slot {
    pub(crate) node: Node,
    pub(crate) content: Content,
}

/// Notes at a directory that it gained or lost a child.
pub(crate) fn note_content(slot: &mut Slot, now: u64)
    ensures { slot.new ≡ on_object (modified now) slot.old }
{
    let stamps = &mut slot.node.stamps;
    stamps.change = now;
    stamps.modify = now;
}

/// Notes at an object that it got a new name.
pub(crate) fn note_name(slot: &mut Slot, now: u64)
    ensures { slot.new ≡ on_object (changed now) slot.old }
{
    slot.node.stamps.change = now;
}

/// Gives an object another node.
pub(crate) fn put_node(slot: &mut Slot, node: Node)
    ensures { slot.new ≡ on_object (with_node node) slot.old }
{
    slot.node = node;
}

/// Sets the special bits and the base entries.
fn set_mode(slot: &mut Slot, mode: u16, now: u64)
    ensures { slot.new ≡ on_object (with_mode mode now) slot.old }
{
    let node = &mut slot.node;
    node.special = special_bits(mode);
    node.acl.access.set_base(mode);
    node.stamps.change = now;
}

/// Sets the owner and the owning group.
fn set_owner(slot: &mut Slot, uid: u32, gid: u32, now: u64)
    ensures { slot.new ≡ on_object (with_owner uid gid now) slot.old }
{
    let node = &mut slot.node;
    node.uid = uid;
    node.gid = gid;
    node.stamps.change = now;
}

/// Sets the timestamps of access and modification.
fn set_stamps(slot: &mut Slot, access: u64, modify: u64, now: u64)
    ensures { slot.new ≡ on_object (with_stamps access modify now) slot.old }
{
    let stamps = &mut slot.node.stamps;
    stamps.access = access;
    stamps.modify = modify;
    stamps.change = now;
}

/// Sets the content. After running out of memory the slot is as before.
fn set_content(slot: &mut Slot, content: &Bytes, now: u64) -> Result<(), AllocError>
    ensures ok { OnOk result (slot.new ≡ on_object (with_content content.now now) slot.old) }
    ensures err { OnErr result (slot.new ≡ slot.old) }
{
    slot.content.set_payload(content.copy()?)?;
    note_content(slot, now);
    Ok(())
}

/// Sets the ACL. After running out of memory the slot is as before.
fn set_acl(slot: &mut Slot, acl: &Acl, now: u64) -> Result<(), AllocError>
    ensures ok { OnOk result (slot.new ≡ on_object (with_acl acl.now now) slot.old) }
    ensures err { OnErr result (slot.new ≡ slot.old) }
{
    let node = &mut slot.node;
    node.acl = acl.copy()?;
    node.stamps.change = now;
    Ok(())
}

/// Sets the extended attributes. After running out of memory the slot is as before.
fn set_attrs(slot: &mut Slot, attrs: &AttrList, now: u64) -> Result<(), AllocError>
    ensures ok { OnOk result (slot.new ≡ on_object (with_attrs attrs.now now) slot.old) }
    ensures err { OnErr result (slot.new ≡ slot.old) }
{
    let node = &mut slot.node;
    node.attrs = attrs.copy()?;
    node.stamps.change = now;
    Ok(())
}

/// Sets the letters.
fn set_letters(slot: &mut Slot, letters: LetterSet, now: u64)
    ensures { slot.new ≡ on_object (with_letters letters now) slot.old }
{
    let node = &mut slot.node;
    node.letters = letters;
    node.stamps.change = now;
}

/// Does a step that changes one object. After running out of memory the slot is as before.
pub(crate) fn change(slot: &mut Slot, step: &Step, now: u64) -> Result<(), AllocError>
    ensures ok { OnOk result (slot.new ≡ on_object (change_of step.now now) slot.old) }
    ensures err { OnErr result (slot.new ≡ slot.old) }
{
    match step {
        Step::Write { content, .. } => set_content(slot, content, now)?,
        Step::SetMode { mode, .. } => set_mode(slot, *mode, now),
        Step::SetOwner { uid, gid, .. } => set_owner(slot, *uid, *gid, now),
        Step::SetAcl { acl, .. } => set_acl(slot, acl, now)?,
        Step::SetAttrs { attrs, .. } => set_attrs(slot, attrs, now)?,
        Step::SetLetters { letters, .. } => set_letters(slot, *letters, now),
        Step::SetStamps { access, modify, .. } => set_stamps(slot, *access, *modify, now),
        _ => {}
    }
    Ok(())
}
