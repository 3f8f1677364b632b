//! Sets the metadata of the object at a path.
ghost use Rattle.std.specs.Prelude.{◌≡◌, ◌↔◌, ◌≤◌, IsTrue, OnOk};
ghost use Rattle.pv_steps.specs.declared.step.Step.TheVariants.{SetOwner, SetMode};
ghost use Rattle.pv_steps.specs.Acting.{asked, Acted};
ghost use Rattle.pv_walk.specs.SettingMetadata.{CanSetMetadata, SettingMetadata, GivesMetadata, ChangedAt, IsKeptBy};
ghost use Rattle.pv_walk.specs.SettingMetadata.{metadata_mode, with_metadata, with_owner_of, with_mode_of, with_acl_of, with_attrs_of, with_letters_of};
ghost use Rattle.pv_walk.specs.Changing.{SameBase, HasOwner, HasMode, HasExtended, Changing, GivesAcl, GivesAttrs, GivesLetters, with_access_of, with_extended_of};

use crate::object_state::Metadata;
use pv_acl::{Acl, Part};
use pv_path::TreePath;
use pv_steps::{Node, Step, Tree, TreeFault, node_of, try_step};

/// Which parts of some metadata an object already has.
#[derive(Clone, Copy)]
struct Kept {
    /// The owner and the owning group.
    owner: bool,
    /// The mode.
    mode: bool,
    /// The part of the ACL that the mode does not give: named entries, mask and default part (acl(5)).
    extended: bool,
    /// The extended attributes.
    attrs: bool,
    /// The file attribute flags.
    letters: bool,
}

/// Sets the metadata of the object at a path: owner, mode, ACL, extended attributes and file attribute flags, in
/// this order.
///
/// A part is set only if this changes something, so no step is done if the object already has all of it. At most
/// five steps are done (chown(2), chmod(2), setfacl(1), setxattr(2), chattr(1)). `now` is in microseconds since
/// 1970-01-01 UTC.
///
/// There must be an object at the path, and the metadata must be possible for its kind: a link has mode 0777, no
/// extended attributes and no flags. The errors are those of a step: `Failed` or `Memory`. After an error some of the
/// parts may be set, from the first one on.
pub fn set_metadata<T: Tree>(
    tree: &mut T,
    path: &TreePath,
    new: &Metadata,
    now: u64,
) -> Result<(), TreeFault>
    requires { CanSetMetadata (T.state tree.old) path.now new.now }
    ensures acted { Acted T.Tree (SettingMetadata path.now new.now (T.state tree.old))
        (GivesMetadata path.now new.now (T.state tree.old)) 5 now tree.old tree.new result }
    ensures ok { OnOk result
        (ChangedAt (with_metadata new.now) path.now now (T.state tree.old) (T.state tree.new)) }

    // Owner, mode and ACL are three of the five parts.
    ensures few { IsKeptBy (with_attrs_of new.now) path.now (T.state tree.old)
        → IsKeptBy (with_letters_of new.now) path.now (T.state tree.old)
        → asked result (T.steps tree.old) (T.steps tree.new) ≤ 3 }

    // Extended attributes and flags are two of the five parts.
    ensures two { IsKeptBy (with_access_of new.now) path.now (T.state tree.old)
        → asked result (T.steps tree.old) (T.steps tree.new) ≤ 2 }

    ensures idle { IsKeptBy (with_metadata new.now) path.now (T.state tree.old)
        → asked result (T.steps tree.old) (T.steps tree.new) ≡ 0 }
{
    let kept = kept_of(node_of(tree, path), new);
    give_access(tree, path, new, kept, now)?;
    give_attrs(tree, path, new, kept.attrs, now)?;
    give_letters(tree, path, new, kept.letters, now)
}

/// Sets the owner, the mode and the ACL, each unless the object has it already.
fn give_access<T: Tree>(
    tree: &mut T,
    path: &TreePath,
    new: &Metadata,
    kept: Kept,
    now: u64,
) -> Result<(), TreeFault>
    requires can { CanSetMetadata (T.state tree.old) path.now new.now }
    requires owner { IsTrue kept.owner ↔ IsKeptBy (with_owner_of new.now) path.now (T.state tree.old) }
    requires mode { IsTrue kept.mode ↔ IsKeptBy (with_mode_of new.now) path.now (T.state tree.old) }
    requires extended { IsTrue kept.extended ↔ IsKeptBy (with_extended_of new.now) path.now (T.state tree.old) }
    ensures acted { Acted T.Tree (SettingMetadata path.now new.now (T.state tree.old))
        (GivesMetadata path.now new.now (T.state tree.old)) 3 now tree.old tree.new result }
    ensures ok { OnOk result
        (ChangedAt (with_access_of new.now) path.now now (T.state tree.old) (T.state tree.new)) }
    ensures idle { IsKeptBy (with_access_of new.now) path.now (T.state tree.old)
        → asked result (T.steps tree.old) (T.steps tree.new) ≡ 0 }
{
    give_owner(tree, path, new, kept.owner, now)?;
    give_mode(tree, path, new, kept.mode, now)?;
    give_acl(tree, path, new, kept.extended, now)
}

/// Sets the owner and the owning group, unless the object has them already (`kept`).
fn give_owner<T: Tree>(
    tree: &mut T,
    path: &TreePath,
    new: &Metadata,
    kept: bool,
    now: u64,
) -> Result<(), TreeFault>
    requires can { CanSetMetadata (T.state tree.old) path.now new.now }
    requires kept { IsTrue kept ↔ IsKeptBy (with_owner_of new.now) path.now (T.state tree.old) }
    ensures acted { Acted T.Tree (Changing path.now (with_owner_of new.now) (T.state tree.old))
        (λ step. step ≡ SetOwner path.now new.now.uid new.now.gid) 1 now tree.old tree.new result }
    ensures ok { OnOk result
        (ChangedAt (with_owner_of new.now) path.now now (T.state tree.old) (T.state tree.new)) }
    ensures idle { IsKeptBy (with_owner_of new.now) path.now (T.state tree.old)
        → asked result (T.steps tree.old) (T.steps tree.new) ≡ 0 }
{
    if kept {
        return Ok(());
    }
    let step = Step::SetOwner {
        path: path.copy()?,
        uid: new.uid,
        gid: new.gid,
    };
    try_step(tree, step, now)
}

/// Sets the mode, unless the object has it already (`kept`).
fn give_mode<T: Tree>(
    tree: &mut T,
    path: &TreePath,
    new: &Metadata,
    kept: bool,
    now: u64,
) -> Result<(), TreeFault>
    requires can { CanSetMetadata (T.state tree.old) path.now new.now }
    requires kept { IsTrue kept ↔ IsKeptBy (with_mode_of new.now) path.now (T.state tree.old) }
    ensures acted { Acted T.Tree (Changing path.now (with_mode_of new.now) (T.state tree.old))
        (λ step. step ≡ SetMode path.now (metadata_mode new.now)) 1 now tree.old tree.new result }
    ensures ok { OnOk result
        (ChangedAt (with_mode_of new.now) path.now now (T.state tree.old) (T.state tree.new)) }
    ensures idle { IsKeptBy (with_mode_of new.now) path.now (T.state tree.old)
        → asked result (T.steps tree.old) (T.steps tree.new) ≡ 0 }
{
    if kept {
        return Ok(());
    }
    let step = Step::SetMode {
        path: path.copy()?,
        mode: new.acl.access.mode(new.special),
    };
    try_step(tree, step, now)
}

/// Sets the ACL, unless the object has it already (`kept`).
fn give_acl<T: Tree>(
    tree: &mut T,
    path: &TreePath,
    new: &Metadata,
    kept: bool,
    now: u64,
) -> Result<(), TreeFault>
    requires can { CanSetMetadata (T.state tree.old) path.now new.now }
    requires kept { IsTrue kept ↔ IsKeptBy (with_acl_of new.now) path.now (T.state tree.old) }
    ensures acted { Acted T.Tree (Changing path.now (with_acl_of new.now) (T.state tree.old))
        (GivesAcl path.now new.now (T.state tree.old)) 1 now tree.old tree.new result }
    ensures ok { OnOk result
        (ChangedAt (with_acl_of new.now) path.now now (T.state tree.old) (T.state tree.new)) }
    ensures idle { IsKeptBy (with_acl_of new.now) path.now (T.state tree.old)
        → asked result (T.steps tree.old) (T.steps tree.new) ≡ 0 }
{
    if kept {
        return Ok(());
    }
    let step = Step::SetAcl {
        path: path.copy()?,
        acl: new.acl.copy()?,
    };
    try_step(tree, step, now)
}

/// Sets the extended attributes, unless the object has them already (`kept`).
fn give_attrs<T: Tree>(
    tree: &mut T,
    path: &TreePath,
    new: &Metadata,
    kept: bool,
    now: u64,
) -> Result<(), TreeFault>
    requires can { CanSetMetadata (T.state tree.old) path.now new.now }
    requires kept { IsTrue kept ↔ IsKeptBy (with_attrs_of new.now) path.now (T.state tree.old) }
    ensures acted { Acted T.Tree (Changing path.now (with_attrs_of new.now) (T.state tree.old))
        (GivesAttrs path.now new.now (T.state tree.old)) 1 now tree.old tree.new result }
    ensures ok { OnOk result
        (ChangedAt (with_attrs_of new.now) path.now now (T.state tree.old) (T.state tree.new)) }
    ensures idle { IsKeptBy (with_attrs_of new.now) path.now (T.state tree.old)
        → asked result (T.steps tree.old) (T.steps tree.new) ≡ 0 }
{
    if kept {
        return Ok(());
    }
    let step = Step::SetAttrs {
        path: path.copy()?,
        attrs: new.attrs.copy()?,
    };
    try_step(tree, step, now)
}

/// Sets the flags, unless the object has them already (`kept`).
fn give_letters<T: Tree>(
    tree: &mut T,
    path: &TreePath,
    new: &Metadata,
    kept: bool,
    now: u64,
) -> Result<(), TreeFault>
    requires can { CanSetMetadata (T.state tree.old) path.now new.now }
    requires kept { IsTrue kept ↔ IsKeptBy (with_letters_of new.now) path.now (T.state tree.old) }
    ensures acted { Acted T.Tree (Changing path.now (with_letters_of new.now) (T.state tree.old))
        (GivesLetters path.now new.now (T.state tree.old)) 1 now tree.old tree.new result }
    ensures ok { OnOk result
        (ChangedAt (with_letters_of new.now) path.now now (T.state tree.old) (T.state tree.new)) }
    ensures idle { IsKeptBy (with_letters_of new.now) path.now (T.state tree.old)
        → asked result (T.steps tree.old) (T.steps tree.new) ≡ 0 }
{
    if kept {
        return Ok(());
    }
    let step = Step::SetLetters {
        path: path.copy()?,
        letters: new.letters,
    };
    try_step(tree, step, now)
}

/// Returns which parts of this metadata an object already has.
fn kept_of(node: &Node, new: &Metadata) -> Kept
    ensures owner { IsTrue result.owner ↔ HasOwner new.now node.now }
    ensures mode { IsTrue result.mode ↔ HasMode new.now node.now }
    ensures extended { IsTrue result.extended ↔ HasExtended new.now node.now }
    ensures attrs { IsTrue result.attrs ↔ (node.now.attrs ≡ new.now.attrs) }
    ensures letters { IsTrue result.letters ↔ (node.now.letters ≡ new.now.letters) }
{
    Kept {
        owner: has_owner(node, new),
        mode: has_mode(node, new),
        extended: has_extended(node, new),
        attrs: node.attrs.is_same(&new.attrs),
        letters: node.letters.is_same(new.letters),
    }
}

/// Returns whether an object has this owner and this owning group.
fn has_owner(node: &Node, new: &Metadata) -> bool
    ensures { IsTrue result ↔ HasOwner new.now node.now }
{
    node.uid == new.uid && node.gid == new.gid
}

/// Returns whether an object has this mode.
fn has_mode(node: &Node, new: &Metadata) -> bool
    ensures { IsTrue result ↔ HasMode new.now node.now }
{
    node.special == new.special && is_same_base(&node.acl.access, &new.acl.access)
}

/// Returns whether an object has the named entries, the mask and the default part of this ACL (acl(5)).
fn has_extended(node: &Node, new: &Metadata) -> bool
    ensures { IsTrue result ↔ HasExtended new.now node.now }
{
    is_same_mask(&node.acl.access, &new.acl.access)
        && is_same_named(&node.acl.access, &new.acl.access)
        && is_same_default(&node.acl, &new.acl)
}

fn is_same_mask(a: &Part, b: &Part) -> bool
    ensures { IsTrue result ↔ (a.now.mask ≡ b.now.mask) }
{
    a.mask == b.mask
}

fn is_same_named(a: &Part, b: &Part) -> bool
    ensures { IsTrue result ↔ (a.now.named ≡ b.now.named) }
{
    a.named == b.named
}

fn is_same_default(a: &Acl, b: &Acl) -> bool
    ensures { IsTrue result ↔ (a.now.default_part ≡ b.now.default_part) }
{
    a.default_part == b.default_part
}

/// Returns whether two ACL parts have the same base entries: those of the owner, the owning group and all others
/// (acl(5)).
pub fn is_same_base(a: &Part, b: &Part) -> bool
    ensures { IsTrue result ↔ SameBase a.now b.now }
{
    a.owner == b.owner && a.group == b.group && a.other == b.other
}
