//! The account files whose texts change, and what their new files get.
ghost use Rattle.std.specs.Prelude.{◌≡◌, ◌≤◌, ◌++◌, ◌∷◌, true, option_map, unwrap_or, IfOk, OnOk};
ghost use Rattle.std.specs.Prelude.{[]};
ghost use Rattle.std.specs.Option.{option_map_or};
ghost use Rattle.pv_path.specs.Names.{is_name};
ghost use Rattle.pv_steps.specs.declared.node.Kind.TheVariants.{File};
ghost use Rattle.pv_steps.specs.Trees.{kind_of, places};
ghost use Rattle.pv_layers.specs.Places.{etc};
ghost use Rattle.pv_sysusers.specs.Accounted.{IsUsable, metadata_at, edit_at, edit_to, edits_to, plain_metadata, text_at};
ghost use Rattle.pv_sysusers.specs.FileWriting.{account_paths};
ghost use Rattle.std.specs.List.{AllByRecursion};

use crate::edit::Edit;
use crate::paths::file_path;
use crate::planned::Texts;
use pv_acl::Acl;
use pv_path::{Bytes, TreePath};
use pv_steps::{AttrList, LetterSet, Tree, is_present, special_bits};
use pv_walk::Metadata;
use std::alloc::{AllocError, Global};

/// Returns the edits that give the account files new texts, in the order in which they are staged and renamed into
/// place.
pub(crate) fn edits_to<T: Tree>(
    alloc: Global,
    tree: &T,
    texts: &Texts,
) -> Result<Vec<Edit>, AllocError>
    requires { AllByRecursion (IsUsable (places (T.state tree.now))) account_paths }
    ensures { IfOk result (λ edits. edits.items ≡ edits_to (places (T.state tree.now)) texts.now) }
{
    let mut edits = Vec::new(alloc);
    add_edit(alloc, tree, b"group", 0o644, &texts.group, &mut edits)?;
    add_own_edit(alloc, tree, b"gshadow", 0o000, &texts.gshadow, &mut edits)?;
    add_edit(alloc, tree, b"shadow", 0o000, &texts.shadow, &mut edits)?;
    add_edit(alloc, tree, b"passwd", 0o644, &texts.passwd, &mut edits)?;
    Ok(edits)
}

/// Adds the edit of a file that is not made if it is absent. Nothing is added if there is no text, or if it does not
/// change.
fn add_own_edit<T: Tree>(
    alloc: Global,
    tree: &T,
    name: &[u8],
    mode: u16,
    text: &Option<Bytes>,
    edits: &mut Vec<Edit>,
) -> Result<(), AllocError>
    requires name { is_name name.now ≡ true }
    requires usable { IsUsable (places (T.state tree.now)) (etc ++ name.now ∷ []) }
    requires mode { mode ≤ 4095 }
    ensures { OnOk result (edits.new.items
        ≡ edits.old.items ++ option_map_or (edit_at (places (T.state tree.now)) (etc ++ name.now ∷ []) mode) text.now []) }
{
    match text {
        Some(text) => add_edit(alloc, tree, name, mode, text, edits),
        None => Ok(()),
    }
}

/// Adds the edit of a file, if its text changes.
fn add_edit<T: Tree>(
    alloc: Global,
    tree: &T,
    name: &[u8],
    mode: u16,
    text: &Bytes,
    edits: &mut Vec<Edit>,
) -> Result<(), AllocError>
    requires name { is_name name.now ≡ true }
    requires usable { IsUsable (places (T.state tree.now)) (etc ++ name.now ∷ []) }
    requires mode { mode ≤ 4095 }
    ensures { OnOk result (edits.new.items
        ≡ edits.old.items ++ edit_at (places (T.state tree.now)) (etc ++ name.now ∷ []) mode text.now) }
{
    let path = file_path(alloc, name)?;
    if text.as_slice() == text_at(tree, &path) {
        return Ok(());
    }
    let edit = edit_to(alloc, tree, path, mode, text)?;
    edits.push(edit)?;
    Ok(())
}

/// Returns the edit of a file. It keeps the metadata of the old file. A new file belongs to root and has this mode.
fn edit_to<T: Tree>(
    alloc: Global,
    tree: &T,
    path: TreePath,
    mode: u16,
    text: &Bytes,
) -> Result<Edit, AllocError>
    requires { mode ≤ 4095 }
    ensures { IfOk result (λ edit. edit ≡ edit_to (places (T.state tree.now)) path mode text.now) }
{
    Ok(Edit {
        text: text.copy()?,
        metadata: metadata_at(alloc, tree, &path, mode)?,
        path,
    })
}

/// Returns the text of the file at a path. An absent file counts as empty.
pub(crate) fn text_at<'a, T: Tree>(tree: &'a T, path: &TreePath) -> &'a [u8]
    requires { IsUsable (places (T.state tree.now)) path.now }
    ensures { result.now ≡ unwrap_or (text_at (places (T.state tree.now)) path.now) [] }
{
    match own_text(tree, path) {
        Some(text) => text,
        None => &[],
    }
}

/// Returns the text of the file at a path, or `None` if it is absent.
pub(crate) fn own_text<'a, T: Tree>(tree: &'a T, path: &TreePath) -> Option<&'a [u8]>
    requires { IsUsable (places (T.state tree.now)) path.now }
    ensures { option_map (λ text. text.now) result ≡ text_at (places (T.state tree.now)) path.now }
{
    if is_present(tree, path) {
        Some(tree.bytes(path))
    } else {
        None
    }
}

/// Returns the metadata of the file at a path. If it is absent, the metadata is that of a new file of this mode.
fn metadata_at<T: Tree>(
    alloc: Global,
    tree: &T,
    path: &TreePath,
    mode: u16,
) -> Result<Metadata, AllocError>
    requires { mode ≤ 4095 }
    ensures { IfOk result (λ metadata. metadata ≡ metadata_at (places (T.state tree.now)) path.now mode) }
{
    match tree.look(path) {
        Some(node) => Metadata::of(node),
        None => Ok(plain_metadata(alloc, mode)),
    }
}

/// Returns the metadata of a new file that belongs to root and has this mode.
fn plain_metadata(alloc: Global, mode: u16) -> Metadata
    requires { mode ≤ 4095 }
    ensures { result ≡ plain_metadata mode }
{
    Metadata {
        uid: 0,
        gid: 0,
        special: special_bits(mode),
        acl: Acl::of_mode(alloc, mode),
        attrs: AttrList::new(alloc),
        letters: LetterSet::new(),
    }
}
