//! Account files that cannot be used, and the messages about them.
ghost use Rattle.std.specs.Prelude.{◌≡◌, ◌++◌, ◌∷◌, ◌<◌, ◌^◌, [], true, length, IfOk, OnOk};
ghost use Rattle.pv_path.specs.Names.{is_name};
ghost use Rattle.pv_layers.specs.Places.{etc};
ghost use Rattle.pv_steps.specs.Trees.{kind_of, places};
ghost use Rattle.pv_sysusers.specs.Accounted.{other_text, unusable_text, unusable_texts};

use crate::paths::file_path;
use pv_path::TreePath;
use pv_steps::{Kind, Tree, kind_at};
use pv_table::{left_text, place_text};
use pv_text::Messages;
use pv_walk::{Walked, walk};
use std::alloc::{AllocError, Global};

/// Returns the messages about account files that cannot be used, in the order group, gshadow, shadow, passwd.
pub(crate) fn unusable_texts<T: Tree>(alloc: Global, tree: &T) -> Result<Messages, AllocError>
    ensures { IfOk result (λ new_messages. new_messages ≡ unusable_texts (places (T.state tree.now))) }
{
    let mut new_messages = Messages::new(alloc);
    judge_file(alloc, tree, b"group", &mut new_messages)?;
    judge_file(alloc, tree, b"gshadow", &mut new_messages)?;
    judge_file(alloc, tree, b"shadow", &mut new_messages)?;
    judge_file(alloc, tree, b"passwd", &mut new_messages)?;
    Ok(new_messages)
}

/// Adds a message if the account file of this name in /etc cannot be used.
fn judge_file<T: Tree>(
    alloc: Global,
    tree: &T,
    name: &[u8],
    new_messages: &mut Messages,
) -> Result<(), AllocError>
    requires { is_name name.now ≡ true }
    ensures { OnOk result (new_messages.new ≡ new_messages.old ++ unusable_text (places (T.state tree.now)) (etc ++ name.now ∷ [])) }
{
    let path = file_path(alloc, name)?;
    judge(alloc, tree, &path, new_messages)
}

/// Adds a message if the path is not safe to walk, or if the object there is not a regular file.
fn judge<T: Tree>(
    alloc: Global,
    tree: &T,
    path: &TreePath,
    new_messages: &mut Messages,
) -> Result<(), AllocError>
    requires { length path.now < 2 ^ 32 }
    ensures { OnOk result (new_messages.new ≡ new_messages.old ++ unusable_text (places (T.state tree.now)) path.now) }
{
    match walk(alloc, tree, path, 0)? {
        Walked::Refused(place, why) => new_messages.push(&place_text(alloc, path, place, why)?),
        Walked::Present | Walked::Absent(_) => say_other(alloc, tree, path, new_messages),
    }
}

/// Adds a message if the object at a path is not a regular file.
fn say_other<T: Tree>(
    alloc: Global,
    tree: &T,
    path: &TreePath,
    new_messages: &mut Messages,
) -> Result<(), AllocError>
    ensures { OnOk result (new_messages.new ≡ new_messages.old ++ other_text path.now (kind_of (places (T.state tree.now) path.now))) }
{
    match kind_at(tree, path) {
        None | Some(Kind::File) => Ok(()),
        Some(kind) => new_messages.push(&left_text(alloc, path, kind)?),
    }
}
