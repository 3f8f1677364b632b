//! Makes new objects at paths.
ghost use Rattle.std.specs.Prelude.{◌≡◌, ◌≢◌, [], IfOk, OnOk};
ghost use Rattle.pv_path.specs.Paths.{is_prefix};
ghost use Rattle.pv_steps.specs.declared.step.Step.TheVariants.{Write};
ghost use Rattle.pv_steps.specs.Trees.{places};
ghost use Rattle.pv_steps.specs.Steps.{HasRoom, made};
ghost use Rattle.pv_walk.specs.Edits.{SameOutside};
ghost use Rattle.pv_steps.specs.Acting.{Acted};
ghost use Rattle.pv_walk.specs.Staging.{HasTarget, IsNewFile, GivesNew};
ghost use Rattle.pv_walk.specs.Making.{make_step, content_of, held_object, Beginning, BeginsNew};

use crate::new_file::{NewFile, NewKind};
use pv_path::{Bytes, TreePath};
use pv_steps::{Step, Tree, TreeFault, try_step};
use std::alloc::AllocError;

/// Makes a new object at an absent path in a directory, and writes its content, without staging.
///
/// The owners and the mode that `new` names are not set. The object belongs to root, and its mode is 0700 for a
/// directory, 0777 for a link and 0600 for any other kind. `now` is in microseconds since 1970-01-01 UTC.
///
/// The path must not be the root, and the parts of the new object must be in range (definition `IsNewFile`). The errors
/// are those of a step: `Failed` or `Memory`. After an error the object may be there without its content.
pub fn put_held<T: Tree>(
    tree: &mut T,
    path: &TreePath,
    new: &NewFile,
    now: u64,
) -> Result<(), TreeFault>
    requires not_root { path.now ≢ [] }
    requires room { HasRoom (places (T.state tree.old)) path.now }
    requires new { IsNewFile new.now }
    ensures acted { Acted T.Tree (SameOutside (is_prefix path.now) (T.state tree.old))
        (GivesNew path.now new.now) 2 now tree.old tree.new result }
    ensures begun { Acted T.Tree (Beginning path.now new.now.what (T.state tree.old))
        (GivesNew path.now new.now) 2 now tree.old tree.new result }
    ensures ok { OnOk result (places (T.state tree.new)
        ≡ made now path.now (held_object new.now.what now) (places (T.state tree.old))) }
{
    begin(tree, path, new.what.copy()?, now)
}

/// Makes a new object at a path, with its content.
pub(crate) fn begin<T: Tree>(
    tree: &mut T,
    path: &TreePath,
    what: NewKind,
    now: u64,
) -> Result<(), TreeFault>
    requires not_root { path.now ≢ [] }
    requires room { HasRoom (places (T.state tree.old)) path.now }
    requires target { HasTarget what }
    ensures acted { Acted T.Tree (Beginning path.now what (T.state tree.old))
        (BeginsNew path.now what) 2 now tree.old tree.new result }
    ensures ok { OnOk result (places (T.state tree.new)
        ≡ made now path.now (held_object what now) (places (T.state tree.old))) }
{
    try_step(tree, make_step(path, &what)?, now)?;
    match content_of(what) {
        Some(content) => try_step(tree, write_step(path, content)?, now),
        None => Ok(()),
    }
}

/// Returns the one step that makes an object of a kind.
fn make_step(path: &TreePath, what: &NewKind) -> Result<Step, AllocError>
    ensures { IfOk result (λ step. step ≡ make_step path.now what.now) }
{
    let path = path.copy()?;
    match what {
        NewKind::Directory => Ok(Step::MakeDir { path }),
        NewKind::File(_) => Ok(Step::MakeFile { path }),
        NewKind::Link(target) => Ok(Step::MakeLink {
            path,
            target: target.copy()?,
        }),
        NewKind::Fifo => Ok(Step::MakeFifo { path }),
        NewKind::Device {
            block,
            major,
            minor,
        } => Ok(Step::MakeDevice {
            path,
            block: *block,
            major: *major,
            minor: *minor,
        }),
    }
}

/// Returns the step that writes the content of a file.
fn write_step(path: &TreePath, content: Bytes) -> Result<Step, AllocError>
    ensures { IfOk result (λ step. step ≡ Write path.now content) }
{
    Ok(Step::Write {
        path: path.copy()?,
        content,
    })
}

/// Returns the content that a new file is to have, or `None` if it is to be empty or is not a file.
fn content_of(what: NewKind) -> Option<Bytes>
    ensures { result ≡ content_of what }
{
    match what {
        NewKind::File(content) => {
            if content.is_empty() {
                None
            } else {
                Some(content)
            }
        }
        NewKind::Directory => None,
        NewKind::Link(_) => None,
        NewKind::Fifo => None,
        NewKind::Device { .. } => None,
    }
}
