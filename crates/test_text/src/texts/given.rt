//! What rows of several subjects are given: names of users and groups, and places of lines.
ghost use Rattle.std.specs.Prelude.{◌≡◌, true};
ghost use Rattle.pv_text.specs.Lines.{is_line};

use pv_acl::Names;
use pv_path::{TreePath, child, is_name, parse_path};
use pv_text::{OneLine, Place};
use std::alloc::{AllocError, Global};

/// A lookup that knows the user `app` and the group `adm`.
pub(crate) struct People;

impl Names for People {
    ghost use Rattle.std.specs.Prelude.{None, Some, if◌then◌else◌, codes};
    ghost use Rattle.std.specs.Str.{bytes_eq};

    ghost uid_named = { λ _ name. if bytes_eq name (codes "app") then Some 1000 else None };

    ghost gid_named = { λ _ name. if bytes_eq name (codes "adm") then Some 4 else None };

    fn uid_of(&self, name: &[u8]) -> Option<u32> {
        if name == b"app".as_slice() {
            Some(1000)
        } else {
            None
        }
    }

    fn gid_of(&self, name: &[u8]) -> Option<u32> {
        if name == b"adm".as_slice() {
            Some(4)
        } else {
            None
        }
    }
}

/// Whether a text is one line.
pub(crate) fn is_one_line(text: &[u8]) -> bool
    ensures { result ≡ is_line text.now }
{
    text.iter().all(|byte| *byte != b'\n')
}

/// A line of a file.
pub(crate) fn place_in(alloc: Global, file: &[u8], number: u32) -> Result<Place, AllocError>
    requires { is_line file.now ≡ true }
{
    let file = OneLine::copy_of(alloc, file)?;
    Ok(Place { file, number })
}

/// The path of a name in a directory, where it is a name.
fn child_in(alloc: Global, above: &TreePath, name: &[u8]) -> Result<Option<TreePath>, AllocError> {
    if is_name(name) {
        Ok(Some(child(alloc, above, name)?))
    } else {
        Ok(None)
    }
}

/// The path of a name in the directory of a text.
pub(crate) fn child_of(
    alloc: Global,
    above: &[u8],
    name: &[u8],
) -> Result<Option<TreePath>, AllocError> {
    match parse_path(alloc, above) {
        Ok(above) => child_in(alloc, &above, name),
        Err(_) => Ok(None),
    }
}
