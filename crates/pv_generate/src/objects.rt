//! The objects of a generated tree, and their names.
ghost use Rattle.std.specs.Prelude.{◌≡◌, IfOk};
ghost use Rattle.pv_steps.specs.Objects.{fresh};
ghost use Rattle.pv_generate.specs.Trees.{numbered};

use pv_path::Bytes;
use pv_steps::{Kind, Object};
use std::alloc::{AllocError, Global};

/// Returns an object that belongs to root, with all timestamps 0.
pub(crate) fn object(alloc: Global, kind: Kind, mode: u16, payload: Bytes) -> Object
    ensures { result ≡ fresh kind mode payload 0 0 0 }
{
    Object::fresh(alloc, kind, mode, payload, 0, 0, 0)
}

/// Returns the name that has a letter and then a number in decimal.
pub(crate) fn numbered(alloc: Global, letter: u8, n: u32) -> Result<Vec<u8>, AllocError>
    ensures { IfOk result (λ name. name.items ≡ numbered letter n) }
{
    let mut name = Vec::new(alloc);
    name.push(letter)?;
    let number = n.to_string(alloc)?;
    name.extend_from_slice(number.as_bytes())?;
    Ok(name)
}
