//! Components without wildcards, and the one name that such a component matches.
ghost use Rattle.std.specs.Prelude.{◌≡◌, false, IfOk};
ghost use Rattle.pv_path.specs.Names.{is_staging};
ghost use Rattle.pv_glob.specs.Matching.{component_matches};
ghost use Rattle.pv_glob.specs.Written.{name_by, written};

use crate::element::{Component, Element};
use crate::pair::copied;
use crate::plain::Plain;
use pv_path::{Bytes, Name, is_name, is_staging};
use std::alloc::{AllocError, Global};

/// Returns the bytes of a component that has no wildcard and no bracket, or `None` for any other (glob(7)).
///
/// The only error is `AllocError`.
pub fn written(alloc: Global, component: &Component) -> Result<Option<Bytes>, AllocError>
    ensures { IfOk result (λ bytes. bytes ≡ written component.now) }
{
    let mut bytes = Bytes::new(alloc);
    for element in component.as_slice() {
        match element {
            Element::Byte(byte) => bytes.push(*byte)?,
            _ => return Ok(None),
        }
    }
    Ok(Some(bytes))
}

/// Returns whether a component matches a name that is not a staging name.
fn is_matched(alloc: Global, component: &Component, name: &Name) -> Result<bool, AllocError>
    requires { is_staging name.now ≡ false }
    ensures { IfOk result (λ matched. matched ≡ component_matches component.now name.now) }
{
    let mut plain = Plain::root(alloc);
    plain.push(copied(component)?)?;
    Ok(plain.matches(&[name.copy()?]))
}

/// Returns the bytes as a name if they are one, it is not a staging name, and the component matches it. Otherwise
/// `None`.
pub(crate) fn name_by(
    alloc: Global,
    component: &Component,
    bytes: &Bytes,
) -> Result<Option<Name>, AllocError>
    ensures { IfOk result (λ name. name ≡ name_by component.now bytes.now) }
{
    let word = bytes.as_slice();
    if !is_name(word) || is_staging(word) {
        return Ok(None);
    }
    let name = Name::of(alloc, word)?;
    if is_matched(alloc, component, &name)? {
        Ok(Some(name))
    } else {
        Ok(None)
    }
}
