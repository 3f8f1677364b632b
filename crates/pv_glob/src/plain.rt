//! Patterns without braces.
ghost use Rattle.std.specs.Prelude.{◌≡◌, ℕ, ◌≤◌, List, [], ◌∷◌, ◌++◌, false, take, length, map, IfOk, OnOk, OnErr};
ghost use Rattle.pv_path.specs.Paths.{Path, has_staging, same_path};
ghost use Rattle.pv_glob.specs.Matching.{literal_of, matches};
ghost use Rattle.pv_glob.specs.declared.element.Element.TheVariants.{Byte};

use crate::element::{Component, Element};
use crate::matching::names_match;
use pv_path::{Name, Sequence, TreePath};
use std::alloc::{AllocError, Global};
use std::marker::Model;

/// A pattern without braces: its components, one for each name of a path that it matches.
///
/// In contracts, a value is the list of components.
#[derive(Drop)]
pub struct Plain {
    components: Sequence<Component>,
}

impl Model for Plain {
    ghost use Rattle.std.specs.Prelude.{List};
    ghost use Rattle.pv_glob.specs.declared.element.Element.{Element};

    ghost Value = { List (List Element) };

    ghost view = { λ p. p.components };
}

impl Plain {
    /// Returns the pattern without components, which matches the root alone. The call does not allocate.
    pub fn root(alloc: Global) -> Plain
        ensures { result ≡ [] }
    {
        Plain {
            components: Sequence::new(alloc),
        }
    }

    /// Returns the pattern that matches exactly one path.
    ///
    /// The path must have no staging name. The only error is `AllocError`.
    pub fn literal(alloc: Global, path: &TreePath) -> Result<Plain, AllocError>
        requires { has_staging path.now ≡ false }
        ensures components { IfOk result (λ plain. plain ≡ literal_of path.now) }
        ensures alone { IfOk result (λ plain. (q : Path) → matches plain q ≡ same_path path.now q) }
    {
        let mut plain = Plain::root(alloc);
        for name in path.names() {
            plain.push(written(alloc, name.bytes())?)?;
        }
        Ok(plain)
    }

    /// Adds a component at the end. The only error is `AllocError`, and then the pattern is unchanged.
    pub fn push(&mut self, component: Component) -> Result<(), AllocError>
        ensures ok { OnOk result (self.new ≡ self.old ++ component ∷ []) }
        ensures err { OnErr result (self.new ≡ self.old) }
    {
        self.components.push(component)
    }

    /// Returns the components as a slice.
    pub fn components(&self) -> &[Component]
        ensures { result.now ≡ self.now }
    {
        self.components.as_slice()
    }

    /// Returns a copy of the pattern. The only error is `AllocError`.
    pub fn copy(&self) -> Result<Plain, AllocError>
        ensures { IfOk result (λ copy. copy ≡ self.now) }
    {
        Ok(Plain {
            components: self.components.clone()?,
        })
    }

    /// Returns whether the pattern matches the path of these names (glob(7)).
    ///
    /// It does if there are as many components as names, each component matches its name, and no name is a staging
    /// name. The call does not allocate.
    pub fn matches(&self, names: &[Name]) -> bool
        ensures { result ≡ matches self.now names.now }
    {
        names_match(self.components(), names)
    }

    /// Returns whether the pattern matches the path of the first `count` of these names, as `matches` does.
    ///
    /// `count` must be at most the number of names. The call does not allocate.
    pub fn matches_first(&self, names: &[Name], count: usize) -> bool
        requires { count ≤ length names.now }
        ensures { result ≡ matches self.now (take count names.now) }
    {
        self.matches(&names[..count])
    }
}

impl Clone for Plain {
    ghost is_clone = { λ plain copy. copy ≡ plain };

    fn clone(&self) -> Result<Plain, AllocError> {
        self.copy()
    }
}

/// Returns the elements for these bytes, one for each.
fn written(alloc: Global, bytes: &[u8]) -> Result<Component, AllocError>
    ensures { IfOk result (λ component. component ≡ map (λ b. Byte b) bytes.now) }
{
    let mut component = Component::new(alloc);
    for byte in bytes {
        component.push(Element::Byte(*byte))?;
    }
    Ok(component)
}
