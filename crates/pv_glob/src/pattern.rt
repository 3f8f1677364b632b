//! Patterns of paths, and which paths they match.
ghost use Rattle.std.specs.Prelude.{◌≡◌, ℕ, ◌<◌, ◌≤◌, List, true, false, [], ◌∷◌, ◌++◌, map, take, length, IfOk, OnOk};
ghost use Rattle.pv_path.specs.Paths.{Path, has_staging, same_path};
ghost use Rattle.pv_glob.specs.Braces.{joined};
ghost use Rattle.pv_glob.specs.Matching.{are_expansions, literal_of, some_matches};

use crate::element::{Component, copy_of};
use crate::plain::Plain;
use pv_path::{Name, Sequence, TreePath};
use std::alloc::{AllocError, Global};
use std::marker::Model;

/// A pattern of paths, as the list of its expansions.
///
/// An expansion is a pattern without braces, with one alternative chosen for each pair of braces. All have the same
/// number of components. In contracts, a value is the list of expansions.
#[derive(Drop)]
pub struct Pattern {
    plains: Sequence<Plain>,
}

impl Model for Pattern {
    ghost use Rattle.std.specs.Prelude.{◌≡◌, true, List};
    ghost use Rattle.pv_glob.specs.declared.element.Element.{Element};
    ghost use Rattle.pv_glob.specs.Matching.{are_expansions};

    ghost Value = { List (List (List Element)) };

    ghost view = { λ p. p.plains };

    ghost invariant = { λ p. are_expansions p.plains ≡ true };
}

impl Pattern {
    /// Makes the pattern that has this one expansion. The only error is `AllocError`.
    pub fn of(alloc: Global, plain: Plain) -> Result<Pattern, AllocError>
        ensures { IfOk result (λ pattern. pattern ≡ plain ∷ []) }
    {
        let mut plains = Sequence::new(alloc);
        plains.push(plain)?;
        Ok(Pattern { plains })
    }

    /// Returns the expansions, at least one. All have the same number of components.
    pub fn plains(&self) -> &[Plain]
        ensures value { result.now ≡ self.now }
        ensures even { are_expansions self.now ≡ true }
    {
        self.plains.as_slice()
    }

    /// Returns the pattern with one more component, which stands for any of these.
    pub(crate) fn followed(&self, alloc: Global, words: &[Component]) -> Result<Pattern, AllocError>
        requires { 0 < length words.now }
        ensures { IfOk result (λ pattern. pattern ≡ joined self.now (map (λ word. word ∷ []) words.now)) }
    {
        Ok(Pattern {
            plains: all_followed(alloc, self.plains.as_slice(), words)?,
        })
    }

    /// Returns a copy of the pattern. The only error is `AllocError`.
    pub fn copy(&self) -> Result<Pattern, AllocError>
        ensures { IfOk result (λ copy. copy ≡ self.now) }
    {
        Ok(Pattern {
            plains: self.plains.clone()?,
        })
    }
}

/// Adds an expansion followed by each of these components.
fn add_followed(
    plains: &mut Sequence<Plain>,
    plain: &Plain,
    words: &[Component],
) -> Result<(), AllocError>
    ensures { OnOk result (plains.new ≡ plains.old ++ map (λ word. plain.now ++ word) (map (λ word. word ∷ []) words.now)) }
{
    for word in words {
        let mut longer = plain.copy()?;
        longer.push(copy_of(word)?)?;
        plains.push(longer)?;
    }
    Ok(())
}

/// Returns each of the expansions followed by each of the components.
fn all_followed(
    alloc: Global,
    plains: &[Plain],
    words: &[Component],
) -> Result<Sequence<Plain>, AllocError>
    ensures { IfOk result (λ longer. longer ≡ joined plains.now (map (λ word. word ∷ []) words.now)) }
{
    let mut longer = Sequence::new(alloc);
    for plain in plains {
        add_followed(&mut longer, plain, words)?;
    }
    Ok(longer)
}

/// Returns whether at least one of the expansions matches the path of these names.
fn some_matches(plains: &[Plain], names: &[Name]) -> bool
    ensures { result ≡ some_matches plains.now names.now }
{
    plains.iter().any(|plain| plain.matches(names))
}

/// Returns whether a pattern matches a path (glob(7)).
///
/// It does if at least one expansion has as many components as the path has names, each component matches its name, and
/// no name is a staging name. The call does not allocate.
pub fn matches(pattern: &Pattern, path: &TreePath) -> bool
    ensures { result ≡ some_matches pattern.now path.now }
{
    some_matches(pattern.plains(), path.names())
}

/// Returns whether a pattern matches the path of the first `count` names of a path, as `matches` does.
///
/// `count` must be at most the number of names. The call does not allocate.
pub fn matches_first(pattern: &Pattern, path: &TreePath, count: usize) -> bool
    requires { count ≤ length path.now }
    ensures { result ≡ some_matches pattern.now (take count path.now) }
{
    some_matches(pattern.plains(), &path.names()[..count])
}

/// Returns the pattern that matches exactly one path.
///
/// The path must have no staging name. The only error is `AllocError`.
pub fn literal(alloc: Global, path: &TreePath) -> Result<Pattern, AllocError>
    requires { has_staging path.now ≡ false }
    ensures components { IfOk result (λ pattern. pattern ≡ literal_of path.now ∷ []) }
    ensures alone { IfOk result (λ pattern. (q : Path) → some_matches pattern q ≡ same_path path.now q) }
{
    Pattern::of(alloc, Plain::literal(alloc, path)?)
}
