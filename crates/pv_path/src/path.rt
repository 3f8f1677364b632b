//! Paths as lists of names, with their order, equality and hash.
ghost use Rattle.std.specs.Prelude.{◌≡◌, ◌≢◌, ◌↔◌, IsTrue, ℕ, ◌≤◌, List, [], ◌∷◌, ◌++◌, true, length, Some, IfOk, IfSome, OnOk, OnErr, slice_get};
ghost use Rattle.std.specs.Option.{option_copied, option_map, option_map_or};
ghost use Rattle.std.specs.Ordering.{as_partial_cmp};
ghost use Rattle.std.specs.Cmp.{partial_equiv_from_equiv, partial_order_from_own_ties, partial_order_from_total};
ghost use Rattle.std.specs.Cmp.Lexicographic.{slice_cmp, lists_equiv, lists_ties, nat_list_eq_equiv, texts_ties};
ghost use Rattle.std.specs.Ordering.{nat_cmp};
ghost use Rattle.std.specs.Hash as fed;
ghost use Rattle.std.specs.Hash.{same_Alike};
ghost use Rattle.std.proofs.Common.{rules, refl};
ghost use Rattle.pv_path.specs.Paths.{has_names, is_prefix, rest_under, parent_of, last_name, path_cmp, path_total, same_path, has_staging, staging_of, same_path-decides};

use crate::name::{Name, is_staging};
use std::alloc::{AllocError, Global};
use std::cmp::Ordering;
use std::hash::{Hash, Hasher};
use std::marker::Model;

/// Returns a copy of the names in a vector with room for `more` further names.
fn with_room(alloc: Global, names: &[Name], more: usize) -> Result<Vec<Name>, AllocError>
    ensures { IfOk result (λ copy. copy.items ≡ names.now) }
{
    let mut copy = Vec::with_capacity(alloc, names.len().saturating_add(more))?;
    add_copies(&mut copy, names)?;
    Ok(copy)
}

/// Adds copies of the names `more` at the end.
fn add_copies(names: &mut Vec<Name>, more: &[Name]) -> Result<(), AllocError>
    ensures { OnOk result (names.new.items ≡ names.old.items ++ more.now) }
{
    names.extend_with_clones(more)
}

/// A path in a file tree: the list of its names from the root on. The empty list is the root.
///
/// In contracts, a value is the list of names, each as the list of its bytes. Paths are ordered name by name, names
/// by their bytes, and a prefix comes before the paths that extend it.
#[derive(Clone, Drop)]
pub struct TreePath {
    names: Vec<Name>,
}

impl Model for TreePath {
    ghost Value = { List (List ℕ) };

    ghost view = { λ p. p.names.items };

    ghost invariant = { λ p. has_names p.names.items ≡ true };
}

impl TreePath {
    /// Returns the path of the root, which has no names. The call does not allocate.
    pub fn root(alloc: Global) -> TreePath
        ensures { result ≡ [] }
    {
        TreePath {
            names: Vec::new(alloc),
        }
    }

    /// Makes a path from a copy of the names, the first of them directly below the root. The only error is
    /// `AllocError`.
    pub fn of(alloc: Global, names: &[Name]) -> Result<TreePath, AllocError>
        requires { has_names names.now ≡ true }
        ensures { IfOk result (λ path. path ≡ names.now) }
    {
        Ok(TreePath {
            names: names.to_vec(alloc)?,
        })
    }

    /// Returns the number of names. The root has 0.
    pub fn len(&self) -> usize
        ensures count { result ≡ length self.now }
        ensures names { has_names self.now ≡ true }
    {
        self.names.len()
    }

    /// Returns whether the path is the root.
    pub fn is_empty(&self) -> bool
        ensures { IsTrue result ↔ (self.now ≡ []) }
    {
        self.names.is_empty()
    }

    /// Returns the name at an index, where 0 is the name directly below the root. Returns `None` past the last
    /// name.
    pub fn get(&self, i: usize) -> Option<&Name>
        ensures { option_copied result ≡ slice_get self.now i }
    {
        self.names.get(i)
    }

    /// Returns the last name of the path, or `None` for the root.
    pub fn name(&self) -> Option<&Name>
        ensures { option_copied result ≡ last_name self.now }
    {
        self.names.last()
    }

    /// Returns the names as a slice, the first of them directly below the root.
    pub fn names(&self) -> &[Name]
        ensures value { result.now ≡ self.now }
        ensures names { has_names self.now ≡ true }
    {
        self.names.as_slice()
    }

    /// Adds a name at the end, so that the path goes one level deeper.
    ///
    /// The only error is `AllocError`, and then the path is unchanged.
    pub fn push(&mut self, name: Name) -> Result<(), AllocError>
        ensures ok { OnOk result (self.new ≡ self.old ++ name ∷ []) }
        ensures err { OnErr result (self.new ≡ self.old) }
    {
        let _valid = name.bytes();
        self.names.push(name)?;
        Ok(())
    }

    /// Makes a path from a copy of the names and a last name, which is moved in.
    pub(crate) fn ending(alloc: Global, names: &[Name], last: Name) -> Result<TreePath, AllocError>
        requires { has_names names.now ≡ true }
        ensures { IfOk result (λ path. path ≡ names.now ++ last ∷ []) }
    {
        let _valid = last.bytes();
        let mut names = with_room(alloc, names, 1)?;
        names.push(last)?;
        Ok(TreePath { names })
    }

    /// Returns this path followed by one more name, which is moved in. The only error is `AllocError`.
    pub fn join(&self, name: Name) -> Result<TreePath, AllocError>
        ensures { IfOk result (λ path. path ≡ self.now ++ name ∷ []) }
    {
        TreePath::ending(*self.names.allocator(), &self.names, name)
    }

    /// Returns a copy of the path. The only error is `AllocError`.
    pub fn copy(&self) -> Result<TreePath, AllocError>
        ensures { IfOk result (λ path. path ≡ self.now) }
    {
        self.clone()
    }

    /// Returns this path followed by copies of further names. The only error is `AllocError`.
    pub fn followed_by(&self, names: &[Name]) -> Result<TreePath, AllocError>
        requires { has_names names.now ≡ true }
        ensures { IfOk result (λ path. path ≡ self.now ++ names.now) }
    {
        let mut all = with_room(*self.names.allocator(), &self.names, names.len())?;
        add_copies(&mut all, names)?;
        Ok(TreePath { names: all })
    }

    /// Compares two paths name by name, and names by their bytes. A prefix is less than a path that extends it.
    ///
    /// This is the order of `Ord`. For example, `/a` comes before `/a/b`, and `/a/b` comes before `/a.d`.
    pub fn order(&self, other: &TreePath) -> Ordering
        ensures { result ≡ path_cmp self.now other.now }
    {
        self.names.cmp(&other.names)
    }
}

impl PartialEq for TreePath {
    ghost eq = { same_path };

    ghost laws = { partial_equiv_from_equiv (lists_equiv nat_list_eq_equiv) };

    fn eq(&self, other: &TreePath) -> bool {
        self.names == other.names
    }
}

impl Eq for TreePath {
    ghost laws = { lists_equiv nat_list_eq_equiv };
}

impl Ord for TreePath {
    ghost cmp = { path_cmp };

    ghost total = { path_total };

    ghost matches_partial_cmp = { λ _ _. refl };

    ghost matches_eq = { lists_ties (slice_cmp nat_cmp) texts_ties };

    fn cmp(&self, other: &TreePath) -> Ordering {
        self.order(other)
    }
}

impl PartialOrd for TreePath {
    ghost partial_cmp = { as_partial_cmp path_cmp };

    ghost laws = { partial_order_from_own_ties (partial_order_from_total path_total) (lists_ties (slice_cmp nat_cmp) texts_ties) };

    fn partial_cmp(&self, other: &TreePath) -> Option<Ordering> {
        Some(self.cmp(other))
    }
}

impl Hash for TreePath {
    ghost hash_input = { fed.slice (fed.slice fed.u8) };

    ghost respects_eq = { (same_Alike (fed.slice (fed.slice fed.u8)) same_path-decides).fed };

    fn hash<H: Hasher>(&self, state: &mut H) {
        self.names.hash(state);
    }
}
