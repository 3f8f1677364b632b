//! A map from paths to objects without timestamps.
ghost use Rattle.std.specs.Prelude.{◌≡◌, not, IfOk, OnOk};
ghost use Rattle.std.specs.BTreeMap.{IsOrdered, keys};
ghost use Rattle.std.specs.FinMap as fin;
ghost use Rattle.std.specs.List.{list_all};
ghost use Rattle.std.specs.Option.{option_copied};
ghost use Rattle.pv_path.specs.Paths.{path_cmp};
ghost use Rattle.pv_table.specs.Pointwise.{view};
ghost use Rattle.pv_table.specs.Turns.{is_childless, is_visible_child};

use pv_path::{TreePath, is_staging, names_under};
use pv_walk::ObjectState;
use std::alloc::{AllocError, Global};
use std::collections::BTreeMap;
use std::marker::Model;

/// A map from paths to objects without timestamps (`ObjectState` of pv_walk). In contracts, a value is the finite map.
#[derive(Drop)]
pub struct Standing {
    objects: BTreeMap<TreePath, ObjectState>,
}

impl Model for Standing {
    ghost use Rattle.std.specs.Coded.{coded_ℕ, coded_list};
    ghost use Rattle.std.specs.FinMap as fin;
    ghost use Rattle.pv_walk.specs.contracts.object_state.ObjectState as object_state;
    ghost use Rattle.pv_table.specs.Pointwise.{ObjectStates};

    ghost Value = { ObjectStates };

    ghost coded = { fin.code (coded_list (coded_list coded_ℕ)) (object_state.the_row).coded };

    ghost view = { λ s. fin.from_entries s.objects.entries };
}

impl Standing {
    /// Makes an empty map. The call does not allocate.
    pub fn new(alloc: Global) -> Standing
        ensures { result ≡ fin.empty }
    {
        Standing {
            objects: BTreeMap::new(alloc),
        }
    }

    /// Puts an object at a path. It replaces the old object, if there is one. The only error is `AllocError`.
    pub fn put(&mut self, path: TreePath, object_state: ObjectState) -> Result<(), AllocError>
        ensures { OnOk result (self.new ≡ fin.insert self.old path object_state) }
    {
        let _replaced = self.objects.insert(path, object_state)?;
        Ok(())
    }

    /// Returns the object at a path, or `None` if there is none. The call does not allocate.
    pub fn get(&self, path: &TreePath) -> Option<&ObjectState>
        ensures { option_copied result ≡ fin.get self.now path.now }
    {
        self.objects.get(path)
    }

    /// Returns a copy of the object at a path, or `None` if there is none. The only error is `AllocError`.
    pub fn copy_at(&self, path: &TreePath) -> Result<Option<ObjectState>, AllocError>
        ensures { IfOk result (λ object_state. object_state ≡ fin.get self.now path.now) }
    {
        match self.get(path) {
            Some(object_state) => Ok(Some(object_state.copy()?)),
            None => Ok(None),
        }
    }

    /// Returns the paths that have an object, in their order. The only error is `AllocError`.
    pub fn paths(&self, alloc: Global) -> Result<Vec<TreePath>, AllocError>
        ensures { IfOk result (λ paths. paths.items ≡ fin.keys self.now) }
    {
        let paths = paths_of(alloc, &self.objects)?;
        Ok(paths)
    }

    /// Returns whether no object is directly below a path, except for staging names.
    pub(crate) fn is_childless(&self, path: &TreePath) -> bool
        ensures { result ≡ is_childless (view self.now) path.now }
    {
        none_below(&self.objects, path)
    }
}

/// Returns the paths of a map, in their order.
fn paths_of(
    alloc: Global,
    objects: &BTreeMap<TreePath, ObjectState>,
) -> Result<Vec<TreePath>, AllocError>
    ensures paths { IfOk result (λ paths. paths.items ≡ keys objects.now) }
    ensures ordered { IsOrdered path_cmp objects.now }
{
    let mut paths = Vec::new(alloc);
    for path in objects.keys() {
        paths.push(path.copy()?)?;
    }
    Ok(paths)
}

/// Returns whether a map has no path directly below a path, except for staging names.
fn none_below(objects: &BTreeMap<TreePath, ObjectState>, path: &TreePath) -> bool
    ensures all { result ≡ list_all (λ q. not (is_visible_child path.now q)) (keys objects.now) }
    ensures ordered { IsOrdered path_cmp objects.now }
{
    objects.keys().all(|other| !is_visible_child(path, other))
}

/// Returns whether a path is directly below another one and has no staging name there.
fn is_visible_child(path: &TreePath, other: &TreePath) -> bool
    ensures { result ≡ is_visible_child path.now other.now }
{
    match names_under(path.names(), other.names()) {
        Some([name]) => !is_staging(name.bytes()),
        _ => false,
    }
}
