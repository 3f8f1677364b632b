//! Plans of trees: the object that a tree is to have at each path. The tree is then made in one go.
ghost use Rattle.std.specs.Prelude.{◌≡◌, [], IfOk, OnOk};
ghost use Rattle.std.specs.FinMap as fin;
ghost use Rattle.pv_steps.specs.Trees.{IsTree};

use pv_path::TreePath;
use pv_steps::Object;
use pv_tree::{MemTree, TreeBuilder};
use std::alloc::{AllocError, Global};
use std::collections::BTreeMap;
use std::marker::Model;

/// The object that a tree is to have at each path. In contracts, a value is the finite map from paths to objects.
#[derive(Drop)]
pub(crate) struct Plan {
    objects: BTreeMap<TreePath, Object>,
}

impl Model for Plan {
    ghost use Rattle.std.specs.Coded.{coded_ℕ, coded_list};
    ghost use Rattle.std.specs.FinMap as fin;
    ghost use Rattle.pv_steps.specs.contracts.object.Object as object;
    ghost use Rattle.pv_steps.specs.Trees.{Files};

    ghost Value = { Files };

    ghost coded = { fin.code (coded_list (coded_list coded_ℕ)) (object.the_row).coded };

    ghost view = { λ p. fin.from_entries p.objects.entries };
}

impl Plan {
    /// Returns a plan without objects. The call does not allocate.
    pub(crate) fn new(alloc: Global) -> Plan
        ensures { result ≡ fin.empty }
    {
        Plan {
            objects: BTreeMap::new(alloc),
        }
    }

    /// Plans an object at a path. It replaces what was planned there.
    pub(crate) fn put(&mut self, path: TreePath, object: Object) -> Result<(), AllocError>
        ensures { OnOk result (self.new ≡ fin.insert self.old path object) }
    {
        let _replaced = self.objects.insert(path, object)?;
        Ok(())
    }

    /// Returns the tree as planned, with no step recorded.
    pub(crate) fn grow(self, alloc: Global) -> Result<MemTree, AllocError>
        requires { IsTree self }
        ensures files { IfOk result (λ tree. tree.files ≡ self) }
        ensures steps { IfOk result (λ tree. tree.steps ≡ []) }
    {
        let Plan { objects } = self;
        grow(alloc, objects)
    }
}

/// Returns the tree that has these objects at their paths.
fn grow(alloc: Global, objects: BTreeMap<TreePath, Object>) -> Result<MemTree, AllocError>
    requires { IsTree (fin.from_entries objects.entries) }
    ensures files { IfOk result (λ tree. tree.files ≡ fin.from_entries objects.entries) }
    ensures steps { IfOk result (λ tree. tree.steps ≡ []) }
{
    let mut left = objects;
    let Some((_path, root)) = left.pop_first() else {
        unreachable!()
    };
    let mut builder = TreeBuilder::new(alloc, root.node)?;
    for (path, object) in left {
        builder.add_next(path, object)?;
    }
    Ok(builder.finish())
}
