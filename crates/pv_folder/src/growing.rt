//! Adds objects to a tree that is being built.
ghost use Rattle.std.specs.Prelude.{◌≡◌, true, OnOk};
ghost use Rattle.std.specs.FinMap as fin;
ghost use Rattle.std.specs.Ordering.{is_lt};
ghost use Rattle.pv_path.specs.Paths.{has_names, parent_of, path_cmp};
ghost use Rattle.pv_steps.specs.declared.node.Kind.TheVariants.{Directory};
ghost use Rattle.pv_steps.specs.Objects.{IsObject};
ghost use Rattle.pv_steps.specs.Trees.{IsKind};

use pv_path::{Name, TreePath};
use pv_steps::Object;
use pv_tree::TreeBuilder;
use std::alloc::{AllocError, Global};

/// Adds the next object. Its path is greater than the last one, and its parent is a directory.
pub(crate) fn add_at(
    alloc: Global,
    builder: &mut TreeBuilder,
    names: &[Name],
    object: Object,
) -> Result<(), AllocError>
    requires names { has_names names.now ≡ true }
    requires object { IsObject object }
    requires after { is_lt (path_cmp builder.old.last names.now) ≡ true }
    requires parent { IsKind Directory builder.old.files (parent_of names.now) }
    ensures { OnOk result (builder.new ≡ record { files = fin.insert builder.old.files names.now object; last = names.now }) }
{
    builder.add_next(TreePath::of(alloc, names)?, object)
}
