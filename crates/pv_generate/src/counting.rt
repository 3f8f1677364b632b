//! Counts the objects of a tree.
ghost use Rattle.std.specs.Prelude.{◌≡◌, IfOk};
ghost use Rattle.std.specs.FinMap as fin;

use pv_tree::MemTree;
use std::alloc::{AllocError, Global};

/// Returns the number of objects of a tree, the root included. The only error is `AllocError`.
pub fn node_count(alloc: Global, tree: &MemTree) -> Result<u64, AllocError>
    ensures { IfOk result (λ count. count ≡ fin.len tree.now.files) }
{
    let mut walk = tree.walk(alloc)?;
    let mut count: u64 = 0;
    while let Some(_place) = walk.place() {
        // A tree whose count does not fit into 64 bits does not fit into memory either.
        count = count.checked_add(1).ok_or(AllocError)?;
        walk.advance()?;
    }
    Ok(count)
}
