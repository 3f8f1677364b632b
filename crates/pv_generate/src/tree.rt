//! A generated tree.
ghost use Rattle.std.specs.Prelude.{◌≡◌, [], IfOk, OnOk};
ghost use Rattle.std.specs.FinMap as fin;
ghost use Rattle.pv_generate.specs.Trees.{data_path, directory, etc_path, folder_path, folders, generated, with_groups, with_olds};

use crate::lines::lines_of;
use crate::objects::{numbered, object};
use crate::plan::Plan;
use pv_path::{Bytes, TreePath, child};
use pv_steps::Kind;
use pv_tree::MemTree;
use std::alloc::{AllocError, Global};

/// Makes the tree of a seed for `count` lines: directories, old files, and a configuration of `systemd-tmpfiles`
/// for them.
///
/// The same seed and count always give the same tree. Everything in it belongs to root, all its timestamps are 0,
/// and no step is recorded.
///
/// - `/data/g0` to `/data/g7` are directories.
/// - `/data/gJ/eN` is a file for each N from 0 to `count` - 1, where J is N modulo 8. It has the bytes `old`.
/// - `/etc/tmpfiles.d/gen.conf` has `count` pseudo-random lines (tmpfiles.d(5)) over these directories.
///
/// The only error is `AllocError`.
pub fn generated_tree(alloc: Global, seed: u64, count: u32) -> Result<MemTree, AllocError>
    ensures files { IfOk result (λ tree. tree.files ≡ generated seed count) }
    ensures steps { IfOk result (λ tree. tree.steps ≡ []) }
{
    let data = data_path(alloc)?;
    let mut plan = folders_alone(alloc)?;
    add_groups(alloc, &mut plan, &data)?;
    add_olds(alloc, &mut plan, &data, count)?;
    let path = child(alloc, &folder_path(alloc)?, b"gen.conf")?;
    let lines = Bytes::from_vec(lines_of(alloc, seed, count)?);
    plan.put(path, object(alloc, Kind::File, 0o644, lines))?;
    plan.grow(alloc)
}

/// Returns `/etc`.
fn etc_path(alloc: Global) -> Result<TreePath, AllocError>
    ensures { IfOk result (λ path. path ≡ etc_path) }
{
    child(alloc, &TreePath::root(alloc), b"etc")
}

/// Returns `/etc/tmpfiles.d`.
fn folder_path(alloc: Global) -> Result<TreePath, AllocError>
    ensures { IfOk result (λ path. path ≡ folder_path) }
{
    child(alloc, &etc_path(alloc)?, b"tmpfiles.d")
}

/// Returns `/data`.
fn data_path(alloc: Global) -> Result<TreePath, AllocError>
    ensures { IfOk result (λ path. path ≡ data_path) }
{
    child(alloc, &TreePath::root(alloc), b"data")
}

/// Plans the root, `/etc`, `/etc/tmpfiles.d` and `/data`.
fn folders_alone(alloc: Global) -> Result<Plan, AllocError>
    ensures { IfOk result (λ plan. plan ≡ folders) }
{
    let root = TreePath::root(alloc);
    let etc = etc_path(alloc)?;
    let mut plan = Plan::new(alloc);
    add_directory(alloc, &mut plan, root)?;
    add_directory(alloc, &mut plan, etc)?;
    add_directory(alloc, &mut plan, folder_path(alloc)?)?;
    add_directory(alloc, &mut plan, data_path(alloc)?)?;
    Ok(plan)
}

/// Plans an empty directory.
fn add_directory(alloc: Global, plan: &mut Plan, path: TreePath) -> Result<(), AllocError>
    ensures { OnOk result (plan.new ≡ fin.insert plan.old path directory) }
{
    plan.put(
        path,
        object(alloc, Kind::Directory, 0o755, Bytes::new(alloc)),
    )
}

/// Plans the eight directories below `/data`.
fn add_groups(alloc: Global, plan: &mut Plan, folder: &TreePath) -> Result<(), AllocError>
    requires folder { folder.now ≡ data_path }
    requires folders { plan.old ≡ folders }
    ensures { OnOk result (plan.new ≡ with_groups 8) }
{
    for n in 0..8u32 {
        let path = child(alloc, folder, &numbered(alloc, b'g', n)?)?;
        add_directory(alloc, plan, path)?;
    }
    Ok(())
}

/// Plans the old files in the eight directories.
fn add_olds(alloc: Global, plan: &mut Plan, folder: &TreePath, count: u32) -> Result<(), AllocError>
    requires folder { folder.now ≡ data_path }
    requires groups { plan.old ≡ with_groups 8 }
    ensures { OnOk result (plan.new ≡ with_olds count) }
{
    for n in 0..count {
        let group = child(alloc, folder, &numbered(alloc, b'g', n % 8)?)?;
        let path = child(alloc, &group, &numbered(alloc, b'e', n)?)?;
        let bytes = Bytes::copy_of(alloc, b"old")?;
        plan.put(path, object(alloc, Kind::File, 0o644, bytes))?;
    }
    Ok(())
}
