//! The folders of configuration files, and which names in them are configuration files.
ghost use Rattle.std.specs.Prelude.{◌≡◌, ℕ, true, List, [], ◌∷◌, ◌++◌, filter, map, IfOk, OnOk};
ghost use Rattle.std.specs.List.{AllPass, fold, flat_map};
ghost use Rattle.pv_path.specs.Names.{is_name};
ghost use Rattle.pv_layers.specs.Places.{etc, inputs};
ghost use Rattle.pv_layers.specs.Folders.{last_folder, folders, is_conf, conf_names_in, with_name, conf_names};

use pv_path::{Name, PathList, TreePath};
use pv_steps::{Kind, Tree, kind_at};
use pv_text::Tool;
use std::alloc::{AllocError, Global};
use std::collections::BTreeSet;

/// Returns the name in which the folders of a tool end.
fn last_folder(tool: Tool) -> &'static [u8]
    ensures value { result.now ≡ last_folder tool }
    ensures name { is_name result.now ≡ true }
{
    match tool {
        Tool::Tmpfiles => b"tmpfiles.d",
        Tool::Sysusers => b"sysusers.d",
    }
}

/// Builds the path of some names.
fn path_of(alloc: Global, names: &[&[u8]]) -> Result<TreePath, AllocError>
    requires { AllPass (λ name. is_name name.now) names.now }
    ensures { IfOk result (λ path. path ≡ map (λ name. name.now) names.now) }
{
    let mut path = TreePath::root(alloc);
    for name in names {
        path.push(Name::of(alloc, name)?)?;
    }
    Ok(path)
}

/// Returns the path `/etc`.
///
/// The only error is `AllocError`.
pub fn etc_path(alloc: Global) -> Result<TreePath, AllocError>
    ensures { IfOk result (λ path. path ≡ etc) }
{
    path_of(alloc, &[b"etc"])
}

/// Adds the path of some names to a list.
fn add_path(alloc: Global, list: &mut PathList, names: &[&[u8]]) -> Result<(), AllocError>
    requires { AllPass (λ name. is_name name.now) names.now }
    ensures { OnOk result (list.new ≡ list.old ++ map (λ name. name.now) names.now ∷ []) }
{
    list.push(path_of(alloc, names)?)
}

/// Returns the folders of a tool. The one whose files hide those of the others comes first.
pub(crate) fn folders(alloc: Global, tool: Tool) -> Result<PathList, AllocError>
    ensures { IfOk result (λ list. list ≡ folders tool) }
{
    let last = last_folder(tool);
    let mut list = PathList::new(alloc);
    add_path(alloc, &mut list, &[b"etc", last])?;
    add_path(alloc, &mut list, &[b"run", last])?;
    add_path(alloc, &mut list, &[b"usr", b"local", b"lib", last])?;
    add_path(alloc, &mut list, &[b"usr", b"lib", last])?;
    Ok(list)
}

/// Returns the input paths of systemd-tmpfiles: the folders and files that decide which lines it reads, and what they
/// mean.
///
/// They are the four folders of tmpfiles.d(5) in the order of their precedence, then `/etc/passwd` and `/etc/group`
/// (passwd(5), group(5)). Everything below such a folder is an input path too.
///
/// The only error is `AllocError`.
pub fn inputs(alloc: Global) -> Result<PathList, AllocError>
    ensures { IfOk result (λ list. list ≡ inputs) }
{
    let mut list = folders(alloc, Tool::Tmpfiles)?;
    add_path(alloc, &mut list, &[b"etc", b"passwd"])?;
    add_path(alloc, &mut list, &[b"etc", b"group"])?;
    Ok(list)
}

/// Returns whether a name is that of a configuration file: it ends in `.conf` and does not begin with a period.
fn is_conf(name: &[u8]) -> bool
    ensures { result ≡ is_conf name.now }
{
    name.ends_with(b".conf") && !name.starts_with(b".")
}

/// Adds those of some names that are names of configuration files.
fn add_conf(found: &[Name], names: &mut BTreeSet<Name>) -> Result<(), AllocError>
    ensures { OnOk result (names.new.keys ≡ fold with_name names.old.keys (filter is_conf found.now)) }
{
    for name in found {
        if is_conf(name.bytes()) {
            let _new = names.insert(name.copy()?)?;
        }
    }
    Ok(())
}

/// Adds the names of the configuration files in a folder. If the folder is not a directory, it adds none.
fn add_names<T: Tree>(
    alloc: Global,
    tree: &T,
    folder: &TreePath,
    names: &mut BTreeSet<Name>,
) -> Result<(), AllocError>
    ensures { OnOk result (names.new.keys ≡ fold with_name names.old.keys (conf_names_in (T.state tree.now) folder.now)) }
{
    match kind_at(tree, folder) {
        Some(Kind::Directory) => add_conf(tree.list(alloc, folder)?.as_slice(), names),
        _ => Ok(()),
    }
}

/// Returns the names of the configuration files in some folders, in byte order, each once.
pub(crate) fn conf_names<T: Tree>(
    alloc: Global,
    tree: &T,
    folders: &PathList,
) -> Result<Vec<Name>, AllocError>
    ensures { IfOk result (λ names. names.items ≡ conf_names (T.state tree.now) folders.now) }
{
    let mut names = BTreeSet::new(alloc);
    for folder in folders.as_slice() {
        add_names(alloc, tree, folder, &mut names)?;
    }
    names.into_iter().collect(alloc)
}
