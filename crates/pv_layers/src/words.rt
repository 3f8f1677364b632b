//! Looks up the file that a word of the command line names.
ghost use Rattle.std.specs.Prelude.{◌≡◌, ◌==◌, IfOk};
ghost use Rattle.std.specs.Result.{result_ok};
ghost use Rattle.pv_path.specs.Parsing.{path_of};
ghost use Rattle.pv_layers.specs.Choices.{found_word};

use crate::found::{Found, found_at, found_in};
use pv_path::{PathFault, PathList, TreePath, is_name, parse_path};
use pv_steps::Tree;
use std::alloc::{AllocError, Global};

/// Reads the path that a text spells. The answer is nothing if the text does not spell a path.
fn read_path(alloc: Global, text: &[u8]) -> Result<Option<TreePath>, AllocError>
    ensures { IfOk result (λ path. path ≡ result_ok (path_of text.now)) }
{
    match parse_path(alloc, text) {
        Ok(path) => Ok(Some(path)),
        Err(PathFault::Memory) => Err(AllocError),
        Err(_) => Ok(None),
    }
}

/// Looks up what a word names: a path if it begins with a slash, otherwise a name in the folders.
pub(crate) fn found_word<T: Tree>(
    alloc: Global,
    tree: &T,
    folders: &PathList,
    word: &[u8],
) -> Result<Found, AllocError>
    ensures { IfOk result (λ found. found ≡ found_word (T.state tree.now) folders.now word.now) }
{
    if word.first() == Some(&b'/') {
        return match read_path(alloc, word)? {
            Some(path) => Ok(found_at(tree, path)),
            None => Ok(Found::Missing),
        };
    }
    if is_name(word) {
        found_in(alloc, tree, folders, word)
    } else {
        Ok(Found::Missing)
    }
}
