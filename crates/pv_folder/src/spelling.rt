//! Turns paths of a host into paths of a tree.
ghost use Rattle.std.specs.Prelude.{◌≡◌, ◌++◌, ◌∷◌, [], true, false, length, nat_lt, Ok, None, IfOk, IfSome, OnOk, IsErr};
ghost use Rattle.pv_path.specs.Paths.{has_names};
ghost use Rattle.pv_folder.specs.Content.{names_among, spelled};

use pv_path::{Name, TreePath, is_name, pieces_of};
use std::alloc::{AllocError, Global};

/// Returns the path that bytes spell, or `None` if it has a name that a tree cannot have.
pub(crate) fn path_of(alloc: Global, bytes: &[u8]) -> Result<Option<TreePath>, AllocError>
    ensures path { IfOk result (λ path. IfSome path (λ p. p ≡ spelled bytes.now)) }
    ensures none { result ≡ Ok None → has_names (spelled bytes.now) ≡ false }
{
    let mut path = TreePath::root(alloc);
    let pieces = pieces_of(alloc, bytes, b'/')?;
    for piece in &pieces {
        if !add_piece(alloc, &mut path, piece)? {
            return Ok(None);
        }
    }
    Ok(Some(path))
}

/// Appends what is between two slashes to a path, and tells whether a tree can have it. An empty piece adds
/// nothing.
fn add_piece(alloc: Global, path: &mut TreePath, piece: &[u8]) -> Result<bool, AllocError>
    ensures added { IfOk result (λ fits. fits ≡ true → path.new ≡ path.old ++ names_among (piece.now ∷ [])) }
    ensures unfit { IfOk result (λ fits. fits ≡ false → has_names (names_among (piece.now ∷ [])) ≡ false) }
{
    if piece.is_empty() {
        return Ok(true);
    }
    if !is_name(piece) {
        return Ok(false);
    }
    path.push(Name::of(alloc, piece)?)?;
    Ok(true)
}
