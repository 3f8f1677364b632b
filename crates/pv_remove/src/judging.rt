//! The messages on the lines of a removal, and whether each line was carried out.
ghost use Rattle.std.specs.Prelude.{◌≡◌, ◌||◌, ◌&&◌, not, ◌++◌, ◌<◌, ◌^◌, [], ◌∷◌, List, length, map, is_some, if◌then◌else◌, IfOk, OnOk};
ghost use Rattle.std.specs.List.{AllByRecursion, flat_map, list_any};
ghost use Rattle.pv_lines.specs.Lines.{IsLine};
ghost use Rattle.pv_lines.specs.declared.line.Line.{Line as LineValue};
ghost use Rattle.pv_path.specs.Paths.{Path};
ghost use Rattle.pv_steps.specs.Trees.{places, kind_of};
ghost use Rattle.pv_text.specs.GivenMessages.{message_text_at};
ghost use Rattle.pv_walk.specs.Removal.{is_one_of};
ghost use Rattle.pv_table.specs.Reaching.{path_in};
ghost use Rattle.pv_table.specs.Removed.{is_directory_at, is_gone, is_unfinished, judged, keeps, left_kind, not_empty, refused_place, removal_texts, removed_messages, unrefused_texts};

use crate::covering::refusal;
use pv_lines::Line;
use pv_path::{TreePath, print_path};
use pv_steps::{Kind, Tree, is_directory, kind_at};
use pv_table::{Taking, named_paths, path_of, say_left, say_refused, taking_of};
use pv_text::{Messages, Place};
use pv_walk::PathSet;
use std::alloc::{AllocError, Global};

/// Adds the messages of the phase in listing order, and returns whether something is left unfinished.
pub(crate) fn judge<T: Tree>(
    alloc: Global,
    tree: &T,
    lines: &[Line],
    gone: &PathSet,
    new_messages: &mut Messages,
) -> Result<bool, AllocError>
    requires lines { AllByRecursion IsLine lines.now }
    requires gone { (q : Path) → is_one_of gone.now q ≡ is_gone lines.now (T.state tree.now) q }
    ensures new_messages { OnOk result (new_messages.new ≡ new_messages.old ++ removed_messages lines.now (T.state tree.now)) }
    ensures unfinished { IfOk result (λ unfinished. unfinished ≡ is_unfinished lines.now (T.state tree.now)) }
{
    let mut unfinished = false;
    for line in lines {
        unfinished |= judge_line(alloc, tree, line, gone, new_messages)?;
    }
    Ok(unfinished)
}

/// Adds the messages of one line, and returns whether the line is unfinished at some path.
fn judge_line<T: Tree>(
    alloc: Global,
    tree: &T,
    line: &Line,
    gone: &PathSet,
    new_messages: &mut Messages,
) -> Result<bool, AllocError>
    requires line { IsLine line.now }
    ensures new_messages { (lines : List LineValue) → ((q : Path) → is_one_of gone.now q ≡ is_gone lines (T.state tree.now) q)
        → OnOk result (new_messages.new ≡ new_messages.old ++ map (message_text_at line.now.place)
        (flat_map (removal_texts lines line.now (T.state tree.now)) (judged line.now (T.state tree.now)))) }
    ensures unfinished { (lines : List LineValue) → ((q : Path) → is_one_of gone.now q ≡ is_gone lines (T.state tree.now) q)
        → IfOk result (λ unfinished. unfinished ≡ list_any (λ path. is_some (refused_place line.now (places (T.state tree.now)) path)
        || keeps lines line.now (T.state tree.now) path) (judged line.now (T.state tree.now))) }
{
    let paths = judged_paths(alloc, tree, line)?;
    let mut unfinished = false;
    for path in &paths {
        unfinished |= judge_path(alloc, tree, line, path, gone, new_messages)?;
    }
    Ok(unfinished)
}

/// Returns the paths at which a line is judged.
fn judged_paths<T: Tree>(alloc: Global, tree: &T, line: &Line) -> Result<Vec<TreePath>, AllocError>
    ensures { IfOk result (λ paths. paths.items ≡ judged line.now (T.state tree.now)) }
{
    match taking_of(line) {
        Taking::Nothing => Ok(Vec::new(alloc)),
        Taking::Contents => own_path(alloc, line),
        Taking::Itself | Taking::Whole => named_paths(alloc, tree, line),
    }
}

/// Returns the path of a line that names one path, as the only one.
fn own_path(alloc: Global, line: &Line) -> Result<Vec<TreePath>, AllocError>
    ensures { IfOk result (λ paths. paths.items ≡ path_in line.now.path ∷ []) }
{
    let path = path_of(alloc, line)?;
    let mut paths = Vec::new(alloc);
    paths.push(path)?;
    Ok(paths)
}

/// Adds the message of a line at one path, if there is one, and returns whether the line is unfinished there.
fn judge_path<T: Tree>(
    alloc: Global,
    tree: &T,
    line: &Line,
    path: &TreePath,
    gone: &PathSet,
    new_messages: &mut Messages,
) -> Result<bool, AllocError>
    requires { length path.now < 2 ^ 32 }
    ensures new_messages { (lines : List LineValue) → ((q : Path) → is_one_of gone.now q ≡ is_gone lines (T.state tree.now) q)
        → OnOk result (new_messages.new ≡ new_messages.old ++ map (message_text_at line.now.place) (removal_texts lines line.now (T.state tree.now) path.now)) }
    ensures unfinished { (lines : List LineValue) → ((q : Path) → is_one_of gone.now q ≡ is_gone lines (T.state tree.now) q)
        → IfOk result (λ unfinished. unfinished ≡ (is_some (refused_place line.now (places (T.state tree.now)) path.now)
        || keeps lines line.now (T.state tree.now) path.now)) }
{
    match refusal(alloc, tree, line, path)? {
        Some((place, why)) => {
            say_refused(alloc, &line.place, path, place, why, new_messages)?;
            Ok(true)
        }
        None => judge_unrefused(alloc, tree, line, path, gone, new_messages),
    }
}

/// Adds the message of a line at a path at which it is not refused, and returns whether the line keeps a directory
/// there.
fn judge_unrefused<T: Tree>(
    alloc: Global,
    tree: &T,
    line: &Line,
    path: &TreePath,
    gone: &PathSet,
    new_messages: &mut Messages,
) -> Result<bool, AllocError>
    ensures new_messages { (lines : List LineValue) → ((q : Path) → is_one_of gone.now q ≡ is_gone lines (T.state tree.now) q)
        → OnOk result (new_messages.new ≡ new_messages.old ++ map (message_text_at line.now.place) (unrefused_texts lines line.now (T.state tree.now) path.now)) }
    ensures unfinished { (lines : List LineValue) → ((q : Path) → is_one_of gone.now q ≡ is_gone lines (T.state tree.now) q)
        → IfOk result (λ unfinished. unfinished ≡ keeps lines line.now (T.state tree.now) path.now) }
{
    match taking_of(line) {
        Taking::Itself => say_kept(alloc, tree, &line.place, path, gone, new_messages),
        Taking::Contents => {
            say_left_kind(alloc, tree, &line.place, path, new_messages)?;
            Ok(false)
        }
        Taking::Whole | Taking::Nothing => Ok(false),
    }
}

/// Adds the message that a directory is not empty, if there is one at the path that does not go.
fn say_kept<T: Tree>(
    alloc: Global,
    tree: &T,
    place: &Place,
    path: &TreePath,
    gone: &PathSet,
    new_messages: &mut Messages,
) -> Result<bool, AllocError>
    ensures new_messages { OnOk result (new_messages.new ≡ new_messages.old ++ map (message_text_at place.now)
        (if is_directory_at (places (T.state tree.now)) path.now && not (is_one_of gone.now path.now) then not_empty path.now ∷ [] else [])) }
    ensures kept { IfOk result (λ kept. kept
        ≡ (is_directory_at (places (T.state tree.now)) path.now && not (is_one_of gone.now path.now))) }
{
    if !is_directory(tree, path) || gone.contains(path) {
        return Ok(false);
    }
    new_messages.push_at(place, &not_empty(alloc, path)?)?;
    Ok(true)
}

/// Returns the text `PATH is not empty`.
fn not_empty(alloc: Global, path: &TreePath) -> Result<Vec<u8>, AllocError>
    ensures { IfOk result (λ text. text.items ≡ not_empty path.now) }
{
    let mut text = print_path(alloc, path)?;
    text.extend_from_slice(b" is not empty")?;
    Ok(text)
}

/// Adds the message that an object that is not a directory is left.
fn say_left_kind<T: Tree>(
    alloc: Global,
    tree: &T,
    place: &Place,
    path: &TreePath,
    new_messages: &mut Messages,
) -> Result<(), AllocError>
    ensures { OnOk result (new_messages.new ≡ new_messages.old ++ map (message_text_at place.now)
        (left_kind path.now (kind_of (places (T.state tree.now) path.now)))) }
{
    match kind_at(tree, path) {
        None | Some(Kind::Directory) => Ok(()),
        Some(kind) => say_left(alloc, place, path, kind, new_messages),
    }
}
