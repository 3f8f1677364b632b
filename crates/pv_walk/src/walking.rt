//! Walks along a path from the root.
//!
//! A component is given by the number of names that lead to it: 0 is the root, and 2 is the component `/run/app` of
//! `/run/app/x`.
ghost use Rattle.std.specs.Prelude.{◌≡◌, ◌<◌, ◌≤◌, ◌^◌, [], ◌∷◌, ◌++◌, length, slice_get, IfOk, OnOk};
ghost use Rattle.std.specs.Option.{option_copied, option_or};
ghost use Rattle.pv_steps.specs.Trees.{places, IsTree};
ghost use Rattle.pv_steps.specs.Refusal.{refusal, why_unsafe};
ghost use Rattle.pv_walk.specs.Walking.{walked, unrefused, first_unsafe_component};
ghost use Rattle.pv_walk.specs.Seeing.{seen_node, seen_kind, seen_owner, why_owner, if_absent};

use pv_path::{Name, TreePath};
use pv_steps::{Kind, Node, Tree, Why};
use std::alloc::{AllocError, Global};

/// What a walk along a path found. A component is given by the number of names that lead to it, so 0 is the root.
#[derive(Clone, Copy, PartialEq, Eq)]
pub enum Walked {
    /// All components are present, and none is refused.
    Present,
    /// This is the first component that is absent, and none is refused.
    Absent(u32),
    /// The path is refused at this component, for this reason. It is the first one that is refused.
    Refused(u32, Why),
}

/// What a walk looks at of an object.
#[derive(Clone, Copy)]
struct Seen {
    kind: Kind,
    owner: u32,
}

/// Walks along a path from the root, as creating lines do (tmpfiles.d(5) on unsafe path transitions).
///
/// The answer is the first component at which the path is refused. If no component is refused, the answer is the first
/// absent component. If none is absent either, the answer says that all are present.
///
/// - A component before the last one is refused if it is a symbolic link, or is present and not a directory.
/// - A component is refused if the directory above it does not belong to root, and the component belongs to a user
///   other than the owner of that directory.
/// - An absent last component counts as owned by `made`, the user ID that a new object there is to get. Any other
///   absent component counts as owned by root.
///
/// For example, let `/run/app` be a link, and let everything belong to root. Then the answer for `/run/app/x` is
/// `Refused(2, Why::Link)`.
///
/// The path must have fewer than 2^32 names. The only error is `AllocError`.
pub fn walk<T: Tree>(
    alloc: Global,
    tree: &T,
    path: &TreePath,
    made: u32,
) -> Result<Walked, AllocError>
    requires { length path.now < 2 ^ 32 }
    ensures walked { IfOk result (λ w. w ≡ walked (places (T.state tree.now)) path.now made) }
    ensures tree { IsTree (T.state tree.now) }
{
    let nodes = tree.look_along(alloc, path)?;
    let mut above = 0;
    let mut absent = None;
    for k in 0..path.len() {
        let place = seen_in(&nodes, k);
        let owner = owner_of(place, 0);
        if let Some(why) = why_above(place, above, owner) {
            return Ok(Walked::Refused(k as u32, why));
        }
        absent = or_absent(absent, place, k as u32);
        above = owner;
    }
    let last = path.len();
    let place = seen_in(&nodes, last);
    match why_owner(above, owner_of(place, made)) {
        Some(why) => Ok(Walked::Refused(last as u32, why)),
        None => Ok(end_of(or_absent(absent, place, last as u32))),
    }
}

/// Returns the first component at which `walk` refuses the path, with the reason, or `None` if the path is not
/// refused.
///
/// The component is given by the number of names that lead to it. The user ID `made` is that of `walk`. The path must
/// have fewer than 2^32 names. The only error is `AllocError`.
pub fn refusal_of<T: Tree>(
    alloc: Global,
    tree: &T,
    path: &TreePath,
    made: u32,
) -> Result<Option<(u32, Why)>, AllocError>
    requires { length path.now < 2 ^ 32 }
    ensures refusal { IfOk result (λ place. place ≡ refusal (places (T.state tree.now)) path.now made) }
    ensures tree { IsTree (T.state tree.now) }
{
    match walk(alloc, tree, path, made)? {
        Walked::Refused(place, why) => Ok(Some((place, why))),
        Walked::Present | Walked::Absent(_) => Ok(None),
    }
}

/// Returns the first component before the last one that is a link, or is present and not a directory. Gives `None`
/// if there is none.
///
/// The component is given by the number of names that lead to it, with the reason. Owners do not count. The path must
/// have fewer than 2^32 names. The only error is `AllocError`.
pub fn unsafe_component<T: Tree>(
    alloc: Global,
    tree: &T,
    path: &TreePath,
) -> Result<Option<(u32, Why)>, AllocError>
    requires { length path.now < 2 ^ 32 }
    ensures place { IfOk result (λ place. place ≡ first_unsafe_component (places (T.state tree.now)) path.now) }
    ensures tree { IsTree (T.state tree.now) }
{
    let nodes = tree.look_along(alloc, path)?;
    for k in 0..path.len() {
        if let Some(why) = why_passed(seen_in(&nodes, k)) {
            return Ok(Some((k as u32, why)));
        }
    }
    Ok(None)
}

/// Goes one name further down.
pub(crate) fn go_down(place: &mut TreePath, name: &Name) -> Result<(), AllocError>
    ensures { OnOk result (place.new ≡ place.old ++ name.now ∷ []) }
{
    place.push(name.copy()?)
}

/// Returns the kind and the owner of the node at an index, or `None` past the last node.
fn seen_in(nodes: &[&Node], k: usize) -> Option<Seen>
    ensures { result ≡ seen_node (option_copied (slice_get nodes.now k)) }
{
    match nodes.get(k) {
        Some(node) => Some(Seen {
            kind: node.kind,
            owner: node.uid,
        }),
        None => None,
    }
}

/// Returns the owner of a component, or the one that it counts as owned by if it is absent.
fn owner_of(place: Option<Seen>, absent: u32) -> u32
    ensures { result ≡ seen_owner place absent }
{
    match place {
        Some(seen) => seen.owner,
        None => absent,
    }
}

/// Returns the reason to refuse a component before the last one: first for its kind, then for its owner.
fn why_above(place: Option<Seen>, above: u32, owner: u32) -> Option<Why>
    ensures { result ≡ option_or (why_unsafe (seen_kind place)) (why_owner above owner) }
{
    match why_passed(place) {
        Some(why) => Some(why),
        None => why_owner(above, owner),
    }
}

/// Returns the reason why a component before the last one cannot be passed because of its kind.
fn why_passed(place: Option<Seen>) -> Option<Why>
    ensures { result ≡ why_unsafe (seen_kind place) }
{
    match place {
        None => None,
        Some(seen) => match seen.kind {
            Kind::Directory => None,
            Kind::Link => Some(Why::Link),
            Kind::File => Some(Why::NotDirectory),
            Kind::Fifo => Some(Why::NotDirectory),
            Kind::CharDevice => Some(Why::NotDirectory),
            Kind::BlockDevice => Some(Why::NotDirectory),
        },
    }
}

/// Returns the reason to refuse a component for its owner, given the owner of the directory above it.
fn why_owner(above: u32, owner: u32) -> Option<Why>
    ensures { result ≡ why_owner above owner }
{
    if above != 0 && owner != above {
        Some(Why::UnsafeOwner)
    } else {
        None
    }
}

/// Returns the first absent component so far.
fn or_absent(absent: Option<u32>, place: Option<Seen>, k: u32) -> Option<u32>
    ensures { result ≡ option_or absent (if_absent place k) }
{
    match absent {
        Some(first) => Some(first),
        None => match place {
            Some(_) => None,
            None => Some(k),
        },
    }
}

/// Returns the answer for a path that is not refused.
fn end_of(absent: Option<u32>) -> Walked
    ensures { result ≡ unrefused absent }
{
    match absent {
        Some(k) => Walked::Absent(k),
        None => Walked::Present,
    }
}
