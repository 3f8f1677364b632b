//! Steps as lines of text, and when one may be done.
ghost use Rattle.std.specs.Prelude.{◌≡◌, [], true, IsTrue};
ghost use Rattle.std.specs.List.{list_all};
ghost use Rattle.pv_path.specs.Paths.{parent_of};
ghost use Rattle.pv_acl.specs.NamedEntries.{id_of, is_named};
ghost use Rattle.pv_acl.specs.Parts.{is_acl, is_part};
ghost use Rattle.pv_steps.specs.declared.node.Kind.TheVariants.{Directory};
ghost use Rattle.pv_steps.specs.Trees.{places, names_below, IsEmptyIn, IsKindIn};
ghost use Rattle.pv_steps.specs.Steps.{Can, HasRoom, IsOther, Movable, TakesAcl, Yields};

use pv_acl::{Acl, Named, Part, Who, number, read_acl};
use pv_path::{Bytes, TreePath, is_prefix, parent, parse_path};
use pv_steps::{AttrList, Kind, Step, Tree, TreeFault, is_directory, is_target, kind_at};
use std::alloc::Global;
use std::process::Abort;
use test_sheet::{attrs_of, letters_of};

pub(crate) fn path_of(rt: &impl Abort, alloc: Global, text: &[u8]) -> TreePath {
    parse_path(alloc, text).expect(rt, "a path")
}

pub(crate) fn bytes_of(rt: &impl Abort, alloc: Global, text: &[u8]) -> Bytes {
    Bytes::copy_of(alloc, text).expect(rt, "memory")
}

/// The texts between the places of a byte.
pub(crate) fn pieces_of<'a>(
    rt: &impl Abort,
    alloc: Global,
    text: &'a [u8],
    byte: u8,
) -> Vec<&'a [u8]> {
    text.split(|b| *b == byte)
        .collect(alloc)
        .expect(rt, "memory")
}

fn number_of(rt: &impl Abort, text: &[u8]) -> u64 {
    number(text).expect(rt, "a number")
}

/// A number of 32 bits.
fn id_number(rt: &impl Abort, text: &[u8]) -> u32 {
    match number(text) {
        Some(n) if n <= 4_294_967_295 => n as u32,
        _ => panic!(rt; "no number of 32 bits"),
    }
}

/// The mode that four octal digits spell.
fn mode_of(rt: &impl Abort, text: &[u8]) -> u16 {
    let mut mode = 0;
    for digit in text {
        assert!(rt; matches!(*digit, b'0'..=b'7') && mode < 512);
        mode = mode * 8 + u16::from(*digit - b'0');
    }
    mode
}

/// The ACL that a field spells beside a mode.
pub(crate) fn acl_of(rt: &impl Abort, alloc: Global, mode: u16, field: &[u8]) -> Acl
    ensures { is_acl result ≡ true }
{
    match read_acl(alloc, field, mode, true).expect(rt, "memory") {
        Some(acl) => acl,
        None => panic!(rt; "no ACL"),
    }
}

/// The attributes of some rows, put in turn.
pub(crate) fn attrs_in(rt: &impl Abort, alloc: Global, rows: &[(&[u8], &[u8])]) -> AttrList {
    attrs_of(alloc, rows).expect(rt, "memory")
}

/// A step at a path alone.
fn step_at(rt: &impl Abort, what: &[u8], path: TreePath) -> Step {
    match what {
        b"mkdir" => Step::MakeDir { path },
        b"mkfile" => Step::MakeFile { path },
        b"mkfifo" => Step::MakeFifo { path },
        b"unlink" => Step::Unlink { path },
        b"rmdir" => Step::RemoveDir { path },
        _ => panic!(rt; "no step"),
    }
}

/// A step at a path with one word more.
fn step_with(rt: &impl Abort, alloc: Global, what: &[u8], path: TreePath, word: &[u8]) -> Step {
    match what {
        b"symlink" => Step::MakeLink {
            path,
            target: bytes_of(rt, alloc, word),
        },
        b"write" => Step::Write {
            path,
            content: bytes_of(rt, alloc, word),
        },
        b"mknod" => Step::MakeDevice {
            path,
            block: word == b"b".as_slice(),
            major: 8,
            minor: 17,
        },
        b"chmod" => Step::SetMode {
            path,
            mode: mode_of(rt, word),
        },
        b"chattr" => Step::SetLetters {
            path,
            letters: letters_of(word),
        },
        b"rename" => Step::Rename {
            from: path,
            to: path_of(rt, alloc, word),
        },
        _ => panic!(rt; "no step"),
    }
}

/// A step at a path with two words more.
fn step_with_two(
    rt: &impl Abort,
    alloc: Global,
    what: &[u8],
    path: TreePath,
    first: &[u8],
    second: &[u8],
) -> Step {
    match what {
        b"chown" => Step::SetOwner {
            path,
            uid: id_number(rt, first),
            gid: id_number(rt, second),
        },
        b"utime" => Step::SetStamps {
            path,
            access: number_of(rt, first),
            modify: number_of(rt, second),
        },
        b"setfacl" => Step::SetAcl {
            path,
            acl: acl_of(rt, alloc, mode_of(rt, first), second),
        },
        b"setfattr" => Step::SetAttrs {
            path,
            attrs: attrs_in(rt, alloc, &[(first, second)]),
        },
        _ => panic!(rt; "no step"),
    }
}

/// The step that words name: what is done, the path, and up to two words more.
pub(crate) fn step_of(rt: &impl Abort, alloc: Global, words: &[&[u8]]) -> Step {
    match words {
        [what, path] => step_at(rt, what, path_of(rt, alloc, path)),
        [what, path, word] => step_with(rt, alloc, what, path_of(rt, alloc, path), word),
        [what, path, first, second] => {
            step_with_two(rt, alloc, what, path_of(rt, alloc, path), first, second)
        }
        _ => panic!(rt; "no step"),
    }
}

/// Whether an object of a kind stands at a path.
pub(crate) fn is_kind<T: Tree>(tree: &T, path: &TreePath, kind: Kind) -> bool
    ensures { IsTrue result → IsKindIn kind (places (T.state tree.now)) path.now }
{
    match kind_at(tree, path) {
        Some(other) => other == kind,
        None => false,
    }
}

/// Whether an object of another kind stands at a path.
fn is_other<T: Tree>(tree: &T, path: &TreePath, kind: Kind) -> bool
    ensures { IsTrue result → IsOther kind (places (T.state tree.now)) path.now }
{
    match kind_at(tree, path) {
        Some(other) => other != kind,
        None => false,
    }
}

/// Whether a path lies in a directory.
pub(crate) fn has_parent<T: Tree>(rt: &impl Abort, alloc: Global, tree: &T, path: &TreePath) -> bool
    ensures { IsTrue result → IsKindIn Directory (places (T.state tree.now)) (parent_of path.now) }
{
    match parent(alloc, path).expect(rt, "memory") {
        Some(up) => is_directory(tree, &up),
        None => false,
    }
}

/// Whether there is room for a new object at a path.
pub(crate) fn has_room<T: Tree>(rt: &impl Abort, alloc: Global, tree: &T, path: &TreePath) -> bool
    ensures { IsTrue result → HasRoom (places (T.state tree.now)) path.now }
{
    kind_at(tree, path).is_none() && has_parent(rt, alloc, tree, path)
}

/// Whether an empty directory stands at a path.
fn is_empty_directory<T: Tree>(rt: &impl Abort, alloc: Global, tree: &T, path: &TreePath) -> bool
    ensures kind { IsTrue result → IsKindIn Directory (places (T.state tree.now)) path.now }
    ensures empty { IsTrue result → IsEmptyIn (places (T.state tree.now)) path.now }
{
    if !is_directory(tree, path) {
        return false;
    }
    has_no_names(rt, alloc, tree, path)
}

/// Whether there are no names in a directory.
fn has_no_names<T: Tree>(rt: &impl Abort, alloc: Global, tree: &T, path: &TreePath) -> bool
    requires { IsKindIn Directory (places (T.state tree.now)) path.now }
    ensures { IsTrue result → names_below (T.state tree.now) path.now ≡ [] }
{
    let names = tree.list(alloc, path).expect(rt, "memory");
    names.is_empty()
}

/// The ID of a user or a group.
fn number_who(who: Who) -> u32
    ensures { result ≡ id_of who }
{
    match who {
        Who::User(id) => id,
        Who::Group(id) => id,
    }
}

fn is_named(named: &Named) -> bool
    ensures { result ≡ is_named named.now }
{
    number_who(named.who) <= 4_294_967_294 && named.perm.bits <= 7
}

fn are_named(named: &[Named]) -> bool
    ensures { result ≡ list_all is_named named.now }
{
    named.iter().all(|x| is_named(x))
}

fn is_part(part: &Part) -> bool
    ensures { IsTrue result → is_part part.now ≡ true }
{
    let named = are_named(part.named.as_slice());
    let mask = match &part.mask {
        Some(mask) => mask.bits <= 7,
        None => true,
    };
    part.owner.bits <= 7 && part.group.bits <= 7 && part.other.bits <= 7 && named && mask
}

fn is_acl(acl: &Acl) -> bool
    ensures { IsTrue result → is_acl acl.now ≡ true }
{
    match &acl.default_part {
        Some(part) => is_part(&acl.access) && is_part(part),
        None => is_part(&acl.access),
    }
}

/// Whether the object at a path may have an ACL.
fn takes_acl<T: Tree>(tree: &T, path: &TreePath, acl: &Acl) -> bool
    ensures { IsTrue result → TakesAcl (places (T.state tree.now)) path.now acl.now }
{
    match &acl.default_part {
        Some(_) => is_directory(tree, path),
        None => true,
    }
}

/// Whether the object at a path may be renamed to another path.
fn yields<T: Tree>(rt: &impl Abort, alloc: Global, tree: &T, from: &TreePath, to: &TreePath) -> bool
    ensures { IsTrue result → Yields (places (T.state tree.now)) from.now to.now }
{
    if kind_at(tree, to).is_none() {
        return true;
    }
    if is_other(tree, from, Kind::Directory) {
        return is_other(tree, to, Kind::Directory);
    }
    is_directory(tree, from) && is_empty_directory(rt, alloc, tree, to)
}

/// Whether a path may be renamed.
fn is_movable<T: Tree>(
    rt: &impl Abort,
    alloc: Global,
    tree: &T,
    from: &TreePath,
    to: &TreePath,
) -> bool
    ensures { IsTrue result → Movable (places (T.state tree.now)) from.now to.now }
{
    kind_at(tree, from).is_some()
        && !from.is_empty()
        && !is_prefix(from, to)
        && has_parent(rt, alloc, tree, to)
        && yields(rt, alloc, tree, from, to)
}

/// Whether a step may be done.
pub(crate) fn can<T: Tree>(rt: &impl Abort, alloc: Global, tree: &T, step: &Step) -> bool
    ensures { IsTrue result → Can (places (T.state tree.now)) step.now }
{
    match step {
        Step::MakeDir { path } => has_room(rt, alloc, tree, path),
        Step::MakeFile { path } => has_room(rt, alloc, tree, path),
        Step::MakeFifo { path } => has_room(rt, alloc, tree, path),
        Step::MakeDevice { path, .. } => has_room(rt, alloc, tree, path),
        Step::MakeLink { path, target } => {
            is_target(target.as_slice()) && has_room(rt, alloc, tree, path)
        }
        Step::Write { path, .. } => is_kind(tree, path, Kind::File),
        Step::SetMode { path, mode } => is_other(tree, path, Kind::Link) && *mode <= 4095,
        Step::SetOwner { path, uid, gid } => {
            kind_at(tree, path).is_some() && *uid < u32::MAX && *gid < u32::MAX
        }
        Step::SetAcl { path, acl } => {
            is_other(tree, path, Kind::Link) && takes_acl(tree, path, acl) && is_acl(acl)
        }
        Step::SetAttrs { path, attrs } => {
            let _allowed = attrs.as_slice();
            is_other(tree, path, Kind::Link)
        }
        Step::SetLetters { path, .. } => {
            is_kind(tree, path, Kind::File) || is_directory(tree, path)
        }
        Step::SetStamps { path, .. } => kind_at(tree, path).is_some(),
        Step::Rename { from, to } => is_movable(rt, alloc, tree, from, to),
        Step::Unlink { path } => is_other(tree, path, Kind::Directory),
        Step::RemoveDir { path } => {
            !path.is_empty() && is_empty_directory(rt, alloc, tree, path)
        }
    }
}

/// Does a step at a moment. Stops where it may not be done.
fn do_step<T: Tree>(
    rt: &impl Abort,
    alloc: Global,
    tree: &mut T,
    step: Step,
    now: u64,
) -> Result<(), TreeFault> {
    assert!(rt; can(rt, alloc, tree, &step));
    tree.step(&step, now)
}

/// Does the step of a line: the moment, what is done, the path, and up to two words more, with one space
/// between them. Stops where the step may not be done.
pub(crate) fn perform<T: Tree>(
    rt: &impl Abort,
    alloc: Global,
    tree: &mut T,
    line: &[u8],
) -> Result<(), TreeFault> {
    let words = pieces_of(rt, alloc, line, b' ');
    assert!(rt; !words.is_empty());
    let now = number_of(rt, words[0]);
    let step = step_of(rt, alloc, &words[1..]);
    do_step(rt, alloc, tree, step, now)
}
