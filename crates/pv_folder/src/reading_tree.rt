//! Reads the tree of a folder object by object, in the order of the paths.
ghost use Rattle.std.specs.Prelude.{◌≡◌, ◌≢◌, ◌≤◌, suc, ◌+◌, ◌⊎◌, ◌++◌, [], map, true, false, reverse, IfOk, IfErr, IfSome, IsErrOf, OnOk, None, Some};
ghost use Rattle.std.specs.FinMap as fin;
ghost use Rattle.std.specs.Ordering.{is_lt};
ghost use Rattle.pv_io.specs.Faults.{HasRisen};
ghost use Rattle.pv_path.specs.Names.{is_name};
ghost use Rattle.pv_path.specs.Paths.{parent_of, path_cmp};
ghost use Rattle.pv_steps.specs.declared.node.Kind.TheVariants as node;
ghost use Rattle.pv_steps.specs.Attributes.{are_bytes};
ghost use Rattle.pv_steps.specs.Objects.{IsObject, fresh};
ghost use Rattle.pv_steps.specs.Trees.{IsKind};
ghost use Rattle.pv_tree.specs.Held.{root_alone};
ghost use Rattle.pv_folder.specs.declared.item.HostKind.TheVariants as kind;
ghost use Rattle.pv_folder.specs.Lists.{is_ordered};
ghost use Rattle.pv_folder.specs.Content.{IsContent, IsDirectory, held, listing, spelled};
ghost use Rattle.pv_folder.specs.declared.open_fault.OpenFault.TheVariants.{HostFailed, TooLarge};
ghost use Rattle.pv_folder.specs.Folders.{real_in, tree_path};
ghost use Rattle.pv_folder.specs.Merge.{IsPlain};
ghost use Rattle.pv_folder.specs.Opening.{fault_among, is_outer, is_over, most_bytes, most_objects, objects_below, odd};
ghost use Rattle.pv_folder.specs.Reading.{found_below, found_in, items_of, path_of, seen_object, seen_size};

use crate::found::{Found, Seen, odd, push_found};
use crate::host::Host;
use crate::item::{HostKind, HostList};
use crate::looking::{items_at, look};
use crate::open_fault::OpenFault;
use pv_path::{Bytes, TreePath, child, is_name};
use pv_steps::{Kind, Object};
use pv_tree::{MemTree, TreeBuilder};
use std::alloc::{AllocError, Global};

/// The most objects below `tree`.
const MOST_OBJECTS: u64 = 1_000_000;

/// The most bytes that the files below `tree` may have together.
const MOST_BYTES: usize = 67_108_864;

/// How far the tree of a folder was read.
#[derive(Drop)]
struct Reading {
    /// What was read so far.
    builder: TreeBuilder,
    /// What listings have named and is still to be read. The next one is the last.
    pending: Vec<Found>,
    /// How many objects were read, and how many bytes their files had.
    objects: u64,
    bytes: usize,
}

/// Returns a directory of which nothing else is known.
fn directory_object(alloc: Global) -> Object
    ensures object { result ≡ fresh node.Directory 0o755 [] 0 0 0 }
    ensures whole { IsObject result }
{
    Object::fresh(alloc, Kind::Directory, 0o755, Bytes::new(alloc), 0, 0, 0)
}

/// Gives the proof of its caller the fact that the items of a slice are bytes. It does nothing when it runs.
fn are_bytes(bytes: &[u8])
    ensures { are_bytes bytes.now ≡ true }
{
    let _count = bytes.len();
}

/// Returns a file of which nothing but the bytes is known.
fn file_object(alloc: Global, bytes: Bytes) -> Object
    ensures object { result ≡ fresh node.File 0o644 bytes 0 0 0 }
    ensures whole { IsObject result }
{
    are_bytes(bytes.as_slice());
    Object::fresh(alloc, Kind::File, 0o644, bytes, 0, 0, 0)
}

/// Returns the number of bytes that were read of an object.
fn size_of(seen: &Seen) -> usize
    ensures size { result ≡ seen_size seen.now }
    ensures ordered { is_ordered (items_of seen.now) ≡ true }
{
    match seen {
        Seen::Directory(items) => {
            let _ordered = items.as_slice();
            0
        }
        Seen::File(bytes) => bytes.len(),
    }
}

/// Lists the objects in `tree`.
fn items_in_tree<H: Host>(alloc: Global, host: &mut H, folder: &[u8]) -> Result<HostList, OpenFault>
    requires { IfSome (H.content host.old) (λ c. IsDirectory (held c) (tree_path (spelled folder.now))) }
    ensures from_content { IfOk result (λ items. IfSome (H.content host.old) (λ c. listing c (tree_path (spelled folder.now)) ≡ Some items)) }
    ensures content { IfOk result (λ _. IfSome (H.content host.old) (λ c. IsContent (held c))) }
    ensures fault { IfErr result (λ fault. is_outer fault ≡ false → IfSome (H.content host.old) (λ _. ⊥)) }
    ensures kept { H.content host.new ≡ H.content host.old }
    ensures unasked { H.changes host.new ≡ H.changes host.old }
    ensures cause { IsErrOf result HostFailed → HasRisen (H.faults host.old) (H.faults host.new) }
    ensures never_falls { H.faults host.old ≤ H.faults host.new }
{
    match items_at(alloc, host, folder, &TreePath::root(alloc))? {
        Some(items) => Ok(items),
        None => Err(OpenFault::OddObject(Bytes::copy_of(alloc, b"/tree")?)),
    }
}

/// Returns the path of an object that was listed. It is an error if a tree cannot have the object.
fn enter(alloc: Global, found: &Found) -> Result<TreePath, OpenFault>
    ensures path { IfOk result (λ path. path ≡ path_of found.now) }
    ensures name { OnOk result (is_name found.now.name ≡ true) }
    ensures kind { OnOk result (found.now.kind ≢ kind.Other) }
    ensures odd { IfErr result (λ fault. is_outer fault ≡ false → fault ≡ odd (path_of found.now)) }
    ensures cause { IfErr result (λ fault. is_outer fault ≡ false → (found.now.kind ≡ kind.Other) ⊎ (is_name found.now.name ≡ false)) }
    ensures own { IsErrOf result HostFailed → ⊥ }
{
    if found.kind == HostKind::Other || !is_name(found.name.as_slice()) {
        return Err(odd(alloc, &found.directory, found.name.as_slice())?);
    }
    Ok(child(alloc, &found.directory, found.name.as_slice())?)
}

impl Reading {
    /// Begins with only a directory, which has these objects in it.
    fn of(alloc: Global, items: &HostList) -> Result<Reading, AllocError>
        ensures pending { IfOk result (λ reading. reading.pending.items ≡ reverse (map (found_in []) items.now)) }
        ensures ordered { is_ordered items.now ≡ true }
        ensures objects { IfOk result (λ reading. reading.objects ≡ 0) }
        ensures bytes { IfOk result (λ reading. reading.bytes ≡ 0) }
        ensures builder { IfOk result (λ reading. reading.builder ≡ record {
          files = root_alone (fresh node.Directory 0o755 [] 0 0 0).node;
          last = [];
        }) }
    {
        let root = TreePath::root(alloc);
        let mut pending = Vec::new(alloc);
        push_found(alloc, &mut pending, &root, items)?;
        Ok(Reading {
            builder: TreeBuilder::new(alloc, directory_object(alloc).node)?,
            pending,
            objects: 0,
            bytes: 0,
        })
    }

    /// Counts an object with so many bytes.
    fn count(&mut self, bytes: usize) -> Result<(), OpenFault>
        requires few { self.old.objects ≤ most_objects }
        requires within { self.old.bytes ≤ most_bytes }
        ensures ok { OnOk result (is_over (suc self.old.objects) (self.old.bytes + bytes) ≡ false) }
        ensures objects { OnOk result (self.new.objects ≡ suc self.old.objects) }
        ensures bytes { OnOk result (self.new.bytes ≡ self.old.bytes + bytes) }
        ensures builder { self.new.builder ≡ self.old.builder }
        ensures pending { self.new.pending ≡ self.old.pending }
        ensures over { IfErr result (λ fault. (fault ≡ TooLarge) × (is_over (suc self.old.objects) (self.old.bytes + bytes) ≡ true)) }
    {
        if self.objects >= MOST_OBJECTS || bytes > MOST_BYTES - self.bytes {
            return Err(OpenFault::TooLarge);
        }
        self.objects += 1;
        self.bytes += bytes;
        Ok(())
    }

    /// Adds the object that was read at a path, and goes on with what is in it.
    fn take(&mut self, alloc: Global, path: TreePath, seen: Seen) -> Result<(), AllocError>
        requires after { is_lt (path_cmp self.old.builder.last path) ≡ true }
        requires parent { IsKind node.Directory self.old.builder.files (parent_of path) }
        ensures builder { OnOk result (self.new.builder ≡ record { files = fin.insert self.old.builder.files path (seen_object seen); last = path }) }
        ensures pending { OnOk result (self.new.pending.items ≡ self.old.pending.items ++ reverse (found_below path seen)) }
        ensures ordered { is_ordered (items_of seen) ≡ true }
        ensures objects { self.new.objects ≡ self.old.objects }
        ensures bytes { self.new.bytes ≡ self.old.bytes }
    {
        match seen {
            Seen::Directory(items) => {
                push_found(alloc, &mut self.pending, &path, &items)?;
                self.builder.add_next(path, directory_object(alloc))
            }
            Seen::File(bytes) => self.builder.add_next(path, file_object(alloc, bytes)),
        }
    }
}

/// Reads the tree of the real objects in a folder.
pub(crate) fn read_tree<H: Host>(
    alloc: Global,
    host: &mut H,
    folder: &[u8],
) -> Result<MemTree, OpenFault>
    requires { IfSome (H.content host.old) (λ c. IsDirectory (held c) (tree_path (spelled folder.now))) }
    ensures sound { IfOk result (λ _. IfSome (H.content host.old) (λ c. fault_among 0 0 (objects_below (spelled folder.now) c) ≡ None)) }
    ensures real { IfOk result (λ tree. IfSome (H.content host.old) (λ c. tree.files ≡ real_in (spelled folder.now) c)) }
    ensures plain { IfOk result (λ tree. IsPlain tree.files) }
    ensures steps { IfOk result (λ tree. tree.steps ≡ []) }
    ensures fault { IfErr result (λ fault. is_outer fault ≡ false → IfSome (H.content host.old) (λ c.
        fault_among 0 0 (objects_below (spelled folder.now) c) ≡ Some fault)) }
    ensures kept { H.content host.new ≡ H.content host.old }
    ensures unasked { H.changes host.new ≡ H.changes host.old }
    ensures cause { IsErrOf result HostFailed → HasRisen (H.faults host.old) (H.faults host.new) }
    ensures never_falls { H.faults host.old ≤ H.faults host.new }
{
    let items = items_in_tree(alloc, host, folder)?;
    let mut reading = Reading::of(alloc, &items)?;
    while let Some(found) = reading.pending.pop() {
        let path = enter(alloc, &found)?;
        let room = MOST_BYTES - reading.bytes;
        let seen = look(alloc, host, folder, &found, &path, room)?;
        reading.count(size_of(&seen))?;
        reading.take(alloc, path, seen)?;
    }
    let Reading {
        builder,
        pending: _,
        objects: _,
        bytes: _,
    } = reading;
    Ok(builder.finish())
}
