//! Does operations on one object.
ghost use Rattle.std.specs.Prelude.{◌≡◌, ◌++◌, IfOk, OnOk};
ghost use Rattle.pv_walk.specs.Nodes.{carries_letters, is_file, is_link, same_kind, same_substance};
ghost use Rattle.pv_walk.specs.Operations.{admits, stays, changed, done, run};
ghost use Rattle.pv_walk.specs.declared.operation.Operation.TheVariants.{Make, Renew, Apply};
ghost use Rattle.pv_walk.specs.declared.operation.Change.TheVariants.{Write, Append, Owner, Mode, Entries, Attrs, Letters};

use crate::mask::{masked_special, set_masked_base};
use crate::object_state::{Body, ObjectState};
use crate::operation::{Change, Guard, Operation, Test};
use pv_acl::{AclLine, How, apply_entries};
use pv_path::Bytes;
use pv_steps::{AttrList, Kind, LetterHow, LetterSet, special_bits};
use std::alloc::{AllocError, Global};

/// Returns the object that results when operations are done in order on an object that may be absent.
///
/// `None` means that the object is absent, before the operations or after them. The only error is `AllocError`.
pub fn run_operations(
    alloc: Global,
    operations: &[Operation],
    old: Option<ObjectState>,
) -> Result<Option<ObjectState>, AllocError>
    ensures { IfOk result (λ new. new ≡ run operations.now old) }
{
    let mut object_state = old;
    for operation in operations {
        object_state = done(alloc, operation, object_state)?;
    }
    Ok(object_state)
}

/// Returns what one operation makes of an object that may be absent.
fn done(
    alloc: Global,
    operation: &Operation,
    old: Option<ObjectState>,
) -> Result<Option<ObjectState>, AllocError>
    ensures { IfOk result (λ new. new ≡ done operation.now old) }
{
    match operation {
        Operation::Make(new) => made(new, old),
        Operation::Renew { test, new } => renewed(*test, new, old),
        Operation::Erase => Ok(None),
        Operation::Apply { guard, change } => adjusted(alloc, *guard, change, old),
    }
}

/// Returns the object that is there, or the new one if there is none.
fn made(new: &ObjectState, old: Option<ObjectState>) -> Result<Option<ObjectState>, AllocError>
    ensures { IfOk result (λ object_state. object_state ≡ done (Make new.now) old) }
{
    match old {
        Some(object_state) => Ok(Some(object_state)),
        None => Ok(Some(new.copy()?)),
    }
}

/// Returns the object that is there if it stays, otherwise the new one.
fn renewed(
    test: Test,
    new: &ObjectState,
    old: Option<ObjectState>,
) -> Result<Option<ObjectState>, AllocError>
    ensures { IfOk result (λ object_state. object_state ≡ done (Renew test new.now) old) }
{
    made(
        new,
        old.filter(|object_state| stays(test, &new.body, &object_state.body)),
    )
}

/// Returns an object that may be absent after a change, if the change is for it.
fn adjusted(
    alloc: Global,
    guard: Guard,
    change: &Change,
    old: Option<ObjectState>,
) -> Result<Option<ObjectState>, AllocError>
    ensures { IfOk result (λ new. new ≡ done (Apply guard change.now) old) }
{
    match old {
        Some(object_state) if admits(guard, object_state.body.kind) => Ok(Some(changed(
            alloc,
            change,
            object_state,
        )?)),
        other => Ok(other),
    }
}

/// Returns an object after a change.
fn changed(alloc: Global, change: &Change, old: ObjectState) -> Result<ObjectState, AllocError>
    ensures { IfOk result (λ new. new ≡ changed old.body.kind change.now old) }
{
    let mut object_state = old;
    change_object(alloc, change, &mut object_state)?;
    Ok(object_state)
}

/// Changes an object. Only a file has bytes, only a directory has a default ACL, a link has no extended attributes,
/// and only files and directories have flags.
fn change_object(
    alloc: Global,
    change: &Change,
    object_state: &mut ObjectState,
) -> Result<(), AllocError>
    ensures { OnOk result (object_state.new ≡ changed object_state.old.body.kind change.now object_state.old) }
{
    match change {
        Change::Write(bytes) => write(object_state, bytes)?,
        Change::Append(bytes) => append(object_state, bytes)?,
        Change::Owner { uid, gid } => set_owner(object_state, *uid, *gid),
        Change::Mode { mode, masked } => set_mode(object_state, *mode, *masked),
        Change::Entries { line, how } => apply_line(alloc, object_state, line, *how)?,
        Change::Attrs(attrs) => put_attrs(object_state, attrs)?,
        Change::Letters { how, letters } => change_letters(object_state, *how, *letters),
    }
    Ok(())
}

/// Replaces the bytes of a file.
fn write(object_state: &mut ObjectState, bytes: &Bytes) -> Result<(), AllocError>
    ensures { OnOk result (object_state.new ≡ changed object_state.old.body.kind (Write bytes.now) object_state.old) }
{
    if is_file(object_state.body.kind) {
        object_state.body.payload = bytes.copy()?;
    }
    Ok(())
}

/// Appends bytes to a file.
fn append(object_state: &mut ObjectState, bytes: &Bytes) -> Result<(), AllocError>
    ensures { OnOk result (object_state.new ≡ changed object_state.old.body.kind (Append bytes.now) object_state.old) }
{
    if is_file(object_state.body.kind) {
        object_state.body.payload = joined(&object_state.body.payload, bytes)?;
    }
    Ok(())
}

/// Sets the owner and the owning group, each if it is given.
fn set_owner(object_state: &mut ObjectState, uid: Option<u32>, gid: Option<u32>)
    ensures { object_state.new ≡ changed object_state.old.body.kind (Owner uid gid) object_state.old }
{
    object_state.metadata.uid = uid.unwrap_or(object_state.metadata.uid);
    object_state.metadata.gid = gid.unwrap_or(object_state.metadata.gid);
}

/// Applies the entries of a line to the ACL of an object.
fn apply_line(
    alloc: Global,
    object_state: &mut ObjectState,
    line: &AclLine,
    how: How,
) -> Result<(), AllocError>
    ensures { OnOk result (object_state.new ≡ changed object_state.old.body.kind (Entries line.now how) object_state.old) }
{
    let directory = object_state.body.kind.is_directory();
    object_state.metadata.acl = apply_entries(
        alloc,
        &object_state.metadata.acl,
        line,
        how,
        directory,
    )?;
    Ok(())
}

/// Sets extended attributes of an object that is not a link. Each replaces one of the same name.
fn put_attrs(object_state: &mut ObjectState, attrs: &AttrList) -> Result<(), AllocError>
    ensures { OnOk result (object_state.new ≡ changed object_state.old.body.kind (Attrs attrs.now) object_state.old) }
{
    if !is_link(object_state.body.kind) {
        object_state.metadata.attrs = object_state.metadata.attrs.with_all(attrs)?;
    }
    Ok(())
}

/// Sets the mode of an object, masked or not.
fn set_mode(object_state: &mut ObjectState, mode: u16, masked: bool)
    ensures { object_state.new ≡ changed object_state.old.body.kind (Mode mode masked) object_state.old }
{
    if masked {
        object_state.metadata.special = masked_special(object_state.body.kind, mode);
        set_masked_base(&mut object_state.metadata.acl.access, mode);
    } else {
        object_state.metadata.special = special_bits(mode);
        object_state.metadata.acl.access.set_base(mode);
    }
}

/// Changes the flags of a file or a directory.
fn change_letters(object_state: &mut ObjectState, how: LetterHow, letters: LetterSet)
    ensures { object_state.new ≡ changed object_state.old.body.kind (Letters how letters) object_state.old }
{
    if carries_letters(object_state.body.kind) {
        object_state.metadata.letters = object_state.metadata.letters.after(how, letters);
    }
}

/// Returns the bytes of one list followed by those of another.
fn joined(first: &Bytes, second: &Bytes) -> Result<Bytes, AllocError>
    ensures { IfOk result (λ all. all ≡ first.now ++ second.now) }
{
    let mut items = first.copy()?.into_vec();
    items.extend_from_slice(second.as_slice())?;
    Ok(Bytes::from_vec(items))
}

/// Returns whether a change with this guard is for objects of a kind.
pub fn admits(guard: Guard, kind: Kind) -> bool
    ensures { result ≡ admits guard kind }
{
    match guard {
        Guard::Every => true,
        Guard::NoLink => !is_link(kind),
        Guard::Only(wanted) => same_kind(wanted, kind),
    }
}

/// Returns whether an object passes the test, and so stays in place of a new one that is wanted.
pub fn stays(test: Test, new: &Body, old: &Body) -> bool
    ensures { result ≡ stays test new.now old.now }
{
    same_kind(new.kind, old.kind) && (!test.exact || same_substance(new, old))
        || test.spares_directories && old.kind.is_directory()
}

/// Returns whether the target of a link and the numbers of a device are those that are wanted.
fn same_substance(wanted: &Body, body: &Body) -> bool
    ensures { result ≡ same_substance wanted.now body.now }
{
    (!is_link(body.kind) || wanted.payload.is_same(&body.payload))
        && wanted.major == body.major
        && wanted.minor == body.minor
}

fn same_kind(a: Kind, b: Kind) -> bool
    ensures { result ≡ same_kind a b }
{
    a == b
}

/// Returns whether objects of a kind have file attribute flags.
fn carries_letters(kind: Kind) -> bool
    ensures { result ≡ carries_letters kind }
{
    matches!(kind, Kind::File | Kind::Directory)
}

fn is_file(kind: Kind) -> bool
    ensures { result ≡ is_file kind }
{
    matches!(kind, Kind::File)
}

fn is_link(kind: Kind) -> bool
    ensures { result ≡ is_link kind }
{
    matches!(kind, Kind::Link)
}
