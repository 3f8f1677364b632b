//! What lines of each type do. No other file looks at the letter of a type.
ghost use Rattle.std.specs.Prelude.{◌≡◌, ◌++◌, [], ◌∷◌, IfOk, OnOk};
ghost use Rattle.std.specs.Option.{option_map_or};
ghost use Rattle.pv_walk.specs.declared.operation.Guard.TheVariants.{Every, NoLink, Only};
ghost use Rattle.pv_walk.specs.declared.operation.Operation.TheVariants.{Apply};
ghost use Rattle.pv_table.specs.Active.{is_adjusting_line};
ghost use Rattle.pv_table.specs.ActionTable.{action_of, bytes_of, contents_to_set, copying, device, id_for_new, id_to_set, is_writing, link_to, making, mode_for_new, mode_to_set, owners_and_mode, renewal, set_by, source_of, sparing_of, taking_of, adjustment, without_links, writing};

use crate::action::{Action, Adjustment, Copying, Making, OperationList};
use crate::taking::{Sparing, Taking};
use pv_acl::How;
use pv_lines::{Argument, Line, LineId, LineMode};
use pv_path::{Bytes, TreePath};
use pv_steps::Kind;
use pv_walk::{Change, Guard, NewFile, NewKind, Operation, Test};
use std::alloc::{AllocError, Global};

/// Returns what a line asks for in the create phase, by its type (tmpfiles.d(5), "Type").
///
/// - `f`, `F`, `d`, `D`, `v`, `q`, `Q`, `p`, `L`, `c` and `b` give `Create`.
/// - `C` gives `Copy`.
/// - `w`, `e`, `z`, `Z`, `a`, `A`, `t`, `T`, `h` and `H` give `Adjust`.
/// - `r`, `R`, `x` and `X` give `Idle`.
///
/// The only error is `AllocError`.
pub fn action_of(alloc: Global, line: &Line) -> Result<Action, AllocError>
    ensures { IfOk result (λ action. action ≡ action_of line.now) }
{
    match line.letter {
        b'f' => making(alloc, NewKind::File(bytes_of(alloc, &line.argument)?), line),
        b'd' | b'D' | b'v' | b'q' | b'Q' => making(alloc, NewKind::Directory, line),
        b'p' => making(alloc, NewKind::Fifo, line),
        b'L' => making(alloc, link_to(alloc, &line.argument)?, line),
        b'c' => making(alloc, device(false, &line.argument), line),
        b'b' => making(alloc, device(true, &line.argument), line),
        b'C' => copying(alloc, line),
        b'w' => writing(alloc, line),
        b'e' => adjusting(alloc, false, Guard::Only(Kind::Directory), line),
        b'z' => adjusting(alloc, false, Guard::Every, line),
        b'Z' => adjusting(alloc, true, Guard::Every, line),
        b'a' | b't' | b'h' => setting(alloc, false, line),
        b'A' | b'T' | b'H' => setting(alloc, true, line),
        _ => Ok(Action::Idle),
    }
}

/// Returns whether a line adjusts present objects (tmpfiles.d(5), `w`, `e`, `z`, `Z`, `a`, `A`, `t`, `T`, `h`, `H`).
pub(crate) fn is_adjusting_line(line: &Line) -> bool
    ensures { result ≡ is_adjusting_line line.now }
{
    matches!(
        line.letter,
        b'w' | b'e' | b'z' | b'Z' | b'a' | b'A' | b't' | b'T' | b'h' | b'H'
    )
}

/// Returns what a line removes in the remove phase at a path that it names (tmpfiles.d(5), `r`, `R` and `D`).
///
/// The call does not allocate. What a purge removes by the modifier `$` is not part of the answer.
pub fn taking_of(line: &Line) -> Taking
    ensures { result ≡ taking_of line.now }
{
    match line.letter {
        b'r' => Taking::Itself,
        b'R' => Taking::Whole,
        b'D' => Taking::Contents,
        _ => Taking::Nothing,
    }
}

/// Returns what a line protects in the clean phase at a path that it names (tmpfiles.d(5), `x` and `X`).
///
/// The answer is `None` for all other types. The call does not allocate.
pub fn sparing_of(line: &Line) -> Option<Sparing>
    ensures { result ≡ sparing_of line.now }
{
    match line.letter {
        b'x' => Some(Sparing::Whole),
        b'X' => Some(Sparing::Itself),
        _ => None,
    }
}

/// Returns whether a line writes to present files: its type is `w` (tmpfiles.d(5)). The call does not allocate.
pub fn is_writing(line: &Line) -> bool
    ensures { result ≡ is_writing line.now }
{
    line.letter == b'w'
}

/// Returns the ID that a new object gets, if the line gives one.
pub(crate) fn id_for_new(field: Option<LineId>) -> Option<u32>
    ensures { result ≡ id_for_new field }
{
    match field {
        Some(owner) => Some(owner.id),
        None => None,
    }
}

/// Returns the ID that a present object gets, if any.
fn id_to_set(field: Option<LineId>) -> Option<u32>
    ensures { result ≡ id_to_set field }
{
    match field {
        None => None,
        Some(owner) => { if owner.new_only { None } else { Some(owner.id) } }
    }
}

/// Returns the mode of a new object.
pub(crate) fn mode_for_new(field: Option<LineMode>, directory: bool) -> u16
    ensures { result ≡ mode_for_new field directory }
{
    match field {
        None => { if directory { 0o755 } else { 0o644 } }
        Some(mode) => {
            if mode.masked && !directory {
                mode.value % 512
            } else {
                mode.value
            }
        }
    }
}

/// Returns the guard with which a mode is set, if a mode can be set at all: links have none.
fn without_links(guard: Guard) -> Option<Guard>
    ensures { result ≡ without_links guard }
{
    match guard {
        Guard::Every => Some(Guard::NoLink),
        Guard::NoLink => Some(Guard::NoLink),
        Guard::Only(Kind::Link) => None,
        Guard::Only(kind) => Some(Guard::Only(kind)),
    }
}

/// Adds the operation that sets the mode of a present object, if there is one.
fn add_mode(
    operations: &mut OperationList,
    field: Option<LineMode>,
    guard: Option<Guard>,
) -> Result<(), AllocError>
    ensures { OnOk result (operations.new ≡ operations.old ++ mode_to_set field guard) }
{
    if let (Some(mode), Some(guard)) = (field, guard) {
        if !mode.new_only {
            let change = Change::Mode {
                mode: mode.value,
                masked: mode.masked,
            };
            operations.push(Operation::Apply { guard, change })?;
        }
    }
    Ok(())
}

/// Adds the operations that set owners and mode.
fn add_owners_and_mode(
    operations: &mut OperationList,
    guard: Guard,
    line: &Line,
) -> Result<(), AllocError>
    ensures { OnOk result (operations.new ≡ operations.old ++ owners_and_mode guard line.now) }
{
    let change = Change::Owner {
        uid: id_to_set(line.user),
        gid: id_to_set(line.group),
    };
    operations.push(Operation::Apply { guard, change })?;
    add_mode(operations, line.mode, without_links(guard))
}

/// Returns the bytes of an argument, or none if it has none.
fn bytes_of(alloc: Global, argument: &Argument) -> Result<Bytes, AllocError>
    ensures { IfOk result (λ bytes. bytes ≡ bytes_of argument.now) }
{
    match argument {
        Argument::FileBytes(Some(bytes)) => bytes.copy(),
        Argument::WriteBytes(bytes) => bytes.copy(),
        _ => Ok(Bytes::new(alloc)),
    }
}

/// Returns a link with the target of an argument.
fn link_to(alloc: Global, argument: &Argument) -> Result<NewKind, AllocError>
    ensures { IfOk result (λ what. what ≡ link_to argument.now) }
{
    match argument {
        Argument::Target(target) => Ok(NewKind::Link(target.copy()?)),
        _ => Ok(NewKind::Link(Bytes::new(alloc))),
    }
}

/// Returns a device with the numbers of an argument.
fn device(block: bool, argument: &Argument) -> NewKind
    ensures { result ≡ device block argument.now }
{
    match argument {
        Argument::Device { major, minor } => NewKind::Device {
            block,
            major: *major,
            minor: *minor,
        },
        _ => NewKind::Device {
            block,
            major: 0,
            minor: 0,
        },
    }
}

/// Returns the path of an argument.
fn source_of(alloc: Global, argument: &Argument) -> Result<TreePath, AllocError>
    ensures { IfOk result (λ path. path ≡ source_of argument.now) }
{
    match argument {
        Argument::Source(source) => source.copy(),
        _ => Ok(TreePath::root(alloc)),
    }
}

/// Returns the test that a present object must pass to be kept, or nothing if no object is replaced.
fn renewal(line: &Line, kind: Kind) -> Option<Test>
    ensures { result ≡ renewal line.now kind }
{
    if line.replace {
        Some(Test {
            exact: line.plus,
            spares_directories: false,
        })
    } else if line.plus && kind != Kind::File {
        Some(Test {
            exact: true,
            spares_directories: kind != Kind::Link,
        })
    } else {
        None
    }
}

/// Returns what is set on a present object, by a line that makes objects of this kind.
fn sets_of(alloc: Global, kind: Kind, line: &Line) -> Result<OperationList, AllocError>
    ensures { IfOk result (λ sets. sets ≡ contents_to_set line.now kind ++ owners_and_mode (Only kind) line.now) }
{
    let mut sets = OperationList::new(alloc);
    if line.plus && kind == Kind::File {
        let change = Change::Write(bytes_of(alloc, &line.argument)?);
        sets.push(Operation::Apply {
            guard: Guard::Only(Kind::File),
            change,
        })?;
    }
    add_owners_and_mode(&mut sets, Guard::Only(kind), line)?;
    Ok(sets)
}

/// Returns the action of a line that makes an object.
fn making(alloc: Global, what: NewKind, line: &Line) -> Result<Action, AllocError>
    ensures { IfOk result (λ action. action ≡ making what line.now) }
{
    let kind = what.kind();
    Ok(Action::Create(Making {
        new: NewFile {
            what,
            mode: mode_for_new(line.mode, kind == Kind::Directory),
            uid: id_for_new(line.user).unwrap_or(0),
            gid: id_for_new(line.group).unwrap_or(0),
        },
        renew: renewal(line, kind),
        sets: sets_of(alloc, kind, line)?,
    }))
}

/// Returns the action of a line that copies an object.
fn copying(alloc: Global, line: &Line) -> Result<Action, AllocError>
    ensures { IfOk result (λ action. action ≡ copying line.now) }
{
    let mut sets = OperationList::new(alloc);
    add_owners_and_mode(&mut sets, Guard::Every, line)?;
    Ok(Action::Copy(Copying {
        source: source_of(alloc, &line.argument)?,
        mode: line.mode,
        uid: id_for_new(line.user),
        gid: id_for_new(line.group),
        renews: line.replace,
        sets,
    }))
}

/// Returns the action of a line that sets owners and mode of present objects.
fn adjusting(alloc: Global, deep: bool, guard: Guard, line: &Line) -> Result<Action, AllocError>
    ensures { IfOk result (λ action. action ≡ adjustment deep guard (owners_and_mode guard line.now)) }
{
    let mut sets = OperationList::new(alloc);
    add_owners_and_mode(&mut sets, guard, line)?;
    Ok(Action::Adjust(Adjustment {
        deep,
        wanted: guard,
        sets,
    }))
}

/// Returns the action of a line that writes or appends bytes.
fn writing(alloc: Global, line: &Line) -> Result<Action, AllocError>
    ensures { IfOk result (λ action. action ≡ writing line.now) }
{
    let bytes = bytes_of(alloc, &line.argument)?;
    let change = if line.plus {
        Change::Append(bytes)
    } else {
        Change::Write(bytes)
    };
    let guard = Guard::Only(Kind::File);
    let mut sets = OperationList::new(alloc);
    sets.push(Operation::Apply { guard, change })?;
    Ok(Action::Adjust(Adjustment {
        deep: false,
        wanted: guard,
        sets,
    }))
}

/// Returns the change that an argument asks for, if it asks for one.
fn change_by(plus: bool, argument: &Argument) -> Result<Option<Change>, AllocError>
    ensures { IfOk result (λ change. option_map_or (λ c. Apply NoLink c ∷ []) change [] ≡ set_by plus argument.now) }
{
    match argument {
        Argument::Entries(line) => Ok(Some(Change::Entries {
            line: line.copy()?,
            how: if plus { How::Add } else { How::Replace },
        })),
        Argument::Attrs(attrs) => Ok(Some(Change::Attrs(attrs.copy()?))),
        Argument::Letters { how, letters } => Ok(Some(Change::Letters {
            how: *how,
            letters: *letters,
        })),
        _ => Ok(None),
    }
}

/// Returns the action of a line that sets ACL entries, extended attributes or file attribute flags.
fn setting(alloc: Global, deep: bool, line: &Line) -> Result<Action, AllocError>
    ensures { IfOk result (λ action. action ≡ adjustment deep Every (set_by line.now.plus line.now.argument)) }
{
    let mut sets = OperationList::new(alloc);
    if let Some(change) = change_by(line.plus, &line.argument)? {
        sets.push(Operation::Apply {
            guard: Guard::NoLink,
            change,
        })?;
    }
    Ok(Action::Adjust(Adjustment {
        deep,
        wanted: Guard::Every,
        sets,
    }))
}
