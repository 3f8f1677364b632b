//! Does one step on the slots, and records it.
ghost use Rattle.std.specs.Prelude.{◌≡◌, ℕ, List, ◌∷◌, [], ◌++◌, OnOk, OnErr, IsErrOf, nat_lt, true, Some};
ghost use Rattle.std.specs.List.{list_all};
ghost use Rattle.pv_path.specs.Paths.{has_names, parent_of};
ghost use Rattle.pv_steps.specs.Steps.{Can, after_at, device_kind, StepFits};
ghost use Rattle.pv_steps.specs.Objects.{fresh};
ghost use Rattle.pv_steps.specs.Trees.{IsTreeIn};
ghost use Rattle.pv_steps.specs.declared.tree.TreeFault.TheVariants.{Failed};
ghost use Rattle.pv_tree.specs.Near.{IsNear, place_of};
ghost use Rattle.pv_tree.specs.Slots.{IsForest, AreFree, number_in, places_in};

use crate::edits::{change_at, make, plain, rename, unmake};
use crate::slot::Slot;
use crate::slots::Location;
use crate::step_log::{StepLog, directory_by, place_of};
use pv_path::{Bytes, TreePath};
use pv_steps::{Kind, Object, Step, TreeFault};
use std::alloc::{AllocError, Global};

/// Does a step on the slots, and appends a copy of it to the list of recorded steps.
///
/// The only error is `Memory`. Slots and list are then as before.
pub(crate) fn do_told(
    alloc: Global,
    slots: &mut Vec<Slot>,
    free: &mut Vec<usize>,
    log: &mut StepLog,
    step: &Step,
    now: u64,
) -> Result<(), TreeFault>
    requires forest { IsForest slots.old.items }
    requires free { AreFree slots.old.items free.old.items }
    requires tree { IsTreeIn (places_in slots.old.items) }
    requires can { Can (places_in slots.old.items) step.now }
    requires near { IsNear slots.old.items log.old.steps.items log.old.near }
    ensures forest { IsForest slots.new.items }
    ensures free { AreFree slots.new.items free.new.items }
    ensures ok { OnOk result (places_in slots.new.items ≡ after_at (places_in slots.old.items) step.now now) }
    ensures recorded { OnOk result (log.new.steps.items ≡ log.old.steps.items ++ step.now ∷ []) }
    ensures err { OnErr result (slots.new.items ≡ slots.old.items) }
    ensures unrecorded { OnErr result (log.new.steps.items ≡ log.old.steps.items) }
    ensures near { IsNear slots.new.items log.new.steps.items log.new.near }
    ensures fault { IsErrOf result Failed → ⊥ }
{
    let path = place_of(step);
    let directory = directory_by(slots, log, path);
    tell(&mut log.steps, step)?;
    match do_step(alloc, slots, free, step, Location { path, directory }, now) {
        Ok(()) => {
            log.near = directory;
            Ok(())
        }
        Err(fault) => {
            let _untold = log.steps.pop();
            Err(fault.into())
        }
    }
}

/// Appends a copy of a step to the list of recorded steps. If memory runs out, the list is as before.
fn tell(steps: &mut Vec<Step>, step: &Step) -> Result<(), AllocError>
    ensures ok { OnOk result (steps.new.items ≡ steps.old.items ++ step.now ∷ []) }
    ensures err { OnErr result (steps.new.items ≡ steps.old.items) }
{
    steps.push(step.copy()?)?;
    Ok(())
}

/// Does a step on the slots, at its path. If memory runs out, they are as before.
fn do_step(
    alloc: Global,
    slots: &mut Vec<Slot>,
    free: &mut Vec<usize>,
    step: &Step,
    at: Location<'_>,
    now: u64,
) -> Result<(), AllocError>
    requires forest { IsForest slots.old.items }
    requires free { AreFree slots.old.items free.old.items }
    requires tree { IsTreeIn (places_in slots.old.items) }
    requires can { Can (places_in slots.old.items) step.now }
    requires path { at.path.now ≡ place_of step.now }
    requires directory { number_in slots.old.items (parent_of at.path.now) ≡ Some at.directory }
    ensures forest { IsForest slots.new.items }
    ensures free { AreFree slots.new.items free.new.items }
    ensures ok { OnOk result (places_in slots.new.items ≡ after_at (places_in slots.old.items) step.now now) }
    ensures directory { OnOk result (number_in slots.new.items (parent_of at.entry.path.now) ≡ Some at.entry.directory) }
    ensures err { OnErr result (slots.new.items ≡ slots.old.items) }
{
    match step {
        Step::MakeDir { .. } => {
            let object = plain(alloc, Kind::Directory, 0o700, now);
            make(alloc, slots, free, at, object, now)
        }
        Step::MakeFile { .. } => {
            let object = plain(alloc, Kind::File, 0o600, now);
            make(alloc, slots, free, at, object, now)
        }
        Step::MakeFifo { .. } => {
            let object = plain(alloc, Kind::Fifo, 0o600, now);
            make(alloc, slots, free, at, object, now)
        }
        Step::MakeDevice {
            block,
            major,
            minor,
            ..
        } => {
            let kind = device_kind(*block);
            let object = Object::fresh(alloc, kind, 0o600, Bytes::new(alloc), *major, *minor, now);
            make(alloc, slots, free, at, object, now)
        }
        Step::MakeLink { target, .. } => {
            let object = Object::fresh(alloc, Kind::Link, 0o777, target.copy()?, 0, 0, now);
            make(alloc, slots, free, at, object, now)
        }
        Step::Write { .. }
        | Step::SetMode { .. }
        | Step::SetOwner { .. }
        | Step::SetAcl { .. }
        | Step::SetAttrs { .. }
        | Step::SetLetters { .. }
        | Step::SetStamps { .. } => change_at(slots, at, step, now),
        Step::Rename { from, .. } => rename(slots, free, from, at, now),
        Step::Unlink { .. } | Step::RemoveDir { .. } => unmake(slots, free, at, now),
    }
}

fn device_kind(block: bool) -> Kind
    ensures { result ≡ device_kind block }
{
    if block {
        Kind::BlockDevice
    } else {
        Kind::CharDevice
    }
}

/// Gives the proof of its caller the fact that the parts of a step fit their types (`StepFits`). It does nothing
/// when it runs.
///
/// The prover then knows, for example, that each name in the step is a name, and that each target is a list of bytes.
/// The call does not allocate.
pub fn parts_fit(step: &Step)
    ensures { StepFits step.now }
{
    match step {
        Step::MakeDir { path } => names_fit(path),
        Step::MakeFile { path } => names_fit(path),
        Step::MakeFifo { path } => names_fit(path),
        Step::MakeDevice {
            path,
            major,
            minor,
            ..
        } => {
            names_fit(path);
            let _numbers = (*major, *minor);
        }
        Step::MakeLink { path, target } => text_fits(path, target),
        Step::Write { path, content } => text_fits(path, content),
        Step::SetMode { path, .. } => names_fit(path),
        Step::SetOwner { path, .. } => names_fit(path),
        Step::SetAcl { path, .. } => names_fit(path),
        Step::SetAttrs { path, .. } => names_fit(path),
        Step::SetLetters { path, letters } => {
            names_fit(path);
            let _bits = letters.bits();
        }
        Step::SetStamps {
            path,
            access,
            modify,
        } => {
            names_fit(path);
            let _stamps = (*access, *modify);
        }
        Step::Rename { from, to } => {
            names_fit(from);
            names_fit(to);
        }
        Step::Unlink { path } => names_fit(path),
        Step::RemoveDir { path } => names_fit(path),
    }
}

fn names_fit(path: &TreePath)
    ensures { has_names path.now ≡ true }
{
    let _names = path.names();
}

fn text_fits(path: &TreePath, bytes: &Bytes)
    ensures path { has_names path.now ≡ true }
    ensures bytes { list_all (λ b. nat_lt b 256) bytes.now ≡ true }
{
    names_fit(path);
    slice_fits(bytes.as_slice());
}

fn slice_fits(bytes: &[u8])
    ensures { list_all (λ b. nat_lt b 256) bytes.now ≡ true }
{
    let _count = bytes.len();
}
