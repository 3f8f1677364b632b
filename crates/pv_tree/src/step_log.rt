//! The recorded steps. Most looks and steps are near the last one, so its directory is kept.
ghost use Rattle.std.specs.Prelude.{◌≡◌, Some};
ghost use Rattle.std.specs.Option.{option_copied};
ghost use Rattle.pv_path.specs.Paths.{parent_of};
ghost use Rattle.pv_steps.specs.Trees.{IsPresentIn};
ghost use Rattle.pv_tree.specs.Near.{IsNear, place_of};
ghost use Rattle.pv_tree.specs.Slots.{number_in, places_in, slot_in};

use crate::slot::Slot;
use crate::slots::{number_at, number_near, parent_names};
use pv_path::{Name, TreePath};
use pv_steps::Step;

/// The recorded steps, with the number of the directory that the path of the last one lies in.
#[derive(Drop)]
pub(crate) struct StepLog {
    pub steps: Vec<Step>,
    /// Without a recorded step it says nothing.
    pub near: usize,
}

/// The path of the object that a step makes, changes or removes. For a `Rename` it is the new path.
pub(crate) fn place_of(step: &Step) -> &TreePath
    ensures { result.now ≡ place_of step.now }
{
    match step {
        Step::MakeDir { path }
        | Step::MakeFile { path }
        | Step::MakeFifo { path }
        | Step::MakeDevice { path, .. }
        | Step::MakeLink { path, .. }
        | Step::Write { path, .. }
        | Step::SetMode { path, .. }
        | Step::SetOwner { path, .. }
        | Step::SetAcl { path, .. }
        | Step::SetAttrs { path, .. }
        | Step::SetLetters { path, .. }
        | Step::SetStamps { path, .. }
        | Step::Rename { from: _, to: path }
        | Step::Unlink { path }
        | Step::RemoveDir { path } => path,
    }
}

/// The number at the path of some names, or nothing if it is absent.
fn number_by(slots: &Vec<Slot>, log: &StepLog, names: &[Name]) -> Option<usize>
    requires { IsNear slots.now.items log.now.steps.items log.now.near }
    ensures { result ≡ number_in slots.now.items names.now }
{
    match log.steps.last() {
        Some(step) => number_near(slots, parent_names(place_of(step)), log.near, names),
        None => number_at(slots, names),
    }
}

/// The slot at the path of some names, or nothing if it is absent.
pub(crate) fn slot_of<'a>(slots: &'a Vec<Slot>, log: &StepLog, names: &[Name]) -> Option<&'a Slot>
    requires { IsNear slots.now.items log.now.steps.items log.now.near }
    ensures { option_copied result ≡ slot_in slots.now.items names.now }
{
    match number_by(slots, log, names) {
        Some(number) => slots.get(number),
        None => None,
    }
}

/// The slot at a path, or nothing if the path is absent.
pub(crate) fn slot_at<'a>(slots: &'a Vec<Slot>, log: &StepLog, path: &TreePath) -> Option<&'a Slot>
    requires { IsNear slots.now.items log.now.steps.items log.now.near }
    ensures { option_copied result ≡ slot_in slots.now.items path.now }
{
    slot_of(slots, log, path.names())
}

/// The number of the directory that a path lies in.
pub(crate) fn directory_by(slots: &Vec<Slot>, log: &StepLog, path: &TreePath) -> usize
    requires near { IsNear slots.now.items log.now.steps.items log.now.near }
    requires present { IsPresentIn (places_in slots.now.items) (parent_of path.now) }
    ensures { number_in slots.now.items (parent_of path.now) ≡ Some result }
{
    match number_by(slots, log, parent_names(path)) {
        Some(number) => number,
        None => unreachable!(),
    }
}
