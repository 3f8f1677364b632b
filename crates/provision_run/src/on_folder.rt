//! A run on a folder of a host.
ghost use Rattle.std.specs.Prelude.{◌≡◌, ◌∷◌, ◌⊎◌, [], false, Ok, Err, Some, IfOk, IfSome, IsErrOf, OnErr};
ghost use Rattle.pv_io.specs.Faults.{HasRisen};
ghost use Rattle.pv_folder.specs.Content.{File, held, spelled};
ghost use Rattle.pv_folder.specs.declared.host.HostFault.TheVariants.{Failed, Memory};
ghost use Rattle.pv_folder.specs.Folders.{manifest_path};
ghost use Rattle.pv_folder.specs.Keeping.{Keeps};
ghost use Rattle.pv_folder.specs.Manifest.{manifest_of};
ghost use Rattle.pv_folder.specs.Opening.{IsOpened};
ghost use Rattle.provision_run.specs.Messages.{messages_text};
ghost use Rattle.provision_run.specs.OnFolder.{EndsAs, HasOutputOn, IsAnswerOn, IsShortOn, bad_folder_text};

use crate::answer::{Answer, one_message};
use crate::message::{bad_folder, print_messages};
use crate::outcome::Outcome;
use crate::running::run_limited;
use pv_folder::{FolderTree, Host, HostFault, OpenFault, close_folder, read_folder};
use pv_image::Image;
use pv_steps::TreeFault;
use pv_text::{Facts, Messages};
use pv_words::{Options, Rooted};
use std::alloc::{AllocError, Global};

/// Runs on the folder that words name, and returns the answer. The tree that the run left is then in the folder.
pub(crate) fn answer_folder<H: Host>(
    alloc: Global,
    rooted: &Rooted,
    clock_micros: u64,
    host: &mut H,
) -> Result<Answer, AllocError>
    ensures output { IfOk result (λ answer. HasOutputOn (spelled rooted.entry.now.folder) rooted.entry.now.options clock_micros
        (record { content = H.content host.old; changes = H.changes host.old; faults = H.faults host.old })
        (record { content = H.content host.new; changes = H.changes host.new; faults = H.faults host.new }) answer.outcome answer.output.items) }
    ensures short { OnErr result (IsShortOn (spelled rooted.entry.now.folder) rooted.entry.now.options clock_micros
        (record { content = H.content host.old; changes = H.changes host.old; faults = H.faults host.old })
        (record { content = H.content host.new; changes = H.changes host.new; faults = H.faults host.new })) }
{
    match read_folder(alloc, host, rooted.folder.as_slice()) {
        Ok(image) => run_opened(alloc, rooted, image, clock_micros, host),
        Err(OpenFault::Memory) => Err(AllocError),
        Err(OpenFault::HostFailed) => Ok(Answer {
            outcome: Outcome::FolderFailed,
            output: Vec::new(alloc),
        }),
        Err(fault) => refuse_folder(alloc, fault),
    }
}

/// Returns the answer for a folder that cannot be used.
fn refuse_folder(alloc: Global, fault: OpenFault) -> Result<Answer, AllocError>
    ensures outcome { IfOk result (λ answer. answer.outcome ≡ Outcome.BadFolder fault) }
    ensures output { IfOk result (λ answer. answer.output.items ≡ messages_text (bad_folder_text fault ∷ [])) }
{
    let text = bad_folder(alloc, &fault)?;
    one_message(alloc, Outcome::BadFolder(fault), &text)
}

/// Runs over the tree of a folder that was opened, and writes the manifest of the tree that is left, whatever the run
/// answered.
fn run_opened<H: Host>(
    alloc: Global,
    rooted: &Rooted,
    image: Image,
    clock_micros: u64,
    host: &mut H,
) -> Result<Answer, AllocError>
    requires fresh { image.tree.steps ≡ [] }
    requires opened { IfSome (H.content host.old) (λ c. IsOpened (spelled rooted.now.folder) c image.facts image.tree.files) }
    requires ready { IfSome (H.content host.old) (λ c. Keeps (spelled rooted.now.folder) image.tree.files c) }
    ensures output { IfOk result (λ answer. HasOutputOn (spelled rooted.entry.now.folder) rooted.entry.now.options clock_micros
        (record { content = H.content host.old; changes = H.changes host.old; faults = H.faults host.old })
        (record { content = H.content host.new; changes = H.changes host.new; faults = H.faults host.new }) answer.outcome answer.output.items) }
    ensures short { OnErr result (IsShortOn (spelled rooted.entry.now.folder) rooted.entry.now.options clock_micros
        (record { content = H.content host.old; changes = H.changes host.old; faults = H.faults host.old })
        (record { content = H.content host.new; changes = H.changes host.new; faults = H.faults host.new })) }
{
    let Image { tree, facts } = image;
    let folder = Vec::from_slice(alloc, rooted.folder.as_slice())?;
    let mut tree = FolderTree::of(host, folder, tree);
    let mut messages = Messages::new(alloc);
    let ran = run_kept(
        alloc,
        &rooted.options,
        &facts,
        clock_micros,
        &mut tree,
        &mut messages,
    );
    let _host = tree.into_host();
    match ran {
        Ok(outcome) => with_messages(alloc, outcome, &messages),
        Err(_memory) => Err(AllocError),
    }
}

/// Returns an outcome with its messages.
fn with_messages(alloc: Global, outcome: Outcome, messages: &Messages) -> Result<Answer, AllocError>
    ensures outcome { IfOk result (λ answer. answer.outcome ≡ outcome) }
    ensures output { IfOk result (λ answer. answer.output.items ≡ messages_text messages.now) }
{
    let output = print_messages(alloc, messages)?;
    Ok(Answer { outcome, output })
}

/// Runs over the tree of a folder, and writes the manifest of the tree that is left, whatever the run answered.
fn run_kept<H: Host>(
    alloc: Global,
    options: &Options,
    facts: &Facts,
    clock_micros: u64,
    tree: &mut FolderTree<'_, H>,
    messages: &mut Messages,
) -> Result<Outcome, OutOfMemory>
    requires fresh { tree.old.tree.steps ≡ [] }
    requires messages_kept { messages.old ≡ [] }
    requires opened { IfSome (H.content tree.old.host.now) (λ c. IsOpened (spelled tree.old.folder.items) c facts.now tree.old.tree.files) }
    requires settled { tree.old.pending ≡ false }
    ensures answer { IfOk result (λ found. IsAnswerOn (spelled tree.old.folder.items) options.entry.now clock_micros
        (record { content = H.content tree.old.host.now; changes = H.changes tree.old.host.now; faults = H.faults tree.old.host.now })
        (record { content = H.content tree.new.host.now; changes = H.changes tree.new.host.now; faults = H.faults tree.new.host.now }) found messages.new) }
    ensures short { OnErr result (IsShortOn (spelled tree.old.folder.items) options.entry.now clock_micros
        (record { content = H.content tree.old.host.now; changes = H.changes tree.old.host.now; faults = H.faults tree.old.host.now })
        (record { content = H.content tree.new.host.now; changes = H.changes tree.new.host.now; faults = H.faults tree.new.host.now })) }

    // If memory ran out in the run, and neither memory nor the host failed in closing, the manifest is that of the tree
    // that is left.
    ensures closed { IsErrOf result OutOfMemory.InRun →
        (IfSome (H.content tree.new.host.now) (λ c. held c (manifest_path (spelled tree.old.folder.items)) ≡ Some (File (manifest_of facts.now tree.new.tree.files))))
        ⊎ HasRisen (H.faults tree.old.host.now) (H.faults tree.new.host.now) }
    ensures host { tree.new.host.ghost_name ≡ tree.old.host.ghost_name }
{
    let moment = options.now.unwrap_or(clock_micros);
    let ran = run_limited(alloc, options, facts, moment, tree, messages);
    let pending = tree.is_pending();
    let closed = close_folder(alloc, tree, facts);
    outcome_of(ran, pending, closed)
}

/// Where a run on a folder ran out of memory, so that it has no outcome.
#[derive(Clone, Copy, PartialEq, Eq)]
enum OutOfMemory {
    /// In the run. The folder is closed then, unless the host fails at that.
    InRun,
    /// While the folder was being closed.
    InClosing,
}

/// Returns the outcome of a run, by whether a step of it may be half done and whether the folder was closed.
fn outcome_of(
    ran: Result<Outcome, TreeFault>,
    pending: bool,
    closed: Result<(), HostFault>,
) -> Result<Outcome, OutOfMemory>
    ensures ends { IfOk result (EndsAs ran pending closed) }
    ensures in_run { IsErrOf result OutOfMemory.InRun → closed ≡ Err Memory → ⊥ }
{
    match ran {
        Ok(outcome) => kept_outcome(outcome, pending, closed),
        Err(TreeFault::Failed) => kept_outcome(Outcome::FolderFailed, pending, closed),
        Err(TreeFault::Memory) => kept_outcome(Outcome::Memory, true, closed),
    }
}

/// Returns an outcome if the folder was closed, otherwise that of a host that failed.
fn kept_outcome(
    outcome: Outcome,
    pending: bool,
    closed: Result<(), HostFault>,
) -> Result<Outcome, OutOfMemory>
    ensures settled { IfOk result (λ _. pending ≡ false) }
    ensures outcome { IfOk result (λ found.
        ((closed ≡ Ok tt) × (found ≡ outcome)) ⊎ ((closed ≡ Err Failed) × (found ≡ Outcome.FolderFailed))) }
    ensures in_run { IsErrOf result OutOfMemory.InRun → closed ≡ Err Memory → ⊥ }
{
    let kept = match closed {
        Ok(()) => outcome,
        Err(HostFault::Failed) => Outcome::FolderFailed,
        Err(HostFault::Memory) => return Err(OutOfMemory::InClosing),
    };
    if pending {
        Err(OutOfMemory::InRun)
    } else {
        Ok(kept)
    }
}
