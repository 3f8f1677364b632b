//! The plan of a run over a tree, as edits of its account files.
ghost use Rattle.std.specs.Prelude.{◌≡◌, ◌++◌, None, option_map, IfOk, IfErr, OnOk};
ghost use Rattle.std.specs.List.{AllByRecursion};
ghost use Rattle.pv_steps.specs.Trees.{places};
ghost use Rattle.pv_text.specs.GivenMessages.{MessagesPart};
ghost use Rattle.pv_requests.specs.Paths.{HasFewNames};
ghost use Rattle.pv_sysusers.specs.Deciding.{UnlessMemory};
ghost use Rattle.pv_sysusers.specs.Planning.{Misses};
ghost use Rattle.pv_sysusers.specs.Plans.{planned};
ghost use Rattle.pv_sysusers.specs.Accounted.{IsUsable, edits_by, files_at, lacking_in, plan_at, text_at};
ghost use Rattle.pv_sysusers.specs.FileWriting.{account_paths};
ghost use Rattle.std.specs.Prelude.{Ok};

use crate::edit::Edit;
use crate::editing::{edits_to, own_text, text_at};
use crate::owners::owners;
use crate::path_ids::PathIds;
use crate::paths::file_path;
use crate::plan_fault::PlanFault;
use crate::planned::{Texts, plan};
use pv_requests::RequestList;
use pv_steps::Tree;
use pv_text::Messages;
use std::alloc::Global;

/// Plans a run: returns the edits of the account files, or the name for which no number is left.
///
/// `now` is in microseconds since 1970-01-01 UTC. All messages of the plan are added to `messages`. If memory runs out,
/// nothing or a prefix of them is added.
pub(crate) fn planned_edits<T: Tree>(
    alloc: Global,
    tree: &T,
    requests: &RequestList,
    now: u64,
    messages: &mut Messages,
) -> Result<Vec<Edit>, PlanFault>
    requires few { AllByRecursion HasFewNames requests.now }
    requires usable { AllByRecursion (IsUsable (places (T.state tree.now))) account_paths }
    ensures edits { let plan = plan_at requests.now now (places (T.state tree.now)) in
        IfOk result (λ edits. edits.items ≡ edits_by (places (T.state tree.now)) plan.texts) }
    ensures enough { let plan = plan_at requests.now now (places (T.state tree.now)) in
        OnOk result (lacking_in plan.texts ≡ None) }
    ensures lacking { let plan = plan_at requests.now now (places (T.state tree.now)) in
        IfErr result (Misses plan.texts) }
    ensures new_messages { let plan = plan_at requests.now now (places (T.state tree.now)) in
        UnlessMemory result (messages.new ≡ messages.old ++ plan.new_messages) }
    ensures part { let plan = plan_at requests.now now (places (T.state tree.now)) in
        MessagesPart plan.new_messages messages.old messages.new }
{
    let taken = owners(alloc, tree, requests)?;
    let texts = planned_texts(
        alloc,
        tree,
        requests,
        &taken,
        now / 86_400_000_000,
        messages,
    )?;
    let edits = edits_to(alloc, tree, &texts)?;
    Ok(edits)
}

/// Returns the new texts of the account files of a tree. `day` counts the days since 1970-01-01 UTC.
fn planned_texts<T: Tree>(
    alloc: Global,
    tree: &T,
    requests: &RequestList,
    taken: &PathIds,
    day: u64,
    messages: &mut Messages,
) -> Result<Texts, PlanFault>
    requires usable { AllByRecursion (IsUsable (places (T.state tree.now))) account_paths }
    ensures texts { let plan = planned requests.now taken.now (files_at (places (T.state tree.now))) day in
        IfOk result (λ texts. plan.texts ≡ Ok texts) }
    ensures lacking { let plan = planned requests.now taken.now (files_at (places (T.state tree.now))) day in
        IfErr result (Misses plan.texts) }
    ensures new_messages { let plan = planned requests.now taken.now (files_at (places (T.state tree.now))) day in
        UnlessMemory result (messages.new ≡ messages.old ++ plan.new_messages) }
    ensures part { let plan = planned requests.now taken.now (files_at (places (T.state tree.now))) day in
        MessagesPart plan.new_messages messages.old messages.new }
{
    let passwd = file_path(alloc, b"passwd")?;
    let group = file_path(alloc, b"group")?;
    let shadow = file_path(alloc, b"shadow")?;
    let gshadow = file_path(alloc, b"gshadow")?;
    plan(
        alloc,
        requests,
        text_at(tree, &passwd),
        text_at(tree, &group),
        text_at(tree, &shadow),
        own_text(tree, &gshadow),
        taken,
        day,
        messages,
    )
}
