//! A run that makes users and groups.
ghost use Rattle.std.specs.Prelude.{◌≡◌, ◌∷◌, [], ◌++◌, true, IfOk, IsErrOf, OnOk, OnErr};
ghost use Rattle.pv_text.specs.Lines.{is_line};
ghost use Rattle.pv_text.specs.GivenMessages.{MessagesPart};
ghost use Rattle.pv_steps.specs.declared.tree.TreeFault.TheVariants.{Failed};
ghost use Rattle.pv_steps.specs.Acting.{Acted, steps_done};
ghost use Rattle.pv_sysusers.specs.Accounted.{accounted};
ghost use Rattle.pv_sysusers.specs.FileWriting.{AccountWay, IsAccountStep};
ghost use Rattle.pv_sysusers.specs.Recovery.{Recovers};
ghost use Rattle.pv_sysusers.specs.Swept.{LeavesNoStagingName};
ghost use Rattle.provision_run.specs.Framed.{AreAccountsFramed};
ghost use Rattle.provision_run.specs.Rereading.{AccountsRecoverAnew, AreRequestsReread};
ghost use Rattle.provision_run.specs.Accounts.{account_messages, accounts_end, accounts_work, IsEnded, lacking_text, requests_messages, run_edits, run_requests};

use crate::ending::{RunEnd, end_of};
use pv_path::print_bytes;
use pv_read_config::read_requests;
use pv_steps::{Tree, TreeFault};
use pv_sysusers::{AccountsFault, Carried, accounts_run};
use pv_text::{Facts, Messages};
use pv_words::Options;
use std::alloc::{AllocError, Global};

/// Reads the configuration of a tree, and makes the users and groups that its lines ask for (systemd-sysusers(8)).
pub(crate) fn make_accounts<T: Tree>(
    alloc: Global,
    options: &Options,
    facts: &Facts,
    moment: u64,
    tree: &mut T,
    messages: &mut Messages,
) -> Result<RunEnd, TreeFault>
    ensures ok { OnOk result (T.state tree.new ≡ accounted (run_requests options.entry.now facts.now (T.state tree.old)) moment (T.state tree.old)) }
    ensures new_messages { OnOk result (messages.new
        ≡ messages.old ++ requests_messages options.entry.now facts.now (T.state tree.old) ++ account_messages options.entry.now facts.now moment (T.state tree.old)) }
    ensures end { IfOk result (λ end. end ≡ accounts_end options.entry.now facts.now moment (T.state tree.old)) }
    ensures staged { OnOk result (LeavesNoStagingName (run_requests options.entry.now facts.now (T.state tree.old)) moment
        (T.state tree.old) (T.state tree.new)) }
    ensures part { MessagesPart
        (requests_messages options.entry.now facts.now (T.state tree.old) ++ account_messages options.entry.now facts.now moment (T.state tree.old))
        messages.old messages.new }
    ensures stopped { IsErrOf result Failed → messages.new
        ≡ messages.old ++ requests_messages options.entry.now facts.now (T.state tree.old) ++ account_messages options.entry.now facts.now moment (T.state tree.old) }
    ensures acted { Acted T.Tree
        (AccountWay (run_edits options.entry.now facts.now moment (T.state tree.old)) (T.state tree.old))
        (IsAccountStep (run_edits options.entry.now facts.now moment (T.state tree.old)) (T.state tree.old))
        (accounts_work options.entry.now facts.now moment (T.state tree.old))
        moment tree.old tree.new result }
    ensures recovers { Recovers (run_requests options.entry.now facts.now (T.state tree.old)) moment (T.state tree.old)
        (steps_done T.Tree tree.old tree.new) }
    ensures reread { AreRequestsReread options.entry.now facts.now moment (T.state tree.old)
        (steps_done T.Tree tree.old tree.new) }
    ensures anew { AccountsRecoverAnew options.entry.now facts.now moment (T.state tree.old)
        (steps_done T.Tree tree.old tree.new) }
    ensures framed { AreAccountsFramed moment (T.state tree.old) (steps_done T.Tree tree.old tree.new) }
{
    let read = read_requests(alloc, tree, &options.words, facts, messages)?;
    let answer = accounts_run(alloc, tree, &read.lines, moment, messages);
    ended(alloc, answer, read.missing, read.invalid, messages)
}

/// Returns how a run ended, for its answer and what was read. It adds a message if no number is left for a name.
fn ended(
    alloc: Global,
    answer: Result<Carried, AccountsFault>,
    missing: bool,
    invalid: bool,
    messages: &mut Messages,
) -> Result<RunEnd, TreeFault>
    ensures { IsEnded answer missing invalid result messages.old messages.new }
{
    match answer {
        Ok(carried) => Ok(end_of(carried, missing, invalid)),
        Err(AccountsFault::NoFreeId(name)) => {
            say_lacking(alloc, name.as_slice(), messages)?;
            Ok(RunEnd::NoFreeId(name))
        }
        Err(AccountsFault::Failed) => Err(TreeFault::Failed),
        Err(AccountsFault::Memory) => Err(TreeFault::Memory),
    }
}

/// Returns the text `no free id for NAME`.
fn lacking_text(alloc: Global, name: &[u8]) -> Result<Vec<u8>, AllocError>
    ensures text { IfOk result (λ text. text.items ≡ lacking_text name.now) }
    ensures line { IfOk result (λ text. is_line text.items ≡ true) }
{
    let mut text = Vec::from_slice(alloc, b"no free id for ")?;
    let printed = print_bytes(alloc, name)?;
    text.extend_from_slice(&printed)?;
    Ok(text)
}

/// Adds the message that no number is left for a name.
fn say_lacking(alloc: Global, name: &[u8], messages: &mut Messages) -> Result<(), AllocError>
    ensures ok { OnOk result (messages.new ≡ messages.old ++ lacking_text name.now ∷ []) }
    ensures err { OnErr result (messages.new ≡ messages.old) }
{
    let text = lacking_text(alloc, name)?;
    messages.push(&text)
}
