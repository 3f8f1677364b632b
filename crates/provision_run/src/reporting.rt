//! A report on the lines of a configuration.
ghost use Rattle.std.specs.Prelude.{◌≡◌, IfOk, OnOk};
ghost use Rattle.provision_run.specs.Reported.{HasReported, HasReportedPart, report_end};

use crate::ending::{RunEnd, end_of};
use pv_lines::LineList;
use pv_overlap::{report, say_report};
use pv_read_config::read_configuration;
use pv_steps::{Carried, Tree};
use pv_text::{Facts, Messages, say_all};
use pv_words::Options;
use std::alloc::{AllocError, Global};

/// Reads the configuration of a tree, and reports on all its lines, active or not: which of them share a path, and
/// which have a hazard.
pub(crate) fn report_run<T: Tree>(
    alloc: Global,
    options: &Options,
    facts: &Facts,
    tree: &T,
    messages: &mut Messages,
) -> Result<RunEnd, AllocError>
    ensures new_messages { OnOk result (HasReported options.entry.now facts.now (T.state tree.now) messages.old messages.new) }
    ensures end { IfOk result (λ end. end ≡ report_end options.entry.now facts.now (T.state tree.now)) }
    ensures part { HasReportedPart options.entry.now facts.now (T.state tree.now) messages.old messages.new }
{
    let read = read_configuration(alloc, tree, &options.words, facts, messages)?;
    let lines = LineList::of(read.lines);
    let found = report(alloc, &lines)?;
    let mut new_messages = Messages::new(alloc);
    say_report(alloc, &lines, &found, &mut new_messages)?;
    say_all(&new_messages, messages)?;
    Ok(end_of(Carried::Whole, read.missing, read.invalid))
}
