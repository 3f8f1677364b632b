//! What a run reads before it carries out lines.
ghost use Rattle.std.specs.Prelude.{◌≡◌, ◌++◌, IfOk, OnOk};
ghost use Rattle.std.specs.List.{AllByRecursion};
ghost use Rattle.pv_text.specs.GivenMessages.{MessagesPart};
ghost use Rattle.pv_lines.specs.Lines.{IsLine};
ghost use Rattle.pv_read_config.specs.Known.{configured};
ghost use Rattle.pv_table.specs.Active.{active, duplicates};
ghost use Rattle.provision_run.specs.Phased.{is_invalid, lines_messages, run_lines};

use pv_lines::LineList;
use pv_read_config::read_configuration;
use pv_steps::Tree;
use pv_table::{Table, build};
use pv_text::{Facts, Messages};
use pv_words::Options;
use std::alloc::{AllocError, Global};

/// What a run of systemd-tmpfiles reads.
#[derive(Drop)]
pub(crate) struct RunTable {
    /// The active lines.
    pub table: Table,
    /// Whether a line could not be read.
    pub invalid: bool,
    /// Whether a configuration file that the words name was not found.
    pub missing: bool,
}

/// Reads the configuration of a tree. A line that makes the object at the path of an earlier one gives the message that
/// it is a duplicate.
pub(crate) fn read_run<T: Tree>(
    alloc: Global,
    options: &Options,
    facts: &Facts,
    tree: &T,
    messages: &mut Messages,
) -> Result<RunTable, AllocError>
    ensures lines { IfOk result (λ run. run.table ≡ run_lines options.entry.now facts.now (T.state tree.now)) }
    ensures invalid { IfOk result (λ run. run.invalid ≡ is_invalid options.entry.now facts.now (T.state tree.now)) }
    ensures missing { IfOk result (λ run. run.missing ≡ (configured (T.state tree.now) facts.now options.entry.now.words).missing) }
    ensures whole { IfOk result (λ run. AllByRecursion IsLine run.table) }
    ensures new_messages { OnOk result (messages.new ≡ messages.old ++ lines_messages options.entry.now facts.now (T.state tree.now)) }
    ensures part { MessagesPart (lines_messages options.entry.now facts.now (T.state tree.now)) messages.old messages.new }
{
    let read = read_configuration(alloc, tree, &options.words, facts, messages)?;
    let table = build_active(alloc, LineList::of(read.lines), options, messages)?;
    Ok(RunTable {
        table,
        invalid: read.invalid,
        missing: read.missing,
    })
}

/// Returns the active lines, by the filters of the options.
fn build_active(
    alloc: Global,
    lines: LineList,
    options: &Options,
    messages: &mut Messages,
) -> Result<Table, AllocError>
    ensures table { IfOk result (λ table. table
        ≡ active options.entry.now.boot options.entry.now.prefix options.entry.now.exclude_prefix lines) }
    ensures new_messages { OnOk result (messages.new
        ≡ messages.old ++ duplicates options.entry.now.boot options.entry.now.prefix options.entry.now.exclude_prefix lines) }
    ensures part { MessagesPart (duplicates options.entry.now.boot options.entry.now.prefix options.entry.now.exclude_prefix lines)
        messages.old messages.new }
{
    build(
        alloc,
        lines,
        options.boot,
        options.prefix.as_ref(),
        options.exclude_prefix.as_ref(),
        messages,
    )
}
