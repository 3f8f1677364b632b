//! Builds the table of active lines from the lines of a configuration.
ghost use Rattle.std.specs.Prelude.{◌≡◌, [], ◌∷◌, ◌++◌, IfOk, OnOk, OnErr};
ghost use Rattle.std.specs.Option.{option_copied};
ghost use Rattle.pv_lines.specs.Lines.{IsLine};
ghost use Rattle.pv_text.specs.GivenMessages.{MessagesPart};
ghost use Rattle.pv_table.specs.Active.{active, dropped_message, duplicate_message, duplicates, line_message, with_line};

use crate::reach::path_of;
use crate::same::ask_same;
use crate::staying::stays;
use crate::table::Table;
use pv_lines::{Line, LineList};
use pv_path::{TreePath, print_path};
use pv_text::Messages;
use std::alloc::{AllocError, Global};

/// Builds the table of the active lines (tmpfiles.d(5), systemd-tmpfiles(8)). They are in the order in which they were
/// read, which is called the listing order.
///
/// - `lines` are the lines that were read.
/// - `boot` says whether the run has `--boot`. Without it, lines with the modifier `!` are left out.
/// - `prefix` is the path of `--prefix`. Only lines whose path or pattern begins with its components stay. `None`
///   does not filter.
/// - `exclude` is the path of `--exclude-prefix`. Lines whose path or pattern begins with its components are left
///   out. `None` does not filter.
///
/// Of several remaining lines that make or copy an object at one path, the first stays. Each other one is left out
/// with the message `FILE:N: duplicate line for PATH`. There is no message if it asks for the same as the first.
///
/// The only error is `AllocError`, and then only some of these messages, a prefix of their list, were added.
pub fn build(
    alloc: Global,
    lines: LineList,
    boot: bool,
    prefix: Option<&TreePath>,
    exclude: Option<&TreePath>,
    messages: &mut Messages,
) -> Result<Table, AllocError>
    ensures table { IfOk result (λ table. table ≡ active boot (option_copied prefix.entry) (option_copied exclude.entry) lines) }
    ensures new_messages { OnOk result (messages.new ≡ messages.old ++ duplicates boot (option_copied prefix.entry) (option_copied exclude.entry) lines) }
    ensures part { MessagesPart (duplicates boot (option_copied prefix.entry) (option_copied exclude.entry) lines) messages.old messages.new }
{
    let mut table = Table::new(alloc);
    for line in lines.into_vec() {
        if stays(alloc, &line, boot, prefix, exclude)? {
            table = keep(alloc, table, line, messages)?;
        }
    }
    Ok(table)
}

/// Keeps a line, unless a line that makes or copies an object at the same path is kept already.
fn keep(
    alloc: Global,
    table: Table,
    line: Line,
    messages: &mut Messages,
) -> Result<Table, AllocError>
    requires { IsLine line }
    ensures kept { IfOk result (λ more. more ≡ with_line table line) }
    ensures new_messages { OnOk result (messages.new ≡ messages.old ++ line_message table line) }
    ensures messages_kept { OnErr result (messages.new ≡ messages.old) }
{
    match table.like(&line) {
        Some(first) => {
            say_dropped(alloc, first, &line, messages)?;
            Ok(table)
        }
        None => table.with(line),
    }
}

/// Adds the message that a line is a duplicate of the first, unless it asks for the same.
fn say_dropped(
    alloc: Global,
    first: &Line,
    line: &Line,
    messages: &mut Messages,
) -> Result<(), AllocError>
    ensures new_messages { OnOk result (messages.new ≡ messages.old ++ dropped_message first.now line.now) }
    ensures messages_kept { OnErr result (messages.new ≡ messages.old) }
{
    if ask_same(first, line) {
        Ok(())
    } else {
        say_duplicate(alloc, line, messages)
    }
}

/// Adds the message that a line is a duplicate.
fn say_duplicate(alloc: Global, line: &Line, messages: &mut Messages) -> Result<(), AllocError>
    ensures new_messages { OnOk result (messages.new ≡ messages.old ++ duplicate_message line.now ∷ []) }
    ensures messages_kept { OnErr result (messages.new ≡ messages.old) }
{
    let mut text = Vec::from_slice(alloc, b"duplicate line for ")?;
    let path = print_path(alloc, &path_of(alloc, line)?)?;
    text.extend_from_slice(&path)?;
    messages.push_at(&line.place, &text)
}
