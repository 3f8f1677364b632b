//! Reads the options and file arguments of a tool.
ghost use Rattle.std.specs.Prelude.{◌≡◌, map, string_bytes};
ghost use Rattle.std.specs.Option.{option_map};
ghost use Rattle.clap.specs.Matches.{found_of};
ghost use Rattle.pv_words.specs.Answered.{Answers};
ghost use Rattle.pv_words.specs.Meaning.{meaning_for, options_of, options_with};
ghost use Rattle.pv_words.specs.Reading.{files_in, is_found, options_in, value_in};
ghost use Rattle.pv_words.specs.Values.{values_read};

use crate::checks::is_allowed;
use crate::matches::{files_of, is_given, matches_of, value_of};
use crate::option::{OptionName, tool_named};
use crate::values::{decimal_in, moment_in, path_in};
use crate::words_fault::WordsFault;
use clap::ArgMatches;
use pv_path::{TreePath, WordList};
use pv_text::Tool;
use std::alloc::Global;

/// The options and file arguments of a run of a tool. docs/USAGE.md says what each of them does.
#[derive(Drop)]
pub struct Options {
    /// The tool, which the first argument names.
    pub tool: Tool,
    /// Whether `--create` is given (systemd-tmpfiles(8)).
    pub create: bool,
    /// Whether `--remove` is given.
    pub remove: bool,
    /// Whether `--clean` is given.
    pub clean: bool,
    /// Whether `--report` is given.
    pub report: bool,
    /// Whether `--purge` is given.
    pub purge: bool,
    /// The path of `--explain`, if it is given.
    pub explain: Option<TreePath>,
    /// Whether `--boot` is given.
    pub boot: bool,
    /// The path of `--prefix`, if it is given.
    pub prefix: Option<TreePath>,
    /// The path of `--exclude-prefix`, if it is given.
    pub exclude_prefix: Option<TreePath>,
    /// The number of steps of `--stop-after`, if it is given.
    pub stop_after: Option<u64>,
    /// The time of `--now`, if it is given, in microseconds since 1970-01-01 UTC.
    pub now: Option<u64>,
    /// The file arguments, in the order given.
    pub words: WordList,
}

/// The values of the options that have one.
#[derive(Drop)]
struct Values {
    explain: Option<TreePath>,
    prefix: Option<TreePath>,
    exclude_prefix: Option<TreePath>,
    stop_after: Option<u64>,
    now: Option<u64>,
}

/// Reads the options and file arguments of a tool, which the first argument names (systemd-tmpfiles(8),
/// systemd-sysusers(8)).
///
/// An option is `--NAME`, `--NAME=VALUE` or `--NAME VALUE`, with its full name, and is given at most once. Options
/// and file arguments may alternate. After `--` all arguments are file arguments. A value after a space does not
/// begin with a dash, except that it may be `-`. A file argument is never `-`.
///
/// `systemd-tmpfiles` needs at least one of `--create`, `--remove`, `--clean`, `--purge`, `--report` and `--explain`.
/// `--purge` needs a file argument. None of `--purge`, `--report` and `--explain` may be given together with any other
/// of these six. `--report` and `--explain` exclude `--stop-after` too. `systemd-sysusers` has only `--stop-after` and
/// `--now`.
///
/// The error is `Usage` exactly if the arguments mean nothing. `Memory` may come instead if an allocation fails.
pub fn options_of(alloc: Global, words: &[String]) -> Result<Options, WordsFault>
    ensures { Answers result (options_of (map string_bytes words.now)) }
{
    match words {
        [] => Err(WordsFault::Usage),
        [first, rest @ ..] => match tool_named(first.as_bytes()) {
            Some(tool) => options_for(alloc, tool, rest),
            None => Err(WordsFault::Usage),
        },
    }
}

/// Reads the arguments after the name of the tool.
fn options_for(alloc: Global, tool: Tool, words: &[String]) -> Result<Options, WordsFault>
    ensures { Answers result (meaning_for tool (map string_bytes words.now)) }
{
    let matches = matches_of(alloc, words)?;
    options_from(alloc, tool, &matches)
}

/// Makes the options, if they may be given together and each value can be read.
fn options_from(alloc: Global, tool: Tool, matches: &ArgMatches<'_>) -> Result<Options, WordsFault>
    ensures { Answers result (options_in tool (found_of matches.now)) }
{
    if is_allowed(tool, matches) {
        read_options(alloc, tool, matches)
    } else {
        Err(WordsFault::Usage)
    }
}

/// Makes the options, if each value can be read.
fn read_options(alloc: Global, tool: Tool, matches: &ArgMatches<'_>) -> Result<Options, WordsFault>
    ensures { Answers result
        (option_map (options_with tool (is_found (found_of matches.now)) (files_in (found_of matches.now)))
        (values_read (value_in (found_of matches.now)))) }
{
    let values = values_of(alloc, matches)?;
    let words = files_of(alloc, matches)?;
    Ok(options_with(tool, matches, words, values))
}

/// Makes the options from those that are given, the file arguments and the values.
fn options_with(tool: Tool, matches: &ArgMatches<'_>, words: WordList, values: Values) -> Options
    ensures { result ≡ options_with tool (is_found (found_of matches.now)) words values }
{
    Options {
        tool,
        create: is_given(matches, OptionName::Create),
        remove: is_given(matches, OptionName::Remove),
        clean: is_given(matches, OptionName::Clean),
        report: is_given(matches, OptionName::Report),
        purge: is_given(matches, OptionName::Purge),
        explain: values.explain,
        boot: is_given(matches, OptionName::Boot),
        prefix: values.prefix,
        exclude_prefix: values.exclude_prefix,
        stop_after: values.stop_after,
        now: values.now,
        words,
    }
}

/// Reads the values of the options that are given.
fn values_of(alloc: Global, matches: &ArgMatches<'_>) -> Result<Values, WordsFault>
    ensures { Answers result (values_read (value_in (found_of matches.now))) }
{
    let stop_after = decimal_in(value_of(matches, OptionName::StopAfter))?;
    let now = moment_in(value_of(matches, OptionName::Now))?;
    let explain = path_in(alloc, value_of(matches, OptionName::Explain))?;
    let prefix = path_in(alloc, value_of(matches, OptionName::Prefix))?;
    let exclude_prefix = path_in(alloc, value_of(matches, OptionName::ExcludePrefix))?;
    Ok(Values {
        explain,
        prefix,
        exclude_prefix,
        stop_after,
        now,
    })
}
