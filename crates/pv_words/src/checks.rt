//! Which options may be given together, and which of them a tool needs.
ghost use Rattle.std.specs.Prelude.{◌≡◌, ◌&&◌};
ghost use Rattle.std.specs.List.{list_all, list_any};
ghost use Rattle.clap.specs.Matches.{found_of};
ghost use Rattle.pv_words.specs.Meaning.{has_file, has_needed, may_stand};
ghost use Rattle.pv_words.specs.Reading.{files_in, is_allowed_in, is_found};
ghost use Rattle.pv_words.specs.Table.{all_options, needed_by, suffices_for};

use crate::matches::{has_dash, has_file_words, is_given};
use crate::option::{OptionName, all_options};
use clap::ArgMatches;
use pv_text::Tool;

/// Returns whether at least one of the options is given.
fn is_any_given(matches: &ArgMatches<'_>, options: &[OptionName]) -> bool
    ensures { result ≡ list_any (is_found (found_of matches.now)) options.now }
{
    options.iter().any(|option| is_given(matches, *option))
}

/// Returns whether a file argument is given, if the option needs one.
fn has_file(matches: &ArgMatches<'_>, option: OptionName) -> bool
    ensures { result ≡ has_file option (files_in (found_of matches.now)) }
{
    !option.needs_file() || has_file_words(matches)
}

/// Returns whether an option is not given, or may be given beside the others.
fn may_stand(tool: Tool, matches: &ArgMatches<'_>, option: OptionName) -> bool
    ensures { result ≡ may_stand tool (is_found (found_of matches.now)) (files_in (found_of matches.now)) option }
{
    !is_given(matches, option)
        || (option.is_for(tool)
            && !is_any_given(matches, option.excludes())
            && has_file(matches, option))
}

/// Returns whether the options may be given together, one that the tool needs is given, and no file argument is
/// `-`.
pub(crate) fn is_allowed(tool: Tool, matches: &ArgMatches<'_>) -> bool
    ensures { result ≡ is_allowed_in tool (found_of matches.now) }
{
    each_may_stand(tool, matches) && has_needed(tool, matches) && !has_dash(matches)
}

/// Returns whether each option is not given, or may be given beside the others.
fn each_may_stand(tool: Tool, matches: &ArgMatches<'_>) -> bool
    ensures { result ≡ list_all (may_stand tool (is_found (found_of matches.now)) (files_in (found_of matches.now))) all_options }
{
    all_options()
        .iter()
        .all(|option| may_stand(tool, matches, *option))
}

/// Returns whether an option that the tool needs is given, if it needs one.
fn has_needed(tool: Tool, matches: &ArgMatches<'_>) -> bool
    ensures { result ≡ has_needed (is_found (found_of matches.now)) (needed_by tool) }
{
    !needs_one(tool) || is_one_given(tool, matches)
}

/// Returns whether the tool needs one of its options.
fn needs_one(tool: Tool) -> bool
    ensures { result ≡ list_any (suffices_for tool) all_options }
{
    all_options().iter().any(|option| option.suffices_for(tool))
}

/// Returns whether an option is given that suffices for the tool.
fn is_one_given(tool: Tool, matches: &ArgMatches<'_>) -> bool
    ensures { result ≡ list_any (λ option. suffices_for tool option && is_found (found_of matches.now) option) all_options }
{
    all_options().iter().any(|option| option.suffices_for(tool) && is_given(matches, *option))
}
