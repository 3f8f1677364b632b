//! The option table, with a row for each option.
ghost use Rattle.std.specs.Prelude.{◌≡◌};
ghost use Rattle.pv_words.specs.Table.{Row as RowValue};
ghost use Rattle.pv_words.specs.Table.{all_options, is_flag, is_for, of_both, of_tmpfiles, row_of, suffices_for, takes_value, tool_named, with_file};

use pv_text::Tool;
use std::marker::Model;

/// An option of the table.
#[derive(Clone, Copy)]
pub(crate) enum OptionName {
    Create,
    Remove,
    Clean,
    Report,
    Purge,
    Explain,
    Boot,
    Prefix,
    ExcludePrefix,
    StopAfter,
    Now,
}

/// How the value of an option is read.
#[derive(Clone, Copy)]
pub(crate) enum Reader {
    /// The option is a flag, which has no value.
    Flag,
    /// The value is an absolute path.
    PathOf,
    /// The value is a decimal number below 2^64.
    Decimal,
    /// The value is a time, from 1970 on.
    Moment,
}

/// A row of the table.
#[derive(Drop)]
struct Row<'a> {
    /// The name of the option, without its two dashes.
    name: &'a str,
    /// Whether `systemd-tmpfiles` has the option.
    for_tmpfiles: bool,
    /// Whether `systemd-sysusers` has the option.
    for_sysusers: bool,
    /// How its value is read.
    reader: Reader,
    /// Whether it suffices as the one option that a tool needs.
    suffices: bool,
    /// The options that may not be given beside it.
    excludes: &'a [OptionName],
    /// Whether it needs a file argument.
    needs_file: bool,
}

impl<'a> Model for Row<'a> {
    ghost Value = { RowValue };

    ghost view = { λ r. record {
      name = r.name.now;
      for_tmpfiles = r.for_tmpfiles;
      for_sysusers = r.for_sysusers;
      reader = r.reader;
      suffices = r.suffices;
      excludes = r.excludes.now;
      needs_file = r.needs_file;
    } };
}

/// All options of the table.
const ALL_OPTIONS: [OptionName; 11] = [
    OptionName::Create,
    OptionName::Remove,
    OptionName::Clean,
    OptionName::Report,
    OptionName::Purge,
    OptionName::Explain,
    OptionName::Boot,
    OptionName::Prefix,
    OptionName::ExcludePrefix,
    OptionName::StopAfter,
    OptionName::Now,
];

impl<'a> Row<'a> {
    /// Makes a row for an option of `systemd-tmpfiles` alone.
    fn of_tmpfiles(
        name: &'a str,
        reader: Reader,
        suffices: bool,
        excludes: &'a [OptionName],
    ) -> Row<'a>
        ensures { result ≡ of_tmpfiles name.now reader suffices excludes.now }
    {
        Row {
            name,
            for_tmpfiles: true,
            for_sysusers: false,
            reader,
            suffices,
            excludes,
            needs_file: false,
        }
    }

    /// Makes a row for an option of both tools.
    fn of_both(name: &'a str, reader: Reader, suffices: bool, excludes: &'a [OptionName]) -> Row<'a>
        ensures { result ≡ of_both name.now reader suffices excludes.now }
    {
        Row {
            name,
            for_tmpfiles: true,
            for_sysusers: true,
            reader,
            suffices,
            excludes,
            needs_file: false,
        }
    }

    /// Makes the row one of an option that needs a file argument.
    fn with_file(mut self) -> Row<'a>
        ensures { result ≡ with_file self.entry }
    {
        self.needs_file = true;
        self
    }
}

impl OptionName {
    /// Returns the row of the option: name, reader, whether it suffices, what it excludes, and whether it needs a
    /// file argument.
    fn row<'a>(self) -> Row<'a>
        ensures { result ≡ row_of self }
    {
        match self {
            OptionName::Create => Row::of_tmpfiles("create", Reader::Flag, true, &[]),
            OptionName::Remove => Row::of_tmpfiles("remove", Reader::Flag, true, &[]),
            OptionName::Clean => Row::of_tmpfiles("clean", Reader::Flag, true, &[]),
            OptionName::Report => Row::of_tmpfiles(
                "report",
                Reader::Flag,
                true,
                &[
                    OptionName::Create,
                    OptionName::Remove,
                    OptionName::Clean,
                    OptionName::StopAfter,
                ],
            ),
            OptionName::Purge => Row::of_tmpfiles(
                "purge",
                Reader::Flag,
                true,
                &[
                    OptionName::Create,
                    OptionName::Remove,
                    OptionName::Clean,
                    OptionName::Report,
                ],
            )
            .with_file(),
            OptionName::Explain => Row::of_tmpfiles(
                "explain",
                Reader::PathOf,
                true,
                &[
                    OptionName::Create,
                    OptionName::Remove,
                    OptionName::Clean,
                    OptionName::Report,
                    OptionName::Purge,
                    OptionName::StopAfter,
                ],
            ),
            OptionName::Boot => Row::of_tmpfiles("boot", Reader::Flag, false, &[]),
            OptionName::Prefix => Row::of_tmpfiles("prefix", Reader::PathOf, false, &[]),
            OptionName::ExcludePrefix => {
                Row::of_tmpfiles("exclude-prefix", Reader::PathOf, false, &[])
            }
            OptionName::StopAfter => Row::of_both("stop-after", Reader::Decimal, false, &[]),
            OptionName::Now => Row::of_both("now", Reader::Moment, false, &[]),
        }
    }

    /// Returns the name of the option, without its two dashes.
    pub(crate) fn name<'a>(self) -> &'a str
        ensures { result.now ≡ (row_of self).name }
    {
        self.row().name
    }

    /// Returns whether the option has a value.
    pub(crate) fn takes_value(self) -> bool
        ensures { result ≡ takes_value (row_of self) }
    {
        !is_flag(self.row().reader)
    }

    /// Returns whether the tool has the option.
    pub(crate) fn is_for(self, tool: Tool) -> bool
        ensures { result ≡ is_for tool self }
    {
        match tool {
            Tool::Tmpfiles => self.row().for_tmpfiles,
            Tool::Sysusers => self.row().for_sysusers,
        }
    }

    /// Returns whether the option suffices as the one that the tool needs.
    pub(crate) fn suffices_for(self, tool: Tool) -> bool
        ensures { result ≡ suffices_for tool self }
    {
        self.is_for(tool) && self.row().suffices
    }

    /// Returns the options that may not be given beside this one.
    pub(crate) fn excludes(self) -> &'static [OptionName]
        ensures { result.now ≡ (row_of self).excludes }
    {
        self.row().excludes
    }

    /// Returns whether the option needs a file argument.
    pub(crate) fn needs_file(self) -> bool
        ensures { result ≡ (row_of self).needs_file }
    {
        self.row().needs_file
    }
}

/// Returns whether the reader is that of flags.
fn is_flag(reader: Reader) -> bool
    ensures { result ≡ is_flag reader }
{
    matches!(reader, Reader::Flag)
}

/// Returns all options of the table.
pub(crate) fn all_options() -> [OptionName; 11]
    ensures { result ≡ all_options }
{
    ALL_OPTIONS
}

/// Returns the tool with this name.
pub(crate) fn tool_named(name: &[u8]) -> Option<Tool>
    ensures { result ≡ tool_named name.now }
{
    if name == b"systemd-tmpfiles".as_slice() {
        Some(Tool::Tmpfiles)
    } else if name == b"systemd-sysusers".as_slice() {
        Some(Tool::Sysusers)
    } else {
        None
    }
}
