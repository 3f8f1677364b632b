//! Whether two lines ask for the same.
ghost use Rattle.std.specs.Prelude.{◌≡◌};
ghost use Rattle.pv_table.specs.Active.{ask_same, same_argument, same_owners, same_settings, same_times, same_type, same_ways};

use pv_lines::{Argument, Line};

/// Returns whether two lines that make or copy an object at one path ask for the same. The call does not allocate.
pub(crate) fn ask_same(a: &Line, b: &Line) -> bool
    ensures { result ≡ ask_same a.now b.now }
{
    same_type(a, b) && same_settings(a, b) && same_argument(&a.argument, &b.argument)
}

/// Returns whether two lines have the same type and modifiers.
fn same_type(a: &Line, b: &Line) -> bool
    ensures { result ≡ same_type a.now b.now }
{
    a.letter == b.letter && same_times(a, b) && same_ways(a, b)
}

/// Returns whether two lines have the same modifiers that say when they hold: `!`, `-` and `$`.
fn same_times(a: &Line, b: &Line) -> bool
    ensures { result ≡ same_times a.now b.now }
{
    a.boot == b.boot && a.minus == b.minus && a.purge == b.purge
}

/// Returns whether two lines have the same modifiers that say what they do: `+`, `=` and `~`.
fn same_ways(a: &Line, b: &Line) -> bool
    ensures { result ≡ same_ways a.now b.now }
{
    a.plus == b.plus && a.replace == b.replace && a.encoded == b.encoded
}

/// Returns whether two lines have the same mode, owners and age.
fn same_settings(a: &Line, b: &Line) -> bool
    ensures { result ≡ same_settings a.now b.now }
{
    a.mode == b.mode && same_owners(a, b) && a.age == b.age
}

/// Returns whether two lines have the same owners.
fn same_owners(a: &Line, b: &Line) -> bool
    ensures { result ≡ same_owners a.now b.now }
{
    a.user == b.user && a.group == b.group
}

/// Returns whether the arguments of two lines that make or copy an object are the same.
fn same_argument(a: &Argument, b: &Argument) -> bool
    ensures { result ≡ same_argument a.now b.now }
{
    match (a, b) {
        (Argument::FileBytes(a), Argument::FileBytes(b)) => a == b,
        (Argument::Target(a), Argument::Target(b)) => a == b,
        (Argument::Source(a), Argument::Source(b)) => a == b,
        (
            Argument::Device { major, minor },
            Argument::Device {
                major: other_major,
                minor: other_minor,
            },
        ) => major == other_major && minor == other_minor,
        (Argument::Ignored, Argument::Ignored) => true,
        _ => false,
    }
}
