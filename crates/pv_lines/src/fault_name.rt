//! The names of errors, as messages print them.
ghost use Rattle.std.specs.Prelude.{◌≡◌};
ghost use Rattle.pv_lines.specs.FaultNames.{acl_name, age_name, name_of, path_name, pattern_name};

use crate::line_fault::LineFault;
use pv_acl::AclFault;
use pv_age::AgeFault;
use pv_glob::PatternFault;
use pv_path::PathFault;

/// Returns the name of an error of a path.
fn path_name(fault: PathFault) -> &'static [u8]
    ensures { result.now ≡ path_name fault }
{
    match fault {
        PathFault::NotAbsolute => b"NotAbsolute",
        PathFault::BadByte => b"BadByte",
        PathFault::PathTooLong => b"PathTooLong",
        PathFault::DotComponent => b"DotComponent",
        PathFault::NameTooLong => b"NameTooLong",
        PathFault::StagingName => b"StagingName",
        PathFault::Memory => b"Memory",
    }
}

/// Returns the name of an error of a pattern.
fn pattern_name(fault: PatternFault) -> &'static [u8]
    ensures { result.now ≡ pattern_name fault }
{
    match fault {
        PatternFault::NotAbsolute => b"NotAbsolute",
        PatternFault::BadByte => b"BadByte",
        PatternFault::PathTooLong => b"PathTooLong",
        PatternFault::DotComponent => b"DotComponent",
        PatternFault::StagingName => b"StagingName",
        PatternFault::UnclosedBracket => b"UnclosedBracket",
        PatternFault::BadRange => b"BadRange",
        PatternFault::BadClass => b"BadClass",
        PatternFault::Brace => b"Brace",
        PatternFault::TrailingBackslash => b"TrailingBackslash",
        PatternFault::Memory => b"Memory",
    }
}

/// Returns the name of an error of an age.
fn age_name(fault: AgeFault) -> &'static [u8]
    ensures { result.now ≡ age_name fault }
{
    match fault {
        AgeFault::BadStampLetter => b"BadStampLetter",
        AgeFault::BadNumber => b"BadNumber",
        AgeFault::BadUnit => b"BadUnit",
        AgeFault::Overflow => b"Overflow",
    }
}

/// Returns the name of an error of ACL entries.
fn acl_name(fault: AclFault) -> &'static [u8]
    ensures { result.now ≡ acl_name fault }
{
    match fault {
        AclFault::EmptyEntry => b"EmptyEntry",
        AclFault::BadTag => b"BadTag",
        AclFault::UnknownName => b"UnknownName",
        AclFault::BadPerm => b"BadPerm",
        AclFault::Memory => b"Memory",
    }
}

/// Returns the name of an error as messages print it, such as `BadMode`.
///
/// An error may wrap that of a part: a field, a specifier, a path, a pattern, an age or ACL entries. Then the name is
/// that of the inner error, such as `NotAbsolute`. The name has no index in it. The call does not allocate.
pub fn name_of(fault: LineFault) -> &'static [u8]
    ensures { result.now ≡ name_of fault }
{
    match fault {
        LineFault::Field(fault) => fault.name(),
        LineFault::UnknownType => b"UnknownType",
        LineFault::BadModifier => b"BadModifier",
        LineFault::Expand(fault) => fault.name(),
        LineFault::Path(fault) => path_name(fault),
        LineFault::Pattern(fault) => pattern_name(fault),
        LineFault::RootPath => b"RootPath",
        LineFault::BadMode => b"BadMode",
        LineFault::UnknownUser => b"UnknownUser",
        LineFault::UnknownGroup => b"UnknownGroup",
        LineFault::Age(fault) => age_name(fault),
        LineFault::ArgumentNeeded => b"ArgumentNeeded",
        LineFault::BadBase64 => b"BadBase64",
        LineFault::BadDevice => b"BadDevice",
        LineFault::BadAttribute => b"BadAttribute",
        LineFault::BadLetter => b"BadLetter",
        LineFault::Acl(fault) => acl_name(fault),
        LineFault::Memory => b"Memory",
    }
}
