//! Patterns and paths.
use super::given::child_of;
use crate::marks::{Arguments, new_messages, number_in, shown, spaced, unread};
use pv_glob::{Pattern, literal, matches, matches_first, parse_pattern};
use pv_path::{PathFault, TreePath, has_staging, parse_path};
use std::alloc::{AllocError, Global};

/// What a call answers for arguments.
pub(crate) fn answer_to(
    alloc: Global,
    call: &str,
    arguments: &Arguments,
) -> Result<Vec<u8>, AllocError> {
    match call {
        "pattern" => pattern_answer(alloc, arguments.at(0)),
        "matches" => match_answer(alloc, arguments.at(0), arguments.at(1)),
        "copy-matches" => copy_answer(alloc, arguments.at(0), arguments.at(1)),
        "child-matches" => child_answer(alloc, arguments.at(0), arguments.at(1), arguments.at(2)),
        "first-matches" => {
            first_answer(
                alloc,
                arguments.at(0),
                arguments.at(1),
                arguments.at(2),
                arguments.at(3),
            )
        }
        "expansions" => expansions_answer(alloc, arguments.at(0), arguments.at(1)),
        "literal" => literal_answer(alloc, arguments.at(0), arguments.at(1)),
        _ => unread(alloc),
    }
}

/// A fault of a path by its name.
fn path_fault(alloc: Global, fault: PathFault) -> Result<Vec<u8>, AllocError> {
    shown(alloc, &format_args!("no path: {fault}"))
}

/// Whether a text is a pattern, or its fault.
fn pattern_answer(alloc: Global, text: &[u8]) -> Result<Vec<u8>, AllocError> {
    match parse_pattern(alloc, text) {
        Ok(_) => new_messages(alloc, "ok"),
        Err(fault) => shown(alloc, &fault),
    }
}

/// Whether something matches.
fn answer(alloc: Global, is_match: bool) -> Result<Vec<u8>, AllocError> {
    new_messages(alloc, if is_match { "matches" } else { "differs" })
}

/// Whether a pattern matches the path of a text.
fn path_answer(alloc: Global, pattern: &Pattern, path: &[u8]) -> Result<Vec<u8>, AllocError> {
    match parse_path(alloc, path) {
        Ok(path) => answer(alloc, matches(pattern, &path)),
        Err(fault) => path_fault(alloc, fault),
    }
}

/// Whether the pattern of a text matches the path of another.
fn match_answer(alloc: Global, pattern: &[u8], path: &[u8]) -> Result<Vec<u8>, AllocError> {
    match parse_pattern(alloc, pattern) {
        Ok(pattern) => path_answer(alloc, &pattern, path),
        Err(fault) => shown(alloc, &fault),
    }
}

/// Whether a copy of the pattern of a text matches the path of another.
fn copy_answer(alloc: Global, pattern: &[u8], path: &[u8]) -> Result<Vec<u8>, AllocError> {
    match parse_pattern(alloc, pattern) {
        Ok(pattern) => path_answer(alloc, &pattern.copy()?, path),
        Err(fault) => shown(alloc, &fault),
    }
}

/// Whether the pattern of a text matches the path of a name in the directory of another.
fn child_answer(
    alloc: Global,
    pattern: &[u8],
    above: &[u8],
    name: &[u8],
) -> Result<Vec<u8>, AllocError> {
    let Some(path) = child_of(alloc, above, name)? else {
        return new_messages(alloc, "no path or no name");
    };
    match parse_pattern(alloc, pattern) {
        Ok(pattern) => answer(alloc, matches(&pattern, &path)),
        Err(fault) => shown(alloc, &fault),
    }
}

/// Whether a pattern matches so many first names of a path.
fn front_answer(
    alloc: Global,
    pattern: &Pattern,
    path: &TreePath,
    count: &[u8],
) -> Result<Vec<u8>, AllocError> {
    match number_in(count) {
        Some(count) if count <= path.len() as u64 => {
            answer(alloc, matches_first(pattern, path, count as usize))
        }
        _ => new_messages(alloc, "not so many names"),
    }
}

/// Whether a pattern matches so many first names of the path of a text.
fn text_front_answer(
    alloc: Global,
    pattern: &Pattern,
    path: &[u8],
    count: &[u8],
) -> Result<Vec<u8>, AllocError> {
    match parse_path(alloc, path) {
        Ok(path) => front_answer(alloc, pattern, &path, count),
        Err(fault) => path_fault(alloc, fault),
    }
}

/// Whether the pattern of a text, or a copy of it, matches so many first names of the path of another.
fn first_answer(
    alloc: Global,
    how: &[u8],
    pattern: &[u8],
    path: &[u8],
    count: &[u8],
) -> Result<Vec<u8>, AllocError> {
    match parse_pattern(alloc, pattern) {
        Ok(pattern) => match how {
            b"copied" => text_front_answer(alloc, &pattern.copy()?, path, count),
            _ => text_front_answer(alloc, &pattern, path, count),
        },
        Err(fault) => shown(alloc, &fault),
    }
}

/// The number of the expansions of a pattern, and whether it matches the path of a text.
fn count_text(alloc: Global, pattern: &Pattern, path: &[u8]) -> Result<Vec<u8>, AllocError> {
    let answer = path_answer(alloc, pattern, path)?;
    spaced(shown(alloc, &pattern.plains().len())?, &answer)
}

/// The number of the expansions of the pattern of a text, and whether it matches the path of another, or its fault.
fn expansions_answer(alloc: Global, pattern: &[u8], path: &[u8]) -> Result<Vec<u8>, AllocError> {
    match parse_pattern(alloc, pattern) {
        Ok(pattern) => count_text(alloc, &pattern, path),
        Err(fault) => shown(alloc, &fault),
    }
}

/// The number of the expansions of the pattern that matches a path alone, and whether it matches another.
fn literal_answer(alloc: Global, own: &[u8], path: &[u8]) -> Result<Vec<u8>, AllocError> {
    match parse_path(alloc, own) {
        Ok(own) if !has_staging(&own) => count_text(alloc, &literal(alloc, &own)?, path),
        _ => new_messages(alloc, "no path"),
    }
}
