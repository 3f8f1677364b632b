//! Rows of tables: lines of a configuration with the numbers of those that are kept, in the orders of the phases. The
//! messages on the others follow.
use crate::lines::{add_messages, lines_of};
use pv_lines::Line;
use pv_path::{TreePath, parse_path};
use pv_table::{Action, IndexList, Table, action_of, build, create_order, remove_order};
use pv_text::Messages;
use std::alloc::{AllocError, Global};
use std::test::Fail;

/// The path of a filter; an empty text is none.
fn filter_of(alloc: Global, text: &[u8]) -> Option<TreePath> {
    match parse_path(alloc, text) {
        Ok(path) => Some(path),
        Err(_) => None,
    }
}

/// Adds the numbers of the lines at some places.
fn add_numbers(
    text: &mut Vec<u8>,
    table: &Table,
    alloc: Global,
    places: &IndexList,
) -> Result<(), AllocError> {
    for place in places.as_slice() {
        if let Some(line) = table.line(*place) {
            add_number(text, alloc, line.place.number)?;
        }
    }
    Ok(())
}

/// Adds a number after a space.
fn add_number(text: &mut Vec<u8>, alloc: Global, number: u32) -> Result<(), AllocError> {
    text.push(b' ')?;
    let digits = number.to_string(alloc)?;
    text.extend_from_slice(digits.as_bytes())
}

/// The lines of a text that pass the filters, if it is the boot or not.
fn filtered(
    alloc: Global,
    boot: bool,
    prefix: &[u8],
    exclude: &[u8],
    text: &[u8],
    messages: &mut Messages,
) -> Result<Table, Fail> {
    let lines = lines_of(alloc, text)?;
    let prefix = filter_of(alloc, prefix);
    let exclude = filter_of(alloc, exclude);
    Ok(build(
        alloc,
        lines,
        boot,
        prefix.as_ref(),
        exclude.as_ref(),
        messages,
    )?)
}

/// What a run does with lines: the numbers of those of the create phase, then of the remove phase. Then come the
/// messages on lines that are dropped.
fn plan(
    alloc: Global,
    boot: bool,
    prefix: &[u8],
    exclude: &[u8],
    text: &[u8],
) -> Result<Vec<u8>, Fail> {
    let mut messages = Messages::new(alloc);
    let table = filtered(alloc, boot, prefix, exclude, text, &mut messages)?;
    Ok(plan_text(alloc, &table, &messages)?)
}

/// Adds the numbers of the lines of a table in the order of the create phase.
fn add_create(text: &mut Vec<u8>, alloc: Global, table: &Table) -> Result<(), AllocError> {
    text.extend_from_slice(b"create")?;
    add_numbers(text, table, alloc, &create_order(alloc, table)?)
}

/// Adds the numbers of the lines of a table in the order of the remove phase.
fn add_remove(text: &mut Vec<u8>, alloc: Global, table: &Table) -> Result<(), AllocError> {
    text.extend_from_slice(b" remove")?;
    add_numbers(text, table, alloc, &remove_order(alloc, table)?)
}

/// The numbers of the lines of a table in both orders, and what is said.
fn plan_text(alloc: Global, table: &Table, messages: &Messages) -> Result<Vec<u8>, AllocError> {
    let mut text = Vec::new(alloc);
    add_create(&mut text, alloc, table)?;
    add_remove(&mut text, alloc, table)?;
    add_messages(&mut text, messages)?;
    Ok(text)
}

/// Whether it is the boot, the two filters, the lines, and what is done with them.
const PLANS: &[(bool, &[u8], &[u8], &[u8], &[u8])] = &[
    (
        false,
        b"",
        b"",
        b"d /a/b/c;d /x;d /a;d /a/b",
        b"create 3 4 1 2 remove",
    ),
    (
        false,
        b"",
        b"",
        b"z /a;d /a/b/c;d /x;d /a;d /a/b",
        b"create 4 5 2 3 1 remove",
    ),
    (
        false,
        b"",
        b"",
        b"r /a;d /b;D /c;R /e",
        b"create 2 3 remove 1 3 4",
    ),
    (
        false,
        b"",
        b"",
        b"d /b/c;d /a;x /b;d /b;X /b;d /;w /b - - - - x",
        b"create 6 4 1 2 7 remove",
    ),
    (
        false,
        b"",
        b"",
        b"d /a/b;d /ab;d /a",
        b"create 3 1 2 remove",
    ),
    // Filters: the boot, a prefix, and an excluded prefix.
    (false, b"", b"", b"d! /x 0700;d /x 0755", b"create 2 remove"),
    (
        true,
        b"",
        b"",
        b"d! /x 0700;d /x 0755",
        b"create 1 remove|A:2: duplicate line for /x",
    ),
    (
        false,
        b"/run",
        b"",
        b"d /run/a;d /runs/b",
        b"create 1 remove",
    ),
    (
        false,
        b"/run",
        b"",
        b"d //run//a;z /run/*;z /ru*;d /run",
        b"create 4 1 2 remove",
    ),
    (
        false,
        b"",
        b"/run",
        b"d /run/a;d /runs/b;d /run",
        b"create 2 remove",
    ),
    // The first line with a path stays.
    (
        false,
        b"",
        b"",
        b"d /x 0700;d /x 0755",
        b"create 1 remove|A:2: duplicate line for /x",
    ),
    (false, b"", b"", b"d /x 0700;d /x 0700", b"create 1 remove"),
    (
        false,
        b"",
        b"",
        b"d /x;f /x;d /x",
        b"create 1 remove|A:2: duplicate line for /x",
    ),
    (
        false,
        b"",
        b"",
        b"d /x - - - 10d;d /x - - - ~10d",
        b"create 1 remove|A:2: duplicate line for /x",
    ),
    (
        false,
        b"",
        b"",
        b"F /x - - - - a;f+ /x - - - - a;f+ /x - - - - b",
        b"create 1 remove|A:3: duplicate line for /x",
    ),
    (
        false,
        b"",
        b"",
        b"r /x;d /x;r /x;z /x;z /x",
        b"create 2 4 5 remove 1 3",
    ),
];

#[test]
fn lines_are_filtered_and_ordered(rt: HostRuntime) -> Result<(), Fail> {
    for &(boot, prefix, exclude, text, wanted) in PLANS {
        let done = plan(rt.alloc(), boot, prefix, exclude, text)?;
        assert!(rt; done.as_slice() == wanted, "{text:?} {done:?}");
    }
    Ok(())
}

/// A letter for what a line asks for: an object made, a copy, something set of what is there, or nothing.
fn letter_of(action: &Action) -> u8 {
    match action {
        Action::Create(_) => b'm',
        Action::Copy(_) => b'c',
        Action::Adjust(_) => b's',
        Action::Idle => b'-',
    }
}

/// The letters of what lines ask for.
fn actions_of(alloc: Global, lines: &[Line]) -> Result<Vec<u8>, AllocError> {
    let mut letters = Vec::new(alloc);
    for line in lines {
        let action = action_of(alloc, line)?;
        letters.push(letter_of(&action))?;
    }
    Ok(letters)
}

/// The letters of what the lines of a text ask for.
fn letters_for(alloc: Global, text: &[u8]) -> Result<Vec<u8>, Fail> {
    let lines = lines_of(alloc, text)?;
    Ok(actions_of(alloc, lines.as_slice())?)
}

/// A line of each type.
const EACH_TYPE: &[u8] =
    b"f /a - - - - x;F /a;d /a;D /a;v /a;q /a;Q /a;p /a;L /a - - - - /t;c /a - - - - 1:3;b /a - - - - 1:3;C /a - - - - /s;w /a - - - - x;e /a;z /a;Z /a;a /a - - - - u:1:r;A /a - - - - u:1:r;t /a - - - - user.a=1;T /a - - - - user.a=1;h /a - - - - +i;H /a - - - - +i;r /a;R /a;x /a;X /a";

#[test]
fn each_type_asks_for_something_of_its_own(rt: HostRuntime) -> Result<(), Fail> {
    let letters = letters_for(rt.alloc(), EACH_TYPE)?;
    assert!(rt;
        letters.as_slice() == b"mmmmmmmmmmmcssssssssss----".as_slice(),
        "{letters:?}"
    );
    Ok(())
}
