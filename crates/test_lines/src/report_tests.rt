//! Rows of reports: lines of a configuration with what is said of them.
use crate::lines::{add_messages, lines_of};
use pv_lines::LineList;
use pv_overlap::{report, say_report};
use pv_text::Messages;
use std::alloc::{AllocError, Global};
use std::test::Fail;

/// Says the report on lines, of which there are few.
fn say_few(alloc: Global, lines: &LineList, messages: &mut Messages) -> Result<(), AllocError> {
    if lines.len() < 100 {
        let found = report(alloc, lines)?;
        say_report(alloc, lines, &found, messages)?;
    }
    Ok(())
}

/// The report on the lines of a text.
fn reported(alloc: Global, text: &[u8]) -> Result<Messages, Fail> {
    let lines = lines_of(alloc, text)?;
    let mut messages = Messages::new(alloc);
    say_few(alloc, &lines, &mut messages)?;
    Ok(messages)
}

/// What is said of the report on the lines of a text.
fn report_text(alloc: Global, text: &[u8]) -> Result<Vec<u8>, Fail> {
    let messages = reported(alloc, text)?;
    let mut text = Vec::new(alloc);
    add_messages(&mut text, &messages)?;
    Ok(text)
}

/// Lines, and what is said of them.
const ROWS: &[(&[u8], &[u8])] = &[
    // what is copied, and what lies below the copy
    (
        b"C /b - - - - /a;f /a/new",
        b"|unrepeatable A:2 source|not repeatable",
    ),
    (
        b"C /b - - - - /a;d /b/c",
        b"|overlap A:1 A:2 at /b/c|unrepeatable A:2 below|not repeatable",
    ),
    (
        b"d /b/c/d;C /b - - - - /a",
        b"|overlap A:1 A:2 at /b/c/d|unrepeatable A:1 below|not repeatable",
    ),
    (
        b"C /a/b - - - - /a",
        b"|unrepeatable A:1 source|not repeatable",
    ),
    (
        b"C /b - - - - /a/x;z /?/x",
        b"|overlap A:1 A:2 at /b/x|unrepeatable A:2 source|not repeatable",
    ),
    // patterns, and what is reached below
    (
        b"r /a/*b;r /a/b*;r /x/[!a]*;r /x/.h;R /v;f /v/w/z",
        b"|overlap A:1 A:2 at /a/b|overlap A:5 A:6 at /v/w/z|repeatable",
    ),
    (
        b"r /x/{aa,b};r /x/*",
        b"|overlap A:1 A:2 at /x/b|repeatable",
    ),
    (b"z /v;f /v/w/z", b"|repeatable"),
    (b"d= /v;f /v/w", b"|overlap A:1 A:2 at /v/w|repeatable"),
    (
        b"d /v - - - 1d;f /v/w",
        b"|overlap A:1 A:2 at /v/w|repeatable",
    ),
    (b"d$ /v;f /v/w", b"|overlap A:1 A:2 at /v/w|repeatable"),
    (
        b"x /v;z /v/w;X /u;z /u/w",
        b"|overlap A:1 A:2 at /v/w|repeatable",
    ),
    // attributes and letters
    (
        b"T /v - - - - user.a=b;t /v/w - - - - user.a=c;H /v - - - - +i;h /v - - - - -i",
        b"|overlap A:1 A:2 at /v/w|overlap A:1 A:3 at /v|overlap A:1 A:4 at /v|overlap A:2 A:3 at /v/w|overlap A:3 A:4 at /v|repeatable",
    ),
    // bytes that are appended
    (
        b"w /f - - - - x;w+ /f - - - - x",
        b"|overlap A:1 A:2 at /f|unrepeatable A:2 append|not repeatable",
    ),
    // masked modes and base entries
    (
        b"z /f ~0755;a /f - - - - u::r",
        b"|overlap A:1 A:2 at /f|unrepeatable A:2 mask|not repeatable",
    ),
    (
        b"A /f - - - - u::r;d /f/g ~0755",
        b"|overlap A:1 A:2 at /f/g|unrepeatable A:2 mask|not repeatable",
    ),
    (
        b"z /f ~0755;a /f - - - - u:1:r;z /g ~0755;a /h - - - - u::r",
        b"|overlap A:1 A:2 at /f|repeatable",
    ),
    // what is read
    (
        b"d /etc;z /etc/passwd;L /usr/lib/tmpfiles.d/x;R /etc;r /run/*;d /run - - - 1d",
        b"|overlap A:1 A:4 at /etc|overlap A:2 A:4 at /etc/passwd|overlap A:5 A:6 at /run/a|unrepeatable A:3 input|unrepeatable A:4 input|unrepeatable A:5 input|unrepeatable A:6 input|not repeatable",
    ),
    (
        b"d /etc/tmpfiles.d/new/dir;w+ /etc/group - - - - x",
        b"|unrepeatable A:1 input|unrepeatable A:2 append|unrepeatable A:2 input|not repeatable",
    ),
    // lines of a distribution
    (
        b"L /etc/mtab - - - - ../proc/self/mounts;C! /etc/nsswitch.conf - - - -;z /var/log/journal 2755;a+ /var/log/journal - - - - d:group::r-x;d /var/run/x;q /tmp 1777 - - 10d;q /var/tmp 1777 - - 30d",
        b"|overlap A:3 A:4 at /var/log/journal|repeatable",
    ),
    // names that are none
    (b"r /.[.];r /.?", b"|repeatable"),
];

#[test]
fn what_is_said_of_lines(rt: HostRuntime) -> Result<(), Fail> {
    for &(text, wanted) in ROWS {
        let new_messages = report_text(rt.alloc(), text)?;
        assert!(rt;
            new_messages.as_slice() == wanted,
            "{text:?} {new_messages:?}"
        );
    }
    Ok(())
}
