//! Rows of what lines leave at each path: configurations with the objects before and after, in their order.
use crate::lines::table_of;
use crate::standings::{standing_of, text_of};
use pv_explain::state_after;
use std::alloc::Global;
use std::process::Abort;

/// Lines, the objects before, and those that all lines leave.
const ROWS: &[(&str, &str, &str)] = &[
    // A directory where a file is wanted stays, and a new file.
    (
        "f /a - - - - text;f /b - - - - text",
        "d / 0755 0 0 - -\nd /a 0755 0 0 - -\n",
        "d / 0755 0 0 - -\nd /a 0755 0 0 - -\nf /b 0644 0 0 - text\n",
    ),
    // A link in the place of a directory.
    (
        "L+ /p - - - - /t",
        "d / 0755 0 0 - -\nd /p 0755 0 0 - -\nf /p/x 0644 0 0 - -\nf /p/y 0644 0 0 - -\n",
        "d / 0755 0 0 - -\nl /p 0777 0 0 - /t\n",
    ),
    // A file with a new mode.
    (
        "f /home/u/x 0600",
        "d / 0755 0 0 - -\nd /home 0755 0 0 - -\nd /home/u 0755 1000 0 - -\nf /home/u/x 0644 1000 0 - -\n",
        "d / 0755 0 0 - -\nd /home 0755 0 0 - -\nd /home/u 0755 1000 0 - -\nf /home/u/x 0600 1000 0 - -\n",
    ),
    // A masked mode for all that is below a directory.
    (
        "Z /d ~2755",
        "d / 0755 0 0 - -\nd /d 0700 0 0 - -\nf /d/f 0600 0 0 - -\nf /d/g 0500 0 0 - -\nf /d/k 0000 0 0 - -\nl /d/l 0777 0 0 - /t\n",
        "d / 0755 0 0 - -\nd /d 2755 0 0 - -\nf /d/f 0644 0 0 - -\nf /d/g 0555 0 0 - -\nf /d/k 0000 0 0 - -\nl /d/l 0777 0 0 - /t\n",
    ),
    // A mode and an entry of an ACL.
    (
        "z /f 0640;a+ /f - - - - u:1000:rw",
        "d / 0755 0 0 - -\nf /f 0600 0 0 - -\n",
        "d / 0755 0 0 - -\nf /f 0640 0 0 u:1000:rw- -\n",
    ),
    // A directory with its absent parents.
    (
        "d /run/app/x 0750 0 0;d /run 0711",
        "d / 0755 0 0 - -\n",
        "d / 0755 0 0 - -\nd /run 0711 0 0 - -\nd /run/app 0755 0 0 - -\nd /run/app/x 0750 0 0 - -\n",
    ),
    // A copy: to a path where nothing stands.
    (
        "C /dst - - - - /src",
        "d / 0755 0 0 - -\nd /src 0750 0 0 - -\nf /src/k 0600 0 0 - v\nd /src/s 0711 0 0 - -\n",
        "d / 0755 0 0 - -\nd /dst 0750 0 0 - -\nf /dst/k 0600 0 0 - v\nd /dst/s 0711 0 0 - -\nd /src 0750 0 0 - -\nf /src/k 0600 0 0 - v\nd /src/s 0711 0 0 - -\n",
    ),
    // To an empty directory, with a mode and an owner for the copied directory itself.
    (
        "C /dst 0700 7 - - /src",
        "d / 0755 0 0 - -\nd /dst 0700 0 0 - -\nd /src 0750 0 0 - -\nf /src/k 0600 0 0 - v\n",
        "d / 0755 0 0 - -\nd /dst 0700 7 0 - -\nf /dst/k 0600 0 0 - v\nd /src 0750 0 0 - -\nf /src/k 0600 0 0 - v\n",
    ),
    // To a directory in which something stands, and to a file: nothing is copied.
    (
        "C /dst - - - - /src;C /f - - - - /src",
        "d / 0755 0 0 - -\nd /dst 0700 0 0 - -\nf /dst/z 0644 0 0 - -\nf /f 0644 0 0 - -\nd /src 0750 0 0 - -\nf /src/k 0600 0 0 - v\n",
        "d / 0755 0 0 - -\nd /dst 0700 0 0 - -\nf /dst/z 0644 0 0 - -\nf /f 0644 0 0 - -\nd /src 0750 0 0 - -\nf /src/k 0600 0 0 - v\n",
    ),
    // Without a source nothing is made, not even a parent.
    (
        "C /a/dst - - - - /src",
        "d / 0755 0 0 - -\n",
        "d / 0755 0 0 - -\n",
    ),
];

/// A number of lines that are carried out from a root alone, and what they leave.
const COUNTS: &[(usize, &str)] = &[
    (0, "d / 0755 0 0 - -\n"),
    (1, "d / 0755 0 0 - -\nd /a 0700 0 0 - -\n"),
    (
        2,
        "d / 0755 0 0 - -\nd /a 0700 0 0 - -\nf /a/f 0644 0 0 - -\n",
    ),
    (
        3,
        "d / 0755 0 0 - -\nd /a 0700 0 0 - -\nf /a/f 0600 0 0 - -\n",
    ),
    (
        9,
        "d / 0755 0 0 - -\nd /a 0700 0 0 - -\nf /a/f 0600 0 0 - -\n",
    ),
];

/// The text of what the first lines of a table leave.
fn left(rt: &impl Abort, alloc: Global, lines: &str, count: usize, before: &str) -> String {
    let table = table_of(rt, alloc, lines);
    let start = standing_of(rt, alloc, before);
    let after = state_after(alloc, &table, count, start).expect(rt, "memory");
    text_of(rt, alloc, &after)
}

#[test]
fn lines_leave_what_they_ask_for(rt: HostRuntime) {
    for &(lines, before, after) in ROWS {
        let seen = left(&rt, rt.alloc(), lines, usize::MAX, before);
        assert!(rt; seen.as_bytes() == after.as_bytes(), "{lines}: {seen}");
    }
}

#[test]
fn first_lines_leave_what_they_ask_for(rt: HostRuntime) {
    for &(count, after) in COUNTS {
        let lines = "z /a/f 0600;f /a/f;d /a 0700";
        let seen = left(&rt, rt.alloc(), lines, count, "d / 0755 0 0 - -\n");
        assert!(rt; seen.as_bytes() == after.as_bytes(), "{count}: {seen}");
    }
}
