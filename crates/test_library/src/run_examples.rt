//! Runs of lines over a tree in memory.
use crate::nobody::Nobody;
use pv_create::create_run;
use pv_image::{Image, read_image};
use pv_lines::{LineList, read_line};
use pv_path::parse_path;
use pv_steps::{Carried, Kind, Tree};
use pv_table::{Table, build};
use pv_text::{Facts, Messages, OneLine, Place};
use std::alloc::Global;
use std::test::Fail;

/// A tree with an empty directory `/run`.
const IMAGE: &[u8] = b"tree-image 2
d / 0755 0 0 0,0,0,0 - - - -
d /run 0755 0 0 0,0,0,0 - - - -
end
";

/// The table of one line.
fn table_of(alloc: Global, text: &str, messages: &mut Messages) -> Result<Table, Fail> {
    let file = OneLine::copy_of(alloc, b"app.conf")?;
    let place = Place { file, number: 1 };
    let mut lines = LineList::new(alloc);
    lines.push(read_line(alloc, text.as_bytes(), place, &Facts::new(alloc), &Nobody)?)?;
    Ok(build(alloc, lines, false, None, None, messages)?)
}

#[test]
fn a_line_makes_a_directory(rt: HostRuntime) -> Result<(), Fail> {
    let alloc = rt.alloc();
    let mut messages = Messages::new(alloc);
    let table = table_of(alloc, "d /run/app 0750 7 8", &mut messages)?;
    let Image { mut tree, facts: _ } = read_image(alloc, IMAGE)?;
    let carried = create_run(alloc, &mut tree, &table, 1_000_000, &mut messages)?;
    let path = parse_path(alloc, b"/run/app")?;
    let node = tree.look(&path).ok_or("a node")?;
    assert!(rt; matches!(carried, Carried::Whole) && messages.len() == 0);
    assert!(rt; node.kind == Kind::Directory && node.uid == 7 && node.gid == 8);
    Ok(())
}
