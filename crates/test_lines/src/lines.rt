//! Lines of a configuration from one text, and what is said of them.
use pv_acl::Names;
use pv_lines::{LineFault, LineList, read_line};
use pv_table::{Table, build};
use pv_text::{Facts, Messages, OneLine, Place};
use std::alloc::{AllocError, Global};
use std::process::Abort;

/// A lookup that knows nobody.
pub(crate) struct Nobody;

impl Names for Nobody {
    ghost use Rattle.std.specs.Prelude.{None};

    ghost uid_named = { λ _ _. None };

    ghost gid_named = { λ _ _. None };

    fn uid_of(&self, _name: &[u8]) -> Option<u32> {
        None
    }

    fn gid_of(&self, _name: &[u8]) -> Option<u32> {
        None
    }
}

/// The lines of a text, numbered from 1 in a file `A`; a semicolon stands between two of them.
pub(crate) fn lines_of(alloc: Global, text: &[u8]) -> Result<LineList, LineFault> {
    let facts = Facts::new(alloc);
    let mut lines = LineList::new(alloc);
    let mut number: u32 = 0;
    for piece in text.split(|byte| *byte == b';') {
        number = number.saturating_add(1);
        let file = OneLine::copy_of(alloc, b"A")?;
        lines.push(read_line(alloc, piece, Place { file, number }, &facts, &Nobody)?)?;
    }
    Ok(lines)
}

/// The active lines of a text.
pub(crate) fn table_of(rt: &impl Abort, alloc: Global, text: &str) -> Table {
    let lines = lines_of(alloc, text.as_bytes()).expect(rt, text);
    let mut messages = Messages::new(alloc);
    build(alloc, lines, false, None, None, &mut messages).expect(rt, "memory")
}

/// Adds what is said, each message behind a bar.
pub(crate) fn add_messages(text: &mut Vec<u8>, messages: &Messages) -> Result<(), AllocError> {
    for i in 0..messages.len() {
        if let Some(line) = messages.line(i) {
            text.push(b'|')?;
            text.extend_from_slice(line)?;
        }
    }
    Ok(())
}
