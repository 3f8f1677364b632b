//! The lines of a generated configuration.
ghost use Rattle.std.specs.Prelude.{◌≡◌, ◌++◌, nat_lt, true, IfOk, OnOk};
ghost use Rattle.std.specs.List.{list_all};
ghost use Rattle.std.specs.Fmt.{decimal};
ghost use Rattle.pv_generate.specs.Lines.{line_of, lines_of, own_line, shared_line};

use crate::drawing::{first, next};
use std::alloc::{AllocError, Global};

/// Returns the first `count` lines of a seed, each with a line feed at its end.
pub(crate) fn lines_of(alloc: Global, seed: u64, count: u32) -> Result<Vec<u8>, AllocError>
    ensures text { IfOk result (λ text. text.items ≡ lines_of seed count) }
    ensures bytes { IfOk result (λ text. list_all (λ b. nat_lt b 256) text.items ≡ true) }
{
    let mut text = Vec::new(alloc);
    let mut state = first(seed);
    for i in 0..count {
        state = next(state);
        add_line(alloc, &mut text, state / 65_536, i)?;
    }
    are_bytes(&text);
    Ok(text)
}

/// Gives the proof of its caller the fact that the items of a slice are bytes. It does nothing when it runs.
fn are_bytes(bytes: &[u8])
    ensures { list_all (λ b. nat_lt b 256) bytes.now ≡ true }
{
    let _count = bytes.len();
}

/// A form of lines that make objects of their own: the letters of the type, the beginning of the name, and the
/// fields after the path.
#[derive(Clone, Copy)]
struct Form<'a> {
    letters: &'a [u8],
    name: &'a [u8],
    fields: &'a [u8],
}

/// A directory.
const DIRECTORY: Form<'static> = Form {
    letters: b"d",
    name: b"/d",
    fields: b" 0700 0 0\n",
};

/// A file.
const FILE: Form<'static> = Form {
    letters: b"f",
    name: b"/f",
    fields: b" 0600 0 0 - text\n",
};

/// A link.
const LINK: Form<'static> = Form {
    letters: b"L",
    name: b"/l",
    fields: b" - - - - /data\n",
};

/// A file that is truncated and written anew.
const EMPTIED: Form<'static> = Form {
    letters: b"f+",
    name: b"/e",
    fields: b" - - - - more\n",
};

/// Appends the line that a pseudo-random number selects.
fn add_line(alloc: Global, text: &mut Vec<u8>, number: u64, i: u32) -> Result<(), AllocError>
    ensures { OnOk result (text.new.items ≡ text.old.items ++ line_of number i) }
{
    let group = number % 8;
    match number / 8 % 8 {
        0 => add_own(alloc, text, DIRECTORY, group, i),
        1 => add_own(alloc, text, FILE, group, i),
        2 => add_own(alloc, text, LINK, group, i),
        3 => add_own(alloc, text, EMPTIED, group, i),
        4 => add_shared(alloc, text, b"z", group, b"/e? 0640\n"),
        5 => add_shared(alloc, text, b"w", group, b"/e1* - - - - new\n"),
        6 => add_shared(alloc, text, b"a+", group, b"/e* - - - - u:1:r\n"),
        _ => add_shared(alloc, text, b"Z", group, b" ~0755\n"),
    }
}

/// Appends a line of a form for an object in a directory. The name of the object has the number of the line.
fn add_own(
    alloc: Global,
    text: &mut Vec<u8>,
    form: Form<'_>,
    group: u64,
    i: u32,
) -> Result<(), AllocError>
    ensures { OnOk result (text.new.items
        ≡ text.old.items ++ own_line form.entry.letters.now group form.entry.name.now i form.entry.fields.now) }
{
    text.extend_from_slice(form.letters)?;
    text.extend_from_slice(b" /data/g")?;
    add_number(alloc, text, group)?;
    text.extend_from_slice(form.name)?;
    add_number(alloc, text, u64::from(i))?;
    text.extend_from_slice(form.fields)?;
    Ok(())
}

/// Appends a line for a directory, or for what a pattern matches in it.
fn add_shared(
    alloc: Global,
    text: &mut Vec<u8>,
    letters: &[u8],
    group: u64,
    rest: &[u8],
) -> Result<(), AllocError>
    ensures { OnOk result (text.new.items ≡ text.old.items ++ shared_line letters.now group rest.now) }
{
    text.extend_from_slice(letters)?;
    text.extend_from_slice(b" /data/g")?;
    add_number(alloc, text, group)?;
    text.extend_from_slice(rest)?;
    Ok(())
}

/// Appends a number in decimal.
fn add_number(alloc: Global, text: &mut Vec<u8>, number: u64) -> Result<(), AllocError>
    ensures { OnOk result (text.new.items ≡ text.old.items ++ decimal number) }
{
    let number = number.to_string(alloc)?;
    text.extend_from_slice(number.as_bytes())?;
    Ok(())
}
