//! Texts and images of rows.
use base64::engine::general_purpose::STANDARD;
use std::alloc::{AllocError, Global};

/// A text in which `␉`, `␊`, `␍` and `␠` stand for a tab, an end of a line, a carriage return and a blank.
pub(crate) fn spelled(alloc: Global, text: &str) -> Result<String, AllocError> {
    let text = text.replace(alloc, '␉', "\t")?;
    let text = text.replace(alloc, '␊', "\n")?;
    let text = text.replace(alloc, '␍', "\r")?;
    text.replace(alloc, '␠', " ")
}

/// The text of these lines. The last line has no end where it ends with `␃`.
pub(crate) fn text_of(alloc: Global, lines: &[&str]) -> Result<String, AllocError> {
    let mut text = String::new(alloc);
    for line in lines {
        text.push_str(line)?;
        text.push('\n')?;
    }
    let text = text.replace(alloc, "␃\n", "")?;
    spelled(alloc, &text)
}

/// The timestamps that a word stands for. They are those of long ago, of an object that the run made or changed, or of
/// a directory that gained or lost a child.
fn stamps(word: &str) -> &str {
    match word {
        "-" => "0,0,0,0",
        "new" => "1000000000000,1000000000000,1000000000000,1000000000000",
        "child" => "0,0,1000000000000,1000000000000",
        "set" => "0,0,1000000000000,0",
        other => other,
    }
}

/// An object's fields but its content, and its content as an image has it.
fn parts(alloc: Global, object: &str) -> Result<(&str, String), AllocError> {
    match object.split_once(" =") {
        Some((front, content)) => {
            let content = spelled(alloc, content)?;
            Ok((front, STANDARD.encode(alloc, content.as_bytes())?))
        }
        None => Ok((object, "-".to_string(alloc)?)),
    }
}

/// Fields with their timestamps as an image has them, and with those that are omitted.
fn completed<'a>(fields: &mut Vec<&'a str>, content: &'a str) -> Result<(), AllocError> {
    if let Some(word) = fields.get_mut(5) {
        *word = stamps(word);
    }
    match (fields.len(), fields.last().copied()) {
        (6, _) => fields.extend_from_slice(&["-", "-", "-", content]),
        (8, Some(payload)) => {
            fields.truncate(7);
            fields.extend_from_slice(&["-", "-", payload])
        }
        _ => Ok(()),
    }
}

/// The line of an object, `KIND PATH MODE UID GID STAMPS` and then nothing, `ACL PAYLOAD`, `ACL ATTRS LETTERS PAYLOAD` or
/// `=CONTENT`. What has another form is not a line of an image.
fn object_line(alloc: Global, object: &str) -> Result<String, AllocError> {
    let (front, content) = parts(alloc, object)?;
    let mut fields: Vec<&str> = front.split(' ').collect(alloc)?;
    completed(&mut fields, &content)?;
    let mut line = fields.join(alloc, " ")?;
    line.push('\n')?;
    Ok(line)
}

/// The lines of 2,000 directories, each in the one before it, with this mode and these timestamps.
fn chain(alloc: Global, mode: &str, word: &str) -> Result<String, AllocError> {
    let stamps = stamps(word);
    let (mut path, mut lines) = (String::new(alloc), String::new(alloc));
    for _ in 0..2000u32 {
        path.push_str("/a")?;
        lines.push_str(&format!(in alloc; "d {path} {mode} 0 0 {stamps} - - - -\n")?)?;
    }
    Ok(lines)
}

/// A configuration of one file with these lines, and what is above it.
fn configuration(alloc: Global, lines: &str) -> Result<String, AllocError> {
    let content = STANDARD.encode(alloc, lines.as_bytes())?;
    let content = if content.is_empty() { "-" } else { &content };
    format!(in alloc;
        "d /etc 0755 0 0 0,0,0,0 - - - -\nd /etc/tmpfiles.d 0755 0 0 0,0,0,0 - - - -\nf /etc/tmpfiles.d/a.conf 0644 0 0 0,0,0,0 - - - {content}\n"
    )
}

/// The lines that an object stands for: `etc` for a configuration with these lines, `chain MODE STAMPS` for directories each
/// in the one before it.
fn object_lines(alloc: Global, lines: &str, object: &str) -> Result<String, AllocError> {
    let fields: Vec<&str> = object.split(' ').collect(alloc)?;
    match fields.as_slice() {
        ["etc"] => configuration(alloc, lines),
        ["chain", mode, word] => chain(alloc, mode, word),
        _ => object_line(alloc, object),
    }
}

/// The image of these objects, in the order of their paths, over a configuration with these lines.
pub(crate) fn image(alloc: Global, lines: &str, objects: &[&str]) -> Result<String, AllocError> {
    let mut text = "tree-image 2\n".to_string(alloc)?;
    for object in objects {
        text.push_str(&object_lines(alloc, lines, object)?)?;
    }
    text.push_str("end\n")?;
    Ok(text)
}
