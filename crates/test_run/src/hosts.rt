//! Hosts in memory as texts: what one has in the folder `/r`.
use base64::engine::general_purpose::STANDARD;
use pv_folder::MemHost;
use pv_image::{read_image, write_image};
use pv_text::Facts;
use pv_tree::MemTree;
use std::alloc::{AllocError, Global};
use test_sheet::{Row, Sheet, input};

/// Adds a line with its end.
fn add_line(text: &mut String, line: &str) -> Result<(), AllocError> {
    text.push_str(line)?;
    text.push('\n')
}

/// Adds a directory of the host.
fn add_directory(text: &mut String, path: &str) -> Result<(), AllocError> {
    text.push_str("d ")?;
    text.push_str(path)?;
    add_line(text, " 0755 0 0 0,0,0,0 - - - -")
}

/// Adds the lines behind this mark.
fn add_marked(
    alloc: Global,
    text: &mut String,
    row: &Row<'_>,
    mark: &str,
) -> Result<(), AllocError> {
    let lines = row.marked(alloc, mark)?;
    for line in lines.as_slice() {
        add_line(text, line)?;
    }
    Ok(())
}

/// Adds a manifest with these lines.
fn add_manifest(alloc: Global, text: &mut String, lines: &str) -> Result<(), AllocError> {
    let content = STANDARD.encode(alloc, lines.as_bytes())?;
    text.push_str("f /r/manifest 0644 0 0 0,0,0,0 - - - ")?;
    add_line(text, &content)
}

/// Adds the manifest of a row, if it has one: the lines behind `manifest `.
fn add_manifest_of(alloc: Global, text: &mut String, row: &Row<'_>) -> Result<(), AllocError> {
    let mut lines = String::new(alloc);
    add_marked(alloc, &mut lines, row, "manifest ")?;
    if lines.is_empty() {
        return Ok(());
    }
    add_manifest(alloc, text, &lines)
}

/// Adds the line of an object of the tree as one of the host, below `/r/tree`.
fn add_below(text: &mut String, line: &str) -> Result<(), AllocError> {
    let (kind, rest) = line.split_once(' ').unwrap_or((line, ""));
    let (path, rest) = rest.split_once(' ').unwrap_or((rest, ""));
    let path = if path == "/" { "" } else { path };
    for piece in [kind, " /r/tree", path, " "] {
        text.push_str(piece)?;
    }
    add_line(text, rest)
}

/// Adds the host's objects below `/r/tree`, by the image of a tree.
fn add_tree(text: &mut String, image: &str) -> Result<(), AllocError> {
    for line in image.lines() {
        if line != "tree-image 2" && line != "end" {
            add_below(text, line)?;
        }
    }
    Ok(())
}

/// Adds `/r` of a row: the manifest, the objects behind `host `, and the tree of the objects behind `<`.
fn add_folder(
    alloc: Global,
    text: &mut String,
    sheet: &Sheet<'_>,
    row: &Row<'_>,
) -> Result<(), AllocError> {
    add_directory(text, "/r")?;
    add_manifest_of(alloc, text, row)?;
    add_marked(alloc, text, row, "host ")?;
    let image = input(alloc, sheet, row)?;
    add_tree(text, &image)
}

/// Adds the objects of the host of a row: its root, and `/r` unless the row has `no folder`.
fn add_host(
    alloc: Global,
    text: &mut String,
    sheet: &Sheet<'_>,
    row: &Row<'_>,
) -> Result<(), AllocError> {
    add_directory(text, "/")?;
    if row.marked(alloc, "no folder")?.is_empty() {
        add_folder(alloc, text, sheet, row)?;
    }
    Ok(())
}

/// The image of the host of a row.
pub(crate) fn host_image(
    alloc: Global,
    sheet: &Sheet<'_>,
    row: &Row<'_>,
) -> Result<String, AllocError> {
    let mut text = "tree-image 2\n".to_string(alloc)?;
    add_host(alloc, &mut text, sheet, row)?;
    text.push_str("end\n")?;
    Ok(text)
}

/// A host of this image that fails at these calls, or nothing if the text is not an image.
pub(crate) fn host_of(
    alloc: Global,
    image: &[u8],
    fails: Vec<u64>,
) -> Result<Option<MemHost>, AllocError> {
    Ok(match read_image(alloc, image) {
        Ok(image) => Some(MemHost::new(image.tree, fails)),
        Err(_) => None,
    })
}

/// The image of what a host holds.
pub(crate) fn image_of(alloc: Global, tree: &MemTree) -> Result<Vec<u8>, AllocError> {
    write_image(alloc, tree, &Facts::new(alloc))
}

/// The bytes that a payload stands for, as a text.
fn content_of(alloc: Global, payload: &str) -> Result<String, AllocError> {
    let Ok(bytes) = STANDARD.decode(alloc, payload.as_bytes()) else {
        return Ok(String::new(alloc));
    };
    Ok(String::from_utf8(bytes).unwrap_or(String::new(alloc)))
}

/// Adds an object of the folder: its kind and its path in the folder, of a file its bytes, of the manifest its lines.
fn add_object(
    alloc: Global,
    text: &mut String,
    kind: &str,
    path: &str,
    payload: &str,
) -> Result<(), AllocError> {
    let content = content_of(alloc, payload)?;
    match (kind, path) {
        ("f", "manifest") => text.push_str(&content),
        _ if content.is_empty() => text.push_str(&format!(in alloc; "{kind} /{path}\n")?),
        _ => text.push_str(&format!(in alloc; "{kind} /{path} {content}\n")?),
    }
}

/// What a host has in `/r`, by the image of what it holds.
pub(crate) fn folder_text(alloc: Global, image: &str) -> Result<String, AllocError> {
    let mut text = String::new(alloc);
    for line in image.lines() {
        let fields: Vec<&str> = line.split(' ').collect(alloc)?;
        match fields.as_slice() {
            [kind, path, _, _, _, _, _, _, _, payload] => {
                if let Some(path) = path.strip_prefix("/r/") {
                    add_object(alloc, &mut text, kind, path, payload)?;
                }
            }
            _ => {}
        }
    }
    Ok(text)
}

/// The manifest of a folder as the payload that the image of its host has, and its tree as the lines there.
#[derive(Drop)]
pub(crate) struct Parts {
    pub(crate) manifest: String,
    pub(crate) tree: String,
}

/// The parts of `/r`, by the image of what its host holds.
pub(crate) fn parts_of(alloc: Global, image: &[u8]) -> Result<Parts, AllocError> {
    let mut parts = Parts {
        manifest: String::new(alloc),
        tree: String::new(alloc),
    };
    for line in str::from_utf8(image).unwrap_or("").lines() {
        let fields: Vec<&str> = line.split(' ').collect(alloc)?;
        match fields.as_slice() {
            [_, "/r/manifest", .., payload] => parts.manifest.push_str(payload)?,
            [_, path, ..] if path.starts_with("/r/tree") => {
                parts.tree.push_str(line)?;
                parts.tree.push('\n')?;
            }
            _ => {}
        }
    }
    Ok(parts)
}
