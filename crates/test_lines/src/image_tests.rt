//! Rows of images, of their lines and of their objects.
use pv_image::{Image, ImageFault, print_node, read_image, write_image};
use pv_path::parse_path;
use pv_text::{Facts, Tool, expand};
use pv_tree::MemTree;
use std::alloc::{AllocError, Global};
use std::test::Fail;

/// What `read_image` answers for bytes, if it is a fault.
fn fault_of(alloc: Global, bytes: &[u8]) -> Option<ImageFault> {
    match read_image(alloc, bytes) {
        Ok(_) => None,
        Err(fault) => Some(fault),
    }
}

/// Whole texts of both versions and their faults.
const FAULTS: &[(&[u8], ImageFault)] = &[
    (b"", ImageFault::Truncated(1)),
    (b"tree-image 9\n", ImageFault::BadHeader(1)),
    (b"tree-image 2 \n", ImageFault::BadHeader(1)),
    (b"tree-image 1", ImageFault::Truncated(1)),
    (b": x\ntree-image 1\nend\n", ImageFault::NoParent(3)),
    (b"tree-image 2\nend\n", ImageFault::NoParent(2)),
    (
        b"tree-image 1\nd / 0755 0 0 0,0,0,0 - -\n",
        ImageFault::Truncated(3),
    ),
    (
        b"tree-image 2\nd / 0755 0 0 0,0,0,0 - - - -\n",
        ImageFault::Truncated(3),
    ),
    (
        b"tree-image 1\nd / 0755 0 0 0,0,0,0 - -\nend",
        ImageFault::Truncated(3),
    ),
    (
        b"tree-image 2\nd / 0755 0 0 0,0,0,0 - - - -\nen",
        ImageFault::Truncated(3),
    ),
    (
        b"tree-image 1\nd / 755 0 0 0,0,0,0 - -\n",
        ImageFault::BadLine(2),
    ),
    (
        b"tree-image 1\nd / 0755 0 0 0,0,0,0 - - - -\n",
        ImageFault::BadLine(2),
    ),
    (
        b"tree-image 2\nd / 0755 0 0 0,0,0,0 - -\n",
        ImageFault::BadLine(2),
    ),
    (
        b"tree-image 1\nf / 0644 0 0 0,0,0,0 - -\n",
        ImageFault::NoParent(2),
    ),
    (
        b"tree-image 2\nf / 0644 0 0 0,0,0,0 - - - -\n",
        ImageFault::NoParent(2),
    ),
    (
        b"tree-image 1\nd / 0755 0 0 0,0,0,0 - -\nend\nend\n",
        ImageFault::BadLine(4),
    ),
    (
        b"tree-image 2\nd / 0755 0 0 0,0,0,0 - - - -\nend\nend\n",
        ImageFault::BadLine(4),
    ),
    (b"tree-image 1\n: x\n", ImageFault::BadLine(2)),
    (
        b"tree-image 1\nfact m 1\nfact A 1\n",
        ImageFault::OutOfOrder(3),
    ),
    (
        b"tree-image 2\nfact m 1\nfact m 1\n",
        ImageFault::OutOfOrder(3),
    ),
    (b"tree-image 1\nfact x 1\n", ImageFault::BadLine(2)),
    (b"tree-image 2\nfact m \n", ImageFault::BadLine(2)),
];

/// The faults of whole texts, line by line.
#[test]
fn faults_of_texts(rt: HostRuntime) {
    for &(bytes, want) in FAULTS {
        assert!(rt; fault_of(rt.alloc(), bytes) == Some(want), "{bytes:?}");
    }
}

/// An image of a root and further lines.
fn with_lines(alloc: Global, front: &[u8], lines: &[u8]) -> Result<Vec<u8>, AllocError> {
    let mut text = Vec::from_slice(alloc, front)?;
    text.extend_from_slice(lines)?;
    text.extend_from_slice(b"end\n")?;
    Ok(text)
}

/// The front of an image of version 1, with its root.
const ROOT: &[u8] = b"tree-image 1\nd / 0755 0 0 0,0,0,0 - -\n";

/// The front of an image of version 2, with its root.
const NEW_ROOT: &[u8] = b"tree-image 2\nd / 0755 0 0 0,0,0,0 - - - -\n";

/// The fault of a line after the root that is spelled wrong.
const BAD: Option<ImageFault> = Some(ImageFault::BadLine(3));

/// What stands after the root in version 1, and the fault that it has, if any.
const LINES: &[(&[u8], Option<ImageFault>)] = &[
    (b"", None),
    (
        b"d /b 0755 0 0 0,0,0,0 - -\nd /a 0755 0 0 0,0,0,0 - -\n",
        Some(ImageFault::OutOfOrder(4)),
    ),
    (
        b"d /b 0755 0 0 0,0,0,0 - -\nd /b 0755 0 0 0,0,0,0 - -\n",
        Some(ImageFault::OutOfOrder(4)),
    ),
    (
        b"d / 0755 0 0 0,0,0,0 - -\n",
        Some(ImageFault::OutOfOrder(3)),
    ),
    (
        b"f /a/b 0644 0 0 0,0,0,0 - -\n",
        Some(ImageFault::NoParent(3)),
    ),
    (
        b"f /a 0644 0 0 0,0,0,0 - -\nf /a/b 0644 0 0 0,0,0,0 - -\n",
        Some(ImageFault::NoParent(4)),
    ),
    (b"fact m 1\n", BAD),
    (b"l /a 0755 0 0 0,0,0,0 - /t\n", BAD),
    (b"l /a 0777 0 0 0,0,0,0 - -\n", None),
    (b"f /a 0644 0 0 0,0,0,0 - aGk=\n", None),
    (b"f /a 0644 0 0 0,0,0,0 - aGk\n", BAD),
    (b"f /a 0644 0 0 0,0,0,0 - aGl=\n", BAD),
    (b"f /a 00644 0 0 0,0,0,0 - -\n", BAD),
    (b"f /a 0648 0 0 0,0,0,0 - -\n", BAD),
    (b"f /a 0644 00 0 0,0,0,0 - -\n", BAD),
    (b"f /a 0644 4294967295 0 0,0,0,0 - -\n", BAD),
    (b"f /a 0644 0 4294967294 0,0,0,0 - -\n", None),
    (b"f /a 0644 0 0 0,0,0 - -\n", BAD),
    (b"f /a 0644 0 0 0,0,0,18446744073709551616 - -\n", BAD),
    (b"f /\\x61 0644 0 0 0,0,0,0 - -\n", BAD),
    (b"f /a\\x0A 0644 0 0 0,0,0,0 - -\n", BAD),
    (b"f /a\\x0a 0644 0 0 0,0,0,0 - -\n", None),
    (b"f /.. 0644 0 0 0,0,0,0 - -\n", BAD),
    (b"f /a/ 0644 0 0 0,0,0,0 - -\n", BAD),
    (b"f  /a 0644 0 0 0,0,0,0 - -\n", BAD),
    (b"p /a 0644 0 0 0,0,0,0 - x\n", BAD),
    (b"c /a 0644 0 0 0,0,0,0 - 5\n", BAD),
    (b"c /a 0644 0 0 0,0,0,0 - 5:4294967295\n", None),
    (b"f /a 0644 0 0 0,0,0,0 d:u::rwx,d:g::r-x,d:o::--- -\n", BAD),
    (b"f /a 0644 0 0 0,0,0,0 g:1:r--,u:1:r-- -\n", BAD),
    (b"s /a 0644 0 0 0,0,0,0 - -\n", BAD),
];

/// What stands after the root in version 2, and the fault that it has, if any.
const NEW_LINES: &[(&[u8], Option<ImageFault>)] = &[
    (
        b"d /b 0755 0 0 0,0,0,0 - - - -\nd /a 0755 0 0 0,0,0,0 - - - -\n",
        Some(ImageFault::OutOfOrder(4)),
    ),
    (
        b"f /a/b 0644 0 0 0,0,0,0 - - - -\n",
        Some(ImageFault::NoParent(3)),
    ),
    (
        b"f /a 0644 0 0 0,0,0,0 - user.a=1,user.b=x\\x20y i -\n",
        None,
    ),
    (b"f /a 0644 0 0 0,0,0,0 - user.a= Aai aGk=\n", None),
    (b"f /a 0644 0 0 0,0,0,0 - user.a=b\\x3dc - -\n", None),
    (b"f /a 0644 0 0 0,0,0,0 - user.a\\x2c=\\xff - -\n", None),
    (b"f /a 0644 0 0 0,0,0,0 - user.a=b=c - -\n", BAD),
    (b"f /a 0644 0 0 0,0,0,0 - user.a=\\x61 - -\n", BAD),
    (b"f /a 0644 0 0 0,0,0,0 - user.a=\\x3D - -\n", BAD),
    (b"f /a 0644 0 0 0,0,0,0 - user.b=1,user.a=1 - -\n", BAD),
    (b"f /a 0644 0 0 0,0,0,0 - user.a=1,user.a=2 - -\n", BAD),
    (b"f /a 0644 0 0 0,0,0,0 - user.a=1, - -\n", BAD),
    (b"f /a 0644 0 0 0,0,0,0 - user.a - -\n", BAD),
    (b"f /a 0644 0 0 0,0,0,0 - user=1 - -\n", BAD),
    (b"f /a 0644 0 0 0,0,0,0 - system.a=1 - -\n", BAD),
    (b"f /a 0644 0 0 0,0,0,0 -  - -\n", BAD),
    (b"f /a 0644 0 0 0,0,0,0 - -  -\n", BAD),
    (b"f /a 0644 0 0 0,0,0,0 - - ia -\n", BAD),
    (b"f /a 0644 0 0 0,0,0,0 - - ii -\n", BAD),
    (b"f /a 0644 0 0 0,0,0,0 - - x -\n", BAD),
    (b"l /a 0777 0 0 0,0,0,0 - - - /t\n", None),
    (b"l /a 0777 0 0 0,0,0,0 - user.a=1 - /t\n", BAD),
    (b"l /a 0777 0 0 0,0,0,0 - - i /t\n", BAD),
    (b"p /a 0644 0 0 0,0,0,0 - user.a=1 - -\n", None),
    (b"p /a 0644 0 0 0,0,0,0 - - i -\n", BAD),
    (b"f /a 0644 0 0 0,0,0,0 - -\n", BAD),
];

/// The fault of an image with some lines after its front, if it has one.
fn fault_after(
    alloc: Global,
    front: &[u8],
    lines: &[u8],
) -> Result<Option<ImageFault>, AllocError> {
    Ok(fault_of(alloc, &with_lines(alloc, front, lines)?))
}

/// Lines after the root are taken, or have their fault, in version 1.
#[test]
fn lines_after_the_root(rt: HostRuntime) -> Result<(), Fail> {
    for &(lines, want) in LINES {
        let fault = fault_after(rt.alloc(), ROOT, lines)?;
        assert!(rt; fault == want, "{lines:?}");
    }
    Ok(())
}

/// Lines after the root are taken, or have their fault, in version 2.
#[test]
fn new_lines_after_the_root(rt: HostRuntime) -> Result<(), Fail> {
    for &(lines, want) in NEW_LINES {
        let fault = fault_after(rt.alloc(), NEW_ROOT, lines)?;
        assert!(rt; fault == want, "{lines:?}");
    }
    Ok(())
}

/// An image with all kinds of nodes, facts, ACLs, attributes and letters, as the format has it.
const TEXT: &[u8] = b"tree-image 2
fact A 1.2
fact H host\\x20one
fact m 0123
d / 0755 0 0 1,2,3,4 - - - -
d /dev 0755 0 0 0,0,0,0 - - - -
b /dev/sda 0660 0 6 0,0,0,0 - - - 8:0
c /dev/tty 0666 0 5 0,0,0,0 - trusted.t=1 - 5:1
d /etc 1777 0 0 0,0,0,18446744073709551615 u:1000:rwx,g:5:r--,m::rwx,d:u::rwx,d:u:7:r-x,d:g::r-x,d:m::r-x,d:o::--- user.a=1,user.b=x\\x20y DTi -
f /etc/a\\x20b 0644 1000 4294967294 0,0,0,0 - user.\\x2c\\x3d=,user.a= i aGk=
l /etc/link 0777 0 0 0,0,0,0 - - - /t\\x5c\\xff
f /etc/none 4755 0 0 0,0,0,0 u:0:---,m::r-- - - -
p /run 0600 0 0 0,0,0,0 - - - -
end
";

/// Whether the bytes at a path, or the target, are these.
fn has_payload(alloc: Global, tree: &MemTree, path: &[u8], want: &[u8]) -> bool {
    match parse_path(alloc, path) {
        Ok(path) => match tree.payload_at(&path) {
            Some(payload) => payload == want,
            None => false,
        },
        Err(_) => false,
    }
}

/// The special bits and the permissions of others at a path.
fn mode_at(alloc: Global, tree: &MemTree, path: &[u8]) -> Option<(u8, u8)> {
    match parse_path(alloc, path) {
        Ok(path) => match tree.node_at(&path) {
            Some(node) => Some((node.special, node.acl.access.other.bits)),
            None => None,
        },
        Err(_) => None,
    }
}

/// Whether a letter has this value.
fn has_value(facts: &Facts, letter: u8, want: &[u8]) -> bool {
    match facts.get(letter) {
        Some(value) => value == want,
        None => false,
    }
}

/// The image that is read from a text.
fn image_of(alloc: Global, text: &[u8]) -> Result<Image, Fail> {
    Ok(read_image(alloc, text).ok().ok_or("an image")?)
}

#[test]
fn whole_image(rt: HostRuntime) -> Result<(), Fail> {
    let alloc = rt.alloc();
    let image = image_of(alloc, TEXT)?;
    assert!(rt; has_value(&image.facts, b'H', b"host one"));
    assert!(rt; image.facts.get(b'M').is_none());
    assert!(rt; has_payload(alloc, &image.tree, b"/etc/a b", b"hi"));
    assert!(rt; has_payload(alloc, &image.tree, b"/etc/link", b"/t\\\xff"));
    assert!(rt; mode_at(alloc, &image.tree, b"/etc/none") == Some((4, 5)));
    Ok(())
}

/// The text of the image that is read from another.
fn written(alloc: Global, text: &[u8]) -> Result<Vec<u8>, Fail> {
    let image = image_of(alloc, text)?;
    Ok(write_image(alloc, &image.tree, &image.facts)?)
}

/// The image with notes before it.
fn noted(alloc: Global) -> Result<Vec<u8>, AllocError> {
    let mut noted = Vec::from_slice(alloc, b": a note\n: \n")?;
    noted.extend_from_slice(TEXT)?;
    Ok(noted)
}

/// Images of version 1, and the same of version 2.
const VERSIONS: &[(&[u8], &[u8])] = &[
    (
        b"tree-image 1\nd / 0755 0 0 0,0,0,0 - -\nend\n",
        b"tree-image 2\nd / 0755 0 0 0,0,0,0 - - - -\nend\n",
    ),
    (
        b": x\ntree-image 1\nfact m 1\nd / 0755 0 0 0,0,0,0 - -\nf /a 0644 1 2 1,2,3,4 m::r-- aGk=\nend\n",
        b"tree-image 2\nfact m 1\nd / 0755 0 0 0,0,0,0 - - - -\nf /a 0644 1 2 1,2,3,4 m::r-- - - aGk=\nend\n",
    ),
];

/// An image is written back byte for byte without its notes, and one of version 1 as version 2 of the same tree.
#[test]
fn written_images(rt: HostRuntime) -> Result<(), Fail> {
    for &(old, new) in VERSIONS {
        let text = written(rt.alloc(), old)?;
        assert!(rt; text.as_slice() == new, "{old:?}");
    }
    let text = written(rt.alloc(), &noted(rt.alloc())?)?;
    assert!(rt; text.as_slice() == TEXT);
    Ok(())
}

/// The first object after the root of a tree, as it is printed.
fn first_printed(alloc: Global, tree: &MemTree) -> Result<Vec<u8>, Fail> {
    let mut walk = tree.walk(alloc)?;
    walk.advance()?;
    match walk.place() {
        Some(place) => Ok(print_node(alloc, place.node, place.payload)?),
        None => Ok(Vec::new(alloc)),
    }
}

/// The first object after the root, as it is printed, of an image with one line after its root.
fn printed(alloc: Global, line: &[u8]) -> Result<Vec<u8>, Fail> {
    let text = with_lines(alloc, NEW_ROOT, line)?;
    let image = image_of(alloc, &text)?;
    first_printed(alloc, &image.tree)
}

/// Lines of objects, and how the objects are printed.
const PRINTED: &[(&[u8], &[u8])] = &[
    (
        b"f /f 0640 0 0 1,2,3,4 u:1000:rw- - - -\n",
        b"f 0640 0 0 u:1000:rw- - - -",
    ),
    (
        b"f /f 4755 1 2 0,0,0,0 - user.a=x\\x2c ai aGk=\n",
        b"f 4755 1 2 - user.a=x\\x2c ai aGk=",
    ),
    (
        b"c /f 0600 0 0 0,0,0,0 - - - 5:1\n",
        b"c 0600 0 0 - - - 5:1",
    ),
];

/// An object is printed without its path and its timestamps.
#[test]
fn printed_nodes(rt: HostRuntime) -> Result<(), Fail> {
    for &(line, want) in PRINTED {
        let seen = printed(rt.alloc(), line)?;
        assert!(rt; seen.as_slice() == want, "{line:?}");
    }
    Ok(())
}

/// An image with a value for each letter, of which one has a percent sign.
const FACTS: &[u8] = b"tree-image 2
fact A image
fact B build
fact H host
fact M metal
fact W variant
fact a %t
fact b boot
fact l short
fact m 0123
fact o system
fact v 6.12
fact w 42
d / 0755 0 0 0,0,0,0 - - - -
end
";

/// Whether a text with specifiers stands for another.
fn expands(alloc: Global, text: &[u8], facts: &Facts, tool: Tool, want: &[u8]) -> bool {
    match expand(alloc, text, facts, tool) {
        Ok(read) => read.as_slice() == want,
        Err(_) => false,
    }
}

/// Texts with specifiers, and what they stand for.
const SPECIFIERS: &[(&[u8], &[u8])] = &[
    (b"%a,%b,%H", b"%t,boot,host"),
    (b"%l,%m,%v", b"short,0123,6.12"),
    (b"%A,%B,%M", b"image,build,metal"),
    (b"%o,%w,%W", b"system,42,variant"),
    (
        b"%a%b%H%l%m%v%A%B%M%o%w%W",
        b"%tboothostshort01236.12imagebuildmetalsystem42variant",
    ),
];

/// A specifier stands for the fact of the image as it is written there, for both tools.
#[test]
fn facts_for_specifiers(rt: HostRuntime) -> Result<(), Fail> {
    let image = image_of(rt.alloc(), FACTS)?;
    for &(text, want) in SPECIFIERS {
        let first = expands(rt.alloc(), text, &image.facts, Tool::Tmpfiles, want);
        let second = expands(rt.alloc(), text, &image.facts, Tool::Sysusers, want);
        assert!(rt; first && second, "{text:?}");
    }
    Ok(())
}
