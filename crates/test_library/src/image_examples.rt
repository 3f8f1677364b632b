//! Images of trees.
use pv_image::{ImageFault, read_image, write_image};
use pv_path::parse_path;
use pv_steps::{Kind, Tree};
use std::test::Fail;

/// A tree with one file.
const IMAGE: &[u8] = b"tree-image 2
d / 0755 0 0 0,0,0,0 - - - -
d /etc 0755 0 0 0,0,0,0 - - - -
f /etc/motd 0644 0 0 0,0,0,0 - - - aGVsbG8=
end
";

#[test]
fn an_image_has_objects_at_paths(rt: HostRuntime) -> Result<(), Fail> {
    let alloc = rt.alloc();
    let image = read_image(alloc, IMAGE)?;
    let path = parse_path(alloc, b"/etc/motd")?;
    let node = image.tree.look(&path).ok_or("a node")?;
    assert!(rt; node.kind == Kind::File && node.uid == 0);
    assert!(rt; image.tree.payload_at(&path) == Some(b"hello".as_slice()));
    Ok(())
}

#[test]
fn a_tree_has_one_image(rt: HostRuntime) -> Result<(), Fail> {
    let alloc = rt.alloc();
    let image = read_image(alloc, IMAGE)?;
    let written = write_image(alloc, &image.tree, &image.facts)?;
    assert!(rt; written.as_slice() == IMAGE);
    Ok(())
}

#[test]
fn a_fault_has_the_number_of_its_line(rt: HostRuntime) -> Result<(), Fail> {
    let fault = read_image(rt.alloc(), b"tree-image 2\nd / 0755\n").err();
    assert!(rt; fault == Some(ImageFault::BadLine(2)));
    Ok(())
}
