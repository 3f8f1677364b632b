//! Calls of the machine's own host, in folders of their own in the folder in which the tests run.
use pv_folder::{FileBytes, Host, HostFault, HostKind, RealHost};
use std::alloc::Global;
use std::os::unix::fs::symlink;
use std::process::Abort;
use std::rt::{Env, Files};
use std::{env, fs};

/// The path of a name in a folder.
fn at(rt: &impl Abort, alloc: Global, folder: &str, name: &str) -> String {
    format!(in alloc; "{folder}/{name}").expect(rt, "memory")
}

/// Makes a folder anew.
fn make_anew<R: Abort + Files + Alloc>(rt: &R, folder: &str) {
    let _old = fs::remove_dir_all(rt, folder);
    fs::create_dir(rt, folder).expect(rt, "a folder");
}

/// Removes a folder with all that is in it.
fn remove<R: Abort + Files + Alloc>(rt: &R, folder: &str) {
    fs::remove_dir_all(rt, folder).expect(rt, "a folder");
}

/// The letter of a kind, with a space after it.
fn letter_of(kind: HostKind) -> &'static [u8] {
    match kind {
        HostKind::Directory => b"d ",
        HostKind::File => b"f ",
        HostKind::Other => b"o ",
    }
}

/// The objects that a host lists in a folder, each as the letter of its kind and its name, with a space after each.
fn listing(rt: &impl Abort, alloc: Global, host: &mut impl Host, path: &[u8]) -> Vec<u8> {
    let listed = host.list(alloc, path).expect(rt, "a list");
    let items = listed.expect(rt, "a folder");
    let mut text = Vec::new(alloc);
    for item in items.as_slice() {
        let line = [letter_of(item.kind), item.name.as_slice(), b" "];
        let line = line.concat(alloc).expect(rt, "memory");
        text.extend_from_slice(&line).expect(rt, "memory");
    }
    text
}

/// Whether a call failed.
fn has_failed<T: Drop>(done: Result<T, HostFault>) -> bool {
    matches!(done, Err(HostFault::Failed))
}

/// Whether a call found nothing of the kind that it reads.
fn is_none<T: Drop>(done: Result<Option<T>, HostFault>) -> bool {
    matches!(done, Ok(None))
}

/// Whether a host reads these bytes of a file.
fn reads(alloc: Global, host: &mut impl Host, path: &[u8], wanted: &[u8]) -> bool {
    match host.read_file(alloc, path) {
        Ok(Some(bytes)) => bytes.as_slice() == wanted,
        _ => false,
    }
}

/// Whether a file of the machine has these bytes.
fn has_bytes<R: Abort + Files + Alloc>(rt: &R, path: &str, wanted: &[u8]) -> bool {
    fs::read(rt, path).expect(rt, "a file").as_slice() == wanted
}

/// Whether nothing is at a path of the machine.
fn is_absent(rt: &impl Files, path: &str) -> bool {
    fs::symlink_metadata(rt, path).is_err()
}

/// The folder of a name in the machine's temporary folder.
fn temporary<R: Abort + Env + Alloc>(rt: &R, alloc: Global, name: &str) -> String {
    let folder = env::temp_dir(rt).expect(rt, "memory");
    let text = folder.as_path().to_str().expect(rt, "UTF-8");
    at(rt, alloc, text, name)
}

/// Makes the file `b` and the directory `a` in an empty folder, lists and reads them.
fn makes(
    rt: &impl Abort,
    alloc: Global,
    host: &mut RealHost<HostRuntime>,
    top: &[u8],
    a: &[u8],
    b: &[u8],
) {
    assert!(rt; host.write_file(b, b"abc").is_ok());
    assert!(rt; host.make_dir(a).is_ok());
    assert!(rt; listing(rt, alloc, host, top).as_slice() == b"d a f b ".as_slice());
    assert!(rt; reads(alloc, host, b, b"abc"));
    assert!(rt; is_none(host.list(alloc, b)));
    assert!(rt; is_none(host.read_file(alloc, a)));
}

/// Removes the directory, and moves and removes the file.
fn unmakes(rt: &impl Abort, alloc: Global, host: &mut RealHost<HostRuntime>, a: &[u8], b: &[u8]) {
    assert!(rt; host.remove_dir(a).is_ok());
    assert!(rt; host.rename(b, a).is_ok());
    assert!(rt; host.remove_dir(a).is_err());
    assert!(rt; host.remove_file(a).is_ok());
    assert!(rt; is_none(host.read_file(alloc, a)));
}

#[test]
fn does_each_call_in_its_own_folder(rt: HostRuntime) {
    let alloc = rt.alloc();
    let top = temporary(&rt, alloc, "pv-host-test");
    make_anew(&rt, &top);
    let a = at(&rt, alloc, &top, "a");
    let b = at(&rt, alloc, &top, "b");
    let mut host = RealHost::new(rt);
    makes(
        &rt,
        alloc,
        &mut host,
        top.as_bytes(),
        a.as_bytes(),
        b.as_bytes(),
    );
    unmakes(&rt, alloc, &mut host, a.as_bytes(), b.as_bytes());
    remove(&rt, &top);
}

/// Makes a folder anew that has the file `a` and the directory `d`.
fn prepare<R: Abort + Files + Alloc>(rt: &R, alloc: Global, folder: &str) {
    make_anew(rt, folder);
    make_anew(rt, at(rt, alloc, folder, "d").as_str());
    let file = at(rt, alloc, folder, "a");
    fs::write(rt, file.as_str(), "old").expect(rt, "a file");
}

/// Makes a link in a folder.
fn link<R: Abort + Files>(rt: &R, alloc: Global, folder: &str, target: &str, name: &str) {
    let path = at(rt, alloc, folder, name);
    symlink(rt, target, path.as_str()).expect(rt, "a link");
}

/// Makes such a folder, and in it links to the file, to the directory and to nothing.
fn prepare_links<R: Abort + Files + Alloc>(rt: &R, alloc: Global, folder: &str) {
    prepare(rt, alloc, folder);
    link(rt, alloc, folder, "a", "to_a");
    link(rt, alloc, folder, "d", "to_d");
    link(rt, alloc, folder, "nothing", "to_nothing");
}

/// No call that reads follows a link at the end of a path, and links are listed as other objects.
#[test]
fn reads_through_no_link(rt: HostRuntime) {
    prepare_links(&rt, rt.alloc(), "read_links");
    let mut host = RealHost::new(rt);
    let listed = listing(&rt, rt.alloc(), &mut host, b"read_links");
    assert!(rt; listed.as_slice() == b"f a d d o to_a o to_d o to_nothing ".as_slice());
    assert!(rt; is_none(host.read_file(rt.alloc(), b"read_links/to_a")));
    assert!(rt; is_none(host.read_within(rt.alloc(), b"read_links/to_a", 9)));
    assert!(rt; is_none(host.list(rt.alloc(), b"read_links/to_d")));
    remove(&rt, "read_links");
}

/// No call that changes something follows a link at the end of a path: what it leads to is neither written nor removed.
#[test]
fn changes_nothing_behind_a_link(rt: HostRuntime) {
    prepare_links(&rt, rt.alloc(), "links");
    let mut host = RealHost::new(rt);
    assert!(rt; has_failed(host.write_file(b"links/to_a", b"new")));
    assert!(rt; has_failed(host.write_file(b"links/to_nothing", b"new")));
    assert!(rt; is_absent(&rt, "links/nothing"));
    assert!(rt; has_failed(host.remove_dir(b"links/to_d")));
    assert!(rt; host.remove_file(b"links/to_a").is_ok());
    assert!(rt; is_absent(&rt, "links/to_a"));
    assert!(rt; has_bytes(&rt, "links/a", b"old"));
    remove(&rt, "links");
}

/// A change that the machine refuses is answered as a fault: its path has no place, or something else is there.
#[test]
fn answers_errors_of_changes(rt: HostRuntime) {
    prepare(&rt, rt.alloc(), "errors");
    let mut host = RealHost::new(rt);
    assert!(rt; has_failed(host.write_file(b"errors/gone/b", b"new")));
    assert!(rt; has_failed(host.write_file(b"errors/d", b"new")));
    assert!(rt; has_failed(host.make_dir(b"errors/d")));
    assert!(rt; has_failed(host.make_dir(b"errors/gone/b")));
    assert!(rt; has_failed(host.remove_file(b"errors/gone")));
    assert!(rt; has_failed(host.remove_file(b"errors/d")));
    assert!(rt; has_failed(host.remove_dir(b"errors")));
    assert!(rt; has_bytes(&rt, "errors/a", b"old"));
    remove(&rt, "errors");
}

/// So is a move, and nothing has changed.
#[test]
fn answers_errors_of_moves(rt: HostRuntime) {
    prepare(&rt, rt.alloc(), "moves");
    let mut host = RealHost::new(rt);
    assert!(rt; has_failed(host.rename(b"moves/gone", b"moves/b")));
    assert!(rt; has_failed(host.rename(b"moves/a", b"moves/d")));
    assert!(rt; has_failed(host.replace_file(b"moves/gone", b"moves/b")));
    assert!(rt; has_failed(host.replace_file(b"moves/a", b"moves/d")));
    assert!(rt; listing(&rt, rt.alloc(), &mut host, b"moves").as_slice() == b"f a d d ".as_slice());
    assert!(rt; has_bytes(&rt, "moves/a", b"old"));
    remove(&rt, "moves");
}

/// A path that is not UTF-8 is a fault.
#[test]
fn answers_errors_of_names(rt: HostRuntime) {
    let mut host = RealHost::new(rt);
    assert!(rt; has_failed(host.list(rt.alloc(), b"names/\xff")));
    assert!(rt; has_failed(host.read_file(rt.alloc(), b"names/\xff")));
    assert!(rt; has_failed(host.write_file(b"names/\xff", b"new")));
}

/// A file is written beside its path and renamed. A hard link keeps its bytes. What an earlier run left is removed, and
/// may be gone by then.
#[test]
fn writes_beside(rt: HostRuntime) {
    prepare(&rt, rt.alloc(), "beside");
    fs::hard_link(&rt, "beside/a", "beside/linked").expect(&rt, "a link");
    fs::write(&rt, "beside/.#tf-", "left").expect(&rt, "a file");
    let mut host = RealHost::new(rt);
    assert!(rt; host.write_file(b"beside/a", b"new").is_ok());
    assert!(rt; has_bytes(&rt, "beside/a", b"new"));
    assert!(rt; has_bytes(&rt, "beside/linked", b"old"));
    assert!(rt; is_absent(&rt, "beside/.#tf-"));
    assert!(rt; host.remove_file(b"beside/.#tf-").is_ok());
    assert!(rt; host.replace_file(b"beside/a", b"beside/linked").is_ok());
    assert!(rt; has_bytes(&rt, "beside/linked", b"new"));
    assert!(rt;
        listing(&rt, rt.alloc(), &mut host, b"beside").as_slice() == b"d d f linked ".as_slice()
    );
    remove(&rt, "beside");
}

/// A file is read to a limit, or said to be longer.
#[test]
fn reads_within_a_limit(rt: HostRuntime) {
    prepare(&rt, rt.alloc(), "limits");
    let mut host = RealHost::new(rt);
    match host.read_within(rt.alloc(), b"limits/a", 3) {
        Ok(Some(FileBytes::Whole(bytes))) => { assert!(rt; bytes.as_slice() == b"old".as_slice()) }
        _ => panic!(rt; "a whole file"),
    }
    let longer = host.read_within(rt.alloc(), b"limits/a", 2);
    assert!(rt; matches!(longer, Ok(Some(FileBytes::Longer))));
    assert!(rt; is_none(host.read_within(rt.alloc(), b"limits/d", 3)));
    assert!(rt; is_none(host.read_within(rt.alloc(), b"limits/gone", 3)));
    remove(&rt, "limits");
}
