//! Runs on folders of the machine, in the folder in which the tests run; what they leave is written out by hand.
use provision_run::{provision_all, status};
use pv_folder::{Host, RealHost};
use pv_io::{MemSink, MemSource};
use std::alloc::Global;
use std::fs;
use std::process::Abort;
use std::rt::Files;

/// The manifest that a complete run leaves.
const MANIFEST: &[u8] = b"tree-image 2
d / 0755 0 0 0,0,1000000000000,1000000000000 - - - -
d /etc 0755 0 0 0,0,0,0 - - - -
d /etc/tmpfiles.d 0755 0 0 0,0,0,0 - - - -
f /etc/tmpfiles.d/a.conf 0644 0 0 0,0,0,0 - - - -
d /run 0755 0 0 1000000000000,1000000000000,1000000000000,1000000000000 - - - -
d /run/app 0750 0 0 1000000000000,1000000000000,1000000000000,1000000000000 - - - -
end
";

/// Makes the folder `it` with one line of configuration and no manifest.
fn prepare<R: Abort + Files + Alloc>(rt: &R) {
    let _old = fs::remove_dir_all(rt, "it");
    let folder = "it/tree/etc/tmpfiles.d";
    fs::create_dir_all(rt, folder).expect(rt, "a folder");
    let file = "it/tree/etc/tmpfiles.d/a.conf";
    fs::write(rt, file, "d /run/app 0750 0 0\n").expect(rt, "a file");
}

/// The words of a text that has a space between two of them.
fn words_of(rt: &impl Abort, alloc: Global, text: &str) -> Vec<String> {
    let mut words = Vec::new(alloc);
    for word in text.split(' ') {
        let word = word.to_string(alloc).expect(rt, "memory");
        words.push(word).expect(rt, "memory");
    }
    words
}

/// A sink that is never full.
fn empty_sink(rt: &impl Abort, alloc: Global) -> MemSink {
    let sink = MemSink::new(alloc, 65_536, 65_536, Vec::new(alloc));
    sink.expect(rt, "memory")
}

/// The status of a run of these words. What it says is written to a sink.
fn run(rt: &impl Abort, alloc: Global, host: &mut impl Host, text: &str, sink: &mut MemSink) -> u8 {
    let words = words_of(rt, alloc, text);
    let mut source = MemSource::new(Vec::new(alloc), Vec::new(alloc));
    let moment = 1_000_000_000_000;
    let outcome = provision_all(alloc, &words, moment, &mut source, sink, host);
    status(&outcome)
}

/// Whether a path of the machine is a directory.
fn is_directory<R: Abort + Files>(rt: &R, path: &str) -> bool {
    let found = fs::symlink_metadata(rt, path);
    found.expect(rt, "an object").is_dir()
}

/// Whether a complete run from here says nothing, and leaves the directory and the manifest.
fn is_whole<R: Abort + Files + Alloc>(rt: &R, alloc: Global, host: &mut impl Host) -> bool {
    let mut sink = empty_sink(rt, alloc);
    let words = "systemd-tmpfiles --create --root=it";
    let status = run(rt, alloc, host, words, &mut sink);
    let manifest = fs::read(rt, "it/manifest").expect(rt, "a manifest");
    sink.written().is_empty()
        && status == 0
        && manifest.as_slice() == MANIFEST
        && is_directory(rt, "it/tree/run/app")
        && fs::symlink_metadata(rt, "it/manifest.new").is_err()
}

/// Whole; and stopped after three steps, when the parent is there, and then whole.
#[test]
fn runs_on_a_folder(rt: HostRuntime) {
    let mut host = RealHost::new(rt);
    prepare(&rt);
    assert!(rt; is_whole(&rt, rt.alloc(), &mut host));
    prepare(&rt);
    let mut sink = empty_sink(&rt, rt.alloc());
    let words = "systemd-tmpfiles --create --root=it --stop-after=3";
    let status = run(&rt, rt.alloc(), &mut host, words, &mut sink);
    assert!(rt; sink.written() == b": stopped after 3 steps\n".as_slice());
    assert_eq!(rt; status, 75);
    assert!(rt; is_directory(&rt, "it/tree/run"));
    assert!(rt; is_whole(&rt, rt.alloc(), &mut host));
    fs::remove_dir_all(&rt, "it").expect(&rt, "a folder");
}
