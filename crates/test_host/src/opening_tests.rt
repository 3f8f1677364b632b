//! Folders of a host in memory, opened; what they are is written out by hand.
use pv_folder::{MemHost, OpenFault, read_folder};
use pv_image::{Image, read_image, write_image};
use std::alloc::Global;
use std::process::Abort;

/// The host that holds the tree of an image, with planned faults.
fn host_of(rt: &impl Abort, alloc: Global, text: &[u8], fails: Vec<u64>) -> MemHost {
    let Image { tree, facts: _ } = read_image(alloc, text).expect(rt, "an image");
    MemHost::new(tree, fails)
}

/// What is answered of the folder `/f` of the host that holds the tree of an image.
fn opened(rt: &impl Abort, alloc: Global, text: &[u8]) -> Result<Image, OpenFault> {
    let mut host = host_of(rt, alloc, text, Vec::new(alloc));
    read_folder(alloc, &mut host, b"/f")
}

/// The text of what the folder `/f` is opened as.
fn opened_text(rt: &impl Abort, alloc: Global, text: &[u8]) -> Vec<u8> {
    let image = opened(rt, alloc, text).expect(rt, "a folder that is opened");
    write_image(alloc, &image.tree, &image.facts).expect(rt, "memory")
}

/// A folder whose manifest has the fact `H beech`, the owner 7 and the mode 0600 for `/a`, the file `/gone`, and the link `/l`.
const WITH_MANIFEST: &[u8] = b"tree-image 2
d / 0755 0 0 0,0,0,0 - - - -
d /f 0755 0 0 0,0,0,0 - - - -
f /f/manifest 0644 0 0 0,0,0,0 - - - dHJlZS1pbWFnZSAyCmZhY3QgSCBiZWVjaApkIC8gMDc1NSAwIDAgMCwwLDAsMCAtIC0gLSAtCmYgL2EgMDYwMCA3IDAgMSwyLDMsNCAtIC0gLSAtCmYgL2dvbmUgMDY0NCAwIDAgMCwwLDAsMCAtIC0gLSAtCmwgL2wgMDc3NyAwIDAgMCwwLDAsMCAtIC0gLSBhCmVuZAo=
d /f/tree 0755 0 0 0,0,0,0 - - - -
f /f/tree/a 0644 5 5 9,9,9,9 - - - YWJj
d /f/tree/d 0700 5 5 9,9,9,9 - - - -
f /f/tree/d/b 0644 5 5 9,9,9,9 - - - -
end
";

/// What it is opened as.
const MERGED: &[u8] = b"tree-image 2
fact H beech
d / 0755 0 0 0,0,0,0 - - - -
f /a 0600 7 0 1,2,3,4 - - - YWJj
d /d 0755 0 0 0,0,0,0 - - - -
f /d/b 0644 0 0 0,0,0,0 - - - -
l /l 0777 0 0 0,0,0,0 - - - a
end
";

/// A folder without a manifest, and what it is opened as.
const WITHOUT_MANIFEST: &[u8] = b"tree-image 2
d / 0755 0 0 0,0,0,0 - - - -
d /f 0755 0 0 0,0,0,0 - - - -
d /f/tree 0755 0 0 0,0,0,0 - - - -
end
";

const EMPTY: &[u8] = b"tree-image 2
d / 0755 0 0 0,0,0,0 - - - -
end
";

#[test]
fn opens_a_folder(rt: HostRuntime) {
    let text = opened_text(&rt, rt.alloc(), WITH_MANIFEST);
    assert!(rt; text.as_slice() == MERGED);
}

#[test]
fn opens_a_folder_without_a_manifest(rt: HostRuntime) {
    let text = opened_text(&rt, rt.alloc(), WITHOUT_MANIFEST);
    assert!(rt; text.as_slice() == EMPTY);
}

/// A host with a directory in the place of a manifest.
const DIRECTORY: &[u8] = b"tree-image 2
d / 0755 0 0 0,0,0,0 - - - -
d /f 0755 0 0 0,0,0,0 - - - -
d /f/manifest.new 0755 0 0 0,0,0,0 - - - -
d /f/tree 0755 0 0 0,0,0,0 - - - -
end
";

/// Whether the folder `/f` is said not to be prepared.
fn is_unprepared(rt: &impl Abort, alloc: Global, text: &[u8]) -> bool {
    matches!(opened(rt, alloc, text), Err(OpenFault::NotPrepared))
}

#[test]
fn refuses_what_is_not_prepared(rt: HostRuntime) {
    assert!(rt; is_unprepared(&rt, rt.alloc(), EMPTY));
    assert!(rt; is_unprepared(&rt, rt.alloc(), DIRECTORY));
}

/// A manifest that is not one, and an odd object.
const BAD: &[u8] = b"tree-image 2
d / 0755 0 0 0,0,0,0 - - - -
d /f 0755 0 0 0,0,0,0 - - - -
f /f/manifest 0644 0 0 0,0,0,0 - - - YQ==
d /f/tree 0755 0 0 0,0,0,0 - - - -
p /f/tree/x 0644 0 0 0,0,0,0 - - - -
end
";

/// Two odd objects.
const ODD: &[u8] = b"tree-image 2
d / 0755 0 0 0,0,0,0 - - - -
d /f 0755 0 0 0,0,0,0 - - - -
d /f/tree 0755 0 0 0,0,0,0 - - - -
d /f/tree/d 0755 0 0 0,0,0,0 - - - -
p /f/tree/d/x 0644 0 0 0,0,0,0 - - - -
p /f/tree/e 0644 0 0 0,0,0,0 - - - -
end
";

/// A manifest is read before `tree` is read, and the first odd object in `tree` is answered.
#[test]
fn tells_the_first_fault(rt: HostRuntime) {
    let bad = opened(&rt, rt.alloc(), BAD);
    assert!(rt; matches!(bad, Err(OpenFault::BadManifest(_))));
    match opened(&rt, rt.alloc(), ODD) {
        Err(OpenFault::OddObject(path)) => {
            assert!(rt; path.as_slice() == b"/tree/d/x".as_slice())
        }
        _ => panic!(rt; "no odd object"),
    }
}

/// Each of the calls that opening makes may fail: the list, the manifest, `tree`, `a`, `d` and `d/b`.
#[test]
fn passes_on_faults_of_the_host(rt: HostRuntime) {
    for call in 0..6u64 {
        let fails = vec![in rt.alloc(); call].expect(&rt, "memory");
        let mut host = host_of(&rt, rt.alloc(), WITH_MANIFEST, fails);
        let answer = read_folder(rt.alloc(), &mut host, b"/f");
        assert!(rt; matches!(answer, Err(OpenFault::HostFailed)), "{call}");
    }
}
