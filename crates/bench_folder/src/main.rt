//! Lists all directories and reads all files below `it/tree`, and writes the manifest beside it once more, through the
//! host alone. A run on a folder is compared with it.
#![tactic(auto)]

use pv_folder::{Host, HostFault, HostKind, RealHost};
use std::alloc::{AllocError, Global};
use std::process::ExitCode;

/// The path of an object in a directory.
fn below(alloc: Global, directory: &[u8], name: &[u8]) -> Result<Vec<u8>, AllocError> {
    let mut path = Vec::from_slice(alloc, directory)?;
    path.push(b'/')?;
    path.extend_from_slice(name)?;
    Ok(path)
}

/// Reads the files of a directory, and notes its directories.
fn read_directory<H: Host>(
    alloc: Global,
    host: &mut H,
    directory: &[u8],
    work: &mut Vec<Vec<u8>>,
) -> Result<(), HostFault> {
    let Some(items) = host.list(alloc, directory)? else {
        return Ok(());
    };
    for item in items.as_slice() {
        let path = below(alloc, directory, item.name.as_slice())?;
        match item.kind {
            HostKind::Directory => work.push(path)?,
            HostKind::File => {
                let _bytes = host.read_file(alloc, &path)?;
            }
            HostKind::Other => {}
        }
    }
    Ok(())
}

/// Reads all below `it/tree`, of at most a million directories.
fn read_all<H: Host>(alloc: Global, host: &mut H) -> Result<(), HostFault> {
    let mut work = Vec::new(alloc);
    work.push(Vec::from_slice(alloc, b"it/tree")?)?;
    for _ in 0..1_000_000 {
        match work.pop() {
            Some(directory) => read_directory(alloc, host, &directory, &mut work)?,
            None => break,
        }
    }
    Ok(())
}

fn main(rt: HostRuntime) -> ExitCode {
    let alloc = rt.alloc();
    let mut host = RealHost::new(rt);
    let Ok(Some(manifest)) = host.read_file(alloc, b"it/manifest") else {
        return ExitCode::from(2);
    };
    let Ok(()) = read_all(alloc, &mut host) else {
        return ExitCode::from(1);
    };
    match host.write_file(b"it/other", &manifest) {
        Ok(()) => ExitCode::from(0),
        Err(_fault) => ExitCode::from(3),
    }
}
