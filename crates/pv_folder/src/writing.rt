//! Writes on the machine, each of which is done completely or not at all.
use std::alloc::{AllocError, Global};
use std::fs::{self, DirBuilder, File, OpenFile, OpenOptions};
use std::io::{self, ErrorKind, Write};
use std::os::unix::fs::{DirBuilderExt, OpenOptionsExt};
use std::rt::Files;

/// The name of the file that is written first and then renamed over another: the staging prefix alone.
///
/// No object is staged under this name, because no name is empty.
const BESIDE: &str = ".#tf-";

/// The modes of new files and directories: only the owner has permissions, because the manifest says what others
/// may read.
const FILE_MODE: u32 = 0o600;

const DIRECTORY_MODE: u32 = 0o700;

/// Returns the path of the directory that a path is in, with a slash at its end.
fn directory_of(alloc: Global, path: &str) -> Result<String, AllocError> {
    let directory = match path.rsplit_once('/') {
        Some((directory, _name)) => directory,
        None => ".",
    };
    let mut text = directory.to_string(alloc)?;
    text.push('/')?;
    Ok(text)
}

/// Returns the path of the file that is written first. It is in the same directory, so that it can be renamed.
fn beside(alloc: Global, path: &str) -> Result<String, AllocError> {
    let mut text = directory_of(alloc, path)?;
    text.push_str(BESIDE)?;
    Ok(text)
}

/// Returns whether a path is that of a file that is written first.
fn is_beside(path: &str) -> bool {
    match path.rsplit_once('/') {
        Some((_directory, name)) => name == BESIDE,
        None => path == BESIDE,
    }
}

/// Makes an empty file at an absent path.
fn make_empty<R: Files>(rt: &R, path: &str) -> io::Result<R::File> {
    OpenOptions::new()
        .write(true)
        .create_new(true)
        .mode(FILE_MODE)
        .open(rt, path)
}

/// Makes an empty file, in place of one that an earlier run left.
fn make_anew<R: Files>(rt: &R, path: &str) -> io::Result<R::File> {
    match make_empty(rt, path) {
        Err(error) if error.kind() == ErrorKind::AlreadyExists => {
            fs::remove_file(rt, path)?;
            make_empty(rt, path)
        }
        made => made,
    }
}

/// Writes a file beside a path, and renames it to the path.
fn write_and_rename<R: Files>(rt: &R, new: &str, path: &str, bytes: &[u8]) -> io::Result<()> {
    let mut file = make_anew(rt, new)?;
    file.write_all(bytes)?;
    drop(file);
    fs::rename(rt, new, path)
}

/// Writes a file as a whole, where there is a file or nothing.
///
/// After an error or a kill, the old file is there as it was, and the file beside it may be left.
pub(crate) fn write_whole<R: Files>(
    rt: &R,
    alloc: Global,
    path: &str,
    bytes: &[u8],
) -> io::Result<()> {
    let new = beside(alloc, path)?;
    let done = write_and_rename(rt, new.as_str(), path, bytes);
    if done.is_err() {
        let _left = fs::remove_file(rt, new.as_str());
    }
    done
}

/// Syncs a file or a directory to the disk, if its file system has a call for that.
fn sync<R: Files>(rt: &R, path: &str) -> io::Result<()> {
    let file = File::open(rt, path)?;
    match file.sync_all() {
        Err(error) if has_no_sync(error.kind()) => Ok(()),
        done => done,
    }
}

/// Returns whether this error of a sync means that the file system has none (fsync(2): EINVAL).
fn has_no_sync(kind: ErrorKind) -> bool {
    matches!(kind, ErrorKind::InvalidInput | ErrorKind::Unsupported)
}

/// Syncs a file to the disk, renames it, and syncs the directory that it is then in.
pub(crate) fn replace<R: Files>(rt: &R, alloc: Global, from: &str, to: &str) -> io::Result<()> {
    let directory = directory_of(alloc, to)?;
    sync(rt, from)?;
    fs::rename(rt, from, to)?;
    sync(rt, directory.as_str())
}

/// Makes a directory.
pub(crate) fn make_directory<R: Files>(rt: &R, path: &str) -> io::Result<()> {
    DirBuilder::new().mode(DIRECTORY_MODE).create(rt, path)
}

/// Removes a file. If an earlier run left it beside another file, it may be gone already: the next write there
/// removes it.
pub(crate) fn remove<R: Files>(rt: &R, path: &str) -> io::Result<()> {
    match fs::remove_file(rt, path) {
        Err(error) if error.kind() == ErrorKind::NotFound && is_beside(path) => Ok(()),
        done => done,
    }
}
