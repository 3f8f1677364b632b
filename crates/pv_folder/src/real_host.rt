//! The machine's own directories and files.
ghost use Rattle.std.specs.Prelude.{◌≡◌, ◌≢◌, ◌≤◌, None, Ok, IfOk, IfErr, IsErrOf, IsErrAnd};
ghost use Rattle.std.specs.IoError.{error_kind};
ghost use Rattle.pv_io.specs.Faults.{HasRisen};
ghost use Rattle.pv_folder.specs.Counts.{count_after};
ghost use Rattle.pv_folder.specs.declared.host.HostFault.TheVariants.{Failed, Memory};

use crate::host::{FileBytes, Host, HostFault, limited};
use crate::item::{HostItem, HostKind, HostList};
use crate::writing::{make_directory, remove, replace, write_whole};
use pv_path::Bytes;
use std::alloc::Global;
use std::fs::{self, File, FileType, Metadata};
use std::io::{self, ErrorKind, Read};
use std::rt::Files;
use std::str;

/// How often a call is tried that a signal interrupts (signal(7)).
const MOST_TRIES: u32 = 1000;

/// The directories and files of the machine. In contracts, its content is not known.
///
/// No call follows a symbolic link at the last component of a path. A path, or a name in a directory, that is not
/// UTF-8 is a fault, which is counted. A call that a signal interrupts is tried again: up to 1,000 tries for each call.
#[derive(Drop)]
pub struct RealHost<R: Files> {
    rt: R,
    faults: u64,
}

impl<R: Files> RealHost<R> {
    /// Returns the host for the files that a runtime can reach, with no fault counted. A runtime is std's handle for
    /// calls to the system, which `main` gets.
    pub fn new(rt: R) -> RealHost<R>
        ensures { result.faults ≡ 0 }
    {
        RealHost { rt, faults: 0 }
    }

    /// Turns the answer of the machine into that of a host.
    ///
    /// Success is the same. An error is `Memory` if the machine was out of memory. Any other error is `Failed`, and
    /// is counted.
    fn judged<T>(&mut self, done: io::Result<T>) -> Result<T, HostFault>
        ensures done { IfOk done (λ answer. result ≡ Ok answer) }
        ensures memory { IfErr done (λ error. error_kind error ≡ ErrorKind.OutOfMemory → IsErrOf result Memory) }
        ensures failed { IfErr done (λ error. error_kind error ≢ ErrorKind.OutOfMemory → IsErrOf result Failed) }
        ensures cause { IsErrOf result Failed → HasRisen self.old.faults self.new.faults }
        ensures never_falls { self.old.faults ≤ self.new.faults }
        ensures count { self.new.faults ≡ count_after result self.old.faults }
    {
        match done {
            Ok(answer) => Ok(answer),
            Err(error) if error.kind() == ErrorKind::OutOfMemory => Err(HostFault::Memory),
            Err(_) => {
                self.faults = self.faults.saturating_add(1);
                Err(HostFault::Failed)
            }
        }
    }
}

/// Makes a call again as long as a signal interrupts it.
fn tried<T, F: Fn() -> io::Result<T>>(call: F) -> io::Result<T>
    requires { F.IsAlwaysCallable call }
{
    for _ in 1..MOST_TRIES {
        match call() {
            Err(error) if error.kind() == ErrorKind::Interrupted => {}
            done => return done,
        }
    }
    call()
}

/// Returns the kind of an object.
fn kind_of(file_type: FileType) -> HostKind {
    if file_type.is_dir() {
        HostKind::Directory
    } else if file_type.is_file() {
        HostKind::File
    } else {
        HostKind::Other
    }
}

/// Returns the text of a path.
fn text_of(path: &[u8]) -> io::Result<&str> {
    match str::from_utf8(path) {
        Ok(text) => Ok(text),
        Err(_) => Err(io::Error::from(ErrorKind::InvalidFilename)),
    }
}

/// Returns the metadata of the object at a path of the machine, or `None` if it is absent. A symbolic link at the
/// last component is not followed.
fn metadata_at<R: Files>(rt: &R, path: &str) -> io::Result<Option<Metadata>> {
    match fs::symlink_metadata(rt, path) {
        Ok(metadata) => Ok(Some(metadata)),
        Err(error) => match error.kind() {
            ErrorKind::NotFound | ErrorKind::NotADirectory => Ok(None),
            _ => Err(error),
        },
    }
}

/// Returns the kind of the object at a path, or `None` if it is absent.
fn kind_at<R: Files>(rt: &R, path: &str) -> io::Result<Option<HostKind>> {
    match metadata_at(rt, path)? {
        Some(metadata) => Ok(Some(kind_of(metadata.file_type()))),
        None => Ok(None),
    }
}

/// Returns the objects of a directory in byte order of their names.
fn sorted_items(alloc: Global, items: Vec<HostItem>) -> io::Result<HostList> {
    let mut items = items;
    items.sort_by(|x, y| x.name.as_slice().cmp(y.name.as_slice()))?;
    let mut list = HostList::new(alloc);
    for item in items {
        if !list.put_last(item)? {
            return Err(io::Error::from(ErrorKind::InvalidData));
        }
    }
    Ok(list)
}

/// Returns the objects of a directory in the order in which the machine gives them.
fn items_in<R: Files + Alloc<A = Global> + Clone + Drop>(
    rt: &R,
    alloc: Global,
    path: &str,
) -> io::Result<Vec<HostItem>> {
    let mut items = Vec::new(alloc);
    for entry in fs::read_dir(rt, path)? {
        let entry = entry?;
        let kind = kind_of(entry.file_type()?);
        let name = Bytes::copy_of(alloc, entry.file_name().as_bytes())?;
        items.push(HostItem { name, kind })?;
    }
    Ok(items)
}

/// Lists a directory.
fn listing_at<R: Files + Alloc<A = Global> + Clone + Drop>(
    rt: &R,
    alloc: Global,
    path: &[u8],
) -> io::Result<Option<HostList>> {
    let path = text_of(path)?;
    match kind_at(rt, path)? {
        Some(HostKind::Directory) => { Ok(Some(sorted_items(alloc, items_in(rt, alloc, path)?)?)) }
        _ => Ok(None),
    }
}

/// Reads the bytes of a file.
fn bytes_at<R: Files + Alloc<A = Global>>(rt: &R, path: &[u8]) -> io::Result<Option<Vec<u8>>> {
    let path = text_of(path)?;
    match kind_at(rt, path)? {
        Some(HostKind::File) => Ok(Some(fs::read(rt, path)?)),
        _ => Ok(None),
    }
}

/// Reads the bytes of a file, unless there are more than `most`. It asks for the length first, so that a longer
/// file is not read.
fn bytes_within<R: Files + Alloc<A = Global>>(
    rt: &R,
    path: &[u8],
    most: usize,
) -> io::Result<Option<FileBytes>> {
    let path = text_of(path)?;
    match metadata_at(rt, path)? {
        Some(metadata) if metadata.is_file() => {
            if metadata.len() > most as u64 {
                return Ok(Some(FileBytes::Longer));
            }
            let mut bytes = Vec::new(rt.alloc());
            let one_more = (most as u64).saturating_add(1);
            File::open(rt, path)?
                .take(one_more)
                .read_to_end(&mut bytes)?;
            Ok(Some(limited(bytes, most)))
        }
        _ => Ok(None),
    }
}

/// Writes a file as a whole, unless there is another object at the path.
fn write_at<R: Files + Alloc<A = Global>>(rt: &R, path: &[u8], bytes: &[u8]) -> io::Result<()> {
    let path = text_of(path)?;
    match kind_at(rt, path)? {
        None | Some(HostKind::File) => write_whole(rt, rt.alloc(), path, bytes),
        Some(_) => Err(io::Error::from(ErrorKind::AlreadyExists)),
    }
}

/// Makes a directory.
fn make_at<R: Files>(rt: &R, path: &[u8]) -> io::Result<()> {
    make_directory(rt, text_of(path)?)
}

/// Renames the object at a path.
fn rename_at<R: Files>(rt: &R, from: &[u8], to: &[u8]) -> io::Result<()> {
    fs::rename(rt, text_of(from)?, text_of(to)?)
}

/// Renames a file, and syncs it to the disk.
fn replace_at<R: Files + Alloc<A = Global>>(rt: &R, from: &[u8], to: &[u8]) -> io::Result<()> {
    replace(rt, rt.alloc(), text_of(from)?, text_of(to)?)
}

/// Removes a file.
fn remove_file_at<R: Files>(rt: &R, path: &[u8]) -> io::Result<()> {
    remove(rt, text_of(path)?)
}

/// Removes an empty directory.
fn remove_dir_at<R: Files>(rt: &R, path: &[u8]) -> io::Result<()> {
    fs::remove_dir(rt, text_of(path)?)
}

impl<R: Files + Alloc<A = Global> + Clone + Drop> Host for RealHost<R> {
    ghost content = { λ _. None };

    ghost changes = { λ _. None };

    ghost faults = { λ s. s.faults };

    fn list(&mut self, alloc: Global, path: &[u8]) -> Result<Option<HostList>, HostFault> {
        let rt = &self.rt;
        let done = tried(|| listing_at(rt, alloc, path));
        self.judged(done)
    }

    fn read_file(&mut self, _alloc: Global, path: &[u8]) -> Result<Option<Vec<u8>>, HostFault> {
        let rt = &self.rt;
        let done = tried(|| bytes_at(rt, path));
        self.judged(done)
    }

    fn read_within(
        &mut self,
        _alloc: Global,
        path: &[u8],
        most: usize,
    ) -> Result<Option<FileBytes>, HostFault> {
        let rt = &self.rt;
        let done = tried(|| bytes_within(rt, path, most));
        self.judged(done)
    }

    fn write_file(&mut self, path: &[u8], bytes: &[u8]) -> Result<(), HostFault> {
        let rt = &self.rt;
        let done = tried(|| write_at(rt, path, bytes));
        self.judged(done)
    }

    fn make_dir(&mut self, path: &[u8]) -> Result<(), HostFault> {
        let rt = &self.rt;
        let done = tried(|| make_at(rt, path));
        self.judged(done)
    }

    fn rename(&mut self, from: &[u8], to: &[u8]) -> Result<(), HostFault> {
        let rt = &self.rt;
        let done = tried(|| rename_at(rt, from, to));
        self.judged(done)
    }

    fn replace_file(&mut self, from: &[u8], to: &[u8]) -> Result<(), HostFault> {
        let rt = &self.rt;
        let done = tried(|| replace_at(rt, from, to));
        self.judged(done)
    }

    fn remove_file(&mut self, path: &[u8]) -> Result<(), HostFault> {
        let rt = &self.rt;
        let done = tried(|| remove_file_at(rt, path));
        self.judged(done)
    }

    fn remove_dir(&mut self, path: &[u8]) -> Result<(), HostFault> {
        let rt = &self.rt;
        let done = tried(|| remove_dir_at(rt, path));
        self.judged(done)
    }
}
