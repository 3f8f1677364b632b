//! What a host can do.
ghost use Rattle.std.specs.Prelude.{◌≡◌, ◌≤◌, ◌∷◌, [], ℕ, List, Option, option_map, IfOk, IfSome, OnOk, OnErr, IsErrOf};
ghost use Rattle.pv_io.specs.Faults.{HasRisen};
ghost use Rattle.pv_folder.specs.declared.host.HostFault.TheVariants.{Failed, Memory};
ghost use Rattle.pv_folder.specs.Content.{Change, Content, IsChanged, IsContent, MayAsk, bytes_of, given, held, listing, spelled, within};
ghost use Rattle.pv_folder.specs.Counts.{count_after};
ghost use Rattle.pv_folder.specs.Content.Change.{MakeDir, RemoveDir, RemoveFile, Rename, WriteFile};
ghost use Rattle.pv_folder.specs.Made.{AreRecorded};

use crate::item::HostList;
use std::alloc::{AllocError, AllocFailed, Global};
use thiserror::Error;

/// Why a host did not do what it was asked for.
#[derive(Clone, Copy, Debug, PartialEq, Eq, Error)]
pub enum HostFault {
    /// The host failed, and counted a fault.
    #[error("Failed")]
    Failed,
    /// Memory ran out.
    #[error("Memory")]
    Memory,
}

impl From<AllocError> for HostFault {
    ghost from_gives = { λ _ fault. fault ≡ Memory };

    fn from(_error: AllocError) -> HostFault {
        HostFault::Memory
    }
}

impl<T: Drop> From<AllocFailed<T>> for HostFault {
    ghost from_gives = { λ _ fault. fault ≡ Memory };

    fn from(_error: AllocFailed<T>) -> HostFault {
        HostFault::Memory
    }
}

/// What `read_within` found: the bytes of a file, or only that there are more of them than the caller takes.
#[derive(Drop)]
pub enum FileBytes {
    /// All bytes of the file.
    Whole(Vec<u8>),
    /// The file has more bytes than the caller takes.
    Longer,
}

/// Returns the bytes of a file, or `Longer` if there are more than `most`.
pub(crate) fn limited(bytes: Vec<u8>, most: usize) -> FileBytes
    ensures { given result ≡ within most bytes.items }
{
    if bytes.len() > most {
        return FileBytes::Longer;
    }
    FileBytes::Whole(bytes)
}

/// A host: the directories and files of a machine, or something that stands for them.
///
/// A path is bytes with slashes between the names. Slashes at the beginning, at the end and in a row do not count.
///
/// In contracts, a host may have a known content: an object at each of some paths. It may also have a known list of
/// the changes that it has made, in order. A clause about content or changes says nothing about a host for which
/// they are not known.
///
/// Each host has a count of faults. A call that answers `Failed` adds one to it, and no other call does. The count
/// stops at its largest value, 2^64 - 1. After an error, a known content is as before, and no change is recorded.
pub trait Host {
    /// The content, if it is known.
    ghost content: { Self → Option Content };

    /// The changes that were made, in order, if they are known.
    ghost changes: { Self → Option (List Change) };

    /// The count of faults.
    ghost faults: { Self → ℕ };

    /// Lists the objects in a directory, in byte order of their names. The answer is `None` if the path is not a
    /// directory.
    fn list(&mut self, alloc: Global, path: &[u8]) -> Result<Option<HostList>, HostFault>
        ensures from_content { IfOk result (λ items. IfSome (content self.old) (λ c. items ≡ listing c (spelled path.now))) }
        ensures content { IfSome (content self.old) (λ c. IsContent (held c)) }
        ensures kept { content self.new ≡ content self.old }
        ensures unasked { changes self.new ≡ changes self.old }
        ensures cause { IsErrOf result Failed → HasRisen (faults self.old) (faults self.new) }
        ensures never_falls { faults self.old ≤ faults self.new }
        ensures count { faults self.new ≡ count_after result (faults self.old) };

    /// Reads the bytes of a file. The answer is `None` if the path is not a file.
    fn read_file(&mut self, alloc: Global, path: &[u8]) -> Result<Option<Vec<u8>>, HostFault>
        ensures from_content { IfOk result (λ bytes. IfSome (content self.old) (λ c.
            option_map (λ b. b.items) bytes ≡ bytes_of (held c (spelled path.now)))) }
        ensures content { IfSome (content self.old) (λ c. IsContent (held c)) }
        ensures kept { content self.new ≡ content self.old }
        ensures unasked { changes self.new ≡ changes self.old }
        ensures cause { IsErrOf result Failed → HasRisen (faults self.old) (faults self.new) }
        ensures never_falls { faults self.old ≤ faults self.new }
        ensures count { faults self.new ≡ count_after result (faults self.old) };

    /// Reads the bytes of a file, unless there are more than `most`. The answer is `None` if the path is not a
    /// file.
    ///
    /// A host that knows the length of a file does not read a longer file.
    fn read_within(
        &mut self,
        alloc: Global,
        path: &[u8],
        most: usize,
    ) -> Result<Option<FileBytes>, HostFault>
        ensures from_content { IfOk result (λ found. IfSome (content self.old) (λ c.
            option_map given found ≡ option_map (within most) (bytes_of (held c (spelled path.now))))) }
        ensures content { IfSome (content self.old) (λ c. IsContent (held c)) }
        ensures kept { content self.new ≡ content self.old }
        ensures unasked { changes self.new ≡ changes self.old }
        ensures cause { IsErrOf result Failed → HasRisen (faults self.old) (faults self.new) }
        ensures never_falls { faults self.old ≤ faults self.new }
        ensures count { faults self.new ≡ count_after result (faults self.old) }
    {
        match self.read_file(alloc, path) {
            Ok(Some(bytes)) => Ok(Some(limited(bytes, most))),
            Ok(None) => Ok(None),
            Err(fault) => Err(fault),
        }
    }

    /// Writes a file as a whole, at a path where there is a file or nothing. The path must be in a directory.
    fn write_file(&mut self, path: &[u8], bytes: &[u8]) -> Result<(), HostFault>
        requires { MayAsk (content self.old) (WriteFile (spelled path.now) bytes.now) }
        ensures done { OnOk result (IsChanged (WriteFile (spelled path.now) bytes.now) (content self.old) (content self.new)) }
        ensures kept { OnErr result (content self.new ≡ content self.old) }
        ensures recorded { OnOk result (AreRecorded (WriteFile (spelled path.now) bytes.now ∷ []) (changes self.old) (changes self.new)) }
        ensures unrecorded { OnErr result (changes self.new ≡ changes self.old) }
        ensures cause { IsErrOf result Failed → HasRisen (faults self.old) (faults self.new) }
        ensures never_falls { faults self.old ≤ faults self.new }
        ensures count { faults self.new ≡ count_after result (faults self.old) };

    /// Makes a directory at an absent path, which must be in a directory.
    fn make_dir(&mut self, path: &[u8]) -> Result<(), HostFault>
        requires { MayAsk (content self.old) (MakeDir (spelled path.now)) }
        ensures done { OnOk result (IsChanged (MakeDir (spelled path.now)) (content self.old) (content self.new)) }
        ensures kept { OnErr result (content self.new ≡ content self.old) }
        ensures recorded { OnOk result (AreRecorded (MakeDir (spelled path.now) ∷ []) (changes self.old) (changes self.new)) }
        ensures unrecorded { OnErr result (changes self.new ≡ changes self.old) }
        ensures cause { IsErrOf result Failed → HasRisen (faults self.old) (faults self.new) }
        ensures never_falls { faults self.old ≤ faults self.new }
        ensures count { faults self.new ≡ count_after result (faults self.old) };

    /// Renames the object at `from`, with everything below it, to `to` (rename(2)).
    ///
    /// At `to` there must be nothing, or an object that the rename can replace. A directory may replace an empty
    /// directory, and another object may replace one that is not a directory.
    fn rename(&mut self, from: &[u8], to: &[u8]) -> Result<(), HostFault>
        requires { MayAsk (content self.old) (Rename (spelled from.now) (spelled to.now)) }
        ensures done { OnOk result (IsChanged (Rename (spelled from.now) (spelled to.now)) (content self.old) (content self.new)) }
        ensures kept { OnErr result (content self.new ≡ content self.old) }
        ensures recorded { OnOk result (AreRecorded (Rename (spelled from.now) (spelled to.now) ∷ []) (changes self.old) (changes self.new)) }
        ensures unrecorded { OnErr result (changes self.new ≡ changes self.old) }
        ensures cause { IsErrOf result Failed → HasRisen (faults self.old) (faults self.new) }
        ensures never_falls { faults self.old ≤ faults self.new }
        ensures count { faults self.new ≡ count_after result (faults self.old) };

    /// Renames a file so that a loss of power leaves the old file or the new one at `to`, complete.
    ///
    /// At `to` there must be a file or nothing. A host with a disk first syncs the file, then renames it, and then
    /// syncs the directory (fsync(2)). On a machine, whose content is not known, an error may come after the rename,
    /// and then the new file is there.
    fn replace_file(&mut self, from: &[u8], to: &[u8]) -> Result<(), HostFault>
        requires { MayAsk (content self.old) (Rename (spelled from.now) (spelled to.now)) }
        ensures done { OnOk result (IsChanged (Rename (spelled from.now) (spelled to.now)) (content self.old) (content self.new)) }
        ensures kept { OnErr result (content self.new ≡ content self.old) }
        ensures recorded { OnOk result (AreRecorded (Rename (spelled from.now) (spelled to.now) ∷ []) (changes self.old) (changes self.new)) }
        ensures unrecorded { OnErr result (changes self.new ≡ changes self.old) }
        ensures cause { IsErrOf result Failed → HasRisen (faults self.old) (faults self.new) }
        ensures never_falls { faults self.old ≤ faults self.new }
        ensures count { faults self.new ≡ count_after result (faults self.old) }
    {
        self.rename(from, to)
    }

    /// Removes the file at a path (unlink(2)).
    fn remove_file(&mut self, path: &[u8]) -> Result<(), HostFault>
        requires { MayAsk (content self.old) (RemoveFile (spelled path.now)) }
        ensures done { OnOk result (IsChanged (RemoveFile (spelled path.now)) (content self.old) (content self.new)) }
        ensures kept { OnErr result (content self.new ≡ content self.old) }
        ensures recorded { OnOk result (AreRecorded (RemoveFile (spelled path.now) ∷ []) (changes self.old) (changes self.new)) }
        ensures unrecorded { OnErr result (changes self.new ≡ changes self.old) }
        ensures cause { IsErrOf result Failed → HasRisen (faults self.old) (faults self.new) }
        ensures never_falls { faults self.old ≤ faults self.new }
        ensures count { faults self.new ≡ count_after result (faults self.old) };

    /// Removes the empty directory at a path, which must not be the root (rmdir(2)).
    fn remove_dir(&mut self, path: &[u8]) -> Result<(), HostFault>
        requires { MayAsk (content self.old) (RemoveDir (spelled path.now)) }
        ensures done { OnOk result (IsChanged (RemoveDir (spelled path.now)) (content self.old) (content self.new)) }
        ensures kept { OnErr result (content self.new ≡ content self.old) }
        ensures recorded { OnOk result (AreRecorded (RemoveDir (spelled path.now) ∷ []) (changes self.old) (changes self.new)) }
        ensures unrecorded { OnErr result (changes self.new ≡ changes self.old) }
        ensures cause { IsErrOf result Failed → HasRisen (faults self.old) (faults self.new) }
        ensures never_falls { faults self.old ≤ faults self.new }
        ensures count { faults self.new ≡ count_after result (faults self.old) };
}
