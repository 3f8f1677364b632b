//! How a run ends, and its exit status.
ghost use Rattle.std.specs.Prelude.{◌≡◌};
ghost use Rattle.provision_run.specs.Answers.{status_of};

use pv_folder::OpenFault;
use pv_image::ImageFault;
use pv_path::Bytes;

/// How a run ended, and with it what was written.
///
/// In `Done`, `ConfigInvalid`, `NotCarriedOut` and `NoFreeId`, all messages of the run were written, and then the image
/// of the tree that it left. In `Stopped`, the messages are those until the stop, and the image is that of the tree
/// then. A run on a folder leaves its tree there, and writes the messages alone.
#[derive(Drop)]
pub enum Outcome {
    /// All that was asked for was done.
    Done,
    /// A line of the configuration could not be read, and was left out. All others were carried out.
    ConfigInvalid,
    /// Something could not be carried out. A line was refused, a removal is unfinished, an account file cannot be used,
    /// or a configuration file that the words name was not found.
    NotCarriedOut,
    /// The words have no meaning. One message, `: usage`, was written.
    Usage,
    /// The input is not an image of a tree. One message with the error was written.
    BadImage(ImageFault),
    /// No number was left for the user or the group of this name. The tree is unchanged.
    NoFreeId(Bytes),
    /// Out of memory. Nothing was written. A folder may hold a part of what the run would leave.
    Memory,
    /// The source failed. Nothing was written.
    ReadFault,
    /// The sink failed. A prefix of the output was written.
    WriteFault,
    /// The run was stopped after this number of steps, the limit of `--stop-after`.
    Stopped(u64),
    /// The folder cannot be used, for a defect of what is there. One message with the error was written.
    BadFolder(OpenFault),
    /// The host failed. The folder may hold a part of what the run would leave.
    FolderFailed,
}

/// Returns the exit status of an outcome.
///
/// - 0: `Done`.
/// - 1: `Usage` or `NoFreeId`.
/// - 65: `ConfigInvalid`.
/// - 66: `BadImage` or `BadFolder`.
/// - 71: `Memory`.
/// - 73: `NotCarriedOut`.
/// - 74: `ReadFault`.
/// - 75: `Stopped`.
/// - 76: `WriteFault`.
/// - 77: `FolderFailed`.
pub fn status(outcome: &Outcome) -> u8
    ensures { result ≡ status_of outcome.now }
{
    match outcome {
        Outcome::Done => 0,
        Outcome::ConfigInvalid => 65,
        Outcome::NotCarriedOut => 73,
        Outcome::Usage => 1,
        Outcome::BadImage(_) => 66,
        Outcome::NoFreeId(_) => 1,
        Outcome::Memory => 71,
        Outcome::ReadFault => 74,
        Outcome::WriteFault => 76,
        Outcome::Stopped(_) => 75,
        Outcome::BadFolder(_) => 66,
        Outcome::FolderFailed => 77,
    }
}
