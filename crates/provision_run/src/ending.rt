//! How a run over a tree ends.
ghost use Rattle.std.specs.Prelude.{◌≡◌};
ghost use Rattle.provision_run.specs.Ending.{end_of, is_uncarried};

use pv_path::Bytes;
use pv_steps::Carried;

/// How a run over a tree ended, if it was not cut short.
#[derive(Drop)]
pub enum RunEnd {
    /// All that was asked for was done.
    Done,
    /// A line of the configuration could not be read, and was left out. All others were carried out.
    ConfigInvalid,
    /// Something could not be carried out. A line was refused, a removal is unfinished, an account file cannot be used,
    /// or a configuration file that the words name was not found.
    NotCarriedOut,
    /// No number was left for the user or the group of this name. The tree is unchanged.
    NoFreeId(Bytes),
}

/// Returns how a run ended, for what was carried out, whether a named file was missing, and whether a line was invalid.
pub(crate) fn end_of(carried: Carried, missing: bool, invalid: bool) -> RunEnd
    ensures { result ≡ end_of (is_uncarried carried missing) invalid }
{
    match carried {
        Carried::NotCarriedOut => RunEnd::NotCarriedOut,
        Carried::Whole => {
            if missing {
                RunEnd::NotCarriedOut
            } else if invalid {
                RunEnd::ConfigInvalid
            } else {
                RunEnd::Done
            }
        }
    }
}
