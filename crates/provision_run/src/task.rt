//! What the options of a run ask for.
ghost use Rattle.std.specs.Prelude.{◌≡◌};
ghost use Rattle.provision_run.specs.Tasks.{task_of};

use pv_text::Tool;
use pv_words::Options;

/// What the options of a run ask for.
#[derive(Clone, Copy)]
pub(crate) enum Task {
    /// Phases in which lines are carried out (systemd-tmpfiles(8)).
    Phases,
    /// A report on the lines. No step is done.
    Report,
    /// The explanation of a path. No step is done.
    Explain,
    /// Users and groups (systemd-sysusers(8)).
    Accounts,
}

/// Returns what options ask for.
pub(crate) fn task_of(options: &Options) -> Task
    ensures { result ≡ task_of options.entry.now }
{
    match options.tool {
        Tool::Sysusers => Task::Accounts,
        Tool::Tmpfiles => {
            if options.report {
                Task::Report
            } else if options.explain.is_some() {
                Task::Explain
            } else {
                Task::Phases
            }
        }
    }
}
