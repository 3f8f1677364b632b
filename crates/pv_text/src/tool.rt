//! The two tools, systemd-tmpfiles and systemd-sysusers.
/// Which of the two tools runs.
#[derive(Clone, Copy, PartialEq, Eq)]
pub enum Tool {
    /// `systemd-tmpfiles`
    Tmpfiles,
    /// `systemd-sysusers`
    Sysusers,
}
