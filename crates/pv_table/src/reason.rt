//! The hazards of a configuration.

/// A hazard of a line: why carrying out the lines again may leave something other than carrying them out once.
#[derive(Clone, Copy)]
pub enum Reason {
    /// The line appends bytes.
    Append,
    /// The line may change what another line copies, or what it copies itself.
    Source,
    /// The line makes or copies an object below the destination of a copy.
    Below,
    /// The line may change what is at an input path, so that the next run reads other lines. Input paths are the
    /// configuration folders with everything below them, `/etc/passwd` and `/etc/group`.
    Input,
    /// Of this line and an earlier one, one has a masked mode (`~`) and one sets base entries of an ACL, on one
    /// object.
    Mask,
}
