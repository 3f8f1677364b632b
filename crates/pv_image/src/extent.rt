//! How much of the files is written.

/// Whether an image is written with the bytes of the files.
#[derive(Clone, Copy)]
pub(crate) enum Extent {
    /// Each file is written with its bytes.
    Whole,
    /// Each file is written as an empty one.
    EmptyFiles,
}
