//! What a line removes in the remove phase, and what it protects in the clean phase.

/// What the remove phase removes at a path that a line names (tmpfiles.d(5), `r`, `R` and `D`).
#[derive(Clone, Copy)]
pub enum Taking {
    /// Type `r`: the object itself. A directory stays if something in it stays.
    Itself,
    /// Type `R`: the object with everything below it.
    Whole,
    /// Type `D`: everything below the object, if it is a directory.
    Contents,
    /// All other types: nothing.
    Nothing,
}

/// What the clean phase protects at a path that a line names (tmpfiles.d(5), `x` and `X`).
#[derive(Clone, Copy)]
pub enum Sparing {
    /// Type `x`: the object. If the line has no age, everything below it too, except where a line gives a directory
    /// below it an age.
    Whole,
    /// Type `X`: the object itself. What is below it is cleaned as without the line, unless the line has an age.
    Itself,
}
