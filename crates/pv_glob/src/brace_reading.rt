//! What is kept while a component with braces is read.
ghost use Rattle.std.specs.Prelude.{◌<◌, length};

use crate::words::Words;

/// A pair of braces whose end has not been read yet.
#[derive(Drop)]
pub(crate) struct Pair {
    /// The words of what is before the pair, in the alternative around it.
    pub(crate) before: Words,
    /// The words of the alternatives of the pair that have ended.
    pub(crate) done: Words,
    ghost some: { 0 < length before },
}

/// What has been read of a component.
#[derive(Drop)]
pub(crate) struct Reading {
    /// The pairs that are open, the innermost last.
    pub(crate) opened: Vec<Pair>,
    /// The words of what has been read of the current alternative.
    pub(crate) words: Words,
    ghost some: { 0 < length words },
}
