//! Lists of lines that were read.
ghost use Rattle.std.specs.Prelude.{◌≡◌, [], ◌∷◌, ◌++◌, length, OnOk, OnErr, slice_get};
ghost use Rattle.std.specs.List.{AllByRecursion};
ghost use Rattle.std.specs.Option.{option_copied};
ghost use Rattle.pv_lines.specs.Lines.{IsLine};

use crate::line::Line;
use pv_path::Sequence;
use std::alloc::{AllocError, Global};
use std::marker::Model;

/// A list of lines, each with parts that `read_line` can give (definition `IsLine`). In contracts, a value is the list
/// of its lines.
#[derive(Drop)]
pub struct LineList {
    lines: Sequence<Line>,
}

impl Model for LineList {
    ghost use Rattle.std.specs.Prelude.{List};
    ghost use Rattle.std.specs.List.{AllByRecursion};
    ghost use Rattle.pv_lines.specs.declared.line.Line.{Line};
    ghost use Rattle.pv_lines.specs.Lines.{IsLine};

    ghost Value = { List Line };

    ghost view = { λ l. l.lines };

    ghost invariant = { λ l. AllByRecursion IsLine l.lines };
}

impl LineList {
    /// Makes an empty list. The call does not allocate.
    pub fn new(alloc: Global) -> LineList
        ensures { result ≡ [] }
    {
        LineList {
            lines: Sequence::new(alloc),
        }
    }

    /// Makes a list of lines. The parts of each must be some that `read_line` can give (definition `IsLine`). The call
    /// does not allocate.
    pub fn of(lines: Sequence<Line>) -> LineList
        requires { AllByRecursion IsLine lines }
        ensures { result ≡ lines }
    {
        LineList { lines }
    }

    /// Adds a line at the end. Its parts must be some that `read_line` can give (definition `IsLine`).
    ///
    /// The only error is `AllocError`, and then the list is as before.
    pub fn push(&mut self, line: Line) -> Result<(), AllocError>
        requires { IsLine line }
        ensures ok { OnOk result (self.new ≡ self.old ++ line ∷ []) }
        ensures err { OnErr result (self.new ≡ self.old) }
    {
        self.lines.push(line)
    }

    /// Returns the number of lines. The call does not allocate.
    pub fn len(&self) -> usize
        ensures { result ≡ length self.now }
    {
        self.lines.len()
    }

    /// Returns the line at index `i`, counted from 0, or `None` if `i` is past the end. The call does not allocate.
    pub fn get(&self, i: usize) -> Option<&Line>
        ensures { option_copied result ≡ slice_get self.now i }
    {
        self.lines.get(i)
    }

    /// Returns the lines as a slice. The call does not allocate.
    pub fn as_slice(&self) -> &[Line]
        ensures value { result.now ≡ self.now }
        ensures whole { AllByRecursion IsLine self.now }
    {
        self.lines.as_slice()
    }

    /// Turns the list into a vector of its lines. The call does not allocate.
    pub fn into_vec(self) -> Vec<Line>
        ensures value { result.items ≡ self }
        ensures whole { AllByRecursion IsLine self }
    {
        let LineList { lines } = self;
        lines.into_vec()
    }
}
