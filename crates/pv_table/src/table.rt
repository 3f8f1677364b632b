//! The active lines of a configuration.
ghost use Rattle.std.specs.Prelude.{◌≡◌, ◌++◌, [], ◌∷◌, true, cond, length, find, None, Some, is_some, IfOk, OnOk, slice_get};
ghost use Rattle.std.specs.List.{AllByRecursion};
ghost use Rattle.std.specs.Option.{option_copied};
ghost use Rattle.indexmap.specs.IndexMap.{get};
ghost use Rattle.pv_lines.specs.Lines.{IsLine};
ghost use Rattle.pv_path.specs.Paths.{Path, same_path};
ghost use Rattle.pv_table.specs.Active.{are_distinct, make_same};
ghost use Rattle.pv_table.specs.Building.{first_index, makes};

use indexmap::IndexMap;
use pv_lines::{Line, LinePath};
use pv_path::TreePath;
use std::alloc::{AllocError, Global};
use std::marker::Model;

/// The active lines of a configuration, in the order in which they were read: the listing order (tmpfiles.d(5)).
///
/// Each is a line as it was read, and no two of them make or copy an object at one path. In contracts, a value is the
/// list of its lines.
#[derive(Drop)]
pub struct Table {
    lines: Vec<Line>,
    indices: IndexMap<TreePath, usize>,
}

impl Model for Table {
    ghost use Rattle.std.specs.Prelude.{◌≡◌, true, List};
    ghost use Rattle.std.specs.List.{AllByRecursion};
    ghost use Rattle.indexmap.specs.IndexMap.{get};
    ghost use Rattle.pv_lines.specs.declared.line.Line.{Line};
    ghost use Rattle.pv_lines.specs.Lines.{IsLine};
    ghost use Rattle.pv_path.specs.Paths.{same_path};
    ghost use Rattle.pv_table.specs.Active.{are_distinct};
    ghost use Rattle.pv_table.specs.Building.{IsIndexOf};

    ghost Value = { List Line };

    ghost view = { λ t. t.lines.items };

    ghost invariant = { λ t. (are_distinct t.lines.items ≡ true) × IsIndexOf t.lines.items (get same_path t.indices)
        × AllByRecursion IsLine t.lines.items };
}

impl Table {
    /// Makes a table without lines. The call does not allocate.
    pub(crate) fn new(alloc: Global) -> Table
        ensures { result ≡ [] }
    {
        Table {
            lines: Vec::new(alloc),
            indices: IndexMap::new(alloc),
        }
    }

    /// Returns the table with a line added at the end. No line of the table may make or copy an object at the path of
    /// the new one.
    pub(crate) fn with(self, line: Line) -> Result<Table, AllocError>
        requires line { IsLine line }
        requires first { find (λ first. make_same first line) self ≡ None }
        ensures { IfOk result (λ table. table ≡ self ++ line ∷ []) }
    {
        let Table {
            mut lines,
            mut indices,
        } = self;
        note_index(&mut indices, &line, lines.len())?;
        lines.push(line)?;
        Ok(Table { lines, indices })
    }

    /// Returns the number of lines. The call does not allocate.
    pub fn len(&self) -> usize
        ensures { result ≡ length self.now }
    {
        self.lines.len()
    }

    /// Returns the line at index `i`, counted from 0, or `None` if `i` is past the end. The call does not allocate.
    pub fn line(&self, i: usize) -> Option<&Line>
        ensures { option_copied result ≡ slice_get self.now i }
    {
        self.lines.get(i)
    }

    /// Returns the line at index `index`, counted from 0, which must be less than the number of lines. The call does
    /// not allocate.
    pub fn line_at(&self, index: usize) -> &Line
        requires { is_some (slice_get self.now index) ≡ true }
        ensures { slice_get self.now index ≡ Some result.now }
    {
        match self.line(index) {
            Some(line) => line,
            None => unreachable!(),
        }
    }

    /// Returns the lines as a slice. The call does not allocate.
    pub fn lines(&self) -> &[Line]
        ensures lines { result.now ≡ self.now }
        ensures distinct { are_distinct self.now ≡ true }
        ensures whole { AllByRecursion IsLine self.now }
    {
        self.lines.as_slice()
    }

    /// Returns the index, counted from 0, of the line that makes or copies an object at a path. It is `None` if there
    /// is no such line. The call does not allocate.
    pub fn index_of(&self, path: &TreePath) -> Option<usize>
        ensures { result ≡ first_index (makes path.now) self.now }
    {
        self.indices.get(path).copied()
    }

    /// Returns the line that makes or copies an object at a path, if there is one.
    fn making(&self, path: &TreePath) -> Option<&Line>
        ensures { option_copied result ≡ find (makes path.now) self.now }
    {
        match self.index_of(path) {
            Some(index) => self.line(index),
            None => None,
        }
    }

    /// Returns the line that makes or copies an object at the path of another such line. The call does not allocate.
    pub(crate) fn like(&self, line: &Line) -> Option<&Line>
        ensures { option_copied result ≡ find (λ first. make_same first line.now) self.now }
    {
        match &line.path {
            LinePath::Literal(path) => self.making(path),
            LinePath::Glob(_) => None,
        }
    }
}

/// Records the index of a line for its path, if it makes or copies an object.
fn note_index(
    indices: &mut IndexMap<TreePath, usize>,
    line: &Line,
    index: usize,
) -> Result<(), AllocError>
    ensures { OnOk result ((q : Path) → get same_path indices.new q ≡ cond (makes q line.now) (Some index) (get same_path indices.old q)) }
{
    match &line.path {
        LinePath::Literal(path) => {
            indices.insert(path.copy()?, index)?;
            Ok(())
        }
        LinePath::Glob(_) => Ok(()),
    }
}
