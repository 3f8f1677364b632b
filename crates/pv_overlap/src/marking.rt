//! The hazards of lines, found by marks. The input paths are those that configuration lines are read from: the folders
//! of tmpfiles.d(5) with all below them, /etc/passwd and /etc/group.
ghost use Rattle.std.specs.Prelude.{◌≡◌, ◌↔◌, ℕ, ◌+◌, ◌<◌, ◌^◌, ◌++◌, ◌&&◌, ◌||◌, map, is_some, length, slice_get, All, AllPairs, Contains, IfOk, IfSome, OnOk};
ghost use Rattle.std.specs.Option.{option_map};
ghost use Rattle.pv_path.specs.Paths.{is_prefix};
ghost use Rattle.pv_lines.specs.declared.line.Line.{Line as LineValue};
ghost use Rattle.pv_overlap.specs.declared.listing.Unrepeatable.{Unrepeatable as UnrepeatableValue};
ghost use Rattle.std.specs.List.Sorted.{IsStrictlySortedBy};
ghost use Rattle.pv_overlap.specs.Marks.{is_below, Mark as Place, mark_cmp, mark_if, marks_of, mixes, outer_marks, own_marks, pair_marks, rank, reason_at, reason_of, shared_marks, traits_of};
ghost use Rattle.pv_overlap.specs.Reporting.{ComesFirst};
ghost use Rattle.pv_table.specs.ActionTable.{action_of};
ghost use Rattle.pv_table.specs.Reaching.{path_in};
ghost use Rattle.pv_table.specs.Turns.{copied};
ghost use Rattle.pv_overlap.specs.Subjects.{sources_of};

use crate::listing::{ReasonList, Unrepeatable};
use crate::pair::Pair;
use crate::subject::sources_of;
use crate::traits::{Traits, traits_of};
use pv_lines::{Line, LinePath};
use pv_path::{Name, names_under};
use pv_table::{Reason, is_creating};
use std::alloc::{AllocError, Global};

/// The index of a line, and the index of a hazard in the table of hazards.
type Mark = (u32, u32);

/// Returns the hazard at an index of the table.
fn reason_at(place: u32) -> Reason
    ensures { result ≡ reason_at place }
{
    match place {
        0 => Reason::Append,
        1 => Reason::Source,
        2 => Reason::Below,
        3 => Reason::Input,
        _ => Reason::Mask,
    }
}

/// Adds a mark if a test holds.
fn mark_if(marks: &mut Vec<Mark>, test: bool, line: u32, place: u32) -> Result<(), AllocError>
    ensures { OnOk result (marks.new.items ≡ marks.old.items ++ mark_if test line place) }
{
    if test {
        marks.push((line, place))?;
    }
    Ok(())
}

/// Returns the properties of each line.
fn all_traits(alloc: Global, lines: &[Line]) -> Result<Vec<Traits>, AllocError>
    ensures { IfOk result (λ traits. traits.items ≡ map traits_of lines.now) }
{
    let mut traits = Vec::new(alloc);
    for line in lines {
        traits.push(traits_of(alloc, line)?)?;
    }
    Ok(traits)
}

/// Returns the marks of lines that append.
fn own_marks(alloc: Global, lines: &[Line], traits: &[Traits]) -> Result<Vec<Mark>, AllocError>
    requires traits { traits.now ≡ map traits_of lines.now }
    requires few { length lines.now < 2 ^ 32 }
    ensures { IfOk result (λ marks. marks.items ≡ own_marks 0 lines.now) }
{
    let mut marks = Vec::new(alloc);
    for (i, known) in traits.iter().enumerate() {
        mark_if(&mut marks, known.appends, i as u32, 0)?;
    }
    Ok(marks)
}

/// Returns the path of a line that makes an object, and for another line the root.
fn names_of(path: &LinePath) -> &[Name]
    ensures { result.now ≡ path_in path.now }
{
    match path {
        LinePath::Literal(path) => path.names(),
        LinePath::Glob(_) => &[],
    }
}

/// Returns whether the names of one path begin another.
fn begins(above: &[Name], path: &[Name]) -> bool
    ensures { result ≡ is_prefix above.now path.now }
{
    names_under(above, path).is_some()
}

/// Returns whether a line makes an object below the path of a line that copies.
fn is_below(line: &Line, other: &Line, copies: bool) -> bool
    requires { copies ≡ is_some (copied (action_of other.now)) }
    ensures { result ≡ is_below line.now other.now }
{
    let path = names_of(&line.path);
    let above = names_of(&other.path);
    is_creating(line) && copies && begins(above, path) && above != path
}

/// Returns whether one line has a masked mode and the other sets base entries of an ACL.
fn mixes(a: &Traits, b: &Traits) -> bool
    ensures { result ≡ ((a.now.masked && b.now.base) || (a.now.base && b.now.masked)) }
{
    (a.masked && b.base) || (a.base && b.masked)
}

/// A line with its index and its properties.
#[derive(Clone, Copy)]
struct KnownLine<'a> {
    number: u32,
    line: &'a Line,
    traits: Traits,
}

/// Returns the line of an index, or `None` if there is none.
fn known_line<'a>(lines: &'a [Line], traits: &[Traits], number: u32) -> Option<KnownLine<'a>>
    requires { traits.now ≡ map traits_of lines.now }
    ensures line { option_map (λ known. known.line.now) result ≡ slice_get lines.now number }
    ensures number { IfSome result (λ known. known.number ≡ number) }
    ensures traits { IfSome result (λ known. known.traits ≡ traits_of known.line.now) }
{
    let i = number as usize;
    let line = lines.get(i)?;
    Some(KnownLine {
        number,
        line,
        traits: traits[i],
    })
}

/// Adds the marks of two lines that share a path.
fn add_shared(marks: &mut Vec<Mark>, a: KnownLine<'_>, b: KnownLine<'_>) -> Result<(), AllocError>
    requires a { a.traits ≡ traits_of a.line.now }
    requires b { b.traits ≡ traits_of b.line.now }
    ensures { OnOk result (marks.new.items ≡ marks.old.items ++ shared_marks a.entry.number a.entry.line.now
        b.entry.number b.entry.line.now) }
{
    mark_if(
        marks,
        is_below(b.line, a.line, a.traits.copies),
        b.number,
        2,
    )?;
    mark_if(
        marks,
        is_below(a.line, b.line, b.traits.copies),
        a.number,
        2,
    )?;
    mark_if(marks, mixes(&a.traits, &b.traits), b.number, 4)
}

/// Adds the mark of a line that shares a path with what is copied, or with an input path.
fn add_outer(
    marks: &mut Vec<Mark>,
    sources: usize,
    known: KnownLine<'_>,
    other: u32,
) -> Result<(), AllocError>
    requires { known.traits ≡ traits_of known.line.now }
    ensures { OnOk result (marks.new.items ≡ marks.old.items ++ outer_marks sources known.entry.number known.entry.line.now other) }
{
    if (other as usize) < sources {
        marks.push((known.number, 1))?;
        Ok(())
    } else {
        mark_if(marks, known.traits.changes, known.number, 3)
    }
}

/// Adds the marks of a pair.
fn add_pair(
    marks: &mut Vec<Mark>,
    lines: &[Line],
    traits: &[Traits],
    sources: usize,
    pair: &Pair,
) -> Result<(), AllocError>
    requires { traits.now ≡ map traits_of lines.now }
    ensures { OnOk result (marks.new.items ≡ marks.old.items ++ pair_marks lines.now sources pair.now) }
{
    let Some(first) = known_line(lines, traits, pair.first) else {
        return Ok(());
    };
    match known_line(lines, traits, pair.second) {
        Some(second) => add_shared(marks, first, second),
        None => add_outer(marks, sources, first, pair.second),
    }
}

/// Returns the marks of lines with these pairs.
fn marks_of(alloc: Global, lines: &[Line], pairs: &[Pair]) -> Result<Vec<Mark>, AllocError>
    requires few { length lines.now < 2 ^ 32 }
    ensures { IfOk result (λ marks. marks.items ≡ marks_of lines.now pairs.now) }
{
    let traits = all_traits(alloc, lines)?;
    let sources = lines.len() + sources_of(alloc, lines)?.len();
    let mut marks = own_marks(alloc, lines, traits.as_slice())?;
    for pair in pairs {
        add_pair(&mut marks, lines, traits.as_slice(), sources, pair)?;
    }
    Ok(marks)
}

/// Returns the marks in their order, each once.
fn in_order(marks: Vec<Mark>) -> Vec<Mark>
    ensures same { (mark : Place) → Contains result.items mark ↔ Contains marks.items mark }
    ensures sorted { IsStrictlySortedBy mark_cmp result.items }
{
    let mut marks = marks;
    marks.sort_unstable();
    marks.dedup();
    marks
}

/// Returns the hazards that marks stand for.
fn listed(alloc: Global, marks: &[Mark]) -> Result<ReasonList, AllocError>
    ensures { IfOk result (λ list. list ≡ map reason_of marks.now) }
{
    let mut list = ReasonList::new(alloc);
    for mark in marks {
        list.push(Unrepeatable {
            line: mark.0,
            reason: reason_at(mark.1),
        })?;
    }
    Ok(list)
}

/// Returns the hazards of lines whose pairs are these, in their order.
pub(crate) fn reasons_of(
    alloc: Global,
    lines: &[Line],
    pairs: &[Pair],
) -> Result<ReasonList, AllocError>
    requires few { length lines.now < 2 ^ 32 }
    ensures exact { IfOk result (λ list. (u : UnrepeatableValue) → Contains list u ↔ Contains (marks_of lines.now pairs.now) (u.line, rank u.reason)) }
    ensures ordered { IfOk result (AllPairs ComesFirst) }
{
    let marks = in_order(marks_of(alloc, lines, pairs)?);
    listed(alloc, marks.as_slice())
}
