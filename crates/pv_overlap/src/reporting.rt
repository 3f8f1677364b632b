//! The report on lines.
ghost use Rattle.std.specs.Prelude.{◌≡◌, ◌↔◌, ◌<◌, ◌^◌, [], nat_lt, filter, length, IfOk};
ghost use Rattle.pv_table.specs.Repeatable.{IsRepeatable};
ghost use Rattle.pv_overlap.specs.Reporting.{ListsOverlaps, ListsReasons};

use crate::listing::Report;
use crate::marking::reasons_of;
use crate::pair::PairList;
use crate::reach_asker::pairs_of;
use crate::subject::reaches_of;
use pv_lines::LineList;
use std::alloc::{AllocError, Global};

/// Returns those pairs in which both are lines.
fn overlaps_of(alloc: Global, pairs: PairList, lines: usize) -> Result<PairList, AllocError>
    ensures { IfOk result (λ overlaps. overlaps ≡ filter (λ pair. nat_lt pair.second lines) pairs) }
{
    let mut overlaps = PairList::new(alloc);
    for pair in pairs.into_vec() {
        if (pair.second as usize) < lines {
            overlaps.push(pair)?;
        }
    }
    Ok(overlaps)
}

/// Returns the report on lines of a configuration (tmpfiles.d(5)): which of them share a path, and which have a hazard.
///
/// All lines are looked at, active or not. There must be fewer than 2^32 lines. Two lines share a path if both reach it
/// and it can be in a tree. The path of a pair is the first such path: it has the fewest names and, among such paths,
/// the shortest names.
///
/// If no line has a hazard, and only then, the list `unrepeatable` is empty.
///
/// The only error is `AllocError`. It also comes if the lines, the paths that they copy and the input paths are more
/// than 2^32 - 1 together.
pub fn report(alloc: Global, lines: &LineList) -> Result<Report, AllocError>
    requires { length lines.now < 2 ^ 32 }
    ensures overlaps { IfOk result (λ report. ListsOverlaps lines.now report.pairs) }
    ensures reasons { IfOk result (λ report. ListsReasons lines.now report.unrepeatable) }
    ensures verdict { IfOk result (λ report. (report.unrepeatable ≡ []) ↔ IsRepeatable lines.now) }
{
    let reaches = reaches_of(alloc, lines.as_slice())?;
    if reaches.len() > u32::MAX as usize {
        return Err(AllocError);
    }
    let pairs = pairs_of(alloc, reaches.as_slice(), lines.len())?;
    let unrepeatable = reasons_of(alloc, lines.as_slice(), pairs.as_slice())?;
    Ok(Report {
        pairs: overlaps_of(alloc, pairs, lines.len())?,
        unrepeatable,
    })
}
