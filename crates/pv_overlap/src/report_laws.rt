//! Laws of reports. Each function does nothing, and its contract is the law.
ghost use Rattle.std.specs.Prelude.{◌≡◌, List};
ghost use Rattle.pv_lines.specs.declared.line.Line.{Line as LineValue};
ghost use Rattle.pv_overlap.specs.declared.listing.Unrepeatable.{Unrepeatable as UnrepeatableValue};
ghost use Rattle.pv_overlap.specs.declared.listing.Report.{Report as ReportValue};
ghost use Rattle.pv_overlap.specs.declared.pair.Pair.{Pair as PairValue};
ghost use Rattle.pv_overlap.specs.Reporting.{ListsOverlaps, ListsReasons};
ghost use Rattle.pv_overlap.specs.GivenMessages.{report_messages};

/// States that two lists with exactly the hazards of the same lines, in order, are equal.
pub fn the_reasons_are_one_list()
    ensures { (lines : List LineValue) (list other : List UnrepeatableValue) → ListsReasons lines list → ListsReasons lines other → list ≡ other }
{}

/// States that two lists with exactly the overlaps of the same lines, in order, are equal. They have the same paths
/// too.
pub fn the_overlaps_are_one_list()
    ensures { (lines : List LineValue) (pairs others : List PairValue) → ListsOverlaps lines pairs → ListsOverlaps lines others → pairs ≡ others }
{}

/// States that there is only one report: two reports on the same lines give the same messages.
pub fn a_report_is_what_its_lines_give()
    ensures { (lines : List LineValue) (a b : ReportValue) → ListsOverlaps lines a.pairs → ListsReasons lines a.unrepeatable
        → ListsOverlaps lines b.pairs → ListsReasons lines b.unrepeatable → report_messages lines a ≡ report_messages lines b }
{}
