//! The report on the lines of a configuration (tmpfiles.d(5), `--report`). [`report`] finds the lines that share a
//! path, and the lines with a hazard. A hazard is what can make creating twice differ from creating once. To be fast,
//! two lines are compared only if the head of one pattern is a prefix of the head of the other.
#![tactic(auto)]

mod alike;
mod asker;
mod heads;
mod laws;
mod listing;
mod marking;
mod pair;
mod reach;
mod reach_asker;
mod report_laws;
mod reporting;
mod saying;
mod subject;
mod traits;
mod walk;

pub use asker::Asker;
pub use heads::head;
pub use laws::patterns_that_meet_have_related_heads;
pub use listing::{ReasonList, Report, Unrepeatable};
pub use pair::{Pair, PairList};
pub use report_laws::{
    a_report_is_what_its_lines_give, the_overlaps_are_one_list, the_reasons_are_one_list,
};
pub use reporting::report;
pub use saying::{place_text, say_report, verdict};
pub use walk::pairs_by;
