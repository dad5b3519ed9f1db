//! What a run file expects of its outcomes, and whether they are so.
#![tactic(auto)]

mod checking;
mod claim;
mod comments;
mod expectation;
mod faults;
mod findings;
mod judging;
pub mod laws;
mod listing;
mod parts;
mod settings;
mod single;
mod subjects;

pub use checking::{Asked, Checked, CheckedPart, check_explored, check_named};
pub use claim::{Comparison, Field, Join, Kind, Relation};
pub use expectation::{
    Expectation, Often, Unexpected, are_races_asked, expectation_lines, expectations,
    expectations_left,
};
pub use faults::unexpected_fault;
pub use findings::{Findings, Raced};
pub use judging::{Conclusion, Verdict, conclusion_by, ends_verdict, judge};
pub use listing::{first_count, last_count, left_text, plan};
pub use settings::{MOST_STATES, Settings, settings_of};
pub use single::{Judged, check_printed};
pub use subjects::{Questions, Subjects};
