//! What is printed of jobs that are run in rounds over a plain store: their ends, and the maps,
//! variables and arrays that they leave.
#![tactic(auto)]

mod arrays;
pub mod laws;
mod line;
mod listing;
mod lists;
mod maps;
mod rounds;
mod variables;

pub use arrays::{ArrayPlace, NamedArray, list_values, push_value};
pub use line::{OutcomeText, is_stop, push_job};
pub use listing::has_any_stopped;
pub use lists::push_lists;
pub use maps::push_map;
pub use rounds::{Report, asked_lines, make_asked, make_machine, run_jobs_by, tell};
pub use variables::{list_variables, push_variable};
