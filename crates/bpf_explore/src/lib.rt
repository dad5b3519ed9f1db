//! All outcomes of jobs, whatever the order of the CPUs' turns.
#![tactic(auto)]

mod album;
mod answers;
mod budgets;
mod crew;
mod depths;
mod dives;
mod diving;
mod ends;
mod exchanged;
mod exchanges;
mod explorer;
mod exploring;
mod frontier;
mod hung;
pub mod laws;
mod listing;
pub mod marks;
mod observer;
mod opening;
mod parts;
mod patience;
mod patient;
mod permuted;
mod places;
mod replays;
mod room;
mod rounds;
mod runs;
mod scouts;
mod slots;
mod spread;
mod states;
mod stores;
mod tuples;
mod turns;

pub use album::Album;
pub use answers::{Answer, is_any_stopped};
pub use budgets::Budgets;
pub use crew::{Alone, Crew, Threaded, on_threads};
pub use explorer::Explorer;
pub use exploring::{Explored, ExploredPatiently, explore_jobs, search_patiently};
pub use frontier::{Extent, Frontier, explore};
pub use hung::Hung;
pub use listing::{list_explored, list_patient, push_last, whether_all};
pub use observer::{Observer, Progress, Silent, TOLD_EVERY};
pub use opening::{
    Scope, first_machine, permuted_patient_search_of, permuted_search_of, search_of,
};
pub use parts::Parts;
pub use patient::PatientExplorer;
pub use permuted::PermutedExplorer;
pub use scouts::Scout;
pub use spread::{exchange, exchange_turns};
pub use stores::Stores;
