//! A machine: jobs on the CPUs of a plain store, on one thread, in the order of any schedule.
#![tactic(auto)]

pub mod laws;
pub mod machine;

pub use machine::{
    Headway, KeptJob, KeptStage, Machine, Stand, Standing, Turn, bytes_of_jobs, can_stand,
    read_jobs,
};
