//! What a machine is made of.

use crate::job::Job;
use bpf_loader::Program;
use bpf_pairs::Pair;
use bpf_shared::StoreShape;

/// What a machine is made of, before its first turn.
#[derive(Drop)]
pub struct Setup {
    /// How many CPUs there are, the maps and the arrays by their numbers.
    pub shape: StoreShape,
    /// What the maps have at first, in the order in which it is put in.
    pub pairs: Vec<Pair>,
    /// The programs, by the numbers that jobs have.
    pub programs: Vec<Program>,
    /// The jobs, in their order.
    pub jobs: Vec<Job>,
}
