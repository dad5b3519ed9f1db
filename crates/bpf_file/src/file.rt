//! What a run file says.

use bpf_cpu::Setup;
use bpf_names::Names;

/// A run file: what a machine is made of, with the names of its maps,
/// arrays and variables.
#[derive(Drop)]
pub struct RunFile {
    /// How many CPUs there are, the maps, the arrays and what they have at first, the programs by
    /// the numbers that jobs have, and the jobs in the file's order.
    pub setup: Setup,
    /// The seed of the maps' hashes.
    pub seed: u64,
    pub names: Names,
}
