//! What the calls of `bpf_trace_printk` in a run would print. The jobs are run once more for it.

use bpf_file::{RunFile, read_file};
use bpf_prints::prints_of;
use std::alloc::Global;

/// A line for each call that the jobs of a run file make, by these turns and then in rounds.
pub fn prints_of_file(alloc: Global, text: &str, schedule: &[(u8, u64)]) -> Option<String> {
    let RunFile { setup, .. } = read_file(alloc, text.as_bytes()).ok()?;
    prints_of(alloc, setup, schedule).ok()
}
