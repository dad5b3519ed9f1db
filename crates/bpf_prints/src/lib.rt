//! What `bpf_trace_printk` would print, of jobs that are run once more for it.
//!
//! The helper itself prints nothing: what is found here is for people, beside an answer.
#![tactic(auto)]

mod conversion;
mod format;
mod memory;
mod watch;

pub use watch::prints_of;
