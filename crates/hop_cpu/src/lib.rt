//! A CPU of the concurrent store, as a shared store that serves it.
#![tactic(auto)]

mod cpu;
mod growing;
mod running;

pub use cpu::HopCpu;
