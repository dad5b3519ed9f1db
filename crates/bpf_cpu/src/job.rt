//! What is run: a program on a CPU.

use crate::input::Input;

/// A job: a program that is to be run once.
#[derive(Drop)]
pub struct Job {
    /// The CPU that runs it.
    pub cpu: u8,
    /// The program's place in the list of programs.
    pub program: usize,
    /// How many steps it makes at most.
    pub budget: u64,
    /// What it is given.
    pub input: Input,
}
