//! Moves of CPUs with store buffers, but for how many steps are left of budgets.
#![tactic(auto)]

pub mod laws;
