//! How many steps a job may make, as run files and the command line have it.

/// The greatest budget.
pub const MAX_BUDGET: u64 = 1_000_000_000;

/// The budget where none is given.
pub const DEFAULT_BUDGET: u64 = 1_000_000;
