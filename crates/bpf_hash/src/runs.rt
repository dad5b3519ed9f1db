//! The runs of a CPU.

/// How many runs a CPU of a `HashStore` began, and whether it is in the last of them.
#[derive(Clone, Copy)]
pub struct Runs {
    pub count: u32,
    pub running: bool,
}
