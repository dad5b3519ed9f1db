//! What the turns of CPUs lead to.

/// A state, and the CPU whose turns lead to it.
#[derive(Drop)]
pub struct Successor {
    pub cpu: u8,
    /// How many turns the CPU makes after its first, which no store sees.
    pub ahead: u64,
    pub bytes: Vec<u8>,
}
