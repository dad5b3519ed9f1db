//! What the moves of CPUs lead to.

/// A state, and the move of a CPU that leads to it.
#[derive(Drop)]
pub struct Successor {
    pub cpu: u8,
    /// Whether the move is the flush of the CPU's oldest store, or a turn.
    pub is_flush: bool,
    /// How many turns the CPU makes after it, which no other CPU sees.
    pub ahead: u64,
    pub bytes: Vec<u8>,
}
