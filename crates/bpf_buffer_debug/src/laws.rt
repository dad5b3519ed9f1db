//! What follows from the definitions of commands and scripts, as promises to the crates above.
//!
//! These functions do nothing: their contracts are the laws.
ghost use Rattle.bpf_buffer_debug.specs.Laws.{ScriptsMakeMoves};

/// The moves that are kept lead from the first machine to the one that a script leaves.
pub fn scripts_make_moves()
    ensures { ScriptsMakeMoves }
{}
