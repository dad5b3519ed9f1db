//! What follows from the definitions of areas, of a write and of what is saved, as promises to the crates above.
//!
//! These functions do nothing: their contracts are the laws, which a proof cites.
ghost use Rattle.std.specs.Prelude.{◌≡◌, ◌+◌};
ghost use Rattle.bpf_mem.specs.Addresses.{context_base, frame_base, packet_base};
ghost use Rattle.bpf_mem.specs.Limits.{max_context, max_frames, max_packet, frame_bytes};
ghost use Rattle.bpf_mem.specs.Laws.{AreasAreApart, SavedTellsFrames, SavedTellsWords, WritesAreDetermined};

use crate::addresses::{CONTEXT_BASE, FRAME_STRIDE, PACKET_BASE, STACK_BASE};
use crate::context::MAX_CONTEXT;
use crate::frames::{FRAME_BYTES, MAX_FRAMES};
use crate::packet::MAX_PACKET;

/// The constants are the numbers of the definitions.
pub fn constants_are_defined()
    ensures context { MAX_CONTEXT ≡ max_context }
    ensures packet { MAX_PACKET ≡ max_packet }
    ensures frames { MAX_FRAMES ≡ max_frames }
    ensures frame { FRAME_BYTES ≡ frame_bytes }
    ensures context_base { CONTEXT_BASE ≡ context_base }
    ensures packet_base { PACKET_BASE ≡ packet_base }
    ensures stack_base { STACK_BASE ≡ frame_base 0 }
    ensures stride { STACK_BASE + FRAME_STRIDE ≡ frame_base 1 }
{}

/// No address is in two areas of the memory of a CPU.
pub fn areas_are_apart()
    ensures { AreasAreApart }
{}

/// A write to the memory of a CPU leaves one memory alone, and it is the memory of a CPU again.
pub fn writes_are_determined()
    ensures { WritesAreDetermined }
{}

/// What this many words are saved as determines them, and where it ends.
pub fn saved_tells_words()
    ensures { SavedTellsWords }
{}

/// What frames are saved as determines them, and where it ends.
pub fn saved_tells_frames()
    ensures { SavedTellsFrames }
{}
