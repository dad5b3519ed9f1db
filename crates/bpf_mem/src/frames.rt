//! The stack: a frame for each function that hasn't returned, and what its caller gets back.

ghost use Rattle.std.specs.Prelude.{◌≡◌, ◌+◌, ◌-◌, ◌*◌, ◌<◌, ◌≤◌, ◌↔◌, [], ◌∷◌, ◌++◌, length, take, slice_index_or, slice_set, IsTrue};
ghost use Rattle.bpf_mem.specs.Addresses.{top_of};
ghost use Rattle.bpf_base.specs.Bytes.{low_bytes, with_part};
ghost use Rattle.bpf_mem.specs.Bytes.{length_of};
ghost use Rattle.bpf_mem.specs.Limits.{max_frames, frame_bytes};
ghost use Rattle.bpf_mem.specs.Stack.{IsStack, zeroed};

mod kept;
mod saving;

use crate::addresses::{FRAME_STRIDE, STACK_BASE};
use crate::bytes;
use bpf_insn::operation::Size;
pub use kept::KeptFrames;
use std::marker::Model;

/// How many frames can be live at once: `max_frames` (our own choice).
pub const MAX_FRAMES: usize = 8;

/// How many bytes a frame has: `frame_bytes`, as in Linux.
pub const FRAME_BYTES: usize = 512;

/// What a local call keeps for its caller: where it goes on, and R6 to R9 (the calling convention
/// of Linux).
#[derive(Clone, Copy, PartialEq, Eq, Debug)]
pub struct Caller {
    pub return_pc: u32,
    pub saved: [u64; 4],
}

/// The live frames of one CPU, 1 to 8.
#[derive(Drop)]
pub struct Frames {
    live: usize,
    frames: [[u8; FRAME_BYTES]; MAX_FRAMES],
    callers: [Caller; MAX_FRAMES],
}

impl Model for Frames {
    ghost use Rattle.std.specs.Prelude.{◌-◌, take};
    ghost use Rattle.bpf_mem.specs.Stack.{Stack};

    ghost Value = { Stack };

    ghost use Rattle.bpf_mem.specs.Private.Frames.{IsFilled};

    ghost view = { λ s. record {
      live = take s.live s.frames;
      callers = take (s.live - 1) s.callers;
    } };

    ghost invariant = { IsFilled };
}

/// A frame as a function finds it.
#[inline]
#[tactic(auto, unfolding(crate::specs::Stack::zeroed))]
fn empty() -> [u8; FRAME_BYTES]
    ensures { result ≡ zeroed }
{
    [0; FRAME_BYTES]
}

/// Whether bytes are the same. Slices of bytes are compared many at once, arrays one by one.
fn same_bytes(bytes: &[u8], others: &[u8]) -> bool
    ensures { IsTrue result ↔ (bytes.now ≡ others.now) }
{
    bytes == others
}

/// Whether frames have the same bytes.
fn same_frames(frames: &[[u8; FRAME_BYTES]], others: &[[u8; FRAME_BYTES]]) -> bool
    ensures { IsTrue result ↔ (frames.now ≡ others.now) }
{
    if frames.len() != others.len() {
        return false;
    }
    for depth in 0..frames.len() {
        if !same_bytes(&frames[depth], &others[depth]) {
            return false;
        }
    }
    true
}

/// Whether callers get the same back.
fn same_callers(callers: &[Caller], others: &[Caller]) -> bool
    ensures { IsTrue result ↔ (callers.now ≡ others.now) }
{
    callers == others
}

impl Frames {
    /// One frame, zeroed.
    pub fn new() -> Frames
        ensures live { result.live ≡ zeroed ∷ [] }
        ensures callers { result.callers ≡ [] }
    {
        Frames {
            live: 1,
            frames: [empty(); MAX_FRAMES],
            callers: [Caller {
                return_pc: 0,
                saved: [0; 4],
            }; MAX_FRAMES],
        }
    }

    /// How many frames are live.
    #[inline]
    pub fn depth(&self) -> usize
        ensures value { result ≡ length self.now.live }
        ensures stack { IsStack self.now }
    {
        self.live
    }

    /// Whether no further frame can be entered.
    #[inline]
    pub fn is_full(&self) -> bool
        ensures { IsTrue result ↔ (max_frames ≤ length self.now.live) }
    {
        self.live == MAX_FRAMES
    }

    /// The bytes of a frame.
    #[inline]
    pub(crate) fn frame(&self, depth: usize) -> &[u8]
        requires { depth < length self.now.live }
        ensures value { result.now ≡ slice_index_or self.now.live depth [] }
        ensures stack { IsStack self.now }
    {
        let frames = &self.frames;
        &frames[depth]
    }

    /// Sets the bytes at an offset of a frame to the low bytes of a number.
    #[inline]
    pub(crate) fn store(&mut self, depth: usize, offset: usize, size: Size, value: u64)
        requires live { depth < length self.old.live }
        requires within { offset + length_of size ≤ frame_bytes }
        ensures live { self.new.live ≡ slice_set self.old.live depth
            (with_part (slice_index_or self.old.live depth []) offset
            (low_bytes (length_of size) value)) }
        ensures callers { self.new.callers ≡ self.old.callers }
        ensures stack { IsStack self.old }
    {
        let frames = &mut self.frames;
        bytes::store(&mut frames[depth], offset, size, value);
    }

    /// The end of the newest frame, R10's value.
    #[inline]
    pub fn top(&self) -> u64
        ensures { result ≡ top_of (length self.now.live) }
    {
        STACK_BASE + FRAME_STRIDE * (self.live as u64 - 1) + FRAME_BYTES as u64
    }

    /// Becomes what another one is.
    pub fn copy_from(&mut self, other: &Frames)
        ensures { self.new ≡ other.now }
    {
        let live = other.live;
        self.frames[..live].copy_from_slice(&other.frames[..live]);
        self.callers[..live - 1].copy_from_slice(&other.callers[..live - 1]);
        self.live = live;
    }

    /// The bytes of the live frames, the oldest first.
    fn live_frames(&self) -> &[[u8; FRAME_BYTES]]
        ensures { result.now ≡ self.now.live }
    {
        &self.frames[..self.live]
    }

    /// What the callers of all but the oldest get back.
    pub fn callers(&self) -> &[Caller]
        ensures { result.now ≡ self.now.callers }
    {
        &self.callers[..self.live - 1]
    }

    /// Whether the live frames, and what their callers get back, are those of another.
    pub fn is_same(&self, other: &Frames) -> bool
        ensures { IsTrue result ↔ (self.now ≡ other.now) }
    {
        same_frames(self.live_frames(), other.live_frames())
            && same_callers(self.callers(), other.callers())
    }

    /// A new frame, zeroed, for a function that `caller` calls.
    pub fn enter(&mut self, caller: Caller)
        requires { length self.old.live < max_frames }
        ensures live { self.new.live ≡ self.old.live ++ zeroed ∷ [] }
        ensures callers { self.new.callers ≡ self.old.callers ++ caller ∷ [] }
    {
        self.frames[self.live] = empty();
        self.callers[self.live - 1] = caller;
        self.live += 1;
    }

    /// Drops the newest frame; what its caller gets back.
    pub fn leave(&mut self) -> Caller
        requires { 1 < length self.old.live }
        ensures live { self.new.live ≡ take (length self.old.live - 1) self.old.live }
        ensures callers { self.old.callers ≡ self.new.callers ++ result ∷ [] }
    {
        self.live -= 1;
        self.callers[self.live - 1]
    }
}
