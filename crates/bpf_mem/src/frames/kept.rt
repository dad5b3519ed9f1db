//! Frames that are kept: the live ones, and no room for others.

ghost use Rattle.std.specs.Prelude.{◌≡◌, ◌↔◌, IfOk, IsTrue, length};
ghost use Rattle.bpf_mem.specs.Addresses.{top_of};
ghost use Rattle.bpf_mem.specs.Stack.{IsStack};

use super::{Caller, FRAME_BYTES, Frames, same_callers, same_frames};
use crate::addresses::{FRAME_STRIDE, STACK_BASE};
use std::alloc::{AllocError, Global};
use std::marker::Model;

/// Copies of frames.
fn copy_frames(
    alloc: Global,
    frames: &[[u8; FRAME_BYTES]],
) -> Result<Vec<[u8; FRAME_BYTES]>, AllocError>
    ensures { IfOk result (λ copies. copies.items ≡ frames.now) }
{
    let mut copies = Vec::with_capacity(alloc, frames.len())?;
    copies.extend_from_slice(frames)?;
    Ok(copies)
}

/// Copies of what callers get back.
fn copy_callers(alloc: Global, callers: &[Caller]) -> Result<Vec<Caller>, AllocError>
    ensures { IfOk result (λ copies. copies.items ≡ callers.now) }
{
    let mut copies = Vec::with_capacity(alloc, callers.len())?;
    copies.extend_from_slice(callers)?;
    Ok(copies)
}

/// The live frames of one CPU, which are kept.
#[derive(Drop)]
pub struct KeptFrames {
    frames: Vec<[u8; FRAME_BYTES]>,
    callers: Vec<Caller>,
}

impl Model for KeptFrames {
    ghost use Rattle.bpf_mem.specs.Stack.{IsStack, Stack};

    ghost Value = { Stack };

    ghost view = { λ k. record { live = k.frames.items; callers = k.callers.items } };

    ghost invariant = { λ k. IsStack (record {
      live = k.frames.items;
      callers = k.callers.items;
    }) };
}

impl KeptFrames {
    /// Copies of the live ones.
    pub fn of(alloc: Global, frames: &Frames) -> Result<KeptFrames, AllocError>
        ensures { IfOk result (λ kept. kept ≡ frames.now) }
    {
        let _depth = frames.depth();
        let callers = copy_callers(alloc, frames.callers())?;
        let frames = copy_frames(alloc, frames.live_frames())?;
        Ok(KeptFrames { frames, callers })
    }

    /// How many they are.
    pub fn depth(&self) -> usize
        ensures value { result ≡ length self.now.live }
        ensures stack { IsStack self.now }
    {
        self.frames.len()
    }

    /// The end of the newest one, R10's value.
    pub fn top(&self) -> u64
        ensures { result ≡ top_of (length self.now.live) }
    {
        STACK_BASE + FRAME_STRIDE * (self.frames.len() as u64 - 1) + FRAME_BYTES as u64
    }

    /// What the callers of all but the oldest get back.
    pub fn callers(&self) -> &[Caller]
        ensures { result.now ≡ self.now.callers }
    {
        &self.callers
    }

    /// About how many bytes of memory they take beside themselves.
    pub fn bytes(&self) -> usize {
        let frames = self.frames.capacity().saturating_mul(FRAME_BYTES);
        let callers = self.callers.capacity().saturating_mul(size_of::<Caller>());
        frames.saturating_add(callers)
    }

    /// Whether they are these live ones.
    pub fn are(&self, frames: &Frames) -> bool
        ensures { IsTrue result ↔ (self.now ≡ frames.now) }
    {
        same_frames(&self.frames, frames.live_frames())
            && same_callers(&self.callers, frames.callers())
    }

    /// Whether they are those of another.
    pub fn is_same(&self, other: &KeptFrames) -> bool
        ensures { IsTrue result ↔ (self.now ≡ other.now) }
    {
        same_frames(&self.frames, &other.frames) && same_callers(&self.callers, &other.callers)
    }
}

impl Frames {
    ghost use Rattle.std.specs.Prelude.{◌≡◌};

    /// Become what kept ones are.
    pub fn copy_from_kept(&mut self, kept: &KeptFrames)
        ensures { self.new ≡ kept.now }
    {
        let live = kept.frames.len();
        self.frames[..live].copy_from_slice(&kept.frames);
        self.callers[..live - 1].copy_from_slice(&kept.callers);
        self.live = live;
    }
}
