//! Frames as bytes, and from such bytes.

ghost use Rattle.std.specs.Prelude.{◌≡◌, ◌<◌, ◌≤◌, ◌∷◌, ◌++◌, ℕ, List, OnOk, OnErr, IfSome, IfNone, All, length, take};
ghost use Rattle.std.specs.List.{flat_map};
ghost use Rattle.std.specs.Io.{StartsWith};
ghost use Rattle.bpf_mem.specs.declared.frames.Caller.{Caller};
ghost use Rattle.bpf_mem.specs.Limits.{frame_bytes};
ghost use Rattle.bpf_mem.specs.Stack.{Stack};
ghost use Rattle.bpf_mem.specs.Saved.{caller_saved, frame_saved, frames_saved, word_bytes, words_of, IsCaller, IsFrame, IsSavable};

use super::{Caller, FRAME_BYTES, Frames, MAX_FRAMES};
use crate::words::{are_words, read_words, save_words};
use bpf_base::bytes::{load_double, store_double};
use std::alloc::AllocError;

/// How many words a frame has.
const FRAME_WORDS: usize = 64;

/// A frame's words.
fn words_of(frame: &[u8; FRAME_BYTES]) -> [u64; FRAME_WORDS]
    ensures { result ≡ words_of FRAME_WORDS frame.now }
{
    let mut words = [0; FRAME_WORDS];
    for i in 0..FRAME_WORDS {
        words[i] = load_double(frame, 8 * i);
    }
    words
}

/// Sets a frame to these words.
fn set_words(frame: &mut [u8; FRAME_BYTES], words: &[u64; FRAME_WORDS])
    ensures { frame.new ≡ flat_map word_bytes words.now }
{
    for i in 0..FRAME_WORDS {
        store_double(frame, 8 * i, words[i]);
    }
}

/// Appends to the bytes what a frame is saved as.
fn save_frame(frame: &[u8; FRAME_BYTES], out: &mut Vec<u8>) -> Result<(), AllocError>
    ensures ok { OnOk result (out.new.items ≡ out.old.items ++ frame_saved frame.now) }
    ensures err { OnErr result (StartsWith out.new.items out.old.items) }
{
    save_words(&words_of(frame), out)
}

/// Appends to the bytes what frames are saved as.
fn save_frames(frames: &[[u8; FRAME_BYTES]], out: &mut Vec<u8>) -> Result<(), AllocError>
    ensures ok { OnOk result (out.new.items ≡ out.old.items ++ flat_map frame_saved frames.now) }
    ensures err { OnErr result (StartsWith out.new.items out.old.items) }
{
    for frame in frames {
        save_frame(frame, out)?;
    }
    Ok(())
}

/// Sets a frame to the one whose saved form the bytes begin with; what comes after it.
fn read_frame<'a>(frame: &mut [u8; FRAME_BYTES], bytes: &'a [u8]) -> Option<&'a [u8]>
    ensures sized { length frame.new ≡ frame_bytes }
    ensures some { IfSome result (λ rest. bytes.now ≡ frame_saved frame.new ++ rest.now) }
    ensures is_frame { IfSome result (λ _. IsFrame frame.new) }
    ensures none { IfNone result ((other more : List ℕ) → IsFrame other
        → bytes.now ≡ frame_saved other ++ more → ⊥) }
{
    let mut words = [0; FRAME_WORDS];
    let rest = read_words(&mut words, bytes)?;
    set_words(frame, &words);
    Some(rest)
}

/// Sets this many frames to those whose saved forms the bytes begin with; what comes after them.
fn read_frames<'a>(
    frames: &mut [[u8; FRAME_BYTES]],
    live: usize,
    bytes: &'a [u8],
) -> Option<&'a [u8]>
    requires room { live ≤ length frames.old }
    requires sized { All (λ frame. length frame ≡ frame_bytes) frames.old }
    ensures sized { All (λ frame. length frame ≡ frame_bytes) frames.new }
    ensures some { IfSome result
        (λ rest. bytes.now ≡ flat_map frame_saved (take live frames.new) ++ rest.now) }
    ensures are_frames { IfSome result (λ _. All IsFrame (take live frames.new)) }
    ensures none { IfNone result ((others : List (List ℕ)) (more : List ℕ)
        → length others ≡ live → All IsFrame others
        → bytes.now ≡ flat_map frame_saved others ++ more → ⊥) }
{
    let mut rest = bytes;
    for depth in 0..live {
        rest = read_frame(&mut frames[depth], rest)?;
    }
    Some(rest)
}

/// What a caller gets back, as words.
fn caller_words(caller: &Caller) -> [u64; 5]
    ensures { result ≡ caller.now.return_pc ∷ caller.now.saved }
{
    let saved = caller.saved;
    let pc = u64::from(caller.return_pc);
    [pc, saved[0], saved[1], saved[2], saved[3]]
}

/// Appends to the bytes what a caller is saved as.
fn save_caller(caller: &Caller, out: &mut Vec<u8>) -> Result<(), AllocError>
    ensures ok { OnOk result (out.new.items ≡ out.old.items ++ caller_saved caller.now) }
    ensures err { OnErr result (StartsWith out.new.items out.old.items) }
{
    save_words(&caller_words(caller), out)
}

/// Appends to the bytes what callers are saved as.
fn save_callers(callers: &[Caller], out: &mut Vec<u8>) -> Result<(), AllocError>
    ensures ok { OnOk result (out.new.items ≡ out.old.items ++ flat_map caller_saved callers.now) }
    ensures err { OnErr result (StartsWith out.new.items out.old.items) }
{
    for caller in callers {
        save_caller(caller, out)?;
    }
    Ok(())
}

/// The caller whose saved form the bytes begin with; what comes after it.
fn read_caller(bytes: &[u8]) -> Option<(Caller, &[u8])>
    ensures some { IfSome result (λ r. bytes.now ≡ caller_saved r.0 ++ r.1.now) }
    ensures is_caller { IfSome result (λ r. IsCaller r.0) }
    ensures none { IfNone result ((other : Caller) (more : List ℕ) → IsCaller other
        → bytes.now ≡ caller_saved other ++ more → ⊥) }
{
    let mut words = [0; 5];
    let rest = read_words(&mut words, bytes)?;
    if words[0] > u64::from(u32::MAX) {
        return None;
    }
    let caller = Caller {
        return_pc: words[0] as u32,
        saved: [words[1], words[2], words[3], words[4]],
    };
    Some((caller, rest))
}

/// Sets this many callers to those whose saved forms the bytes begin with; what comes after them.
fn read_callers<'a>(callers: &mut [Caller], count: usize, bytes: &'a [u8]) -> Option<&'a [u8]>
    requires { count ≤ length callers.old }
    ensures some { IfSome result
        (λ rest. bytes.now ≡ flat_map caller_saved (take count callers.new) ++ rest.now) }
    ensures are_callers { IfSome result (λ _. All IsCaller (take count callers.new)) }
    ensures none { IfNone result ((others : List Caller) (more : List ℕ)
        → length others ≡ count → All IsCaller others
        → bytes.now ≡ flat_map caller_saved others ++ more → ⊥) }
{
    let mut rest = bytes;
    for i in 0..count {
        let (caller, behind) = read_caller(rest)?;
        callers[i] = caller;
        rest = behind;
    }
    Some(rest)
}

/// Each byte of the code is one: says so, and does nothing.
fn are_bytes(bytes: &[u8])
    ensures { All (λ byte. byte < 256) bytes.now }
{
    let _ = bytes;
}

/// A frame of the code is one: says so.
fn is_frame(frame: &[u8; FRAME_BYTES])
    ensures { IsFrame frame.now }
{
    are_bytes(frame);
}

/// Each of these is: says so.
fn are_frames(frames: &[[u8; FRAME_BYTES]])
    ensures { All IsFrame frames.now }
{
    for frame in frames {
        is_frame(frame);
    }
}

/// A caller of the code is one: says so.
fn is_caller(caller: &Caller)
    ensures { IsCaller caller.now }
{
    let _pc = caller.return_pc;
    are_words(&caller.saved);
}

/// Each of these is: says so.
fn are_callers(callers: &[Caller])
    ensures { All IsCaller callers.now }
{
    for caller in callers {
        is_caller(caller);
    }
}

impl Frames {
    /// The frames are determined by what they are saved as: says so, and does nothing.
    pub fn are_savable(&self)
        ensures { IsSavable self.now }
    {
        let _depth = self.depth();
        are_frames(self.live_frames());
        are_callers(self.callers());
    }

    /// Appends to the bytes what the frames are saved as.
    pub fn save(&self, out: &mut Vec<u8>) -> Result<(), AllocError>
        ensures ok { OnOk result (out.new.items ≡ out.old.items ++ frames_saved self.now) }
        ensures err { OnErr result (StartsWith out.new.items out.old.items) }
    {
        out.push(self.live as u8)?;
        save_frames(self.live_frames(), out)?;
        save_callers(self.callers(), out)
    }

    /// Become those whose saved form the bytes begin with; what comes after it. `None` where no
    /// frames have such a form, and then they may be any.
    pub fn restore<'a>(&mut self, bytes: &'a [u8]) -> Option<&'a [u8]>
        ensures some { IfSome result (λ rest. bytes.now ≡ frames_saved self.new ++ rest.now) }
        ensures savable { IfSome result (λ _. IsSavable self.new) }
        ensures none { IfNone result ((other : Stack) (more : List ℕ) → IsSavable other
            → bytes.now ≡ frames_saved other ++ more → ⊥) }
    {
        if bytes.is_empty() {
            return None;
        }
        let live = usize::from(bytes[0]);
        if live == 0 || live > MAX_FRAMES {
            return None;
        }
        let rest = read_frames(&mut self.frames, live, &bytes[1..])?;
        let rest = read_callers(&mut self.callers, live - 1, rest)?;
        self.live = live;
        Some(rest)
    }
}
