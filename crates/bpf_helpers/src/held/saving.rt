//! Held spans as bytes, and from such bytes.

ghost use Rattle.std.specs.Prelude.{◌≡◌, ◌++◌, ℕ, List, OnOk, OnErr, IfSome, IfNone, All, length};
ghost use Rattle.std.specs.List.{flat_map};
ghost use Rattle.std.specs.Io.{StartsWith};
ghost use Rattle.bpf_shared.specs.declared.events.Span.{Span};
ghost use Rattle.bpf_helpers.specs.Saved.{span_saved, spans_saved, AreOnce, AreSavable, IsWide, MayBeHeld};

use super::{HeldSpans, MAX_HELD};
use bpf_base::bytes::load_half;
use bpf_mem::{are_words, read_words, save_words};
use bpf_shared::Span;
use std::alloc::AllocError;

/// Appends to the bytes what spans are saved as.
fn save_spans(spans: &[Span], out: &mut Vec<u8>) -> Result<(), AllocError>
    ensures ok { OnOk result (out.new.items ≡ out.old.items ++ flat_map span_saved spans.now) }
    ensures err { OnErr result (StartsWith out.new.items out.old.items) }
{
    for span in spans {
        save_words(&[span.at, span.size], out)?;
    }
    Ok(())
}

/// The span whose saved form the bytes begin with; what comes after it.
fn read_span(bytes: &[u8]) -> Option<(Span, &[u8])>
    ensures some { IfSome result (λ r. bytes.now ≡ span_saved r.0 ++ r.1.now) }
    ensures wide { IfSome result (λ r. IsWide r.0) }
    ensures none { IfNone result ((other : Span) (more : List ℕ) → IsWide other
        → bytes.now ≡ span_saved other ++ more → ⊥) }
{
    let mut words = [0; 2];
    let rest = read_words(&mut words, bytes)?;
    let span = Span {
        at: words[0],
        size: words[1],
    };
    Some((span, rest))
}

/// A span of the code is made of words: says so, and does nothing.
fn is_wide(span: Span)
    ensures { IsWide span }
{
    are_words(&[span.at, span.size]);
}

/// Each of these is: says so.
fn are_wide(spans: &[Span])
    ensures { All IsWide spans.now }
{
    for span in spans {
        is_wide(*span);
    }
}

impl HeldSpans {
    /// The spans are determined by what they are saved as, and each is held once: says so, and does
    /// nothing.
    pub fn are_savable(&self)
        ensures savable { AreSavable self.now }
        ensures once { AreOnce self.now }
    {
        let _few = self.spans.len();
        are_wide(self.spans());
    }

    /// Appends to the bytes what the spans are saved as.
    pub fn save(&self, out: &mut Vec<u8>) -> Result<(), AllocError>
        ensures ok { OnOk result (out.new.items ≡ out.old.items ++ spans_saved self.now) }
        ensures err { OnErr result (StartsWith out.new.items out.old.items) }
    {
        out.extend_from_slice(&(self.spans.len() as u16).to_le_bytes())?;
        save_spans(self.spans(), out)
    }

    /// Become this many spans whose saved forms the bytes begin with; what comes after them.
    fn read_spans<'a>(&mut self, count: usize, bytes: &'a [u8]) -> Option<&'a [u8]>
        ensures some { IfSome result
            (λ rest. bytes.now ≡ flat_map span_saved self.new ++ rest.now) }
        ensures count { IfSome result (λ rest. length self.new ≡ count) }
        ensures wide { IfSome result (λ rest. All IsWide self.new) }
        ensures once { IfSome result (λ rest. AreOnce self.new) }
        ensures none { IfNone result ((others : List Span) (more : List ℕ)
            → length others ≡ count → MayBeHeld others
            → bytes.now ≡ flat_map span_saved others ++ more → ⊥) }
    {
        *self = HeldSpans::new();
        let mut rest = bytes;
        for _number in 0..count {
            let (span, behind) = read_span(rest)?;
            if !self.take_in(span) {
                return None;
            }
            rest = behind;
        }
        Some(rest)
    }

    /// Become those whose saved form the bytes begin with; what comes after it. `None` where no
    /// spans that a run may hold have such a form, and then they may be any.
    pub fn restore<'a>(&mut self, bytes: &'a [u8]) -> Option<&'a [u8]>
        ensures some { IfSome result (λ rest. bytes.now ≡ spans_saved self.new ++ rest.now) }
        ensures savable { IfSome result (λ rest. AreSavable self.new) }
        ensures once { IfSome result (λ rest. AreOnce self.new) }
        ensures none { IfNone result ((others : List Span) (more : List ℕ)
            → MayBeHeld others → bytes.now ≡ spans_saved others ++ more → ⊥) }
    {
        if bytes.len() < 2 {
            return None;
        }
        let count = usize::from(load_half(bytes, 0));
        if count > MAX_HELD {
            return None;
        }
        self.read_spans(count, &bytes[2..])
    }
}
