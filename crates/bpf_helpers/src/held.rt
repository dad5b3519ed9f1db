//! The values that a CPU's run holds.

ghost use Rattle.std.specs.Prelude.{◌≡◌, ◌<◌, ◌≤◌, ℕ, [], ◌∷◌, ◌++◌, ◌↔◌, All, length, IsTrue, true, false};
ghost use Rattle.bpf_helpers.specs.Arrays.{array_start};
ghost use Rattle.bpf_helpers.specs.Private.Grid.{IsAligned};
ghost use Rattle.bpf_helpers.specs.Held.{AreElements, covers, has_span, is_covered, max_held, reaches, with_span};

mod kept;
mod saving;

use crate::bins::Bins;
use crate::grid::Grid;
use arrayvec::ArrayVec;
use bpf_shared::Span;
pub use kept::KeptSpans;
use std::marker::Model;

/// How many values a run holds at most (our own choice).
pub const MAX_HELD: usize = 256;

/// How many spans are gone through sooner than the one at an address is worked out.
const FEW: usize = 4;

/// The spans of the values that lookups of this run answered, each once, in the order of their
/// first lookup.
#[derive(Drop)]
pub struct HeldSpans {
    spans: ArrayVec<Span, MAX_HELD>,
    bins: Bins,
    grid: Grid,
}

impl Model for HeldSpans {
    ghost use Rattle.std.specs.Prelude.{List, ◌≤◌, length};
    ghost use Rattle.bpf_shared.specs.declared.events.Span.{Span};
    ghost use Rattle.bpf_helpers.specs.Private.Found.{LeadToSpans};

    ghost Value = { List Span };

    ghost view = { λ h. h.spans.items };

    ghost invariant = { λ h. LeadToSpans h.bins h.grid h.spans.items };
}

/// Whether a span has all bytes from an address on, this many.
fn covers(span: Span, address: u64, length: u64) -> bool
    ensures { result ≡ covers address length span }
{
    span.at <= address && length <= span.size && address - span.at <= span.size - length
}

/// Whether lists have the same spans.
fn same_spans(spans: &[Span], others: &[Span]) -> bool
    ensures { IsTrue result ↔ (spans.now ≡ others.now) }
{
    spans == others
}

impl HeldSpans {
    /// No spans.
    pub fn new() -> HeldSpans
        ensures { result ≡ [] }
    {
        HeldSpans {
            spans: ArrayVec::new(),
            bins: Bins::new(),
            grid: Grid::new(),
        }
    }

    /// The spans.
    #[inline]
    pub fn spans(&self) -> &[Span]
        ensures { result.now ≡ self.now }
    {
        &self.spans
    }

    /// Whether this span is one of them.
    #[inline]
    pub fn has(&self, span: Span) -> bool
        ensures { result ≡ has_span self.now span }
    {
        self.bins.have(&self.spans, span)
    }

    /// Whether an address is in one of them.
    #[inline]
    pub fn reaches(&self, address: u64) -> bool
        ensures { result ≡ reaches self.now address }
    {
        self.covers(address, 1)
    }

    /// Each of them begins at a multiple of eight: says so, and does nothing.
    pub(crate) fn are_aligned(&self)
        ensures { All IsAligned self.now }
    {
        let _spans = &self.spans;
    }

    /// None of them has a byte at an address from the first array's on: says so, and does nothing.
    #[inline(always)]
    pub fn are_low(&self)
        ensures { (a n : ℕ) → array_start 0 ≤ a → 1 ≤ n → is_covered self.now a n ≡ false }
    {
        let _spans = &self.spans;
    }

    /// Whether one of them has all bytes from an address on, this many.
    #[inline(always)]
    pub fn covers(&self, address: u64, length: u64) -> bool
        ensures { result ≡ is_covered self.now address length }
    {
        if self.spans.len() <= FEW {
            self.any_covers(address, length)
        } else {
            self.element_covers(address, length)
        }
    }

    /// `covers`, by going through them.
    #[inline(always)]
    fn any_covers(&self, address: u64, length: u64) -> bool
        ensures { result ≡ is_covered self.now address length }
    {
        self.spans.iter().any(|span| covers(*span, address, length))
    }

    /// `covers`, by the element that lies there.
    #[inline(never)]
    fn element_covers(&self, address: u64, length: u64) -> bool
        ensures { result ≡ is_covered self.now address length }
    {
        if length == 0 {
            return self.any_covers(address, length);
        }
        match self.grid.element_at(address) {
            Some(span) => covers(span, address, length) && self.has(span),
            None => false,
        }
    }

    /// Become what others are.
    pub fn copy_from(&mut self, other: &HeldSpans)
        ensures { self.new ≡ other.now }
    {
        self.spans.clear();
        match self.spans.try_extend_from_slice(other.spans.as_slice()) {
            Ok(()) => {}
            Err(_) => unreachable!(),
        }
        self.bins.copy_from(&other.bins);
        self.grid.copy_from(&other.grid);
    }

    /// Whether they are the same, in the same order.
    pub fn is_same(&self, other: &HeldSpans) -> bool
        ensures { IsTrue result ↔ (self.now ≡ other.now) }
    {
        same_spans(self.spans(), other.spans())
    }

    /// Whether one more span would be too many.
    #[inline]
    pub fn is_full(&self) -> bool
        ensures { IsTrue result ↔ (max_held ≤ length self.now) }
    {
        self.spans.len() == MAX_HELD
    }

    /// Holds this span too.
    pub(crate) fn hold(&mut self, span: Span)
        requires room { has_span self.old span ≡ false → length self.old < max_held }
        requires elements { AreElements (span ∷ self.old) }
        ensures { self.new ≡ with_span self.old span }
    {
        if !self.has(span) {
            self.bins.put(span, self.spans.len() as u8);
            self.grid.note(span);
            self.spans.push(span);
        }
    }

    /// Holds this span after the others, where it is none of them, there is room, and all may be
    /// elements of the maps of one store. Whether it does.
    fn take_in(&mut self, span: Span) -> bool
        ensures held { result ≡ true → self.new ≡ self.old ++ span ∷ [] }
        ensures fresh { result ≡ true → has_span self.old span ≡ false }
        ensures refused { result ≡ false → length self.old < max_held
            → has_span self.old span ≡ false → AreElements (self.old ++ span ∷ []) → ⊥ }
    {
        if self.is_full() || self.has(span) {
            return false;
        }
        let grid = self.grid.noted(span);
        if !grid.has(span) {
            return false;
        }
        self.bins.put(span, self.spans.len() as u8);
        self.grid = grid;
        self.spans.push(span);
        true
    }
}
