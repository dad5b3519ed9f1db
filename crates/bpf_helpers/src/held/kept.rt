//! Held spans that are kept, and no room for others.

ghost use Rattle.std.specs.Prelude.{◌≡◌, ◌↔◌, IfOk, IsTrue};

use super::{HeldSpans, same_spans};
use crate::grid::Grid;
use bpf_shared::Span;
use std::alloc::{AllocError, Global};
use std::marker::Model;

/// Copies of spans.
fn copy_spans(alloc: Global, spans: &[Span]) -> Result<Vec<Span>, AllocError>
    ensures { IfOk result (λ copies. copies.items ≡ spans.now) }
{
    let mut copies = Vec::with_capacity(alloc, spans.len())?;
    copies.extend_from_slice(spans)?;
    Ok(copies)
}

/// The spans that a run holds, which are kept.
#[derive(Drop)]
pub struct KeptSpans {
    spans: Vec<Span>,
    grid: Grid,
}

impl Model for KeptSpans {
    ghost use Rattle.std.specs.Prelude.{List};
    ghost use Rattle.bpf_shared.specs.declared.events.Span.{Span};
    ghost use Rattle.bpf_helpers.specs.Private.Found.{MayBeFound};

    ghost Value = { List Span };

    ghost view = { λ k. k.spans.items };

    ghost invariant = { λ k. MayBeFound k.grid k.spans.items };
}

impl KeptSpans {
    /// Copies of those that a run holds.
    pub fn of(alloc: Global, held: &HeldSpans) -> Result<KeptSpans, AllocError>
        ensures { IfOk result (λ kept. kept ≡ held.now) }
    {
        let _few = held.spans.len();
        let spans = copy_spans(alloc, held.spans())?;
        let grid = held.grid.copy();
        Ok(KeptSpans { spans, grid })
    }

    /// The spans.
    pub fn spans(&self) -> &[Span]
        ensures { result.now ≡ self.now }
    {
        &self.spans
    }

    /// About how many bytes of memory they take beside themselves.
    pub fn bytes(&self) -> usize {
        self.spans.capacity().saturating_mul(size_of::<Span>())
    }

    /// Whether they are those that a run holds, in the same order.
    pub fn are(&self, held: &HeldSpans) -> bool
        ensures { IsTrue result ↔ (self.now ≡ held.now) }
    {
        same_spans(self.spans(), held.spans())
    }

    /// Whether they are those of another, in the same order.
    pub fn is_same(&self, other: &KeptSpans) -> bool
        ensures { IsTrue result ↔ (self.now ≡ other.now) }
    {
        same_spans(self.spans(), other.spans())
    }
}

impl HeldSpans {
    ghost use Rattle.std.specs.Prelude.{◌≡◌};

    /// Become what kept ones are.
    pub fn copy_from_kept(&mut self, kept: &KeptSpans)
        ensures { self.new ≡ kept.now }
    {
        if self.spans.is_empty() && kept.spans.is_empty() {
            return;
        }
        self.spans.clear();
        match self.spans.try_extend_from_slice(kept.spans.as_slice()) {
            Ok(()) => {}
            Err(_) => unreachable!(),
        }
        self.bins.refill(&kept.spans);
        self.grid.copy_from(&kept.grid);
    }
}
