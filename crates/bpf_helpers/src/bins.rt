//! The numbers of spans by where they start.

ghost use Rattle.std.specs.Prelude.{◌≡◌, ◌<◌, ◌≤◌, List, length, ◌∷◌, [], ◌++◌};
ghost use Rattle.bpf_shared.specs.declared.events.Span.{Span};
ghost use Rattle.bpf_shared.specs.Passage.{same_span};
ghost use Rattle.bpf_helpers.specs.Held.{has_span, max_held};
ghost use Rattle.bpf_helpers.specs.Private.Bins.{AreBinned, bin_of};

use bpf_base::spread;
use bpf_shared::Span;

/// Numbers of spans in bins by where the spans start, so that one is found among few.
///
/// The first span has the number 0, which also is where a bin has no further one: it is looked
/// at last.
#[derive(Drop)]
pub(crate) struct Bins {
    /// By bin, the number of the span that was put there last.
    latest: [u8; 512],
    /// By number, the number of the span that was put in its bin before it.
    earlier: [u8; 256],
}

/// The bin of the spans that start there.
#[inline]
fn bin_of(at: u64) -> usize
    ensures bin { result ≡ bin_of at }
    ensures small { result < 512 }
{
    (spread(at) >> 55) as usize
}

/// Whether two spans are the same.
#[inline]
fn is_same(span: Span, other: Span) -> bool
    ensures { result ≡ same_span span other }
{
    span.at == other.at && span.size == other.size
}

impl Bins {
    /// Nothing is in them.
    pub(crate) fn new() -> Bins
        ensures { AreBinned result.latest result.earlier [] }
    {
        Bins {
            latest: [0; 512],
            earlier: [0; 256],
        }
    }

    /// Whether the span is one of these, whose numbers are in the bins.
    #[inline]
    pub(crate) fn have(&self, spans: &[Span], span: Span) -> bool
        requires binned { AreBinned self.now.latest self.now.earlier spans.now }
        ensures { result ≡ has_span spans.now span }
    {
        let mut number = self.latest[bin_of(span.at)] as usize;
        while let Some(other) = spans.get(number) {
            if is_same(*other, span) {
                return true;
            }
            if number == 0 {
                return false;
            }
            number = self.earlier[number] as usize;
        }
        false
    }

    /// Become what others are.
    pub(crate) fn copy_from(&mut self, other: &Bins)
        ensures { self.new ≡ other.now }
    {
        self.latest = other.latest;
        self.earlier = other.earlier;
    }

    /// Puts the number of a span, which is next, in its bin.
    pub(crate) fn put(&mut self, span: Span, number: u8)
        ensures { (spans : List Span) → length spans ≡ number
            → AreBinned self.old.latest self.old.earlier spans
            → AreBinned self.new.latest self.new.earlier (spans ++ span ∷ []) }
    {
        let bin = bin_of(span.at);
        self.earlier[number as usize] = self.latest[bin];
        self.latest[bin] = number;
    }

    /// Have the numbers of these spans, and no others.
    pub(crate) fn refill(&mut self, spans: &[Span])
        requires { length spans.now ≤ max_held }
        ensures { AreBinned self.new.latest self.new.earlier spans.now }
    {
        *self = Bins::new();
        for number in 0..spans.len() {
            self.put(spans[number], number as u8);
        }
    }
}
