//! Which element of a map lies at an address.

ghost use Rattle.std.specs.Prelude.{◌≡◌, ◌<◌, ◌↔◌, ℕ, IfSome, IfNone, IsTrue, List, Some};
ghost use Rattle.bpf_shared.specs.declared.events.Span.{Span};
ghost use Rattle.bpf_shared.specs.declared.shapes.MapShape.{MapShape};
ghost use Rattle.bpf_shared.specs.Shape.{AreMaps, IsElementSpan, IsIn};
ghost use Rattle.bpf_helpers.specs.Private.Grid.{IsOnGrid, IsOffset, stride_of};
ghost use Rattle.bpf_helpers.specs.Private.Sizes.{AreSizesOf};

use bpf_shared::{FIRST_VALUE, MAP_AREA, Span};

/// The size of each map's values of which one is held. A map's elements lie side by side, so it
/// says which of them has an address.
#[derive(Drop)]
pub(crate) struct Grid {
    /// By map; 0 where no value of it is held.
    sizes: [u16; 16],
}

/// The map that has an address, and how far past its first value the address is.
#[inline]
fn offset_of(address: u64) -> Option<(usize, u64)>
    ensures some { IfSome result (λ r. IsOffset address r.0 r.1) }
    ensures none { IfNone result ((m o : ℕ) → IsOffset address m o → ⊥) }
{
    let above = address.checked_sub(FIRST_VALUE)?;
    let map = above / MAP_AREA;
    if map < 16 {
        Some((map as usize, above % MAP_AREA))
    } else {
        None
    }
}

/// From one value of this size to the next.
#[inline]
fn stride_of(size: u16) -> u32
    ensures stride { result ≡ stride_of size }
    ensures small { result < 65544 }
{
    (u32::from(size) + 7) / 8 * 8
}

impl Grid {
    /// No value is held.
    pub(crate) fn new() -> Grid
        ensures { (maps : List MapShape) → AreSizesOf maps result.sizes }
    {
        Grid { sizes: [0; 16] }
    }

    /// The one span on the grid that may have the address.
    #[inline]
    pub(crate) fn element_at(&self, address: u64) -> Option<Span>
        ensures { (p : Span) → IsOnGrid self.now.sizes p → IsIn address p → result ≡ Some p }
    {
        let (map, offset) = offset_of(address)?;
        let size = self.sizes[map];
        let past = (offset as u32).checked_rem(stride_of(size))?;
        Some(Span {
            at: address - u64::from(past),
            size: u64::from(size),
        })
    }

    /// A copy of it.
    pub(crate) fn copy(&self) -> Grid
        ensures { result ≡ self.now }
    {
        Grid { sizes: self.sizes }
    }

    /// Becomes what another one is.
    pub(crate) fn copy_from(&mut self, other: &Grid)
        ensures { self.new ≡ other.now }
    {
        self.sizes = other.sizes;
    }

    /// Takes a span's size for its map's, where none of them is held yet.
    pub(crate) fn note(&mut self, span: Span)
        ensures kept { (p : Span) → IsOnGrid self.old.sizes p → IsOnGrid self.new.sizes p }
        ensures elements { (maps : List MapShape) (m : ℕ) → AreMaps maps
            → AreSizesOf maps self.old.sizes → IsElementSpan maps m span
            → AreSizesOf maps self.new.sizes × IsOnGrid self.new.sizes span }
    {
        let Some((map, _)) = offset_of(span.at) else {
            return;
        };
        if self.sizes[map] == 0 {
            self.sizes[map] = u16::try_from(span.size).unwrap_or(0);
        }
    }

    /// The grid once a span's size is noted.
    pub(crate) fn noted(&self, span: Span) -> Grid
        ensures kept { (p : Span) → IsOnGrid self.now.sizes p → IsOnGrid result.sizes p }
        ensures elements { (maps : List MapShape) (m : ℕ) → AreMaps maps
            → AreSizesOf maps self.now.sizes → IsElementSpan maps m span
            → AreSizesOf maps result.sizes × IsOnGrid result.sizes span }
    {
        let mut grid = Grid { sizes: self.sizes };
        grid.note(span);
        grid
    }

    /// Whether a span is one of those on the grid.
    pub(crate) fn has(&self, span: Span) -> bool
        ensures { IsTrue result ↔ IsOnGrid self.now.sizes span }
    {
        let Some((map, offset)) = offset_of(span.at) else {
            return false;
        };
        let size = self.sizes[map];
        if size == 0 || u64::from(size) != span.size {
            return false;
        }
        let stride = u64::from(stride_of(size));
        offset % stride == 0 && offset + span.size <= MAP_AREA
    }
}
