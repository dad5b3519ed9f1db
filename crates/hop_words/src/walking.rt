//! The way from segment 0 to the segment that a key is at home in.
ghost use Rattle.std.specs.Prelude.{◌≡◌, ◌<◌, ◌≤◌, ◌%◌, MatchOption};
ghost use Rattle.hop_layout.specs.Layout.{power};
ghost use Rattle.hop_words.specs.Walking.{IsOnWay, IsNextSegment};

/// A segment, and how many low bits of a home it was reached by.
#[derive(Clone, Copy)]
pub struct Way {
    pub segment: u32,
    pub level: u32,
}

/// The next segment on the way of a home, from one of this depth: that of the home's lowest bit
/// above those that led here. None where the home is the segment's own.
#[inline(always)]
pub fn towards(home: u32, way: Way, depth: u32) -> Option<Way>
    requires way { IsOnWay home way }
    requires level { way.level ≤ 11 }
    requires room { way.segment < power depth }
    requires small { depth ≤ 10 }
    ensures way { MatchOption result (home % power depth ≡ way.segment)
        (λ next. IsOnWay home next × IsNextSegment way depth next) }
{
    let ahead = (home - way.segment) % (1 << depth);
    if ahead == 0 {
        return None;
    }
    let bit = ahead.trailing_zeros();
    Some(Way {
        segment: way.segment + (1 << bit),
        level: bit + 1,
    })
}
