//! Marks of a map's elements, of which most are set: those that aren't are looked for.
ghost use Rattle.std.specs.Prelude.{◌≡◌, ℕ, ◌<◌, ◌≤◌, IsTrue, true, false, length, slice_index_or};
ghost use Rattle.bpf_hash.specs.Private.Rows.{AreMarked};

/// How many marks are looked at together.
const TOGETHER: usize = 32;

/// All of these are set. Each is looked at, whatever the others are: so the machine can take them
/// together.
fn are_all(marks: &[bool]) -> bool
    ensures { IsTrue result → AreMarked marks.now (length marks.now) }
{
    let mut all = true;
    for mark in marks {
        all &= *mark;
    }
    all
}

/// How far from a place on all marks are set.
pub fn past_marked(marks: &[bool], from: usize) -> usize
    ensures further { from ≤ result }
    ensures marked { (i : ℕ) → from ≤ i → i < result → slice_index_or marks.now i false ≡ true }
{
    if from < marks.len() && !marks[from] {
        return from;
    }
    let mut first = from;
    while first < marks.len()
        && TOGETHER <= marks.len() - first
        && are_all(&marks[first..first + TOGETHER])
    {
        first += TOGETHER;
    }
    for place in first..marks.len() {
        if !marks[place] {
            return place;
        }
    }
    first.max(marks.len())
}

/// The first from a place on that isn't marked, where all before that place are marked.
pub fn first_unmarked(marks: &[bool], from: usize) -> usize
    requires { AreMarked marks.now from }
    ensures { AreMarked marks.now result }
{
    past_marked(marks, from)
}
