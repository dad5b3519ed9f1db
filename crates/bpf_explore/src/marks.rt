//! Marks of kept machines, each under the machine's number.

ghost use Rattle.std.specs.Prelude.{◌≡◌, ◌<◌, ◌⊎◌, true, false, Some, length, slice_get, slice_set};

/// Whether a kept machine is marked.
pub fn mark_of(marks: &[bool], place: usize) -> bool
    requires { place < length marks.now }
    ensures { slice_get marks.now place ≡ Some result }
{
    marks[place]
}

/// Marks a kept machine.
pub fn set_mark(marks: &mut Vec<bool>, place: usize)
    requires { place < length marks.old.items }
    ensures { marks.new.items ≡ slice_set marks.old.items place true }
{
    marks[place] = true;
}

/// Whether one of both holds.
pub fn either(first: bool, second: bool) -> bool
    ensures some { result ≡ true → (first ≡ true) ⊎ (second ≡ true) }
    ensures none { result ≡ false → (first ≡ false) × (second ≡ false) }
{
    first || second
}
