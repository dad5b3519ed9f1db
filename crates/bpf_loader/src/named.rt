//! Which maps and arrays a program may name.
ghost use Rattle.std.specs.Prelude.{◌↔◌, IsTrue};
ghost use Rattle.bpf_loader.specs.Named.{IsNamed};

/// The number of the first array: those below it are for maps.
const FIRST_ARRAY: usize = 16;

/// How many maps and how many arrays a program may name. Maps have the numbers from 0 on, arrays
/// those from 16 on.
#[derive(Clone, Copy, PartialEq, Eq, Debug)]
pub struct Named {
    pub maps: usize,
    pub arrays: usize,
}

impl Named {
    /// Whether there is a map or an array of this number.
    pub fn has(self, number: usize) -> bool
        ensures { IsTrue result ↔ IsNamed self number }
    {
        if number < self.maps {
            return true;
        }
        if number < FIRST_ARRAY {
            return false;
        }
        number - FIRST_ARRAY < self.arrays
    }
}
