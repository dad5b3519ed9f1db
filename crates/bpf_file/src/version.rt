//! The versions of run files.

ghost use Rattle.std.specs.Prelude.{◌≡◌};
ghost use Rattle.bpf_file.specs.Version.{may_grow, has_arrays};

/// The version of a run file, by its first line. Each has all that those before it have.
#[derive(Clone, Copy, PartialEq, Eq, Debug)]
pub enum Version {
    First,
    /// In which maps may grow.
    Second,
    /// In which there may be arrays.
    Third,
}

impl Version {
    /// Whether maps may grow.
    pub fn may_grow(self) -> bool
        ensures { result ≡ may_grow self }
    {
        match self {
            Version::First => false,
            Version::Second | Version::Third => true,
        }
    }

    /// Whether there may be arrays.
    pub fn has_arrays(self) -> bool
        ensures { result ≡ has_arrays self }
    {
        match self {
            Version::First | Version::Second => false,
            Version::Third => true,
        }
    }
}
