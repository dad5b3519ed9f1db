//! Where input comes from and where output goes. A source and a sink know whether a call of theirs
//! failed, and are asked nothing more after that.

ghost use Rattle.std.specs.Prelude.{◌≡◌, ◌+◌, ◌-◌, ◌<◌, ◌^◌, ℕ, Bool, List, Option, false, is_err, IfOk, IfSome, OnOk, length, min};
ghost use Rattle.std.specs.Io.{ReadsAtMost, WritesAtMost};
ghost use Rattle.std.specs.Io.KnownBytes.{Keeps, ReadConsumes, WriteAppends};

use std::io;

/// What input is read from: standard input, and a file from when one is opened in its place.
pub trait Source {
    /// The bytes that reads will give from here on, where they are known.
    ghost remaining: { Self → Option (List ℕ) };

    /// The bytes of the file of a name, where they are known.
    ghost file: { Self → List ℕ → Option (List ℕ) };

    /// Whether a read failed, or a file couldn't be opened.
    ghost has_failed: { Self → Bool };

    /// How many reads were made, counted up to the greatest `u64`.
    ghost reads: { Self → ℕ };

    /// Opens the file of this name: what is read from here on is the file, whatever failed before.
    fn open(&mut self, name: &str) -> io::Result<()>
        ensures files { file self.new ≡ file self.old }
        ensures opened { OnOk result (IfSome (file self.old name.now)
            (λ bytes. remaining self.new ≡ Some bytes)) }
        ensures told { has_failed self.new ≡ is_err result }
        ensures counted { reads self.new ≡ reads self.old };

    /// One read.
    fn read(&mut self, room: &mut [u8]) -> io::Result<usize>
        requires { has_failed self.old ≡ false }
        ensures files { file self.new ≡ file self.old }
        ensures bound { ReadsAtMost result room.new }
        ensures bytes { ReadConsumes (remaining self.old) (remaining self.new) result room.new }
        ensures told { has_failed self.new ≡ is_err result }
        ensures counted { reads self.new ≡ min (reads self.old + 1) (2 ^ 64 - 1) };
}

/// What output is written to.
pub trait Sink {
    /// The bytes that it holds, where they are known.
    ghost contents: { Self → Option (List ℕ) };

    /// Whether a write failed, or took nothing.
    ghost has_failed: { Self → Bool };

    /// One write. Where there is a byte to write, it takes one at least or fails.
    fn write(&mut self, bytes: &[u8]) -> io::Result<usize>
        requires { has_failed self.old ≡ false }
        ensures bound { WritesAtMost result bytes.now }
        ensures some { 0 < length bytes.now → IfOk result (λ n. 0 < n) }
        ensures bytes { WriteAppends (contents self.old) (contents self.new) result bytes.now }
        ensures told { has_failed self.new ≡ is_err result };

    /// Brings what was written to its end.
    fn flush(&mut self) -> io::Result<()>
        requires { has_failed self.old ≡ false }
        ensures bytes { Keeps (contents self.old) (contents self.new) }
        ensures told { has_failed self.new ≡ is_err result };
}
