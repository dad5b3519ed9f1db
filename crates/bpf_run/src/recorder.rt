//! A writer of std as a sink.

ghost use Rattle.std.specs.Prelude.{◌≡◌, false};

use bpf_replies::stream::Sink;
use std::io;
use std::io::{ErrorKind, Write};

/// A writer, and whether its last call failed. Each call is one call of it.
#[derive(Drop)]
pub struct Recorder<W> {
    inner: W,
    failed: bool,
}

impl<W> Recorder<W> {
    /// A writer of which no call failed.
    pub fn new(inner: W) -> Recorder<W>
        ensures kept { result.inner ≡ inner }
        ensures working { result.failed ≡ false }
    {
        Recorder {
            inner,
            failed: false,
        }
    }
}

impl<W: Write> Sink for Recorder<W> {
    ghost contents = { λ s. W.contents s.inner };

    ghost has_failed = { λ s. s.failed };

    fn write(&mut self, bytes: &[u8]) -> io::Result<usize> {
        let mut written = self.inner.write(bytes);
        if !bytes.is_empty() && matches!(written, Ok(0)) {
            written = Err(io::Error::from(ErrorKind::WriteZero));
        }
        self.failed = written.is_err();
        written
    }

    fn flush(&mut self) -> io::Result<()> {
        let flushed = self.inner.flush();
        self.failed = flushed.is_err();
        flushed
    }
}
