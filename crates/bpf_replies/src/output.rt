//! Output.

ghost use Rattle.std.specs.Prelude.{◌≡◌, ℕ, false, is_err, OnErr, OnOk, take};
ghost use Rattle.std.specs.Io.KnownBytes.{Appends};

use crate::stream::Sink;
use std::io;

/// Writes all bytes. What went out before a failed write is a beginning of the bytes.
pub fn write_whole<W: Sink>(sink: &mut W, bytes: &[u8]) -> io::Result<()>
    requires { W.has_failed sink.old ≡ false }
    ensures written { OnOk result (Appends (W.contents sink.old) (W.contents sink.new) bytes.now) }
    ensures begun { OnErr result ((k : ℕ)
        × Appends (W.contents sink.old) (W.contents sink.new) (take k bytes.now)) }
    ensures told { W.has_failed sink.new ≡ is_err result }
{
    let mut count = 0;
    while count < bytes.len() {
        count += sink.write(&bytes[count..])?;
    }
    sink.flush()
}
