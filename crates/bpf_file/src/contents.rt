//! What an array has at first, as lines say it.

ghost use Rattle.std.specs.Prelude.{◌≡◌, ◌+◌, ◌<◌, ◌^◌, length, OnOk, IsOkUnless};
ghost use Rattle.bpf_file.specs.Contents.{laid};

use crate::error::FileError;

/// Puts these bytes at an offset, and zeros before them as far as nothing is there.
pub fn put(first: &mut Vec<u8>, at: usize, bytes: &[u8]) -> Result<(), FileError>
    requires { at + length bytes.now < 2 ^ 64 }
    ensures ok { OnOk result (first.new.items ≡ laid first.old.items at bytes.now) }
    ensures memory { IsOkUnless result FileError.OutOfMemory }
{
    let end = at + bytes.len();
    if first.len() < end {
        first.resize(end, 0).map_err(|_| FileError::OutOfMemory)?;
    }
    first[at..end].copy_from_slice(bytes);
    Ok(())
}
