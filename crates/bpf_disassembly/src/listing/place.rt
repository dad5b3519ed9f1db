//! The place of an instruction, as a comment after its line.

ghost use Rattle.std.specs.Prelude.{◌≡◌, ◌++◌, IsOkUnless, OnOk, string_bytes};
ghost use Rattle.bpf_disassembly.specs.Listing.Program.{place_comment};

use bpf_lines::to_hex;
use bpf_text::TextError;
use std::alloc::Global;

/// Appends a pc and its words to the text. Fails by `OutOfMemory` alone.
pub fn push_place(
    alloc: Global,
    text: &mut String,
    pc: usize,
    bytes: &[u8],
) -> Result<(), TextError>
    ensures place { OnOk result (string_bytes text.new
        ≡ string_bytes text.old ++ place_comment pc bytes.now) }
    ensures memory { IsOkUnless result TextError.OutOfMemory }
{
    let digits = to_hex(alloc, bytes)?;
    write!(text, " ; {pc}: {digits}").map_err(|_| TextError::OutOfMemory)
}
