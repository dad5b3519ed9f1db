//! The listing of a program that is given by its words.

ghost use Rattle.std.specs.Prelude.{◌≡◌, ◌++◌, ◌*◌, ◌+◌, ◌<◌, codes, IfOk, IsOkUnless, OnOk, string_bytes};
ghost use Rattle.bpf_insn.specs.Encoding.{IsEncodedAs};
ghost use Rattle.bpf_text.specs.Form.{line_of};
ghost use Rattle.bpf_disassembly.specs.Listing.Program.{place_comment, program_lines};

use crate::disassemble;
use crate::listing::place::push_place;
use bpf_insn::Insn;
use bpf_text::TextError;
use std::alloc::Global;

/// The canonical line of an instruction, without its line end. Fails by `OutOfMemory` alone.
#[tactic(auto, using(crate::proofs::Ends::before_end, crate::proofs::Ends::cut_end))]
fn insn_line(alloc: Global, insn: Insn) -> Result<String, TextError>
    ensures line { IfOk result (λ text. string_bytes text ≡ line_of insn) }
    ensures memory { IsOkUnless result TextError.OutOfMemory }
{
    let mut line = disassemble(alloc, &[insn])?;
    let len = line.len().saturating_sub(1);
    line.truncate(len);
    Ok(line)
}

/// Appends a line to the text: the instruction, its pc and its words.
fn push_line(
    alloc: Global,
    text: &mut String,
    pc: usize,
    bytes: &[u8],
    insn: Insn,
) -> Result<(), TextError>
    ensures line { OnOk result (string_bytes text.new
        ≡ string_bytes text.old ++ (line_of insn ++ (place_comment pc bytes.now ++ codes "\n"))) }
    ensures memory { IsOkUnless result TextError.OutOfMemory }
{
    let line = insn_line(alloc, insn)?;
    text.push_str(line.as_str())?;
    push_place(alloc, text, pc, bytes)?;
    text.push('\n')?;
    Ok(())
}

/// A program's canonical lines, each with its pc and its words after it. Fails by `OutOfMemory`
/// alone.
pub fn program_lines(alloc: Global, bytes: &[u8], program: &[Insn]) -> Result<String, TextError>
    requires { IsEncodedAs program.now bytes.now }
    ensures listed { IfOk result (λ text.
        string_bytes text ≡ program_lines 0 bytes.now program.now) }
    ensures memory { IsOkUnless result TextError.OutOfMemory }
{
    let mut text = String::new(alloc);
    let mut rest = program;
    let mut left = bytes;
    let mut pc: usize = 0;
    while let [insn, behind @ ..] = rest {
        let words = insn.words() as usize;
        push_line(alloc, &mut text, pc, &left[..8 * words], *insn)?;
        left = &left[8 * words..];
        pc += words;
        rest = behind;
    }
    Ok(text)
}
