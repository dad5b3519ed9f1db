//! Instructions as canonical text.

ghost use Rattle.std.specs.Prelude.{◌≡◌, [], ◌∷◌, ◌++◌, IfOk, OnOk, IsOkUnless, string_bytes};
ghost use Rattle.bpf_insn.specs.Encoding.{Fits};
ghost use Rattle.bpf_text.specs.Assembly.{Assembles};
ghost use Rattle.bpf_spelling.specs.Form.{canonical, line_of};

use crate::line::Line;
use bpf_insn::Insn;
use bpf_text::TextError;
use std::alloc::Global;

/// Appends an instruction's line to the text.
fn push_line(text: &mut String, insn: Insn) -> Result<(), TextError>
    ensures fits { Fits insn }
    ensures ok { OnOk result (string_bytes text.new ≡ string_bytes text.old
        ++ (line_of insn ++ 10 ∷ [])) }
    ensures memory { IsOkUnless result TextError.OutOfMemory }
{
    writeln!(text, "{}", Line(insn)).map_err(|_| TextError::OutOfMemory)
}

/// The program's canonical text, a line an instruction; `bpf_text::assemble` reads it back.
/// Fails by `OutOfMemory` alone.
pub fn disassemble(alloc: Global, program: &[Insn]) -> Result<String, TextError>
    ensures canonical { IfOk result (λ text. string_bytes text ≡ canonical program.now) }
    ensures reads_back { IfOk result (λ text. Assembles (string_bytes text) (Ok program.now)) }
    ensures memory { IsOkUnless result TextError.OutOfMemory }
{
    let mut text = String::new(alloc);
    for insn in program {
        push_line(&mut text, *insn)?;
    }
    Ok(text)
}
