//! Instructions from bytes.

ghost use Rattle.std.specs.Prelude.{◌≤◌, ◌*◌, ◌+◌, List, length, IfOk, IfErr};
ghost use Rattle.bpf_insn.specs.declared.instruction.Insn.{Insn};
ghost use Rattle.bpf_insn.specs.Encoding.{IsEncodedAs};
ghost use Rattle.bpf_insn.specs.Refusal.{IsSized, IsRefused, IsAnswered};
ghost use Rattle.bpf_insn.specs.Private.Reading.{IsReadAt};

use crate::error::InsnError;
use crate::instruction::Insn;
use crate::reading;
use crate::word::Window;
use std::alloc::Global;

/// How many words there may be (our own choice).
const MAX_WORDS: usize = 65536;

/// The instruction at word `pc`, or what is wrong there.
fn instruction_at(bytes: &[u8], pc: u32) -> Result<Insn, InsnError>
    requires { 8 * pc + 8 ≤ length bytes.now }
    ensures { IsReadAt bytes.now pc result }
{
    let window = Window::from_bytes(&bytes[8 * pc as usize..]);
    match reading::instruction(&window) {
        Ok(insn) => Ok(insn),
        Err(fault) => Err(fault.at(pc)),
    }
}

/// The instructions in bytes whose length is right.
fn decode_words(alloc: Global, bytes: &[u8]) -> Result<Vec<Insn>, InsnError>
    requires { IsSized bytes.now }
    ensures found { IfOk result (λ v. IsEncodedAs v.items bytes.now) }
    ensures only { (is : List Insn) → IsEncodedAs is bytes.now →
        IsAnswered (λ v. v.items) result is }
    ensures refused { IfErr result (λ e. IsRefused e bytes.now) }
{
    let count = (bytes.len() / 8) as u32;
    let mut insns = Vec::new(alloc);
    let mut pc = 0;
    while pc < count {
        let insn = instruction_at(bytes, pc)?;
        insns.push(insn).map_err(|_| InsnError::OutOfMemory)?;
        pc += insn.words();
    }
    Ok(insns)
}

/// The instructions that the bytes encode, 8 bytes a word, the lowest byte of a number first (RFC
/// 9669, section 3).
pub fn decode(alloc: Global, bytes: &[u8]) -> Result<Vec<Insn>, InsnError>
    // What is answered is what the bytes encode.
    ensures found { IfOk result (λ v. IsSized bytes.now × IsEncodedAs v.items bytes.now) }

    // Instructions that the bytes encode are answered, and no others, unless memory is refused.
    ensures only { (is : List Insn) → IsSized bytes.now → IsEncodedAs is bytes.now →
        IsAnswered (λ v. v.items) result is }

    // A refusal is the first in order: of the length, or else at the lowest pc the lowest number.
    ensures refused { IfErr result (λ e. IsRefused e bytes.now) }
{
    if bytes.is_empty() {
        return Err(InsnError::Empty);
    }
    if bytes.len() % 8 != 0 {
        return Err(InsnError::Ragged(bytes.len()));
    }
    if bytes.len() / 8 > MAX_WORDS {
        return Err(InsnError::TooLong);
    }
    decode_words(alloc, bytes)
}
