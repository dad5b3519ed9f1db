//! Instructions to bytes.

ghost use Rattle.std.specs.Prelude.{◌≡◌, ◌++◌, OnOk, IfOk, IfErr};
ghost use Rattle.bpf_insn.specs.declared.error.InsnError.TheVariants as error;
ghost use Rattle.bpf_insn.specs.Encoding.{IsEncodedAs};
ghost use Rattle.bpf_insn.specs.Private.Bytes.{insn_bytes, IsWritable};

use crate::error::InsnError;
use crate::instruction::Insn;
use std::alloc::{AllocError, Global};

/// Adds the bytes of an instruction: the words that its row spells.
fn push(bytes: &mut Vec<u8>, insn: Insn) -> Result<(), AllocError>
    ensures ok { OnOk result (bytes.new.items ≡ bytes.old.items ++ insn_bytes insn) }
    ensures writable { IsWritable insn }
{
    let row = insn.row();
    let first = row.first_word().to_bytes();
    let second = row.encoding.second_word();
    bytes.extend_from_slice(&first)?;
    if let Some(second) = second {
        bytes.extend_from_slice(&second.to_bytes())?;
    }
    Ok(())
}

/// The bytes of the instructions, 8 bytes a word (RFC 9669, section 3). Any list has an encoding,
/// also one that is longer than `decode` reads.
pub fn encode(alloc: Global, insns: &[Insn]) -> Result<Vec<u8>, InsnError>
    // What is answered encodes the instructions.
    ensures encoded { IfOk result (λ v. IsEncodedAs insns.now v.items) }

    // Nothing is refused but memory.
    ensures memory { IfErr result (λ e. e ≡ error.OutOfMemory) }
{
    let mut bytes = Vec::new(alloc);
    for insn in insns {
        push(&mut bytes, *insn).map_err(|_| InsnError::OutOfMemory)?;
    }
    Ok(bytes)
}
