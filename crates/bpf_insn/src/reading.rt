//! One instruction from its words.

ghost use Rattle.bpf_insn.specs.Private.Bytes.{IsNarrow};
ghost use Rattle.bpf_insn.specs.Private.Reading.{IsReadAs};

use crate::candidate::candidate;
use crate::fault::Fault;
use crate::instruction::Insn;
use crate::word::Window;

/// The instruction at the front of a window, or the first thing that is wrong there: the row that
/// the word can be of is found, and its fields are checked against it.
pub fn instruction(window: &Window) -> Result<Insn, Fault>
    requires { IsNarrow window.now.word }
    ensures { IsReadAs window.now result }
{
    let Some(insn) = candidate(window) else {
        return Err(Fault::UnknownOpcode);
    };
    match insn.row().check(window) {
        Ok(()) => Ok(insn),
        Err(fault) => Err(fault),
    }
}
