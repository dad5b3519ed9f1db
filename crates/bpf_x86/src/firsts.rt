//! What the laws ask of programs: it is so of each one in memory.

ghost use Rattle.bpf_insn.specs.Encoding.{Fits};
ghost use Rattle.bpf_x86.specs.Laws.{FirstFits, FirstsFit};

use bpf_insn::Insn;
use bpf_loader::Program;

/// The numbers of an instruction fit their types: says so, and does nothing.
fn fits(insn: Insn)
    ensures { Fits insn }
{
    let _ = insn;
}

/// Those of a program's first instruction do.
fn first_fits(program: &Program)
    ensures { FirstFits program.now }
{
    bpf_loader::laws::one_instruction_begins();
    program.starts();
    fits(*program.instruction_at(0));
}

/// Those of each program's first instruction do.
pub fn firsts_fit(programs: &[Program])
    ensures { FirstsFit programs.now }
{
    for program in programs {
        first_fits(program);
    }
}
