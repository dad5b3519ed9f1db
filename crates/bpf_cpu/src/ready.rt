//! Whether a program may be stepped from a state.

ghost use Rattle.std.specs.Prelude.{◌≡◌, ◌↔◌, All, IsTrue};
ghost use Rattle.bpf_mem.specs.Stack.{IsStack};
ghost use Rattle.bpf_loader.specs.Places.{IsStart};
ghost use Rattle.bpf_cpu.specs.State.{HasTop};
ghost use Rattle.bpf_cpu.specs.Step.{IsReady};

use crate::kept::KeptCpu;
use bpf_loader::Program;
use bpf_mem::Caller;

/// Each caller goes on at an instruction of the program.
fn return_to_starts(program: &Program, callers: &[Caller]) -> bool
    ensures { IsTrue result ↔ All (λ caller. IsStart program.now.instructions caller.return_pc)
        callers.now }
{
    for caller in callers {
        if !program.is_start(caller.return_pc) {
            return false;
        }
    }
    true
}

impl KeptCpu {
    /// The CPU is at an instruction of the program.
    fn is_at_start(&self, program: &Program) -> bool
        ensures { IsTrue result ↔ IsStart program.now.instructions self.now.pc }
    {
        program.is_start(self.pc())
    }

    /// Each caller goes on at one.
    fn callers_are_at_starts(&self, program: &Program) -> bool
        ensures { IsTrue result ↔ All (λ caller. IsStart program.now.instructions caller.return_pc)
            self.now.memory.frames.callers }
    {
        return_to_starts(program, self.frames().callers())
    }

    /// Each frame but the oldest has its caller: says so, and does nothing.
    fn has_stack(&self)
        ensures { IsStack self.now.memory.frames }
    {
        let _ = self.frames().depth();
    }

    /// R10 holds the end of the newest frame.
    fn has_top(&self) -> bool
        ensures { IsTrue result ↔ HasTop self.now }
    {
        self.registers()[10] == self.frames().top()
    }

    /// A program may be stepped from this state: the CPU is at one of its instructions, and so
    /// on.
    pub fn is_ready(&self, program: &Program) -> bool
        ensures { IsTrue result ↔ IsReady program.now self.now }
    {
        self.has_stack();
        self.is_at_start(program) && self.callers_are_at_starts(program) && self.has_top()
    }
}
