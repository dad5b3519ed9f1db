//! A whole job on a CPU of the concurrent store.
ghost use Rattle.std.specs.Prelude.{◌≡◌, false};
ghost use Rattle.bpf_cpu.specs.State.{start};
ghost use Rattle.hop_map.specs.Port.{runs};
ghost use Rattle.hop_cpu.specs.Running.{RanJob};

use crate::cpu::HopCpu;
use bpf_cpu::{Cpu, Input, Outcome};
use bpf_loader::Program;
use std::sync::Wait;

impl<R: Wait> HopCpu<'_, R> {
    /// Runs a job that is about to begin, beside whatever the store's other CPUs do: a run in which
    /// at most `budget` steps are made. Fault F6 where the run can't begin.
    pub fn run(&mut self, cpu: &mut Cpu, program: &Program, budget: u64) -> Outcome
        requires fresh { (input : Input) × (cpu.old ≡ start cpu.old.number input) }
        requires own { cpu.old.number ≡ self.old.port.known.cpu }
        requires idle { runs self.old.port ≡ false }
        ensures ran { RanJob self.old self.new program.now budget cpu.old result }
        ensures idle { runs self.new.port ≡ false }
        ensures number { cpu.new.number ≡ cpu.old.number }
    {
        let outcome = cpu.run(program, self, budget);
        let _port = &self.port;
        outcome
    }
}
