//! A job with all that its run needs, so that no memory is asked for while it runs.

ghost use Rattle.std.specs.Prelude.{◌≡◌, false, length, List, true};
ghost use Rattle.bpf_shared.specs.declared.events.Event.{Event};
ghost use Rattle.bpf_shared.specs.Chain.{Chain};
ghost use Rattle.bpf_helpers.specs.Held.{KeepsRun};
ghost use Rattle.bpf_sched.specs.Working.{IsNew, Runs};

use bpf_cpu::{Cpu, Outcome};
use bpf_loader::Program;
use bpf_shared::Shared;

/// A job that is to be run once.
#[derive(Drop)]
pub struct Assignment {
    /// The state in which it begins.
    pub cpu: Cpu,
    /// The program's place in the list of programs.
    pub program: usize,
    /// How many steps it makes at most.
    pub budget: u64,
    /// How it ended; before it was run, that no step was made.
    pub outcome: Outcome,
}

impl Assignment {
    /// Runs the job, and keeps how it ended beside what it was given.
    pub fn run<S: Shared>(&mut self, programs: &[Program], shared: &mut S)
        requires new { IsNew self.old.cpu.number (length programs.now) self.old }
        requires serves { S.serves shared.old self.old.cpu.number ≡ true }
        requires idle { S.running shared.old self.old.cpu.number ≡ false }
        ensures runs { (events : List Event) ×
            Runs (Chain S.passes S.serves self.old.cpu.number)
            (λ x. S.may_wear x self.old.cpu.number) (S.shapes shared.old) programs.now shared.old
            self.old self.new events shared.new }
        ensures given { (self.new.program ≡ self.old.program)
            × (self.new.budget ≡ self.old.budget) }
        ensures keeps { KeepsRun S.shapes S.running S.held self.old.cpu.number shared.old
            shared.new }
    {
        let program = &programs[self.program];
        self.outcome = self.cpu.run(program, shared, self.budget);
    }
}
