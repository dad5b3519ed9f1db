//! Schedules that are given in run lengths.

use super::{Machine, Turn};

impl Machine {
    ghost use Rattle.std.specs.Prelude.{replicate};
    ghost use Rattle.bpf_machine.specs.Schedule.{World, RunsSchedule, unrolled};
    ghost use Rattle.bpf_machine.specs.Machine.{Shows};
    ghost use Rattle.bpf_machine.specs.Parts.{IsSameHost};

    /// This many turns of a CPU. Those after an idle one are idle too, and aren't made.
    fn repeat(&mut self, cpu: u8, turns: u64)
        ensures runs { (w : World) → Shows self.old w
            → (z : World) × RunsSchedule w (replicate turns cpu) z × Shows self.new z }
        ensures same { IsSameHost self.old self.new }
    {
        for _ in 0..turns {
            if let Turn::Idle = self.turn(cpu) {
                break;
            }
        }
    }

    /// The turns of a schedule that is given by CPUs, each with how many turns it takes before the
    /// next.
    pub fn turns_by(&mut self, runs: &[(u8, u64)])
        ensures runs { (w : World) → Shows self.old w
            → (z : World) × RunsSchedule w (unrolled runs.now) z × Shows self.new z }
        ensures same { IsSameHost self.old self.new }
    {
        for (cpu, turns) in runs {
            self.repeat(*cpu, *turns);
        }
    }
}
