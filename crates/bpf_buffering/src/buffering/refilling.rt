//! Budgets of jobs in hand, for searches that pass over how many steps are left of them.

ghost use Rattle.std.specs.Prelude.{◌≡◌};
ghost use Rattle.bpf_machine.specs.Parts.{IsSameHost};
ghost use Rattle.bpf_machine.specs.Patient.{Refills, IsRefilled};
ghost use Rattle.bpf_machine.specs.Work.{HasInHand};

use super::Buffering;
use crate::jobs::find_hand;

impl Buffering {
    /// Gives a CPU's job in hand its whole budget back.
    fn refill_job(&mut self, cpu: u8, job: usize)
        requires { HasInHand self.old.machine.jobs cpu job }
        ensures refills { Refills self.old.machine cpu job self.new.machine }
        ensures buffers { self.new.buffers ≡ self.old.buffers }
        ensures host { IsSameHost self.old.machine self.new.machine }
    {
        let _ = cpu;
        self.jobs[job].refill();
    }

    /// Gives the job that a CPU has in hand, if it has one, its whole budget back.
    pub fn refill(&mut self, cpu: u8)
        ensures refills { IsRefilled self.old.machine cpu self.new.machine }
        ensures buffers { self.new.buffers ≡ self.old.buffers }
        ensures host { IsSameHost self.old.machine self.new.machine }
    {
        if let Some(job) = find_hand(&self.jobs, cpu) {
            self.refill_job(cpu, job);
        }
    }
}
