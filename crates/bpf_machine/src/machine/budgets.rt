//! Budgets of jobs in hand, for searches that pass over how many steps are left of them.

ghost use Rattle.std.specs.Prelude.{◌≡◌, max};

use super::{Machine, Work};
use crate::machine::lane::Hand;

impl Hand {
    /// Has a whole budget left, or more where it had.
    fn refill(&mut self, budget: u64)
        ensures { self.new ≡ record self.old { left = max self.old.left budget } }
    {
        self.left = self.left.max(budget);
    }
}

impl Machine {
    ghost use Rattle.bpf_machine.specs.Work.{HasInHand};
    ghost use Rattle.bpf_machine.specs.Patient.{Refills, IsRefilled};
    ghost use Rattle.bpf_machine.specs.Parts.{IsSameHost};

    /// Gives a CPU's job in hand its whole budget back.
    fn refill_job(&mut self, cpu: u8, job: usize)
        requires { HasInHand self.old.jobs cpu job }
        ensures refills { Refills self.old cpu job self.new }
        ensures same { IsSameHost self.old self.new }
    {
        let lane = &mut self.lanes[cpu as usize];
        let Some(hand) = &mut lane.hand else {
            unreachable!()
        };
        let listed = &self.jobs[job];
        hand.refill(listed.budget);
    }

    /// Gives the job that a CPU has in hand, if it has one, its whole budget back.
    pub fn refill(&mut self, cpu: u8)
        ensures refills { IsRefilled self.old cpu self.new }
        ensures same { IsSameHost self.old self.new }
    {
        if let Work::InHand(job) = self.work(cpu) {
            self.refill_job(cpu, job);
        }
    }
}
