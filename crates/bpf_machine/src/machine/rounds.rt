//! Rounds of a machine: each CPU with work makes one turn, in rising order, until none has work.

use super::{Machine, Turn, Work};

/// Which CPUs had work in a round.
#[derive(Clone, Copy)]
pub(crate) enum Worked {
    Nobody,
    One(u8),
    More,
}

impl Worked {
    ghost use Rattle.std.specs.Prelude.{◌≡◌};
    ghost use Rattle.bpf_machine.specs.Private.Turns.{with_worked};

    /// These CPUs and one more, which had work.
    fn with(self, cpu: u8) -> Worked
        ensures { result ≡ with_worked self cpu }
    {
        match self {
            Worked::Nobody => Worked::One(cpu),
            _ => Worked::More,
        }
    }
}

impl Machine {
    ghost use Rattle.std.specs.Prelude.{◌≡◌, ◌≢◌, ◌<◌, nat_lt, true, false, Some, ℕ, slice_get};
    ghost use Rattle.bpf_plain.specs.PlainStore.{has_cpu};
    ghost use Rattle.bpf_cpu.specs.Task.{Task};
    ghost use Rattle.bpf_machine.specs.Questions.{turns_left};
    ghost use Rattle.bpf_machine.specs.Schedule.{World};
    ghost use Rattle.bpf_machine.specs.Rounds.{HaveEnded, RunsRound, RunsRounds, RunsToEnd};
    ghost use Rattle.bpf_machine.specs.Machine.{Shows};
    ghost use Rattle.bpf_machine.specs.Private.Turns.{IsAlone};

    /// How many CPUs the store has, and so a number above the CPU of each job.
    pub(crate) fn cpus_of_jobs(&self) -> u8
        ensures cpus { (c : ℕ) → has_cpu self.now.store c ≡ nat_lt c result }
        ensures jobs { (j : ℕ) (task : Task) → slice_get self.now.jobs j ≡ Some task
            → task.cpu < result }
    {
        self.store.cpus()
    }

    /// One round, with the CPUs that had work.
    fn make_round(&mut self) -> Worked
        requires { (w : World) × Shows self.old w }
        ensures runs { (w : World) → Shows self.old w
            → (z : World) × RunsRound w z × Shows self.new z }
        ensures falls { result ≢ Worked.Nobody
            → turns_left self.new.jobs < turns_left self.old.jobs }
        ensures ended { result ≡ Worked.Nobody → HaveEnded self.new.jobs }
        ensures alone { (c : ℕ) → result ≡ Worked.One c → IsAlone self.new.jobs c }
    {
        let mut worked = Worked::Nobody;
        for cpu in 0..self.cpus_of_jobs() {
            match self.turn(cpu) {
                Turn::Idle => {}
                Turn::Ran | Turn::Ended(_, _) => worked = worked.with(cpu),
            }
        }
        worked
    }

    /// One round: each CPU with work makes one turn, in rising order. Whether any had work.
    pub fn round(&mut self) -> bool
        requires { (w : World) × Shows self.old w }
        ensures runs { (w : World) → Shows self.old w
            → (z : World) × RunsRound w z × Shows self.new z }
        ensures falls { result ≡ true → turns_left self.new.jobs < turns_left self.old.jobs }
        ensures ended { result ≡ false → HaveEnded self.new.jobs }
    {
        match self.make_round() {
            Worked::Nobody => false,
            _ => true,
        }
    }

    /// One round, and where one CPU alone had work, those in which its job ends. Whether any had
    /// work.
    fn make_rounds(&mut self) -> bool
        requires { (w : World) × Shows self.old w }
        ensures runs { (w : World) → Shows self.old w
            → (z : World) × ((n : ℕ) × RunsRounds n w z) × Shows self.new z }
        ensures falls { result ≡ true → turns_left self.new.jobs < turns_left self.old.jobs }
        ensures ended { result ≡ false → HaveEnded self.new.jobs }
    {
        match self.make_round() {
            Worked::Nobody => return false,
            Worked::One(cpu) => {
                if let Work::InHand(job) = self.work(cpu) {
                    self.finish(cpu, job);
                }
            }
            Worked::More => self.make_rounds_ahead(),
        }
        true
    }

    /// Rounds until no CPU has work. They end, since each job has a budget.
    pub fn rounds(&mut self)
        requires { (w : World) × Shows self.old w }
        ensures runs { (w : World) → Shows self.old w
            → (z : World) × RunsToEnd w z × Shows self.new z }
        ensures ended { HaveEnded self.new.jobs }
    {
        while self.make_rounds() {}
    }
}
