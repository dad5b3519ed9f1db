//! Spin locks in values of maps and arrays.

ghost use Rattle.std.specs.Prelude.{◌≡◌, ◌<◌, true, List};
ghost use Rattle.bpf_base.specs.declared.atomic.Change as change;
ghost use Rattle.bpf_shared.specs.declared.events.Event.{Event};
ghost use Rattle.bpf_shared.specs.Chain.{Chain};
ghost use Rattle.bpf_helpers.specs.Held.{AreHeld, KeepsRun};
ghost use Rattle.bpf_cpu.specs.Helping.{FreesLock, TakesLock};
ghost use Rattle.bpf_cpu.specs.Private.Execute.{progress_of};

use crate::cpu::Cpu;
use crate::outcome::Next;
use bpf_base::Change;
use bpf_insn::Size;
use bpf_shared::Shared;

/// What a free lock holds, and what a taken one does.
const FREE: u64 = 0;

const TAKEN: u64 = 1;

impl Cpu {
    /// Tries to take the lock at R1. Where somebody has it nothing is changed, so the next step tries
    /// again.
    pub(crate) fn take_lock<S: Shared>(&mut self, shared: &mut S) -> Next
        requires short { self.old.pc < 65536 }
        requires serves { S.serves shared.old self.old.number ≡ true }
        requires in_run { S.running shared.old self.old.number ≡ true }
        requires held { AreHeld (S.held shared.old self.old.number) self.old.held }
        ensures lock { (events : List Event) ×
            Chain S.passes S.serves self.old.number shared.old shared.new events ×
            TakesLock (S.shapes shared.old) self.old events (progress_of result self.new) self.new }
        ensures number { self.new.number ≡ self.old.number }
        ensures held { AreHeld (S.held shared.new self.old.number) self.new.held }
        ensures keeps { KeepsRun S.shapes S.running S.held self.old.number shared.old shared.new }
    {
        let lock = self.registers[1];
        match self.place_to_write(shared, lock, Size::Word) {
            Ok(place) => {
                let size = bpf_shared::Size::Word;
                let change = Change::CompareExchange;
                let found = shared.value_atomic(self.number, place, size, change, TAKEN, FREE);
                if found == FREE {
                    self.return_from_helper(0);
                }
                Next::On
            }
            Err(next) => next,
        }
    }

    /// Frees the lock at R1, whoever has it.
    pub(crate) fn free_lock<S: Shared>(&mut self, shared: &mut S) -> Next
        requires short { self.old.pc < 65536 }
        requires serves { S.serves shared.old self.old.number ≡ true }
        requires in_run { S.running shared.old self.old.number ≡ true }
        requires held { AreHeld (S.held shared.old self.old.number) self.old.held }
        ensures free { (events : List Event) ×
            Chain S.passes S.serves self.old.number shared.old shared.new events ×
            FreesLock (S.shapes shared.old) self.old events (progress_of result self.new) self.new }
        ensures number { self.new.number ≡ self.old.number }
        ensures held { AreHeld (S.held shared.new self.old.number) self.new.held }
        ensures keeps { KeepsRun S.shapes S.running S.held self.old.number shared.old shared.new }
    {
        let taken = self.registers[1];
        match self.place_to_write(shared, taken, Size::Word) {
            Ok(place) => {
                let size = bpf_shared::Size::Word;
                shared.value_atomic(self.number, place, size, Change::Exchange, FREE, 0);
                self.return_from_helper(0);
                Next::On
            }
            Err(next) => next,
        }
    }
}
