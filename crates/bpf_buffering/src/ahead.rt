//! Steps of a job in hand that no other CPU sees: those in its CPU's own registers and memory, and plain
//! stores to values, which wait in the CPU's own buffer. They can be made before all moves up to them.

ghost use Rattle.std.specs.Prelude.{◌≡◌, ◌<◌, true};
ghost use Rattle.bpf_plain.specs.PlainStore.{is_running, held_spans, shape_of};
ghost use Rattle.bpf_helpers.specs.Held.{AreHeld, KeepsRun};
ghost use Rattle.bpf_cpu.specs.Step.{IsReady};
ghost use Rattle.bpf_machine.specs.Kept.{kept_stage};
ghost use Rattle.bpf_buffering.specs.Waiting.{serves_one};
ghost use Rattle.bpf_buffering.specs.Going.{CanGoOn, GoesAhead, GoesAheadOver, IsPlainStore, LeavesOthers, TriesStore};

use crate::jobs::Listed;
use crate::waiting::Waiting;
use bpf_cpu::{Cpu, Progress};
use bpf_insn::Insn;
use bpf_loader::Program;
use bpf_machine::KeptStage;

/// Whether it is a plain store.
fn is_plain_store(insn: &Insn) -> bool
    ensures { result ≡ true → IsPlainStore insn.now }
{
    match insn {
        Insn::Store { .. } => true,
        Insn::StoreImmediate { .. } => true,
        _ => false,
    }
}

/// Makes the next step if it is that of a plain store which isn't a fault, and there is room for it.
/// Whether it is made.
fn try_store(state: &mut Cpu, program: &Program, here: &mut Waiting) -> bool
    requires ready { IsReady program.now state.old }
    requires serves { serves_one here.old state.old.number ≡ true }
    requires in_run { is_running here.old.store state.old.number ≡ true }
    requires held { AreHeld (held_spans here.old.store state.old.number) state.old.held }
    ensures tries { TriesStore program.now here.old state.old result here.new state.new }
    ensures ready { IsReady program.now state.new }
    ensures number { state.new.number ≡ state.old.number }
    ensures held { AreHeld (held_spans here.new.store state.old.number) state.new.held }
    ensures keeps { KeepsRun (λ w. shape_of w.store) (λ w. is_running w.store)
        (λ w. held_spans w.store) state.old.number here.old here.new }
{
    bpf_loader::laws::one_instruction_begins();
    if !here.has_room() {
        return false;
    }
    if !is_plain_store(program.instruction_at(state.pc)) {
        return false;
    }
    match state.step(program, here) {
        Progress::On => true,
        Progress::Done(_) => false,
    }
}

/// Makes steps in the CPU's own registers and memory, and after them a plain store if that is next, has
/// room, and leaves the budget a step. Whether such a store is made.
fn go_to_store(state: &mut Cpu, left: &mut u64, program: &Program, here: &mut Waiting) -> bool
    requires ready { IsReady program.now state.old }
    requires serves { serves_one here.old state.old.number ≡ true }
    requires in_run { is_running here.old.store state.old.number ≡ true }
    requires held { AreHeld (held_spans here.old.store state.old.number) state.old.held }
    ensures ahead { GoesAhead program.now here.old state.old left.old here.new state.new left.new }
    ensures falls { result ≡ true → left.new < left.old }
    ensures ready { IsReady program.now state.new }
    ensures number { state.new.number ≡ state.old.number }
    ensures held { AreHeld (held_spans here.new.store state.old.number) state.new.held }
    ensures keeps { KeepsRun (λ w. shape_of w.store) (λ w. is_running w.store)
        (λ w. held_spans w.store) state.old.number here.old here.new }
{
    if *left < 2 {
        return false;
    }
    *left -= state.make_quiet_steps(program, *left - 1);
    if *left < 2 {
        return false;
    }
    if !try_store(state, program, here) {
        return false;
    }
    *left -= 1;
    true
}

/// Makes steps that no other CPU sees, as long as the job stays in hand.
fn go_ahead(state: &mut Cpu, left: &mut u64, program: &Program, here: &mut Waiting)
    requires ready { IsReady program.now state.old }
    requires serves { serves_one here.old state.old.number ≡ true }
    requires in_run { is_running here.old.store state.old.number ≡ true }
    requires held { AreHeld (held_spans here.old.store state.old.number) state.old.held }
    ensures ahead { GoesAhead program.now here.old state.old left.old here.new state.new left.new }
    ensures ready { IsReady program.now state.new }
    ensures number { state.new.number ≡ state.old.number }
    ensures held { AreHeld (held_spans here.new.store state.old.number) state.new.held }
    ensures keeps { KeepsRun (λ w. shape_of w.store) (λ w. is_running w.store)
        (λ w. held_spans w.store) state.old.number here.old here.new }
{
    while go_to_store(state, left, program, here) {}
}

impl Listed {
    /// Makes steps that no other CPU sees, as long as the job stays in hand. How many.
    pub(crate) fn go_ahead(&mut self, program: &Program, here: &mut Waiting) -> u64
        requires { CanGoOn program.now here.old (kept_stage self.old.stage) }
        ensures ahead { GoesAheadOver program.now here.old (kept_stage self.old.stage) result
            here.new (kept_stage self.new.stage) }
        ensures fits { CanGoOn program.now here.new (kept_stage self.new.stage) }
        ensures others { LeavesOthers here.old.cpu here.old.store here.new.store }
        ensures cpu { here.new.cpu ≡ here.old.cpu }
        ensures same { self.new ≡ record self.old { stage = self.new.stage } }
    {
        let KeptStage::InHand(state, left) = &mut self.stage else {
            unreachable!()
        };
        let budget = *left;
        go_ahead(state, left, program, here);
        budget - *left
    }
}
