//! How a CPU stood before the last of its turns of a kind, among turns that are made again.

ghost use Rattle.std.specs.Prelude.{◌≡◌, ◌+◌, ◌≤◌, ◌++◌, List, None, Option, length, replicate, string_bytes, string_capacity, string_len, ℕ};
ghost use Rattle.bpf_cpu.specs.Task.{Task};
ghost use Rattle.bpf_machine.specs.Machine.{Shows};
ghost use Rattle.bpf_machine.specs.Parts.{IsSameHost};
ghost use Rattle.bpf_machine.specs.Schedule.{World, TakesTurn, unrolled};
ghost use Rattle.bpf_debug.specs.Recall.{IsLastText, IsRecall, IsStand, IsStandText, Past, Recalls, is_of, past_after};

use crate::lines::{put_ended, put_idle, put_place, put_values, put_waiting, put_where};
use bpf_cpu::Cpu;
use bpf_machine::{Machine, Standing, Turn};

/// A kind of turns.
#[derive(Clone, Copy, PartialEq, Eq, Debug)]
pub enum Kind {
    /// Those that end a job.
    Ends,
    /// Those of a CPU with work.
    Works,
}

/// What is kept of a CPU that has a job in hand.
#[derive(Clone, Copy)]
pub struct Hand {
    pub job: usize,
    pub pc: u32,
    pub depth: usize,
    pub registers: [u64; 11],
}

/// How a CPU stood.
#[derive(Clone, Copy)]
pub enum Stand {
    InHand(Hand),
    Waiting(usize),
    Idle,
}

/// How a CPU stood before a turn, and what the turn came to.
#[derive(Clone, Copy)]
pub struct Recall {
    pub stand: Stand,
    pub turn: Turn,
}

/// Whether a turn is of a kind.
pub fn is_of(kind: Kind, turn: Turn) -> bool
    ensures { result ≡ is_of kind turn }
{
    match (kind, turn) {
        (_, Turn::Ended(..)) => true,
        (_, Turn::Idle) => false,
        (Kind::Ends, Turn::Ran) => false,
        (Kind::Works, Turn::Ran) => true,
    }
}

/// What is kept of a state.
pub fn hand_of(job: usize, state: &Cpu) -> Hand
    ensures job { result.job ≡ job }
    ensures pc { result.pc ≡ state.now.pc }
    ensures depth { result.depth ≡ length state.now.memory.frames.live }
    ensures registers { result.registers ≡ state.now.registers }
{
    Hand {
        job,
        pc: state.pc,
        depth: state.memory.frames.depth(),
        registers: state.registers,
    }
}

/// How a CPU is.
fn stand_of(machine: &Machine, cpu: u8) -> Stand
    ensures { IsStand machine.now.jobs cpu result }
{
    match machine.standing(cpu) {
        Standing::InHand(job, state) => Stand::InHand(hand_of(job, state)),
        Standing::Waiting(job) => Stand::Waiting(job),
        Standing::Idle => Stand::Idle,
    }
}

/// One turn, and the last of this CPU's turns of a kind after it.
fn recall_turn(
    machine: &mut Machine,
    turns_of: u8,
    cpu: u8,
    kind: Kind,
    recall: Option<Recall>,
) -> Option<Recall>
    ensures made { (answer : Turn)
        × ((w : World) → Shows machine.old w → (z : World) × TakesTurn w turns_of answer z
        × Shows machine.new z × ((old : Option Past) → IsRecall cpu recall old
        → IsRecall cpu result (past_after kind cpu w turns_of answer old))) }
    ensures same { IsSameHost machine.old machine.new }
{
    if turns_of != cpu {
        machine.turn(turns_of);
        return recall;
    }
    let stand = stand_of(machine, cpu);
    let turn = machine.turn(cpu);
    if is_of(kind, turn) {
        Some(Recall { stand, turn })
    } else {
        recall
    }
}

/// This many turns of a CPU, in the same way.
fn recall_turns(
    machine: &mut Machine,
    turns_of: u8,
    count: u64,
    cpu: u8,
    kind: Kind,
    recall: Option<Recall>,
) -> Option<Recall>
    ensures made { (w : World) → Shows machine.old w → (old : Option Past) → IsRecall cpu recall old
        → (z : World) × (new : Option Past)
        × Recalls kind cpu w old (replicate count turns_of) new z × Shows machine.new z
        × IsRecall cpu result new }
    ensures same { IsSameHost machine.old machine.new }
{
    let mut last = recall;
    for _ in 0..count {
        last = recall_turn(machine, turns_of, cpu, kind, last);
    }
    last
}

/// The turns of a schedule, in the same way.
pub fn recall_runs(machine: &mut Machine, runs: &[(u8, u64)], cpu: u8, kind: Kind) -> Option<Recall>
    ensures made { (w : World) → Shows machine.old w → (z : World) × (new : Option Past)
        × Recalls kind cpu w None (unrolled runs.now) new z × Shows machine.new z
        × IsRecall cpu result new }
    ensures same { IsSameHost machine.old machine.new }
{
    let mut last = None;
    for run in runs {
        last = recall_turns(machine, run.0, run.1, cpu, kind, last);
    }
    last
}

/// Puts where a CPU stood, and its registers, if it had a job in hand.
pub fn put_stand(out: &mut String, cpu: u8, stand: Stand)
    requires { string_len out.old + 832 ≤ string_capacity out.old }
    ensures { (jobs : List Task) → IsStand jobs cpu stand → (text : List ℕ)
        × IsStandText jobs cpu text × (string_bytes out.new ≡ string_bytes out.old ++ text) }
{
    match stand {
        Stand::InHand(hand) => {
            put_place(out, cpu, hand.job, hand.pc, hand.depth);
            put_values(out, &hand.registers);
        }
        Stand::Waiting(job) => put_waiting(out, cpu, job),
        Stand::Idle => put_idle(out, cpu),
    }
}

/// Puts the line of the job that a turn of a CPU ended, and how the CPU stood before it; where it
/// is, if there is no such turn.
pub fn put_last(out: &mut String, machine: &Machine, cpu: u8, recall: Option<Recall>)
    requires { string_len out.old + 960 ≤ string_capacity out.old }
    ensures { (past : Option Past) → IsRecall cpu recall past → (text : List ℕ)
        × IsLastText cpu past machine.now.jobs text
        × (string_bytes out.new ≡ string_bytes out.old ++ text) }
{
    match recall {
        Some(kept) => {
            put_ended(out, cpu, kept.turn);
            put_stand(out, cpu, kept.stand);
        }
        None => put_where(out, machine, cpu),
    }
}
