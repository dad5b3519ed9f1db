//! The loop in which a job was when its budget was used up.

use bpf_cpu::{Cpu, Input, Outcome};
use bpf_machine::{Machine, Standing, Turn};
use std::alloc::{AllocError, Global};

/// How many steps are looked back.
const STEPS: usize = 64;

const REGISTERS: usize = 11;

/// A step: where it was made, and which registers the one before it had changed.
#[derive(Clone, Copy)]
struct Step {
    pc: u32,
    changed: [bool; REGISTERS],
}

/// The last steps of a CPU's job in hand. As long as there are fewer than `STEPS` they are at the
/// front, in their order.
#[derive(Clone, Copy)]
struct Trail {
    steps: [Step; STEPS],
    count: usize,
    next: usize,
    /// What the registers held before the last step.
    registers: [u64; REGISTERS],
}

/// Of a CPU that made no step.
const NOWHERE: Trail = Trail {
    steps: [Step {
        pc: 0,
        changed: [false; REGISTERS],
    }; STEPS],
    count: 0,
    next: 0,
    registers: [0; REGISTERS],
};

/// The last steps of a job that ended out of budget.
#[derive(Drop)]
pub struct Loop {
    pub job: usize,
    /// How many steps these are.
    steps: usize,
    /// Where they were made, each place once, in rising order.
    pcs: Vec<u32>,
    changed: [bool; REGISTERS],
}

impl Trail {
    /// A job begins.
    fn clear(&mut self) {
        self.count = 0;
        self.next = 0;
    }

    /// A step is to be made from this state.
    fn note(&mut self, state: &Cpu) {
        let mut changed = [false; REGISTERS];
        if self.count > 0 {
            for register in 0..REGISTERS {
                changed[register] = state.registers[register] != self.registers[register];
            }
        }
        let at = self.next % STEPS;
        self.steps[at] = Step {
            pc: state.pc,
            changed,
        };
        self.next = at + 1;
        self.count = STEPS.min(self.count.saturating_add(1));
        self.registers = state.registers;
    }

    /// These steps, of this job.
    fn told(&self, alloc: Global, job: usize) -> Result<Loop, AllocError> {
        let mut pcs = Vec::with_capacity(alloc, STEPS)?;
        let mut changed = [false; REGISTERS];
        for step in self.steps.iter().take(self.count) {
            if !pcs.contains(&step.pc) {
                pcs.push(step.pc)?;
            }
            for register in 0..REGISTERS {
                changed[register] |= step.changed[register];
            }
        }
        pcs.sort_unstable();
        Ok(Loop {
            job,
            steps: self.count,
            pcs,
            changed,
        })
    }
}

/// By CPU, its last steps; and the loops of the jobs that ended out of budget.
#[derive(Drop)]
pub(crate) struct Loops {
    trails: Vec<Trail>,
    pub found: Vec<Loop>,
}

impl Loops {
    pub fn new(alloc: Global, cpus: u8) -> Result<Loops, AllocError> {
        Ok(Loops {
            trails: vec![in alloc; NOWHERE; usize::from(cpus)]?,
            found: Vec::new(alloc),
        })
    }

    /// A CPU is to make its turn.
    pub fn note(&mut self, alloc: Global, machine: &Machine, cpu: u8) {
        let Some(trail) = self.trails.get_mut(usize::from(cpu)) else {
            return;
        };
        match machine.standing(cpu) {
            Standing::InHand(_, state) => trail.note(state),
            Standing::Waiting(_) => {
                trail.clear();
                trail.note(&Cpu::new(cpu, Input::nothing(alloc)));
            }
            Standing::Idle => {}
        }
    }

    /// The turn was made: if it ended a job out of budget, that one's last steps are kept.
    pub fn add(&mut self, alloc: Global, cpu: u8, turn: Turn) -> Result<(), AllocError> {
        let Turn::Ended(job, Outcome::OutOfBudget(_)) = turn else {
            return Ok(());
        };
        if let Some(trail) = self.trails.get(usize::from(cpu)) {
            let found = trail.told(alloc, job)?;
            self.found.push(found)?;
        }
        Ok(())
    }
}

/// Which registers changed in the steps.
fn push_changed(text: &mut String, changed: &[bool; REGISTERS]) -> Result<(), AllocError> {
    let mut head = "  changed in them: ";
    for register in 0..REGISTERS {
        if changed[register] {
            write!(text, "{head}r{register}")?;
            head = ", ";
        }
    }
    if head == ", " {
        text.push('\n')
    } else {
        text.push_str(
            "  changed in them: no register, so the job waits for other CPUs, or for nothing\n",
        )
    }
}

/// What there is to say of a job that ended out of budget: where its last steps were made, and which
/// registers changed in them.
pub fn describe_loop(alloc: Global, found: &Loop) -> Result<String, AllocError> {
    let mut text = String::new(alloc);
    // A budget of no steps ends with a turn that makes none.
    if found.steps < 2 {
        return Ok(text);
    }
    write!(text, "  its last {} steps were at pc", found.steps)?;
    for pc in &found.pcs {
        write!(text, " {pc}")?;
    }
    text.push('\n')?;
    push_changed(&mut text, &found.changed)?;
    if found.pcs.len() == found.steps {
        text.push_str(
            "  hint: none of them was at a place of another, so this may be no loop: give the job a greater budget\n",
        )?;
    }
    Ok(text)
}
