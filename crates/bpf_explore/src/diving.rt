//! Dives: schedules to their ends, for a search that met its limit. What few states show it may find.

ghost use Rattle.std.specs.Prelude.{◌≡◌, ◌∷◌, ◌++◌, IfOk, OnOk, replicate};
ghost use Rattle.bpf_machine.specs.Schedule.{World, RunsSchedule, unrolled};
ghost use Rattle.bpf_machine.specs.Machine.{Shows};

use crate::album::Album;
use bpf_machine::Machine;
use rand_core::{Rng, SeedableRng};
use rand_xoshiro::SplitMix64;
use std::alloc::{AllocError, Global};

/// How many turns a dive makes at most, each with those after it that no store sees.
const MOST_TURNS: u32 = 10_000;

/// For each of this many states that are kept there is a dive: so dives take less time than the
/// search.
const STATES_A_DIVE: usize = 10_000;

const MOST_DIVES: usize = 100;

/// How many dives there are after a search that kept n states.
pub(crate) fn dives_after(states: usize) -> u32 {
    (states / STATES_A_DIVE).min(MOST_DIVES) as u32
}

/// Whose turns a dive makes.
#[derive(Drop)]
pub(crate) struct Course {
    /// The CPU of the last turn, or of the first before it.
    cpu: u8,
    cpus: u8,
    /// The CPU is drawn where these bits of a number that is drawn are zeros.
    mask: u32,
    /// None, where each CPU goes on while it has work.
    generator: Option<SplitMix64>,
}

/// A CPU by a number.
fn cpu_of(number: u32, cpus: u8) -> u8 {
    number.checked_rem(u32::from(cpus)).unwrap_or(0) as u8
}

impl Course {
    /// The course of the dive of this number: at first the CPUs one after the other, which begin with
    /// each of them once; and then such as are drawn, with rare changes of the CPU or frequent ones.
    pub fn new(number: u32, cpus: u8) -> Course {
        let generator = if number < u32::from(cpus) {
            None
        } else {
            Some(SplitMix64::seed_from_u64(u64::from(number)))
        };
        Course {
            cpu: cpu_of(number, cpus),
            cpus,
            mask: (1 << (number % 4)) - 1,
            generator,
        }
    }

    /// Draws a CPU, if it is time to.
    fn draw(&mut self) {
        if let Some(generator) = &mut self.generator {
            let drawn = generator.next_u32();
            if drawn & self.mask == 0 {
                self.cpu = cpu_of(drawn >> 4, self.cpus);
            }
        }
    }

    /// The CPU of the next turn, if one has work.
    fn next(&mut self, machine: &Machine) -> Option<u8> {
        self.draw();
        for _ in 0..self.cpus {
            if machine.job(self.cpu).is_some() {
                return Some(self.cpu);
            }
            self.cpu = cpu_of(u32::from(self.cpu) + 1, self.cpus);
        }
        None
    }
}

/// Puts a turn of a CPU, and n after it, at the end of a schedule.
fn add_turns(by: &mut Vec<(u8, u64)>, cpu: u8, ahead: u64) -> Result<(), AllocError>
    ensures { OnOk result (unrolled by.new.items
        ≡ unrolled by.old.items ++ (cpu ∷ replicate ahead cpu)) }
{
    let Some(turns) = ahead.checked_add(1) else {
        return Err(AllocError);
    };
    let Some((last, more)) = by.pop() else {
        by.push((cpu, turns))?;
        return Ok(());
    };
    if last == cpu
        && let Some(sum) = more.checked_add(turns)
    {
        by.push((cpu, sum))?;
        return Ok(());
    }
    by.push((last, more))?;
    by.push((cpu, turns))?;
    Ok(())
}

/// Makes turns from the machine to work with until no CPU has work, or there are enough. The
/// schedule that they are.
pub(crate) fn dive(
    alloc: Global,
    album: &mut Album,
    course: &mut Course,
) -> Result<Vec<(u8, u64)>, AllocError>
    ensures runs { IfOk result (λ by. (w : World) → Shows album.old.machine w
        → (z : World) × RunsSchedule w (unrolled by.items) z × Shows album.new.machine z) }
    ensures same { album.new.kept ≡ album.old.kept }
    ensures cpus { album.new.cpus ≡ album.old.cpus }
    ensures stock { album.new.stock ≡ album.old.stock }
{
    let mut by = Vec::new(alloc);
    for _ in 0..MOST_TURNS {
        let Some(cpu) = course.next(album.machine()) else {
            break;
        };
        let ahead = album.turn_ahead(cpu);
        add_turns(&mut by, cpu, ahead)?;
    }
    Ok(by)
}
