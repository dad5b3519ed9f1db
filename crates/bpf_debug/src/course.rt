//! The turns that a session has made, in run lengths.

ghost use Rattle.std.specs.Prelude.{◌≡◌, ◌<◌, ◌≤◌, [], ◌∷◌, ◌++◌, IfOk, OnOk, codes, length, string_bytes};
ghost use Rattle.std.specs.Bool.{OnFalse, OnTrue};
ghost use Rattle.bpf_schedule.specs.Spelling.{runs_text};
ghost use Rattle.bpf_machine.specs.Schedule.{unrolled};
ghost use Rattle.bpf_debug.specs.Course.{DropsTurn, TakesBack, with_turn};

use crate::command::MOST_TURNS;
use crate::recall::{Kind, Recall, recall_runs};
use bpf_machine::Machine;
use bpf_schedule::push_runs;
use std::alloc::{AllocError, Global};
use std::marker::Model;

/// How many runs are kept, at most: those of a `go` by two CPUs whose turns alternate are as many
/// as its turns.
const MOST_RUNS: usize = 1 << 18;

/// The turns made so far, in run lengths, as long as there is room for them.
#[derive(Drop)]
pub struct Course {
    runs: Vec<(u8, u64)>,
    /// Whether they are all turns.
    is_whole: bool,
}

impl Model for Course {
    ghost use Rattle.std.specs.Prelude.{List, ℕ, Option, Some, None, if◌then◌else◌};

    ghost Value = { Option (List (ℕ × ℕ)) };

    ghost view = { λ c. if c.is_whole then Some c.runs.items else None };
}

/// Makes the last run one turn longer, where it is this CPU's and may be.
fn lengthen_last(runs: &mut Vec<(u8, u64)>, cpu: u8) -> bool
    ensures yes { OnTrue result (runs.new.items ≡ with_turn runs.old.items cpu) }
    ensures no { OnFalse result (runs.new.items ++ (cpu, 1) ∷ [] ≡ with_turn runs.old.items cpu) }
{
    let Some(place) = runs.len().checked_sub(1) else {
        return false;
    };
    let last = runs[place];
    if last.0 != cpu {
        return false;
    }
    if last.1 >= MOST_TURNS {
        return false;
    }
    runs[place] = (cpu, last.1 + 1);
    true
}

/// Appends one turn of a CPU to the others.
fn add_turn(runs: &mut Vec<(u8, u64)>, cpu: u8) -> Result<(), AllocError>
    ensures { OnOk result (runs.new.items ≡ with_turn runs.old.items cpu) }
{
    if lengthen_last(runs, cpu) {
        return Ok(());
    }
    runs.push((cpu, 1))?;
    Ok(())
}

/// Takes the last turn away. Whose it was.
fn drop_turn(runs: &mut Vec<(u8, u64)>) -> u8
    ensures { DropsTurn runs.old.items runs.new.items result }
{
    let Some(place) = runs.len().checked_sub(1) else {
        return 0;
    };
    let last = runs[place];
    if last.1 > 1 {
        runs[place] = (last.0, last.1 - 1);
    } else {
        runs.truncate(place);
    }
    last.0
}

/// Takes away the last turns, this many. Whose the first of them was.
fn take_back(runs: &mut Vec<(u8, u64)>, count: u64) -> u8
    ensures { TakesBack runs.old.items count runs.new.items result }
{
    let mut first = 0;
    for _ in 0..count {
        first = drop_turn(runs);
    }
    first
}

/// Whether there are this many turns.
pub fn has_turns(runs: &[(u8, u64)], count: u64) -> bool
    ensures yes { OnTrue result (count ≤ length (unrolled runs.now)) }
    ensures no { OnFalse result (length (unrolled runs.now) < count) }
{
    let mut left = count;
    for run in runs {
        if run.1 >= left {
            return true;
        }
        left -= run.1;
    }
    left == 0
}

/// The line of a schedule, as the command that makes it.
pub fn course_line(alloc: Global, runs: &[(u8, u64)]) -> Result<String, AllocError>
    ensures { IfOk result (λ text. string_bytes text
        ≡ codes "steps" ++ runs_text (length runs.now) runs.now ++ codes "\n") }
{
    let mut text = "steps".to_string(alloc)?;
    push_runs(alloc, &mut text, runs)?;
    text.push_str("\n")?;
    Ok(text)
}

impl Course {
    ghost use Rattle.std.specs.Prelude.{◌≡◌, ℕ, List, [], ◌∷◌, Option, Some, None, IfSome, IfNone, replicate};
    ghost use Rattle.bpf_machine.specs.Schedule.{World, RunsSchedule, unrolled};
    ghost use Rattle.bpf_machine.specs.Machine.{Shows};
    ghost use Rattle.bpf_machine.specs.Parts.{IsSameHost};
    ghost use Rattle.bpf_debug.specs.Course.{KeepsOn, TakesBack};
    ghost use Rattle.bpf_debug.specs.Recall.{IsRecall, Past, Recalls};

    /// No turn has been made.
    pub fn new(alloc: Global) -> Course
        ensures { result ≡ Some [] }
    {
        Course {
            runs: Vec::new(alloc),
            is_whole: true,
        }
    }

    /// The runs, where they are all turns.
    pub fn runs(&self) -> Option<&[(u8, u64)]>
        ensures kept { IfSome result (λ runs. self.now ≡ Some runs.now) }
    {
        if self.is_whole {
            Some(&self.runs)
        } else {
            None
        }
    }

    /// Makes room for this many more runs, or for as many as are kept.
    pub fn reserve(&mut self, count: usize) -> Result<(), AllocError>
        ensures { self.new ≡ self.old }
    {
        if !self.is_whole {
            return Ok(());
        }
        let count = count.min(MOST_RUNS.saturating_sub(self.runs.len()));
        self.runs.reserve(count)
    }

    /// Forgets the turns: there is no room for them.
    fn lose(&mut self)
        ensures { self.new ≡ None }
    {
        self.runs.clear();
        self.is_whole = false;
    }

    /// A turn of a CPU has been made.
    pub fn add(&mut self, cpu: u8)
        ensures { KeepsOn self.old (cpu ∷ []) self.new }
    {
        if !self.is_whole {
            return;
        }
        if self.runs.len() >= MOST_RUNS {
            return self.lose();
        }
        let Ok(()) = add_turn(&mut self.runs, cpu) else {
            return self.lose();
        };
    }

    /// This many turns of a CPU have been made.
    pub fn add_times(&mut self, cpu: u8, count: u64)
        ensures { KeepsOn self.old (replicate count cpu) self.new }
    {
        for _ in 0..count {
            self.add(cpu);
        }
    }

    /// Takes the last turns away, this many, where turns are kept. Whose the first of them was.
    pub fn take_back(&mut self, count: u64) -> u8
        ensures { (runs : List (ℕ × ℕ)) → self.old ≡ Some runs → (fewer : List (ℕ × ℕ))
            × (self.new ≡ Some fewer) × TakesBack runs count fewer result }
    {
        take_back(&mut self.runs, count)
    }

    /// Makes all turns, where they are kept.
    pub fn repeat(&self, machine: &mut Machine)
        ensures turns { (runs : List (ℕ × ℕ)) → self.now ≡ Some runs
            → (w : World) → Shows machine.old w
            → (z : World) × RunsSchedule w (unrolled runs) z × Shows machine.new z }
        ensures same { IsSameHost machine.old machine.new }
    {
        machine.turns_by(&self.runs);
    }

    /// Makes all turns, where they are kept, and says how a CPU stood before the last of its turns
    /// of a kind.
    pub fn recall(&self, machine: &mut Machine, cpu: u8, kind: Kind) -> Option<Recall>
        ensures turns { (runs : List (ℕ × ℕ)) → self.now ≡ Some runs
            → (w : World) → Shows machine.old w → (z : World) × (new : Option Past)
            × Recalls kind cpu w None (unrolled runs) new z × Shows machine.new z
            × IsRecall cpu result new }
        ensures same { IsSameHost machine.old machine.new }
    {
        recall_runs(machine, &self.runs, cpu, kind)
    }

    /// The turns of a schedule have been made.
    pub fn add_runs(&mut self, runs: &[(u8, u64)])
        ensures { KeepsOn self.old (unrolled runs.now) self.new }
    {
        for run in runs {
            self.add_times(run.0, run.1);
        }
    }
}
