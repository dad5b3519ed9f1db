//! Scouts, who make turns ahead of a search, each on a machine of its own.

ghost use Rattle.std.specs.Prelude.{◌≡◌, ◌+◌, ◌<◌, ◌≤◌, Bool, List, ℕ, [], All, IfOk, IfSome, Some, length, slice_get};
ghost use Rattle.bpf_base.specs.Bytes.{part};
ghost use Rattle.bpf_machine.specs.Hands.{OthersStay};
ghost use Rattle.bpf_machine.specs.Machine.{MachineState};
ghost use Rattle.bpf_explore.specs.Album.{FitsStock, Stock};
ghost use Rattle.bpf_explore.specs.Scouts.{AreNotes, AreScouts, HasTurned, IsRefilledIn, IsScout, IsTurnAhead, StaysScout};
ghost use Rattle.bpf_explore.specs.Private.Scouts.{HasTuple, IsFound};

use crate::album::{Album, Room, Turned, number_of};
use crate::crew::Crew;
use crate::explorer::turns_of;
use bpf_machine::Machine;
use std::alloc::{AllocError, Global};

/// Scouts are sent where there are this many states for each of them.
const FEWEST_STATES: usize = 256;

/// A scout goes on from this many states at most, before the search is where it was.
const MOST_STATES: usize = 4096;

/// A CPU's turn from a kept machine, with n turns after it that no store sees. It leads to a machine
/// whose store and jobs are kept, under the numbers at this place among the scout's.
#[derive(Clone, Copy)]
pub(crate) struct Note {
    pub place: u32,
    pub ahead: u32,
    pub first: usize,
    pub cpu: u8,
}

/// Makes the turns from some kept states on a machine of its own, and notes those that lead to a
/// store and to jobs that are kept.
#[derive(Drop)]
pub struct Scout {
    machine: Machine,
    /// How many numbers a state is.
    width: usize,
    /// Its search is patient.
    patient: bool,
    /// The first state that it goes on from.
    start: usize,
    cpus: u8,
    room: Room,
    /// Of the turns of each CPU from each of its states, in their order.
    notes: Vec<Option<Note>>,
    /// The numbers of what they lead to.
    tuples: Vec<u32>,
}

/// In a patient search, gives the job that a CPU has in hand its whole budget back.
fn refill_in(machine: &mut Machine, patient: bool, cpu: u8)
    ensures refilled { IsRefilledIn patient machine.old cpu machine.new }
    ensures fits { (stock : Stock) → FitsStock stock machine.old → FitsStock stock machine.new }
{
    if patient {
        machine.refill(cpu);
    }
}

/// Makes a CPU's turn from a kept machine on another one, and its turns after it that no store sees.
/// How many of these.
fn make_turn(
    album: &Album,
    machine: &mut Machine,
    patient: bool,
    place: usize,
    cpu: u8,
) -> Result<u32, AllocError>
    requires fits { FitsStock album.now.stock machine.old }
    requires there { place < length album.now.kept }
    ensures turned { IfOk result (λ n. HasTurned patient album.now.kept place cpu n machine.new) }
    ensures others { IfOk result (λ n. (old : MachineState)
        × (slice_get album.now.kept place ≡ Some old) × OthersStay old.jobs cpu machine.new.jobs) }
    ensures fits { FitsStock album.now.stock machine.new }
{
    album.look(machine, place)?;
    let made = machine.turn_ahead(cpu);
    refill_in(machine, patient, cpu);
    let ahead = turns_of(made)?;
    Ok(ahead)
}

/// Notes a turn that leads to what these are the numbers of.
fn note_turn(
    notes: &mut Vec<Option<Note>>,
    tuples: &mut Vec<u32>,
    numbers: &[u32],
    place: u32,
    cpu: u8,
    ahead: u32,
) -> Result<(), AllocError>
    ensures { (patient : Bool) (kept : List MachineState) (stock : Stock)
        → AreNotes patient kept stock tuples.old.items notes.old.items
        → stock.width ≡ length numbers.now
        → IsTurnAhead patient kept stock place cpu ahead numbers.now
        → AreNotes patient kept stock tuples.new.items notes.new.items }
{
    let first = tuples.len();
    tuples.extend_from_slice(numbers)?;
    notes.push(Some(Note {
        place,
        ahead,
        first,
        cpu,
    }))?;
    Ok(())
}

/// Notes that nothing is known of a turn.
fn note_nothing(notes: &mut Vec<Option<Note>>, tuples: &Vec<u32>) -> Result<(), AllocError>
    ensures { (patient : Bool) (kept : List MachineState) (stock : Stock)
        → AreNotes patient kept stock tuples.now.items notes.old.items
        → AreNotes patient kept stock tuples.now.items notes.new.items }
{
    let _ = tuples.len();
    notes.push(None)?;
    Ok(())
}

impl Scout {
    /// One who has made no turn.
    fn new(alloc: Global, machine: Machine, patient: bool) -> Result<Scout, AllocError>
        ensures { IfOk result (λ s. (kept : List MachineState) (stock : Stock)
            → FitsStock stock machine → IsScout kept stock s × (s.patient ≡ patient)) }
    {
        let width = machine.jobs().checked_add(1).ok_or(AllocError)?;
        let cpus = machine.cpus();
        Ok(Scout {
            machine,
            width,
            patient,
            start: 0,
            cpus,
            room: Room::new(alloc),
            notes: Vec::new(alloc),
            tuples: Vec::new(alloc),
        })
    }

    /// Makes a CPU's turn from a kept machine, and notes it.
    fn scout(&mut self, album: &Album, place: usize, cpu: u8) -> Result<(), AllocError>
        requires scout { IsScout album.now.kept album.now.stock self.old }
        requires there { place < length album.now.kept }
        ensures { StaysScout album.now.kept album.now.stock self.old self.new }
    {
        if !album.has_work(place, cpu) {
            return note_nothing(&mut self.notes, &self.tuples);
        }
        let from = number_of(place)?;
        let ahead = make_turn(album, &mut self.machine, self.patient, place, cpu)?;
        self.machine.stands();
        if album.number(&self.machine, &mut self.room, Turned { place, cpu }) {
            note_turn(
                &mut self.notes,
                &mut self.tuples,
                &self.room.numbers,
                from,
                cpu,
                ahead,
            )
        } else {
            note_nothing(&mut self.notes, &self.tuples)
        }
    }

    /// Makes the turn of each CPU from a kept machine.
    fn expand(&mut self, album: &Album, place: usize) -> Result<(), AllocError>
        requires scout { IsScout album.now.kept album.now.stock self.old }
        requires there { place < length album.now.kept }
        ensures { StaysScout album.now.kept album.now.stock self.old self.new }
    {
        for cpu in 0..self.cpus {
            self.scout(album, place, cpu)?;
        }
        Ok(())
    }

    /// Forgets the turns that it has noted, and goes on from another state.
    fn forget(&mut self, start: usize)
        ensures { (kept : List MachineState) (stock : Stock) → IsScout kept stock self.old
            → StaysScout kept stock self.old self.new }
    {
        self.notes.clear();
        self.tuples.clear();
        self.start = start;
    }

    /// Makes the turns from as many states, from this one on, while there is memory to note them.
    pub(crate) fn work(&mut self, album: &Album, start: usize, share: usize)
        requires { IsScout album.now.kept album.now.stock self.old }
        ensures { StaysScout album.now.kept album.now.stock self.old self.new }
    {
        self.forget(start);
        let end = start.saturating_add(share).min(album.len());
        for place in start..end {
            if self.expand(album, place).is_err() {
                return;
            }
        }
    }

    /// What it has noted of a CPU's turn from a kept machine.
    fn find(&self, place: usize, cpu: u8) -> Option<Note>
        ensures { IfSome result (λ note. (note.place ≡ place) × (note.cpu ≡ cpu)
            × ((i : ℕ) × (slice_get self.now.notes.items i ≡ Some (Some note)))) }
    {
        let row = place
            .checked_sub(self.start)?
            .checked_mul(usize::from(self.cpus))?;
        let note = (*self.notes.get(row.checked_add(usize::from(cpu))?)?)?;
        if note.place as usize == place && note.cpu == cpu {
            Some(note)
        } else {
            None
        }
    }
}

/// What a scout has noted of a turn.
#[derive(Clone, Copy)]
pub(crate) struct Found {
    pub scout: usize,
    pub note: Note,
}

/// Scouts, and how far they went.
#[derive(Drop)]
pub(crate) struct Scouts {
    alloc: Global,
    scouts: Vec<Scout>,
    /// The states that they went on from: each from as many as the first.
    start: usize,
    share: usize,
    end: usize,
}

impl Scouts {
    /// None.
    pub fn new(alloc: Global) -> Scouts
        ensures { result.scouts.items ≡ [] }
    {
        Scouts {
            alloc,
            scouts: Vec::new(alloc),
            start: 0,
            share: 1,
            end: 0,
        }
    }

    /// What a scout has noted of a CPU's turn from a kept machine.
    pub fn find(&self, place: usize, cpu: u8) -> Option<Found>
        ensures { IfSome result (IsFound self.now.scouts.items place cpu) }
    {
        if place >= self.end {
            return None;
        }
        let scout = place.checked_sub(self.start)?.checked_div(self.share)?;
        let note = self.scouts.get(scout)?.find(place, cpu)?;
        Some(Found { scout, note })
    }

    /// The numbers of what it leads to.
    pub fn numbers(&self, found: &Found) -> &[u32]
        requires { (scout : Scout) × HasTuple self.now.scouts.items found.now scout }
        ensures { (scout : Scout) → HasTuple self.now.scouts.items found.now scout
            → result.now ≡ part scout.tuples.items found.now.note.first scout.width }
    {
        let scout = &self.scouts[found.scout];
        &scout.tuples[found.note.first..found.note.first + scout.width]
    }

    /// Takes on as many scouts, if there is memory for them all.
    fn hire(&mut self, album: &Album, count: usize, patient: bool) -> Result<(), AllocError>
        requires { AreScouts patient album.now.kept album.now.stock self.old.scouts.items }
        ensures { AreScouts patient album.now.kept album.now.stock self.new.scouts.items }
    {
        for _ in self.scouts.len()..count {
            let machine = album.another()?;
            let scout = Scout::new(self.alloc, machine, patient)?;
            self.scouts.push(scout)?;
        }
        Ok(())
    }

    /// Has a crew send scouts where they aren't ahead of the search, and there is enough for each to
    /// do.
    pub fn send<C: Crew>(&mut self, crew: &C, album: &Album, patient: bool, place: usize)
        requires can { C.can }
        requires scouts { AreScouts patient album.now.kept album.now.stock self.old.scouts.items }
        ensures { AreScouts patient album.now.kept album.now.stock self.new.scouts.items }
    {
        if place < self.end {
            return;
        }
        let left = album.len().saturating_sub(place);
        let share = left.checked_div(crew.size()).unwrap_or(0).min(MOST_STATES);
        if share < FEWEST_STATES || self.hire(album, crew.size(), patient).is_err() {
            return;
        }
        self.start = place;
        self.share = share;
        self.end = place.saturating_add(share.saturating_mul(self.scouts.len()));
        crew.send(album, place, share, &mut self.scouts);
    }
}
