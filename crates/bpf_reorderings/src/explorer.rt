//! The search: from each kept machine each CPU's turn and the flush of each buffer is made, after a turn
//! the CPU's turns that no other CPU sees, and what is new is kept.

ghost use Rattle.std.specs.Prelude.{◌≡◌, ◌<◌, ◌≤◌, ◌++◌, IfOk, OnOk, replicate, reverse};
ghost use Rattle.bpf_machine.specs.Schedule.{unrolled};

use bpf_alike::Merged;
use bpf_buffering::{Album, Buffering};
use bpf_explore::{Extent, Observer, Progress, TOLD_EVERY};
use bpf_schedule::FLUSH;
use std::alloc::{AllocError, Global};
use std::marker::Model;

/// How a kept machine came about: by a move from an earlier one, and n like it after it, which are the
/// CPU's turns that no other CPU sees. A move is a number: below `FLUSH` a CPU's turn, and from there on
/// the flush of its buffer.
#[derive(Clone, Copy)]
struct Origin {
    from: u32,
    more: u32,
    made: u8,
}

/// The number in 32 bits. One that is greater counts as out of memory.
pub(crate) fn number_of(count: usize) -> Result<u32, AllocError>
    ensures { IfOk result (λ n. n ≡ count) }
{
    u32::try_from(count).map_err(|_| AllocError)
}

/// The number of turns in 32 bits. One that is greater counts as out of memory.
fn turns_of(count: u64) -> Result<u32, AllocError>
    ensures { IfOk result (λ n. n ≡ count) }
{
    u32::try_from(count).map_err(|_| AllocError)
}

/// Puts this many moves of one kind after a schedule that is printed backwards.
fn push_moves(by: &mut Vec<(u8, u64)>, made: u8, count: u64) -> Result<(), AllocError>
    ensures { OnOk result (unrolled (reverse by.new.items)
        ≡ replicate count made ++ unrolled (reverse by.old.items)) }
{
    let Some((last, more)) = by.pop() else {
        by.push((made, count))?;
        return Ok(());
    };
    if last == made
        && let Some(sum) = more.checked_add(count)
    {
        by.push((made, sum))?;
        return Ok(());
    }
    by.push((last, more))?;
    by.push((made, count))?;
    Ok(())
}

/// How far a search came that was refused memory, where n are kept.
fn cut_short(count: usize, limit: usize) -> Extent
    ensures part { result ≡ Extent.Whole → ⊥ }
    ensures met { result ≡ Extent.Limited → limit < count }
    ensures short { result ≡ Extent.Refused → count ≤ limit }
{
    if count > limit {
        Extent::Limited
    } else {
        Extent::Refused
    }
}

/// An album, and how each of its machines came about. Machines count as one that differ only in registers
/// that are written before they are read, where states are merged. In a patient search jobs in hand have
/// their whole budgets left, so those do that differ only in how many steps are left.
#[derive(Drop)]
pub(crate) struct Explorer {
    alloc: Global,
    patient: bool,
    album: Album,
    /// Of each machine; that of the first isn't read.
    origins: Vec<Origin>,
}

impl Model for Explorer {
    ghost use Rattle.bpf_reorderings.specs.Private.Searching.{Searched};
    ghost use Rattle.bpf_reorderings.specs.Private.Trail.{AreOrigins};

    ghost Value = { Searched };

    ghost view = { λ e. record {
      patient = e.patient;
      machine = e.album.machine;
      kept = e.album.kept;
    } };

    ghost invariant = { λ e. AreOrigins e.patient e.album.kept e.origins.items };
}

impl Explorer {
    ghost use Rattle.std.specs.Prelude.{◌≡◌, ◌<◌, ◌≤◌, ◌+◌, ℕ, [], ◌∷◌, true, false, IfOk, OnOk, Some, length, map, replicate, slice_get};
    ghost use Rattle.bpf_machine.specs.Schedule.{unrolled};
    ghost use Rattle.bpf_x86.specs.Machine.{TurnOf, FlushOf};
    ghost use Rattle.bpf_buffering.specs.Search.{MovesTo, move_of};
    ghost use Rattle.bpf_buffering.specs.Album.{HaveEndedAt};
    ghost use Rattle.bpf_flushes.specs.Moves.{MakesTo};
    ghost use Rattle.bpf_reorderings.specs.Private.Edges.{IsIdleAt};
    ghost use Rattle.bpf_reorderings.specs.Private.Trail.{IsLedFrom, LeadsBy, LeadsOn};
    ghost use Rattle.bpf_reorderings.specs.Private.Searching.{AreLed, Extends, IsClosed, IsExpanded, IsFilled, IsFlushedTo, IsFoundAt, IsMovedTo};

    /// A search of which this machine is kept.
    pub(crate) fn new(
        alloc: Global,
        machine: Buffering,
        patient: bool,
        merged: Merged,
    ) -> Result<Explorer, AllocError>
        ensures kept { IfOk result (λ e. e.kept ≡ machine ∷ []) }
        ensures patient { IfOk result (λ e. e.patient ≡ patient) }
    {
        let album = Album::new(alloc, machine, merged)?;
        let mut origins = Vec::new(alloc);
        origins.push(Origin {
            from: 0,
            more: 0,
            made: 0,
        })?;
        Ok(Explorer {
            alloc,
            patient,
            album,
            origins,
        })
    }

    /// The allocator of all that is kept.
    pub(crate) fn alloc(&self) -> Global {
        self.alloc
    }

    /// Whether the search is patient.
    pub(crate) fn is_patient(&self) -> bool
        ensures { result ≡ self.now.patient }
    {
        self.patient
    }

    /// The machine to work with.
    pub(crate) fn machine(&self) -> &Buffering
        ensures { result.now ≡ self.now.machine }
    {
        self.album.machine()
    }

    /// How many are kept.
    pub(crate) fn len(&self) -> usize
        ensures { result ≡ length self.now.kept }
    {
        self.album.len()
    }

    /// Whether each job of a kept machine has ended.
    pub(crate) fn has_ended(&self, place: usize) -> bool
        requires { place < length self.now.kept }
        ensures ended { result ≡ true → HaveEndedAt self.now.kept place }
        ensures works { result ≡ false → HaveEndedAt self.now.kept place → ⊥ }
    {
        self.album.has_ended(place)
    }

    /// Takes a kept machine to work with.
    pub(crate) fn restore(&mut self, place: usize) -> Result<(), AllocError>
        requires { place < length self.old.kept }
        ensures ok { OnOk result (slice_get self.old.kept place ≡ Some self.new.machine) }
        ensures same { self.new.kept ≡ self.old.kept }
        ensures patient { self.new.patient ≡ self.old.patient }
    {
        self.album.restore(place)
    }

    /// One turn of a CPU.
    pub(crate) fn take_turn(&mut self, cpu: u8) -> Result<(), AllocError>
        ensures moves { OnOk result (MovesTo self.old.machine (TurnOf cpu) self.new.machine) }
        ensures same { self.new.kept ≡ self.old.kept }
        ensures patient { self.new.patient ≡ self.old.patient }
    {
        self.album.turn(cpu)?;
        Ok(())
    }

    /// The CPU's oldest waiting store reaches memory, if one waits.
    pub(crate) fn pass_flush(&mut self, cpu: u8)
        ensures makes { MakesTo self.old.machine (FlushOf cpu ∷ []) self.new.machine }
        ensures same { self.new.kept ≡ self.old.kept }
        ensures patient { self.new.patient ≡ self.old.patient }
    {
        self.album.flush_alone(cpu);
    }

    /// In a patient search a CPU's job in hand has its whole budget back.
    fn fill(&mut self, cpu: u8)
        ensures filled { IsFilled self.old.patient self.old.machine cpu self.new.machine }
        ensures same { self.new.kept ≡ self.old.kept }
        ensures patient { self.new.patient ≡ self.old.patient }
    {
        if self.patient {
            self.album.refill(cpu);
        }
    }

    /// Keeps the machine, to which a move and n more like it led from a kept one, unless one is kept that
    /// shows all that it shows, but for dead registers. Under which number.
    fn keep(&mut self, place: usize, made: u8, more: u64) -> Result<usize, AllocError>
        requires inside { place < length self.old.kept }
        requires led { IsLedFrom self.old.patient self.old.kept place
            (map move_of (replicate (more + 1) made)) self.old.machine }
        ensures kept { IfOk result (λ n. IsFoundAt self.new.kept n self.old.machine) }
        ensures extends { Extends self.old.kept self.new.kept }
        ensures patient { self.new.patient ≡ self.old.patient }
    {
        let from = number_of(place)?;
        let more = turns_of(more)?;
        self.origins.push(Origin { from, more, made })?;
        let kept = self.album.keep();
        self.origins.truncate(self.album.len());
        let number = kept?;
        Ok(number)
    }

    /// Makes a CPU's turn from a kept machine, and then its turns that no other CPU sees, and keeps
    /// where they led, in a patient search with the whole budget of the CPU's job in hand. The number of
    /// the kept machine that they led to.
    pub(crate) fn turn(&mut self, place: usize, cpu: u8) -> Result<usize, AllocError>
        requires place { place < length self.old.kept }
        requires cpu { cpu < 128 }
        ensures moved { IfOk result
            (IsMovedTo self.old.patient self.new.kept place (TurnOf cpu)) }
        ensures extends { Extends self.old.kept self.new.kept }
        ensures patient { self.new.patient ≡ self.old.patient }
    {
        self.album.restore(place)?;
        match self.album.turn_ahead(cpu)? {
            Some(more) => {
                self.fill(cpu);
                self.keep(place, cpu, more)
            }
            None => Ok(place),
        }
    }

    /// Flushes a CPU's buffer in a kept machine, and keeps where that led. The number of that; `None` where
    /// nothing waits.
    pub(crate) fn flush(&mut self, place: usize, cpu: u8) -> Result<Option<usize>, AllocError>
        requires place { place < length self.old.kept }
        requires cpu { cpu < 128 }
        ensures moved { IfOk result
            (IsFlushedTo self.old.patient self.new.kept place cpu) }
        ensures extends { Extends self.old.kept self.new.kept }
        ensures patient { self.new.patient ≡ self.old.patient }
    {
        self.album.restore(place)?;
        if self.album.flush(cpu) {
            let number = self.keep(place, FLUSH + cpu, 0)?;
            Ok(Some(number))
        } else {
            Ok(None)
        }
    }

    /// Makes each move from a kept machine.
    fn expand(&mut self, place: usize) -> Result<(), AllocError>
        requires { place < length self.old.kept }
        ensures expanded { OnOk result (IsExpanded self.old.patient self.new.kept place) }
        ensures extends { Extends self.old.kept self.new.kept }
        ensures patient { self.new.patient ≡ self.old.patient }
    {
        for cpu in 0..self.album.cpus() {
            self.turn(place, cpu)?;
            self.flush(place, cpu)?;
        }
        Ok(())
    }

    /// Reports how far a search is, each time that `TOLD_EVERY` more states are done.
    fn tell<O: Observer>(&self, done: usize, observer: &mut O) {
        if done % TOLD_EVERY == 0 {
            let kept = self.len();
            observer.see(Progress {
                kept,
                left: kept.saturating_sub(done),
                bytes: self.album.bytes(),
            });
        }
    }

    /// Makes each move from each kept machine, until nothing is new, more than `limit` are kept, or
    /// memory is refused. How far it came: what is kept so far stays. The observer learns of it
    /// meanwhile.
    pub(crate) fn explore<O: Observer>(&mut self, limit: usize, observer: &mut O) -> Extent
        ensures whole { result ≡ Extent.Whole → IsClosed self.old.patient self.new.kept }
        ensures met { result ≡ Extent.Limited → limit < length self.new.kept }
        ensures short { result ≡ Extent.Refused → length self.new.kept ≤ limit }
        ensures extends { Extends self.old.kept self.new.kept }
        ensures patient { self.new.patient ≡ self.old.patient }
    {
        let mut next = 0;
        while next < self.len() {
            if self.len() > limit {
                return Extent::Limited;
            }
            let Ok(()) = self.expand(next) else {
                return cut_short(self.len(), limit);
            };
            next += 1;
            self.tell(next, observer);
        }
        Extent::Whole
    }

    /// A schedule that leads to a kept machine from the first: moves, each with how often it is made
    /// before the next.
    pub(crate) fn way(&self, place: usize) -> Result<Vec<(u8, u64)>, AllocError>
        requires { place < length self.now.kept }
        ensures { IfOk result (λ by. LeadsBy self.now.patient self.now.kept 0
            (map move_of (unrolled by.items)) place) }
    {
        let mut by = Vec::new(self.alloc);
        let mut state = place;
        while state > 0 {
            let origin = self.origins[state];
            push_moves(&mut by, origin.made, origin.more as u64 + 1)?;
            state = origin.from as usize;
        }
        by.reverse();
        Ok(by)
    }

    /// The kept machine from which the search came to this one.
    pub(crate) fn came_from(&self, place: usize) -> usize
        requires { (0 < place) × (place < length self.now.kept) }
        ensures before { result < place }
        ensures leads { LeadsOn self.now.patient self.now.kept result place }
    {
        self.origins[place].from as usize
    }

    /// How many CPUs there are. Those of the numbers from it on have no move that changes anything.
    pub(crate) fn cpus(&self) -> u8
        ensures beyond { (i c : ℕ) → result ≤ c → IsIdleAt self.now.kept i c }
        ensures few { result ≤ 16 }
    {
        self.album.cpus()
    }

    /// A schedule leads to each of them.
    pub(crate) fn leads(&self)
        ensures { AreLed self.now.patient self.now.kept }
    {
        let _ = &self.origins;
    }
}
