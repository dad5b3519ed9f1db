//! The search: an album of machines, of each of which it is known how it came about.

ghost use Rattle.std.specs.Prelude.{◌≡◌, ◌++◌, ◌<◌, List, IfOk, OnOk, length, replicate, reverse};
ghost use Rattle.bpf_machine.specs.Machine.{MachineState};
ghost use Rattle.bpf_machine.specs.Schedule.{unrolled};
ghost use Rattle.bpf_explore.specs.Album.{LeadsThrough};
ghost use Rattle.bpf_explore.specs.Private.Spread.{AreRuns};
ghost use Rattle.bpf_explore.specs.Private.Trail.{AreOrigins};

use crate::album::{Album, Room, Turned, number_of};
use crate::crew::Crew;
use crate::diving::{Course, dive};
use crate::frontier::Frontier;
use crate::room::bytes_of;
use crate::runs::{Runs, Strictly};
use crate::scouts::Scouts;
use crate::spread::Spread;
use bpf_alike::Merged;
use bpf_machine::Machine;
use bpf_shared::StoreShape;
use std::alloc::{AllocError, Global};
use std::marker::Model;

/// How a kept machine came about: by a CPU's turn from an earlier one, and n of its turns
/// after it that no store sees.
#[derive(Clone, Copy)]
pub(crate) struct Origin {
    pub from: u32,
    pub ahead: u32,
    pub cpu: u8,
}

/// The number of turns in 32 bits. One that is greater counts as out of memory.
pub(crate) fn turns_of(count: u64) -> Result<u32, AllocError>
    ensures { IfOk result (λ n. n ≡ count) }
{
    u32::try_from(count).map_err(|_| AllocError)
}

/// Puts turns of a CPU after a schedule that is printed backwards.
pub(crate) fn push_turns(by: &mut Vec<(u8, u64)>, cpu: u8, turns: u64) -> Result<(), AllocError>
    ensures { OnOk result (unrolled (reverse by.new.items)
        ≡ replicate turns cpu ++ unrolled (reverse by.old.items)) }
{
    let Some((last, more)) = by.pop() else {
        by.push((cpu, turns))?;
        return Ok(());
    };
    if last == cpu
        && let Some(sum) = more.checked_add(turns)
    {
        by.push((cpu, sum))?;
        return Ok(());
    }
    by.push((last, more))?;
    by.push((cpu, turns))?;
    Ok(())
}

/// The turns by which a machine came about from the first: CPUs, each with how many turns it makes before
/// the next.
pub(crate) fn way_back<R: Runs>(
    alloc: Global,
    origins: &[Origin],
    place: usize,
) -> Result<Vec<(u8, u64)>, AllocError>
    requires runs { AreRuns R.runs }
    requires are { (kept : List MachineState) × AreOrigins R.runs kept origins.now }
    requires place { place < length origins.now }
    ensures { IfOk result (λ by. (kept : List MachineState)
        → AreOrigins R.runs kept origins.now
        → LeadsThrough R.runs kept 0 (unrolled by.items) place) }
{
    let mut by = Vec::new(alloc);
    let mut state = place;
    while state > 0 {
        let origin = origins[state];
        push_turns(&mut by, origin.cpu, origin.ahead as u64 + 1)?;
        state = origin.from as usize;
    }
    by.reverse();
    Ok(by)
}

/// An album, and how each of its machines came about.
#[derive(Drop)]
pub struct Explorer {
    alloc: Global,
    album: Album,
    /// Of each machine; that of the first isn't read.
    origins: Vec<Origin>,
    scouts: Scouts,
}

impl Model for Explorer {
    ghost use Rattle.bpf_machine.specs.Schedule.{RunsSchedule};
    ghost use Rattle.std.specs.Prelude.{false};
    ghost use Rattle.bpf_explore.specs.Album.{AlbumState};
    ghost use Rattle.bpf_explore.specs.Scouts.{AreScouts};
    ghost use Rattle.bpf_explore.specs.Private.Trail.{AreOrigins};

    ghost Value = { AlbumState };

    ghost view = { λ e. e.album };

    ghost invariant = { λ e. AreOrigins RunsSchedule e.album.kept e.origins.items
        × AreScouts false e.album.kept e.album.stock e.scouts.scouts.items };
}

impl Explorer {
    ghost use Rattle.std.specs.Prelude.{◌≡◌, ◌<◌, true, false, IfOk, IfSome, IfNone, OnOk, Some, None, length, slice_get};
    ghost use Rattle.bpf_machine.specs.Schedule.{unrolled};
    ghost use Rattle.bpf_explore.specs.Stores.{IsOfShape};
    ghost use Rattle.bpf_explore.specs.Album.{ShowsFirst, AreApart, AreLed, HasMore, LeadsFrom, HaveEndedAt};
    ghost use Rattle.bpf_explore.specs.Search.{Alike, Extends, IsIdleAt, IsTurned};
    ghost use Rattle.bpf_explore.specs.Scouts.{IsTurnAhead};
    ghost use Rattle.bpf_explore.specs.Private.Replays.{IsReplayed};

    /// A search of which the first machine is kept.
    pub fn new(
        alloc: Global,
        shape: StoreShape,
        machine: Machine,
        merged: Merged,
    ) -> Result<Explorer, AllocError>
        requires shape { IsOfShape shape machine.store }
        requires lists { machine.lists ≡ None }
        ensures { IfOk result (λ e. ShowsFirst e.kept machine) }
    {
        let album = Album::new(alloc, shape, machine, merged)?;
        let mut origins = Vec::new(alloc);
        origins.push(Origin {
            from: 0,
            ahead: 0,
            cpu: 0,
        })?;
        Ok(Explorer {
            alloc,
            album,
            origins,
            scouts: Scouts::new(alloc),
        })
    }

    /// The machine to work with.
    pub fn machine(&self) -> &Machine
        ensures machine { result.now ≡ self.now.machine }
        ensures lists { self.now.machine.lists ≡ None }
    {
        self.album.machine()
    }

    /// How many are kept.
    pub fn len(&self) -> usize
        ensures { result ≡ length self.now.kept }
    {
        self.album.len()
    }

    /// Whether each job of a kept machine has ended.
    pub fn has_ended(&self, place: usize) -> bool
        requires { place < length self.now.kept }
        ensures ended { result ≡ true → HaveEndedAt self.now.kept place }
        ensures works { result ≡ false → HaveEndedAt self.now.kept place → ⊥ }
    {
        self.album.has_ended(place)
    }

    /// Takes a kept machine to work with.
    pub fn restore(&mut self, place: usize) -> Result<(), AllocError>
        requires { place < length self.old.kept }
        ensures ok { OnOk result (slice_get self.old.kept place ≡ Some self.new.machine) }
        ensures same { self.new.kept ≡ self.old.kept }
    {
        self.album.restore(place)
    }

    /// A schedule that leads to a kept machine from the first: CPUs, each with how many turns it
    /// makes before the next.
    pub fn way(&self, place: usize) -> Result<Vec<(u8, u64)>, AllocError>
        requires { place < length self.now.kept }
        ensures { IfOk result (λ by. LeadsFrom self.now.kept 0 (unrolled by.items) place) }
    {
        way_back::<Strictly>(self.alloc, &self.origins, place)
    }

    /// Makes turns from the first machine, as the dive of this number does. The schedule that they are.
    pub(crate) fn dive(&mut self, number: u32) -> Result<Vec<(u8, u64)>, AllocError>
        requires { 0 < length self.old.kept }
        ensures dived { IfOk result (λ by. IsReplayed self.old.kept (unrolled by.items)
            self.new.machine) }
        ensures same { self.new.kept ≡ self.old.kept }
    {
        let mut course = Course::new(number, self.album.cpus());
        self.album.restore(0)?;
        let by = dive(self.alloc, &mut self.album, &mut course)?;
        Ok(by)
    }

    /// Makes a CPU's turn from a kept machine, and then the turns of it that no store sees. Keeps
    /// where they led.
    fn make(&mut self, place: usize, cpu: u8) -> Result<(), AllocError>
        requires { place < length self.old.kept }
        ensures turned { OnOk result (IsTurned Alike self.new.kept place cpu) }
        ensures extends { Extends self.old.kept self.new.kept }
        ensures width { self.new.cpus ≡ self.old.cpus }
    {
        let from = number_of(place)?;
        self.album.restore(place)?;
        let made = self.album.turn_ahead(cpu);
        let ahead = turns_of(made)?;
        self.origins.push(Origin { from, ahead, cpu })?;
        let kept = self.album.keep(Some(Turned { place, cpu }));
        self.origins.truncate(self.album.len());
        kept?;
        Ok(())
    }

    /// Makes a turn that no scout has noted. That of a CPU without work leads to the machine that it is
    /// made from.
    fn make_unnoted(&mut self, place: usize, cpu: u8) -> Result<(), AllocError>
        requires { place < length self.old.kept }
        ensures turned { OnOk result (IsTurned Alike self.new.kept place cpu) }
        ensures extends { Extends self.old.kept self.new.kept }
        ensures width { self.new.cpus ≡ self.old.cpus }
    {
        if !self.album.has_work(place, cpu) {
            return Ok(());
        }
        self.make(place, cpu)
    }

    /// What is kept, after the search.
    pub(crate) fn into_spread(self) -> Spread<Strictly>
        ensures { result ≡ self }
    {
        let Explorer {
            alloc,
            album,
            origins,
            ..
        } = self;
        Spread::new(alloc, album, origins)
    }

    /// As the album's `look_ahead`, or what a scout has noted of it. `None` where the CPU has no work.
    pub(crate) fn look(
        &mut self,
        room: &mut Room,
        place: usize,
        cpu: u8,
    ) -> Result<Option<u32>, AllocError>
        requires { place < length self.old.kept }
        ensures kept { self.new.kept ≡ self.old.kept }
        ensures turn { IfOk result (λ r. IfSome r (λ n. IsTurnAhead false self.old.kept self.new.stock
            place cpu n room.new.numbers.items)) }
        ensures idle { IfOk result (λ r. IfNone r (IsIdleAt self.old.kept place cpu)) }
        ensures cpus { self.new.cpus ≡ self.old.cpus }
        ensures more { HasMore self.old.stock self.new.stock }
    {
        if let Some(found) = self.scouts.find(place, cpu) {
            room.numbers.clear();
            room.numbers.extend_from_slice(self.scouts.numbers(&found))?;
            return Ok(Some(found.note.ahead));
        }
        if !self.album.has_work(place, cpu) {
            return Ok(None);
        }
        let ahead = self.album.look_ahead(room, place, cpu)?;
        Ok(Some(ahead))
    }

    /// Keeps where a CPU's turn from a kept machine led, with n turns after it that no store sees, under
    /// its numbers.
    pub(crate) fn keep_turn(
        &mut self,
        place: usize,
        cpu: u8,
        ahead: u32,
        numbers: &[u32],
    ) -> Result<usize, AllocError>
        requires place { place < length self.old.kept }
        requires turn { IsTurnAhead false self.old.kept self.old.stock place cpu ahead numbers.now }
        ensures turned { OnOk result (IsTurned Alike self.new.kept place cpu) }
        ensures extends { Extends self.old.kept self.new.kept }
        ensures cpus { self.new.cpus ≡ self.old.cpus }
        ensures stock { self.new.stock ≡ self.old.stock }
    {
        let from = number_of(place)?;
        self.origins.push(Origin { from, ahead, cpu })?;
        let kept = self.album.keep_numbered(numbers);
        self.origins.truncate(self.album.len());
        let number = kept?;
        Ok(number)
    }

    /// Has a crew make turns ahead, from this kept machine on, where that is worth it.
    pub(crate) fn send_ahead<C: Crew>(&mut self, crew: &C, place: usize)
        requires { C.can }
        ensures { self.new ≡ self.old }
    {
        self.scouts.send(crew, &self.album, false, place);
    }

    /// The album.
    pub(crate) fn album(&self) -> &Album
        ensures { result.now ≡ self.now }
    {
        &self.album
    }

    /// A schedule leads to each of them.
    pub fn leads(&self)
        ensures { AreLed self.now.kept }
    {
        let _ = &self.origins;
    }

    /// No world is shown by two of them.
    pub fn apart(&self)
        ensures { AreApart self.now.kept }
    {
        self.album.apart();
    }
}

impl Frontier for Explorer {
    ghost use Rattle.bpf_explore.specs.Search.{Alike};

    ghost kept = { λ e. e.kept };

    ghost manner = { λ e. Alike };

    ghost width = { λ e. e.cpus };

    ghost has_made = { λ e turns. Unit {0} };

    ghost was_refused = { λ e. Unit {0} };

    fn count(&self) -> usize {
        self.len()
    }

    fn bytes(&self) -> usize {
        let origins = bytes_of(&self.origins, size_of::<Origin>());
        self.album.bytes().saturating_add(origins)
    }

    fn cpus(&self) -> u8 {
        self.album.cpus()
    }

    fn turn(&mut self, place: usize, cpu: u8) -> Result<(), AllocError> {
        let Some(found) = self.scouts.find(place, cpu) else {
            return self.make_unnoted(place, cpu);
        };
        let from = number_of(place)?;
        let ahead = found.note.ahead;
        self.origins.push(Origin { from, ahead, cpu })?;
        let kept = self.album.keep_numbered(self.scouts.numbers(&found));
        self.origins.truncate(self.album.len());
        kept?;
        Ok(())
    }

    fn prepare<C: Crew>(&mut self, crew: &C, place: usize) {
        self.send_ahead(crew, place);
    }
}
