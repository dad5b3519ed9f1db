//! Kept machines, of which the last are ends that came about by an exchange of two CPUs.

ghost use Rattle.std.specs.Prelude.{◌≡◌, ◌<◌, true, false, Some, length, map, slice_get};
ghost use Rattle.bpf_machine.specs.Schedule.{unrolled};
ghost use Rattle.bpf_equal.specs.Peers.{AreOneGroup};
ghost use Rattle.bpf_equal.specs.Permutations.{exchanged};

use crate::album::{Album, number_of};
use crate::diving::{Course, dive};
use crate::explorer::{Origin, way_back};
use crate::frontier::{Extent, cut_short};
use crate::replays::replay_in;
use crate::runs::Runs;
use bpf_equal::Peer;
use bpf_machine::Machine;
use std::alloc::{AllocError, Global};
use std::marker::{Model, PhantomData};

/// How a kept end came about: as an earlier one, where two CPUs change places.
#[derive(Clone, Copy)]
pub(crate) struct Swap {
    pub from: u32,
    pub one: u8,
    pub other: u8,
}

/// The CPU of this number, where two change places.
pub fn exchange(cpu: u8, one: u8, other: u8) -> u8
    ensures { result ≡ exchanged one other cpu }
{
    if cpu == one {
        other
    } else if cpu == other {
        one
    } else {
        cpu
    }
}

/// Has two CPUs change places in a schedule.
pub fn exchange_turns(by: &mut [(u8, u64)], one: u8, other: u8)
    ensures { unrolled by.new ≡ map (exchanged one other) (unrolled by.old) }
{
    for place in 0..by.len() {
        let (cpu, turns) = by[place];
        by[place] = (exchange(cpu, one, other), turns);
    }
}

/// The CPU of a job.
fn cpu_of(peers: &[Peer], job: usize) -> u8
    requires { job < length peers.now }
    ensures { (p : Peer) → slice_get peers.now job ≡ Some p → result ≡ p.cpu }
{
    peers[job].cpu
}

/// Whether two jobs are of one group.
fn are_one_group(peers: &[Peer], one: usize, other: usize) -> bool
    requires one { one < length peers.now }
    requires other { other < length peers.now }
    ensures are { result ≡ true → (p : Peer) × (q : Peer) × AreOneGroup peers.now one other p q }
    ensures apart { result ≡ false → (p q : Peer) → AreOneGroup peers.now one other p q → ⊥ }
{
    peers[one].group == peers[other].group
}

/// An album, and how each of its machines came about: the first ones by turns, in runs of this kind, and
/// each after them by an exchange.
#[derive(Drop)]
pub(crate) struct Spread<R: Runs> {
    alloc: Global,
    album: Album,
    origins: Vec<Origin>,
    swaps: Vec<Swap>,
    of: PhantomData<R>,
}

impl<R: Runs> Model for Spread<R> {
    ghost use Rattle.bpf_explore.specs.Album.{AlbumState};
    ghost use Rattle.bpf_explore.specs.Private.Spread.{AreRuns, AreSpread};

    ghost Value = { AlbumState };

    ghost view = { λ s. s.album };

    ghost invariant = { λ s. AreRuns R.runs
        × AreSpread R.runs s.album.kept s.origins.items s.swaps.items };
}

impl<R: Runs> Spread<R> {
    ghost use Rattle.std.specs.Prelude.{◌≡◌, ◌<◌, ◌≤◌, true, false, IfOk, OnOk, Some, None, length, slice_get};
    ghost use Rattle.bpf_machine.specs.Patient.{NoneRanOut};
    ghost use Rattle.bpf_machine.specs.Schedule.{unrolled};
    ghost use Rattle.bpf_explore.specs.Album.{AreApart, AreLedThrough, LeadsThrough, HaveEndedAt};
    ghost use Rattle.bpf_explore.specs.Private.Replays.{CanRunOut, IsReplayed};
    ghost use Rattle.bpf_explore.specs.Private.Spread.{AreRuns};
    ghost use Rattle.bpf_explore.specs.Private.Trail.{AreOrigins};
    ghost use Rattle.bpf_equal.specs.Covers.{KeepsEnds};
    ghost use Rattle.bpf_equal.specs.Peers.{AreOneGroup};
    ghost use Rattle.bpf_explore.specs.Search.{Extends};
    ghost use Rattle.bpf_explore.specs.Private.Answers.{StartsFresh};
    ghost use Rattle.bpf_explore.specs.Private.Peers.{AreAllRefilled, AreOfKind, CanExchange, FitPeers, HasGrown, IsKeptAround, IsKeptExchanged, IsKeptFrom};

    /// Machines that all came about by turns.
    pub fn new(alloc: Global, album: Album, origins: Vec<Origin>) -> Spread<R>
        requires runs { AreRuns R.runs }
        requires origins { AreOrigins R.runs album.kept origins.items }
        ensures { result ≡ album }
    {
        Spread {
            alloc,
            album,
            origins,
            swaps: Vec::new(alloc),
            of: PhantomData,
        }
    }

    /// The machine to work with.
    pub fn machine(&self) -> &Machine
        ensures machine { result.now ≡ self.now.machine }
        ensures lists { self.now.machine.lists ≡ None }
    {
        self.album.machine()
    }

    /// How many are kept.
    pub fn len(&self) -> usize
        ensures { result ≡ length self.now.kept }
    {
        self.album.len()
    }

    /// Whether each job of a kept machine has ended.
    pub fn has_ended(&self, place: usize) -> bool
        requires { place < length self.now.kept }
        ensures ended { result ≡ true → HaveEndedAt self.now.kept place }
        ensures works { result ≡ false → HaveEndedAt self.now.kept place → ⊥ }
    {
        self.album.has_ended(place)
    }

    /// Takes a kept machine to work with.
    pub fn restore(&mut self, place: usize) -> Result<(), AllocError>
        requires { place < length self.old.kept }
        ensures ok { OnOk result (slice_get self.old.kept place ≡ Some self.new.machine) }
        ensures same { self.new.kept ≡ self.old.kept }
    {
        self.album.restore(place)
    }

    /// A schedule that leads to a kept machine from the first: CPUs, each with how many turns it
    /// makes before the next.
    pub fn way(&self, place: usize) -> Result<Vec<(u8, u64)>, AllocError>
        requires { place < length self.now.kept }
        ensures { IfOk result
            (λ by. LeadsThrough R.runs self.now.kept 0 (unrolled by.items) place) }
    {
        let mut noted = Vec::new(self.alloc);
        let mut state = place;
        while state >= self.origins.len() {
            let swap = self.swaps[state - self.origins.len()];
            noted.push(swap)?;
            state = swap.from as usize;
        }
        let mut by = way_back::<R>(self.alloc, &self.origins, state)?;
        while let Some(swap) = noted.pop() {
            exchange_turns(&mut by, swap.one, swap.other);
        }
        Ok(by)
    }

    /// Makes turns from the first machine, as the dive of this number does. The schedule that they are.
    pub fn dive(&mut self, number: u32) -> Result<Vec<(u8, u64)>, AllocError>
        requires { 0 < length self.old.kept }
        ensures dived { IfOk result (λ by. IsReplayed self.old.kept (unrolled by.items)
            self.new.machine) }
        ensures same { self.new.kept ≡ self.old.kept }
    {
        let mut course = Course::new(number, self.album.cpus());
        self.album.restore(0)?;
        let by = dive(self.alloc, &mut self.album, &mut course)?;
        Ok(by)
    }

    /// Makes the turns of a schedule from the first machine. Whether some job is out of budget then.
    pub fn replay(&mut self, by: &[(u8, u64)]) -> Result<bool, AllocError>
        requires { 0 < length self.old.kept }
        ensures same { self.new.kept ≡ self.old.kept }
        ensures replayed { OnOk result (IsReplayed self.old.kept (unrolled by.now)
            self.new.machine) }
        ensures out { IfOk result (λ out. out ≡ true → CanRunOut self.old.kept) }
        ensures none { IfOk result (λ out. out ≡ false → NoneRanOut self.new.machine.jobs) }
    {
        replay_in(&mut self.album, by)
    }

    /// A schedule leads to each of them, in runs of this kind.
    pub fn leads(&self)
        ensures { AreLedThrough R.runs self.now.kept }
    {
        let _ = &self.origins;
    }

    /// No world is shown by two of them.
    pub fn apart(&self)
        ensures { AreApart self.now.kept }
    {
        self.album.apart();
    }

    /// Each of them is of the kind that is kept.
    fn of_kind(&self)
        ensures { AreOfKind self.now.stock self.now.kept }
    {
        self.album.of_kind();
    }

    /// Its runs are of this kind.
    fn runs(&self)
        ensures { AreRuns R.runs }
    {
        let _ = &self.origins;
    }

    /// Keeps the end of a place with those of two equal jobs exchanged.
    fn keep_exchanged(
        &mut self,
        peers: &[Peer],
        place: usize,
        one: usize,
        other: usize,
    ) -> Result<(), AllocError>
        requires can { CanExchange self.old.stock self.old.kept peers.now }
        requires place { place < length self.old.kept }
        requires ended { HaveEndedAt self.old.kept place }
        requires less { one < other }
        requires within { other < length peers.now }
        requires group { (p : Peer) × (q : Peer) × AreOneGroup peers.now one other p q }
        ensures kept { OnOk result (IsKeptExchanged self.new.kept place one other) }
        ensures grown { HasGrown self.old self.new }
    {
        bpf_live::laws::alike_is_an_equivalence();
        self.album.of_kind();
        let from = number_of(place)?;
        self.album.exchange_end(place, one, other)?;
        let swap = Swap {
            from,
            one: cpu_of(peers, one),
            other: cpu_of(peers, other),
        };
        self.swaps.push(swap)?;
        let kept = self.album.keep(None);
        self.swaps.truncate(self.album.len() - self.origins.len());
        kept?;
        Ok(())
    }

    /// Keeps it so for two jobs, if they are of one group.
    fn keep_if_equal(
        &mut self,
        peers: &[Peer],
        place: usize,
        one: usize,
        other: usize,
    ) -> Result<(), AllocError>
        requires can { CanExchange self.old.stock self.old.kept peers.now }
        requires place { place < length self.old.kept }
        requires ended { HaveEndedAt self.old.kept place }
        requires less { one < other }
        requires within { other < length peers.now }
        ensures kept { OnOk result ((p q : Peer) → AreOneGroup peers.now one other p q
            → IsKeptExchanged self.new.kept place one other) }
        ensures grown { HasGrown self.old self.new }
    {
        if !are_one_group(peers, one, other) {
            return Ok(());
        }
        self.keep_exchanged(peers, place, one, other)?;
        Ok(())
    }

    /// Keeps it so for a job and each later one of its group.
    fn keep_from(&mut self, peers: &[Peer], place: usize, one: usize) -> Result<(), AllocError>
        requires can { CanExchange self.old.stock self.old.kept peers.now }
        requires place { place < length self.old.kept }
        requires ended { HaveEndedAt self.old.kept place }
        requires one { one < length peers.now }
        ensures kept { OnOk result
            (IsKeptFrom peers.now self.new.kept place one (length peers.now)) }
        ensures grown { HasGrown self.old self.new }
    {
        for other in one + 1..peers.len() {
            self.keep_if_equal(peers, place, one, other)?;
        }
        Ok(())
    }

    /// Keeps it so for each two jobs of one group.
    fn keep_around(&mut self, peers: &[Peer], place: usize) -> Result<(), AllocError>
        requires can { CanExchange self.old.stock self.old.kept peers.now }
        requires place { place < length self.old.kept }
        requires ended { HaveEndedAt self.old.kept place }
        ensures kept { OnOk result (IsKeptAround peers.now self.new.kept place (length peers.now)) }
        ensures grown { HasGrown self.old self.new }
    {
        for one in 0..peers.len() {
            self.keep_from(peers, place, one)?;
        }
        Ok(())
    }

    /// Does so, if the jobs of the place have all ended.
    fn close_at(&mut self, peers: &[Peer], place: usize) -> Result<(), AllocError>
        requires can { CanExchange self.old.stock self.old.kept peers.now }
        requires place { place < length self.old.kept }
        ensures kept { OnOk result (HaveEndedAt self.old.kept place
            → IsKeptAround peers.now self.new.kept place (length peers.now)) }
        ensures grown { HasGrown self.old self.new }
    {
        if !self.has_ended(place) {
            return Ok(());
        }
        self.keep_around(peers, place)?;
        Ok(())
    }

    /// Keeps each end with those of equal jobs exchanged, until nothing is new, more than `limit` are
    /// kept, or memory is refused. How far it came.
    pub fn close(&mut self, peers: &[Peer], limit: usize) -> Extent
        requires first { StartsFresh self.old.kept }
        requires fit { FitPeers self.old.stock self.old.kept peers.now }
        ensures whole { result ≡ Extent.Whole → KeepsEnds peers.now self.new.kept }
        ensures extends { Extends self.old.kept self.new.kept }
        ensures budgets { AreAllRefilled self.old.kept → AreAllRefilled self.new.kept }
        ensures met { result ≡ Extent.Limited → limit < length self.new.kept }
        ensures short { result ≡ Extent.Refused → length self.new.kept ≤ limit }
    {
        let mut next = 0;
        while next < self.len() {
            if self.len() > limit {
                return Extent::Limited;
            }
            let Ok(()) = self.close_at(peers, next) else {
                return cut_short(self.len(), limit);
            };
            next += 1;
        }
        self.runs();
        self.leads();
        self.of_kind();
        Extent::Whole
    }
}
