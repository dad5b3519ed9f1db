//! The patient search: machines that differ only in how many steps are left of budgets count as
//! one, which has them all; and so do those that differ only in which of their equal jobs is how far.

ghost use Rattle.std.specs.Prelude.{◌≡◌, ◌<◌, ◌++◌, ◌∷◌, ℕ, true, [], IfOk, OnErr, OnOk, length};
ghost use Rattle.bpf_machine.specs.Machine.{MachineState};
ghost use Rattle.bpf_machine.specs.Ends.{RunsFreely};
ghost use Rattle.bpf_explore.specs.Album.{HasMore, HaveWholeBudgets, IsKeptAlikeAt, IsNumbered};
ghost use Rattle.bpf_explore.specs.Scouts.{AreScouts, IsTurnAhead};
ghost use Rattle.bpf_explore.specs.Search.{Extends};
ghost use Rattle.bpf_explore.specs.Private.Trail.{AreOrigins};

use crate::album::{Album, Room, Turned, number_of};
use crate::crew::Crew;
use crate::explorer::{Origin, way_back};
use crate::frontier::Frontier;
use crate::permuted::{equal_jobs, find_known};
use crate::places::Places;
use crate::replays::replay_in;
use crate::room::bytes_of;
use crate::runs::Freely;
use crate::scouts::Scouts;
use crate::spread::Spread;
use crate::turns::{Arrival, Edge, Turns, is_next};
use bpf_alike::Merged;
use bpf_equal::{Peer, Twins};
use bpf_machine::Machine;
use bpf_shared::StoreShape;
use std::alloc::{AllocError, Global};
use std::marker::Model;
use std::mem;

/// Where a CPU's turn leads from a kept machine, with the turns of it after that no store sees: as a
/// scout has noted it, or else by making them. The numbers of the store and jobs there are written over
/// those of the room. How many turns were made after the first.
fn look(
    album: &mut Album,
    scouts: &Scouts,
    room: &mut Room,
    place: usize,
    cpu: u8,
) -> Result<u32, AllocError>
    requires place { place < length album.old.kept }
    requires scouts { AreScouts true album.old.kept album.old.stock scouts.now.scouts.items }
    ensures kept { album.new.kept ≡ album.old.kept }
    ensures turn { IfOk result (λ n. IsTurnAhead true album.old.kept album.new.stock place cpu n
        room.new.numbers.items) }
    ensures cpus { album.new.cpus ≡ album.old.cpus }
    ensures more { HasMore album.old.stock album.new.stock }
{
    if let Some(found) = scouts.find(place, cpu) {
        room.numbers.clear();
        room.numbers.extend_from_slice(scouts.numbers(&found))?;
        return Ok(found.note.ahead);
    }
    album.look_ahead_patiently(room, place, cpu)
}

/// Keeps where a CPU's turn from a kept machine led, with n turns after it that no store sees, under
/// its numbers, and how it came about.
fn keep_turn(
    album: &mut Album,
    origins: &mut Vec<Origin>,
    turned: Turned,
    ahead: u32,
    numbers: &[u32],
) -> Result<usize, AllocError>
    requires place { turned.place < length album.old.kept }
    requires turn { IsTurnAhead true album.old.kept album.old.stock turned.place turned.cpu ahead
        numbers.now }
    requires origins { AreOrigins RunsFreely album.old.kept origins.old.items }
    requires whole { HaveWholeBudgets album.old.kept }
    ensures origins { AreOrigins RunsFreely album.new.kept origins.new.items }
    ensures whole { HaveWholeBudgets album.new.kept }
    ensures within { IfOk result (λ n. n < length album.new.kept) }
    ensures kept { IfOk result (λ n. (m : MachineState)
        → IsNumbered album.old.stock m numbers.now → IsKeptAlikeAt album.new.kept n m) }
    ensures extends { Extends album.old.kept album.new.kept }
    ensures cpus { album.new.cpus ≡ album.old.cpus }
    ensures stock { album.new.stock ≡ album.old.stock }
{
    let Turned { place, cpu } = turned;
    let from = number_of(place)?;
    origins.push(Origin { from, ahead, cpu })?;
    let kept = album.keep_numbered(numbers);
    origins.truncate(album.len());
    let number = kept?;
    Ok(number)
}

/// Notes where a turn led.
fn arrive(arrivals: &mut Vec<Arrival>, number: usize, ahead: u32) -> Result<(), AllocError>
    ensures ok { OnOk result (arrivals.new.items
        ≡ arrivals.old.items ++ record { to = number; ahead = ahead } ∷ []) }
    ensures err { OnErr result (arrivals.new.items ≡ arrivals.old.items) }
{
    let to = number_of(number)?;
    arrivals.push(Arrival { to, ahead })?;
    Ok(())
}

/// By each CPU of a kept machine, the CPU of the one that was compared with it last whose job was taken
/// for its own. Nothing that is promised rests on it.
fn moved_cpus(alloc: Global, album: &Album, twins: &Twins) -> Result<Vec<u8>, AllocError> {
    let mut moved = same_cpus(alloc, album.cpus())?;
    let jobs = album.jobs();
    for (place, peer) in twins.peers().iter().enumerate() {
        if let Some(number) = twins.order().get(place)
            && let Some(job) = jobs.get(*number as usize)
            && let Some(cpu) = moved.get_mut(usize::from(peer.cpu))
        {
            *cpu = job.cpu();
        }
    }
    Ok(moved)
}

/// Each CPU for itself.
pub(crate) fn same_cpus(alloc: Global, cpus: u8) -> Result<Vec<u8>, AllocError> {
    let mut same = Vec::new(alloc);
    for cpu in 0..cpus {
        same.push(cpu)?;
    }
    Ok(same)
}

/// An album of machines whose jobs in hand have their whole budgets left, how each came about, and
/// where each CPU's turn leads from it: those of the first machine, CPU by CPU, and then those of the
/// next. A turn out of this order is refused, as where memory lacks; no search makes one.
#[derive(Drop)]
pub struct PatientExplorer {
    alloc: Global,
    album: Album,
    /// Of each machine; that of the first isn't read.
    origins: Vec<Origin>,
    /// In the order of their turns.
    arrivals: Vec<Arrival>,
    scouts: Scouts,
    twins: Twins,
    places: Places,
    room: Room,
}

impl Model for PatientExplorer {
    ghost use Rattle.std.specs.Prelude.{map, true};
    ghost use Rattle.bpf_machine.specs.Ends.{RunsFreely};
    ghost use Rattle.bpf_explore.specs.Album.{PatientState, HaveWholeBudgets};
    ghost use Rattle.bpf_explore.specs.Scouts.{AreScouts};
    ghost use Rattle.bpf_explore.specs.Private.Trail.{AreOrigins};
    ghost use Rattle.bpf_explore.specs.Private.Edges.{AreEdges, edges_of, turn_of};
    ghost use Rattle.bpf_explore.specs.Private.Permuted.{AreTwins};

    ghost Value = { PatientState };

    ghost view = { λ e. record {
      machine = e.album.machine;
      kept = e.album.kept;
      cpus = e.album.cpus;
      made = map turn_of (edges_of e.album.cpus e.arrivals.items);
      peers = e.twins.peers.items;
    } };

    ghost invariant = { λ e. (AreOrigins RunsFreely e.album.kept e.origins.items
        × AreEdges e.twins.peers.items e.album.kept (edges_of e.album.cpus e.arrivals.items)
        × HaveWholeBudgets e.album.kept)
        × AreScouts true e.album.kept e.album.stock e.scouts.scouts.items
        × AreTwins e.album.stock e.album.kept e.twins.peers.items e.twins.tables.items };
}

impl PatientExplorer {
    ghost use Rattle.std.specs.Prelude.{◌≡◌, ◌<◌, ◌≤◌, ◌++◌, ◌∷◌, List, ℕ, true, false, [], IfOk, OnOk, Some, None, length, slice_get};
    ghost use Rattle.bpf_machine.specs.Machine.{Shows};
    ghost use Rattle.bpf_machine.specs.Patient.{NoneRanOut};
    ghost use Rattle.bpf_machine.specs.Schedule.{World, RunsSchedule, unrolled};
    ghost use Rattle.bpf_explore.specs.Search.{Richly, Extends, IsIdleAt, IsTurned, rows_of};
    ghost use Rattle.bpf_explore.specs.Stores.{IsOfShape};
    ghost use Rattle.bpf_equal.specs.Races.{StaysExchanged};
    ghost use Rattle.bpf_explore.specs.Album.{BeginsAt, ShowsFirst, AreApart, AreLedFreely, LeadsFreely, HaveEndedAt, NoneRanOutAt, HaveBudgets, HaveWholeBudgets};
    ghost use Rattle.bpf_explore.specs.Private.Answers.{StartsFresh};
    ghost use Rattle.bpf_explore.specs.Private.Edges.{AreTurns};
    ghost use Rattle.bpf_explore.specs.Private.Hung.{LeadsOn, StaysFirst};
    ghost use Rattle.bpf_explore.specs.Private.Peers.{FitPeers};
    ghost use Rattle.bpf_explore.specs.Private.Replays.{CanRunOut, IsReplayed};

    /// A search of which the first machine is kept, in which no jobs count as equal.
    pub fn new(
        alloc: Global,
        shape: StoreShape,
        machine: Machine,
        merged: Merged,
    ) -> Result<PatientExplorer, AllocError>
        requires shape { IsOfShape shape machine.store }
        requires lists { machine.lists ≡ None }
        ensures first { IfOk result (λ e. ShowsFirst e.kept machine) }
        ensures none { IfOk result (λ e. e.made ≡ []) }
        ensures apart { IfOk result (λ e. e.peers ≡ []) }
    {
        let album = Album::new(alloc, shape, machine, merged)?;
        let tables = album.tables()?;
        let mut origins = Vec::new(alloc);
        origins.push(Origin {
            from: 0,
            ahead: 0,
            cpu: 0,
        })?;
        Ok(PatientExplorer {
            alloc,
            album,
            origins,
            arrivals: Vec::new(alloc),
            scouts: Scouts::new(alloc),
            twins: Twins::new(alloc, Vec::new(alloc), tables),
            places: Places::new(alloc),
            room: Room::new(alloc),
        })
    }

    /// Looks for equal jobs, before the first turn, where states are merged.
    pub fn find_equal(&mut self, merged: Merged) -> Result<(), AllocError>
        requires some { 0 < length self.old.kept }
        requires none { self.old.made ≡ [] }
        ensures same { self.new.kept ≡ self.old.kept }
        ensures none { self.new.made ≡ [] }
    {
        let peers = equal_jobs(self.alloc, &self.album, merged)?;
        let tables = self.album.tables()?;
        self.twins = Twins::new(self.alloc, peers, tables);
        Ok(())
    }

    /// The machine to work with.
    pub fn machine(&self) -> &Machine
        ensures machine { result.now ≡ self.now.machine }
        ensures lists { self.now.machine.lists ≡ None }
    {
        self.album.machine()
    }

    /// How many are kept.
    pub fn len(&self) -> usize
        ensures { result ≡ length self.now.kept }
    {
        self.album.len()
    }

    /// Whether each job of a kept machine has ended.
    pub fn has_ended(&self, place: usize) -> bool
        requires { place < length self.now.kept }
        ensures ended { result ≡ true → HaveEndedAt self.now.kept place }
        ensures works { result ≡ false → HaveEndedAt self.now.kept place → ⊥ }
    {
        self.album.has_ended(place)
    }

    /// Whether no job of a kept machine has ended out of budget.
    pub fn none_ran_out(&self, place: usize) -> bool
        requires { place < length self.now.kept }
        ensures none { result ≡ true → NoneRanOutAt self.now.kept place }
        ensures out { result ≡ false → NoneRanOutAt self.now.kept place → ⊥ }
    {
        self.album.none_ran_out(place)
    }

    /// Whether a CPU has work in a kept machine.
    pub fn has_work(&self, place: usize, cpu: u8) -> bool
        requires { place < length self.now.kept }
        ensures { result ≡ false → IsIdleAt self.now.kept place cpu }
    {
        self.album.has_work(place, cpu)
    }

    /// A number of steps that each job of a kept machine has in its budget.
    pub fn least_budget(&self) -> u64
        ensures { HaveBudgets self.now.kept result }
    {
        self.album.least_budget()
    }

    /// Takes a kept machine to work with.
    pub fn restore(&mut self, place: usize) -> Result<(), AllocError>
        requires { place < length self.old.kept }
        ensures ok { OnOk result (slice_get self.old.kept place ≡ Some self.new.machine) }
        ensures same { self.new.kept ≡ self.old.kept }
        ensures peers { self.new.peers ≡ self.old.peers }
    {
        self.album.restore(place)
    }

    /// The turns of a schedule that is printed by CPUs, each with how many turns it takes before the
    /// next.
    pub fn turns_by(&mut self, runs: &[(u8, u64)])
        ensures runs { (w : World) → Shows self.old.machine w → (z : World)
            × RunsSchedule w (unrolled runs.now) z × Shows self.new.machine z }
        ensures same { self.new.kept ≡ self.old.kept }
        ensures peers { self.new.peers ≡ self.old.peers }
    {
        self.album.turns_by(runs);
    }

    /// A schedule that leads to a kept machine from the first, where jobs are given steps on the
    /// way.
    pub fn way(&self, place: usize) -> Result<Vec<(u8, u64)>, AllocError>
        requires { place < length self.now.kept }
        ensures { IfOk result (λ by. LeadsFreely self.now.kept 0 (unrolled by.items) place) }
    {
        way_back::<Freely>(self.alloc, &self.origins, place)
    }

    /// Makes the turns of a schedule from the first machine. Whether some job is out of budget then.
    pub(crate) fn replay(&mut self, by: &[(u8, u64)]) -> Result<bool, AllocError>
        requires { 0 < length self.old.kept }
        ensures same { self.new.kept ≡ self.old.kept }
        ensures peers { self.new.peers ≡ self.old.peers }
        ensures replayed { OnOk result (IsReplayed self.old.kept (unrolled by.now)
            self.new.machine) }
        ensures out { IfOk result (λ out. out ≡ true → CanRunOut self.old.kept) }
        ensures none { IfOk result (λ out. out ≡ false → NoneRanOut self.new.machine.jobs) }
    {
        replay_in(&mut self.album, by)
    }

    /// The kept machine from which the search came to this one.
    pub(crate) fn came_from(&self, place: usize) -> usize
        requires { (0 < place) × (place < length self.now.kept) }
        ensures before { result < place }
        ensures leads { LeadsOn self.now.kept result place }
    {
        self.origins[place].from as usize
    }

    /// By each CPU of the kept machine that a turn led to, the CPU of the machine there which is as far.
    /// Nothing that is promised rests on it.
    pub(crate) fn moved_by(&mut self, edge: Edge) -> Result<Vec<u8>, AllocError>
        requires from { edge.from < length self.old.kept }
        requires to { edge.to < length self.old.kept }
        ensures same { self.new.kept ≡ self.old.kept }
        ensures peers { self.new.peers ≡ self.old.peers }
    {
        let room = &mut self.room;
        look(&mut self.album, &self.scouts, room, edge.from, edge.cpu)?;
        let to = edge.to as usize;
        if self
            .album
            .is_elsewhere(&mut self.twins, to, &self.room.numbers)?
        {
            return moved_cpus(self.alloc, &self.album, &self.twins);
        }
        same_cpus(self.alloc, self.album.cpus())
    }

    /// Takes out where turns led. They are all, if the turns that were made are those of each CPU
    /// from each kept machine.
    pub(crate) fn take_turns(&mut self) -> Result<Turns, AllocError>
        ensures same { self.new.kept ≡ self.old.kept }
        ensures kind { self.new.peers ≡ self.old.peers }
        ensures peers { IfOk result (λ t. t.peers.items ≡ self.old.peers) }
        ensures turns { IfOk result (λ t.
            self.old.made ≡ rows_of self.old.cpus (length self.old.kept)
            → AreTurns self.old.kept t) }
    {
        let cpus = self.album.cpus();
        let mut peers = Vec::new(self.alloc);
        peers.extend_from_slice(self.twins.peers())?;
        let arrivals = mem::replace(&mut self.arrivals, Vec::new(self.alloc));
        Ok(Turns {
            cpus,
            peers,
            arrivals,
        })
    }

    /// The equal jobs: the first machine stays as it is where two of them change places.
    pub fn copy_peers(&self) -> Result<Vec<Peer>, AllocError>
        ensures peers { IfOk result (λ peers. peers.items ≡ self.now.peers) }
        ensures stays { IfOk result (λ peers. (w : World) → BeginsAt self.now.kept w
            → StaysExchanged peers.items w) }
    {
        self.album.of_kind();
        let mut peers = Vec::new(self.alloc);
        peers.extend_from_slice(self.twins.peers())?;
        Ok(peers)
    }

    /// What is kept, after the search, and the equal jobs.
    pub(crate) fn into_spread(self) -> (Spread<Freely>, Vec<Peer>)
        ensures kept { result.0.kept ≡ self.kept }
        ensures peers { result.1.items ≡ self.peers }
        ensures fit { FitPeers result.0.stock result.0.kept result.1.items }
    {
        let PatientExplorer {
            alloc,
            album,
            origins,
            twins,
            ..
        } = self;
        (Spread::new(alloc, album, origins), twins.into_peers())
    }

    /// Makes a CPU's turn from a kept machine, and then the turns of it that no store sees. Keeps
    /// where they led, unless one is kept that is the same but for places of equal jobs.
    fn make(&mut self, place: usize, cpu: u8) -> Result<(), AllocError>
        requires { place < length self.old.kept }
        ensures turned { OnOk result (IsTurned (Richly self.new.peers) self.new.kept place cpu) }
        ensures made { OnOk result ((turns : List (ℕ × ℕ)) → self.old.made ≡ turns
            → self.new.made ≡ turns ++ (place, cpu) ∷ []) }
        ensures extends { Extends self.old.kept self.new.kept }
        ensures width { self.new.cpus ≡ self.old.cpus }
        ensures peers { self.new.peers ≡ self.old.peers }
    {
        let number = self.arrivals.len();
        let cpus = self.album.cpus();
        if !is_next(number, cpus, place, cpu) {
            return Err(AllocError);
        }
        let ahead = look(&mut self.album, &self.scouts, &mut self.room, place, cpu)?;
        let numbers = &self.room.numbers;
        let known = find_known(&self.album, &mut self.twins, &mut self.places, numbers)?;
        if let Some(number) = known {
            arrive(&mut self.arrivals, number, ahead)?;
            return Ok(());
        }
        let turned = Turned { place, cpu };
        let number = keep_turn(&mut self.album, &mut self.origins, turned, ahead, numbers)?;
        self.places.add(&self.album, &self.twins, number)?;
        arrive(&mut self.arrivals, number, ahead)?;
        Ok(())
    }

    /// Makes the turn of a CPU without work, which leads to the machine that it is made from.
    fn stay(&mut self, place: usize, cpu: u8) -> Result<(), AllocError>
        requires there { place < length self.old.kept }
        requires idle { IsIdleAt self.old.kept place cpu }
        ensures turned { OnOk result (IsTurned (Richly self.new.peers) self.new.kept place cpu) }
        ensures made { OnOk result ((turns : List (ℕ × ℕ)) → self.old.made ≡ turns
            → self.new.made ≡ turns ++ (place, cpu) ∷ []) }
        ensures extends { Extends self.old.kept self.new.kept }
        ensures width { self.new.cpus ≡ self.old.cpus }
        ensures peers { self.new.peers ≡ self.old.peers }
    {
        let number = self.arrivals.len();
        let cpus = self.album.cpus();
        if !is_next(number, cpus, place, cpu) {
            return Err(AllocError);
        }
        let to = number_of(place)?;
        self.arrivals.push(Arrival { to, ahead: 0 })?;
        Ok(())
    }

    /// A schedule leads to each of them, where jobs are given steps on the way.
    pub fn leads(&self)
        ensures { AreLedFreely self.now.kept }
    {
        let _ = &self.origins;
    }

    /// No world is shown by two of them.
    pub fn apart(&self)
        ensures { AreApart self.now.kept }
    {
        self.album.apart();
    }

    /// Each job in hand of theirs has its whole budget left, so no two differ only in how many steps
    /// are left.
    pub fn refilled(&self)
        ensures { HaveWholeBudgets self.now.kept }
    {
        let _ = &self.origins;
    }

    /// Exchanges of equal jobs leave the first machine as it is.
    pub(crate) fn stays(&self)
        requires { StartsFresh self.now.kept }
        ensures { StaysFirst self.now.peers self.now.kept }
    {
        self.album.of_kind();
        bpf_equal::laws::exchanges_are_symmetries();
    }
}

impl Frontier for PatientExplorer {
    ghost use Rattle.std.specs.Prelude.{◌≡◌};
    ghost use Rattle.bpf_explore.specs.Search.{Richly};

    ghost kept = { λ e. e.kept };

    ghost manner = { λ e. Richly e.peers };

    ghost width = { λ e. e.cpus };

    ghost has_made = { λ e turns. e.made ≡ turns };

    ghost was_refused = { λ e. Unit {0} };

    fn count(&self) -> usize {
        self.len()
    }

    fn bytes(&self) -> usize {
        let origins = bytes_of(&self.origins, size_of::<Origin>());
        let arrivals = bytes_of(&self.arrivals, size_of::<Arrival>());
        self.album
            .bytes()
            .saturating_add(origins)
            .saturating_add(arrivals)
            .saturating_add(self.places.bytes())
    }

    fn cpus(&self) -> u8 {
        self.album.cpus()
    }

    fn turn(&mut self, place: usize, cpu: u8) -> Result<(), AllocError> {
        if self.album.has_work(place, cpu) {
            self.make(place, cpu)
        } else {
            self.stay(place, cpu)
        }
    }

    fn prepare<C: Crew>(&mut self, crew: &C, place: usize) {
        self.scouts.send(crew, &self.album, true, place);
    }
}
