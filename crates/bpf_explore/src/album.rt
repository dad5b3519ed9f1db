//! Machines that a search keeps: each store and each job once, and of each machine their numbers.

ghost use Rattle.std.specs.Prelude.{◌≡◌, ◌≢◌, ◌<◌, ◌≤◌, ◌++◌, ◌∷◌, ◌⊎◌, List, [], ℕ, true, false, Some, All, IfOk, IfSome, OnOk, OnSome, drop, length, slice_get, slice_index_or};
ghost use Rattle.bpf_cpu.specs.Task.{Task};
ghost use Rattle.bpf_plain.specs.PlainStore.{IsSavedAs};
ghost use Rattle.bpf_machine.specs.Rounds.{HaveEnded};
ghost use Rattle.bpf_machine.specs.Hands.{IsFree, NoneWaits};
ghost use Rattle.bpf_machine.specs.Patient.{NoneRanOut};
ghost use Rattle.bpf_explore.specs.Stores.{IsOfShape, no_store};
ghost use Rattle.bpf_machine.specs.Parts.{chosen, no_task};
ghost use Rattle.bpf_explore.specs.Private.Album.{AreKeptUnder, AreNumbersOf, AreOthers, HasEndedOn, IsNumberOf, IsRecalled};

use crate::exchanges::{count_up, exchange_ends};
use crate::explorer::turns_of;
use crate::parts::Parts;
use crate::states::States;
use crate::stores::{Stores, new_store};
use bpf_alike::{Merged, live_tables};
use bpf_equal::{Peer, Twins, find_peers};
use bpf_live::Live;
use bpf_machine::{KeptJob, Machine};
use bpf_shared::StoreShape;
use std::alloc::{AllocError, Global};
use std::marker::Model;

/// The number in 32 bits. One that is greater counts as out of memory.
pub(crate) fn number_of(count: usize) -> Result<u32, AllocError>
    ensures { IfOk result (λ n. n ≡ count) }
{
    u32::try_from(count).map_err(|_| AllocError)
}

/// A CPU's turn from a kept machine.
#[derive(Clone, Copy)]
pub(crate) struct Turned {
    pub place: usize,
    pub cpu: u8,
}

/// Room in which a machine gets its numbers.
#[derive(Drop)]
pub(crate) struct Room {
    /// For what its store is saved as.
    pub bytes: Vec<u8>,
    pub numbers: Vec<u32>,
    /// Those that its jobs had before a CPU's turn, which leaves the jobs of other CPUs; none where it is
    /// not known what it came from.
    pub before: Vec<u32>,
    /// The CPU.
    pub cpu: u8,
}

impl Room {
    /// Nothing is known.
    pub(crate) fn new(alloc: Global) -> Room
        ensures { result.before.items ≡ [] }
    {
        Room {
            bytes: Vec::new(alloc),
            numbers: Vec::new(alloc),
            before: Vec::new(alloc),
            cpu: 0,
        }
    }
}

/// Has the numbers be known of the jobs that a machine had before a CPU's turn, if it came by one.
fn recall(room: &mut Room, states: &States, turned: Option<Turned>) -> Result<(), AllocError>
    requires { IfSome turned (λ t. t.place < states.now.tuples.count) }
    ensures { OnOk result (IsRecalled states.now.tuples turned room.new.before.items room.new.cpu) }
{
    room.before.clear();
    if let Some(turned) = turned {
        let tuple = states.tuple(turned.place);
        room.before.extend_from_slice(behind_first(tuple))?;
        room.cpu = turned.cpu;
    }
    Ok(())
}

/// The number of a job that a CPU's turn left as it was.
fn other_number(parts: &[KeptJob], room: &Room, job: usize) -> Option<u32>
    requires { All (λ n. n < length parts.now) room.now.before.items }
    ensures { IfSome result (λ n. (slice_get room.now.before.items job ≡ Some n)
        × ((slice_index_or parts.now n no_task).cpu ≢ room.now.cpu)) }
{
    let number = *room.before.get(job)?;
    if parts[number as usize].cpu() == room.cpu {
        return None;
    }
    Some(number)
}

/// The number under which a machine's job is kept.
fn keep_job(
    alloc: Global,
    parts: &mut Parts,
    machine: &Machine,
    room: &Room,
    job: usize,
) -> Result<u32, AllocError>
    requires job { job < length machine.now.jobs }
    requires others { AreOthers parts.old room.now.before.items room.now.cpu machine.now.jobs }
    ensures grows { (more : List Task) × (parts.new ≡ parts.old ++ more) }
    ensures number { IfOk result (λ n. IsNumberOf parts.new n machine.now.jobs job) }
{
    if let Some(number) = other_number(parts.jobs(), room, job) {
        return Ok(number);
    }
    let number = parts.keep(alloc, machine, job)?;
    number_of(number)
}

/// Puts the numbers under which a machine's jobs are kept after what is there.
fn keep_jobs(
    alloc: Global,
    parts: &mut Parts,
    machine: &Machine,
    room: &mut Room,
) -> Result<(), AllocError>
    requires { AreOthers parts.old room.old.before.items room.old.cpu machine.now.jobs }
    ensures grows { (more : List Task) × (parts.new ≡ parts.old ++ more) }
    ensures numbers { OnOk result ((more : List ℕ)
        × (room.new.numbers.items ≡ room.old.numbers.items ++ more)
        × AreNumbersOf parts.new more machine.now.jobs) }
{
    for job in 0..machine.jobs() {
        let number = keep_job(alloc, parts, machine, room, job)?;
        room.numbers.push(number)?;
    }
    Ok(())
}

/// Takes all bytes out. Called, and first of all, so that who calls it sets up its frame before that:
/// LLVM would put it after a few instructions, and lose a register there.
#[inline(never)]
fn clear_bytes(bytes: &mut Vec<u8>)
    ensures { bytes.new.items ≡ [] }
{
    bytes.clear();
}

/// Takes all numbers out. Called, as above.
#[inline(never)]
fn clear_numbers(numbers: &mut Vec<u32>)
    ensures { numbers.new.items ≡ [] }
{
    numbers.clear();
}

/// The number under which a machine's store is kept. What it is saved as is written over the bytes.
fn keep_store(
    alloc: Global,
    stores: &mut Stores,
    shape: &StoreShape,
    machine: &Machine,
    bytes: &mut Vec<u8>,
) -> Result<u32, AllocError>
    requires { IsOfShape shape.now machine.now.store }
    ensures adds { (stores.new ≡ stores.old)
        ⊎ (stores.new ≡ stores.old ++ machine.now.store ∷ []) }
    ensures within { IfOk result (λ n. n < length stores.new) }
    ensures alike { IfOk result (λ n. (saved : List ℕ) × IsSavedAs machine.now.store saved
        × IsSavedAs (slice_index_or stores.new n no_store) saved) }
{
    clear_bytes(bytes);
    let store = machine.store();
    store.save(bytes)?;
    let number = stores.keep(alloc, shape, store, bytes)?;
    number_of(number)
}

/// The numbers under which a machine's store and jobs are kept are written over those of the room.
fn keep_machine(
    alloc: Global,
    shape: &StoreShape,
    machine: &Machine,
    stores: &mut Stores,
    parts: &mut Parts,
    room: &mut Room,
) -> Result<(), AllocError>
    requires shape { IsOfShape shape.now machine.now.store }
    requires others { AreOthers parts.old room.old.before.items room.old.cpu machine.now.jobs }
    ensures adds { (stores.new ≡ stores.old)
        ⊎ (stores.new ≡ stores.old ++ machine.now.store ∷ []) }
    ensures grows { (more : List Task) × (parts.new ≡ parts.old ++ more) }
    ensures numbers { OnOk result
        (AreKeptUnder stores.new parts.new machine.now room.new.numbers.items) }
{
    clear_numbers(&mut room.numbers);
    let store = keep_store(alloc, stores, shape, machine, &mut room.bytes)?;
    room.numbers.push(store)?;
    keep_jobs(alloc, parts, machine, room)?;
    Ok(())
}

/// The number under which a machine's store is kept, if it is. What it is saved as is written over
/// the bytes.
fn find_store(stores: &Stores, machine: &Machine, bytes: &mut Vec<u8>) -> Option<u32>
    ensures within { IfSome result (λ n. n < length stores.now) }
    ensures alike { IfSome result (λ n. (saved : List ℕ) × IsSavedAs machine.now.store saved
        × IsSavedAs (slice_index_or stores.now n no_store) saved) }
{
    clear_bytes(bytes);
    machine.store().save(bytes).ok()?;
    let number = stores.number(bytes)?;
    number_of(number).ok()
}

/// The number under which a machine's job is kept, if it is.
fn find_job(parts: &Parts, machine: &Machine, room: &Room, job: usize) -> Option<u32>
    requires job { job < length machine.now.jobs }
    requires others { AreOthers parts.now room.now.before.items room.now.cpu machine.now.jobs }
    ensures { IfSome result (λ n. IsNumberOf parts.now n machine.now.jobs job) }
{
    if let Some(number) = other_number(parts.jobs(), room, job) {
        return Some(number);
    }
    let number = parts.number(machine, job)?;
    number_of(number).ok()
}

/// Puts the numbers under which a machine's jobs are kept after what is there, if they all are.
fn find_jobs(parts: &Parts, machine: &Machine, room: &mut Room) -> Option<()>
    requires { AreOthers parts.now room.old.before.items room.old.cpu machine.now.jobs }
    ensures { OnSome result ((more : List ℕ)
        × (room.new.numbers.items ≡ room.old.numbers.items ++ more)
        × AreNumbersOf parts.now more machine.now.jobs) }
{
    for job in 0..machine.jobs() {
        let number = find_job(parts, machine, room, job)?;
        let Ok(()) = room.numbers.push(number) else {
            return None;
        };
    }
    Some(())
}

/// The numbers under which a machine's store and jobs are kept are written over those of the room, if
/// they all are.
fn find_machine(machine: &Machine, stores: &Stores, parts: &Parts, room: &mut Room) -> Option<()>
    requires { AreOthers parts.now room.old.before.items room.old.cpu machine.now.jobs }
    ensures { OnSome result
        (AreKeptUnder stores.now parts.now machine.now room.new.numbers.items) }
{
    clear_numbers(&mut room.numbers);
    let store = find_store(stores, machine, &mut room.bytes)?;
    let Ok(()) = room.numbers.push(store) else {
        return None;
    };
    find_jobs(parts, machine, room)?;
    Some(())
}

/// The numbers after the first.
pub(crate) fn behind_first(numbers: &[u32]) -> &[u32]
    requires { 1 ≤ length numbers.now }
    ensures { result.now ≡ drop 1 numbers.now }
{
    &numbers[1..]
}

/// Whether each of the jobs that have these numbers has ended.
fn have_ended(parts: &[KeptJob], numbers: &[u32]) -> bool
    requires { All (λ n. n < length parts.now) numbers.now }
    ensures ended { result ≡ true → HaveEnded (chosen parts.now numbers.now) }
    ensures works { result ≡ false → HaveEnded (chosen parts.now numbers.now) → ⊥ }
{
    for job in 0..numbers.len() {
        if !parts[numbers[job] as usize].has_ended() {
            return false;
        }
    }
    true
}

/// Whether none of the jobs that have these numbers has ended out of budget.
fn none_ran_out(parts: &[KeptJob], numbers: &[u32]) -> bool
    requires { All (λ n. n < length parts.now) numbers.now }
    ensures none { result ≡ true → NoneRanOut (chosen parts.now numbers.now) }
    ensures out { result ≡ false → NoneRanOut (chosen parts.now numbers.now) → ⊥ }
{
    for job in 0..numbers.len() {
        if parts[numbers[job] as usize].is_out_of_budget() {
            return false;
        }
    }
    true
}

/// Whether a job is a CPU's, and hasn't ended.
fn is_open(part: &KeptJob, cpu: u8) -> bool
    ensures { result ≡ false → HasEndedOn cpu part.now }
{
    part.cpu() == cpu && !part.has_ended()
}

/// Whether some of the jobs that have these numbers is.
fn has_work(parts: &[KeptJob], numbers: &[u32], cpu: u8) -> bool
    requires { All (λ n. n < length parts.now) numbers.now }
    ensures { result ≡ false → IsFree (chosen parts.now numbers.now) cpu
        × NoneWaits (chosen parts.now numbers.now) cpu }
{
    for job in 0..numbers.len() {
        if is_open(&parts[numbers[job] as usize], cpu) {
            return true;
        }
    }
    false
}

/// The least budget of these jobs, if there are any.
fn least_budget(parts: &[KeptJob]) -> u64
    ensures { (n : ℕ) (task : Task) → slice_get parts.now n ≡ Some task → result ≤ task.budget }
{
    let mut least = u64::MAX;
    for part in parts {
        least = least.min(part.budget());
    }
    least
}

/// Machines of one host, each under its number, in the order in which they came, and one to work
/// with.
#[derive(Drop)]
pub struct Album {
    alloc: Global,
    shape: StoreShape,
    machine: Machine,
    stores: Stores,
    parts: Parts,
    states: States,
    room: Room,
}

impl Model for Album {
    ghost use Rattle.std.specs.Prelude.{◌≡◌, ◌+◌, length};
    ghost use Rattle.bpf_explore.specs.Album.{AlbumState};
    ghost use Rattle.bpf_alike.specs.Worlds.{AreLiveTables, table_at};
    ghost use Rattle.bpf_explore.specs.Private.Album.{Shelf, machines, stocked, IsShelf, FitsShelf};

    ghost Value = { AlbumState };

    ghost view = { λ a. let shelf : Shelf = record {
      programs = a.machine.programs;
      stores = a.stores;
      parts = a.parts;
      states = a.states.tuples;
    } in
        record {
          machine = a.machine;
          kept = machines shelf a.states.tuples.count;
          cpus = a.shape.cpus;
          stock = stocked a.shape shelf;
        } };

    ghost invariant = { λ a. let shelf : Shelf = record {
      programs = a.machine.programs;
      stores = a.stores;
      parts = a.parts;
      states = a.states.tuples;
    } in
        IsShelf a.shape shelf × FitsShelf a.shape shelf a.machine
        × AreLiveTables a.machine.programs (table_at a.states.tables) };
}

impl Album {
    ghost use Rattle.std.specs.Prelude.{◌≡◌, ◌<◌, ◌≤◌, ◌∷◌, ℕ, [], true, false, IfOk, OnOk, Some, None, length, replicate, slice_get};
    ghost use Rattle.bpf_machine.specs.Machine.{MachineState, Shows};
    ghost use Rattle.bpf_machine.specs.Schedule.{World, RunsSchedule, unrolled};
    ghost use Rattle.bpf_machine.specs.Cover.{TurnsTo, TurnsAhead};
    ghost use Rattle.bpf_machine.specs.Patient.{IsRefilled};
    ghost use Rattle.bpf_explore.specs.Search.{IsIdleAt};
    ghost use Rattle.bpf_explore.specs.Scouts.{IsTurnAhead};
    ghost use Rattle.bpf_alike.specs.Worlds.{AreLiveTables, table_at};
    ghost use Rattle.bpf_equal.specs.Groups.{ArePeers};
    ghost use Rattle.bpf_explore.specs.Private.Peers.{FitPeers, IsKeptElsewhereAt};
    ghost use Rattle.bpf_explore.specs.Stores.{IsOfShape};
    ghost use Rattle.bpf_explore.specs.Album.{ShowsFirst, IsKeptAlikeAt, AreApart, HaveEndedAt, NoneRanOutAt, HaveBudgets, AreKeptUnder, FitsStock, HasMore, IsNumbered};
    ghost use Rattle.bpf_machine.specs.Hands.{OthersStay};
    ghost use Rattle.bpf_explore.specs.Private.Album.{AddsOne, CameBy};
    ghost use Rattle.bpf_explore.specs.Private.Peers.{AreOfKind, HasJobs, IsExchanged};

    /// Nothing is kept yet.
    fn empty(
        alloc: Global,
        shape: StoreShape,
        machine: Machine,
        merged: Merged,
    ) -> Result<Album, AllocError>
        requires shape { IsOfShape shape machine.store }
        requires lists { machine.lists ≡ None }
        ensures machine { IfOk result (λ a. a.machine ≡ machine) }
        ensures empty { IfOk result (λ a. a.kept ≡ []) }
    {
        let tables = live_tables(alloc, machine.programs(), merged)?;
        let width = machine.jobs().checked_add(1).ok_or(AllocError)?;
        Ok(Album {
            alloc,
            shape,
            machine,
            stores: Stores::new(alloc),
            parts: Parts::new(alloc),
            states: States::new(alloc, width, tables),
            room: Room::new(alloc),
        })
    }

    /// The machine to work with.
    pub fn machine(&self) -> &Machine
        ensures machine { result.now ≡ self.now.machine }
        ensures lists { self.now.machine.lists ≡ None }
    {
        &self.machine
    }

    /// How many are kept.
    pub fn len(&self) -> usize
        ensures { result ≡ length self.now.kept }
    {
        self.states.count()
    }

    /// About how many bytes of memory they take.
    pub fn bytes(&self) -> usize {
        let parts = self.parts.bytes().saturating_add(self.states.bytes());
        self.stores.bytes(&self.shape).saturating_add(parts)
    }

    /// Takes a kept machine to work with.
    pub fn restore(&mut self, place: usize) -> Result<(), AllocError>
        requires { place < length self.old.kept }
        ensures ok { OnOk result (slice_get self.old.kept place ≡ Some self.new.machine) }
        ensures same { self.new.kept ≡ self.old.kept }
        ensures cpus { self.new.cpus ≡ self.old.cpus }
        ensures stock { self.new.stock ≡ self.old.stock }
    {
        let tuple = self.states.tuple(place);
        let store = self.stores.store(tuple[0] as usize);
        let numbers = behind_first(tuple);
        self.machine
            .restore(self.alloc, store, self.parts.jobs(), numbers)?;
        Ok(())
    }

    /// Takes a kept machine to work with whose jobs have all ended, with the ends of two of them
    /// exchanged.
    pub(crate) fn exchange_end(
        &mut self,
        place: usize,
        one: usize,
        other: usize,
    ) -> Result<(), AllocError>
        requires place { place < length self.old.kept }
        requires ended { HaveEndedAt self.old.kept place }
        requires jobs { HasJobs self.old.kept place one other }
        ensures ok { OnOk result ((m : MachineState) → slice_get self.old.kept place ≡ Some m
            → IsExchanged one other m self.new.machine) }
        ensures same { self.new.kept ≡ self.old.kept }
        ensures cpus { self.new.cpus ≡ self.old.cpus }
        ensures stock { self.new.stock ≡ self.old.stock }
    {
        let tuple = self.states.tuple(place);
        let store = self.stores.store(tuple[0] as usize);
        let parts = self.parts.jobs();
        let jobs = exchange_ends(self.alloc, parts, behind_first(tuple), one, other)?;
        let numbers = count_up(self.alloc, jobs.len())?;
        self.machine.restore(self.alloc, store, &jobs, &numbers)?;
        Ok(())
    }

    /// One turn of a CPU, and then its turns that no store sees. How many of these.
    pub fn turn_ahead(&mut self, cpu: u8) -> u64
        ensures turns { TurnsTo self.old.machine cpu self.new.machine }
        ensures ahead { TurnsAhead self.old.machine cpu result self.new.machine }
        ensures runs { (w : World) → Shows self.old.machine w → (z : World)
            × RunsSchedule w (cpu ∷ replicate result cpu) z × Shows self.new.machine z }
        ensures others { OthersStay self.old.machine.jobs cpu self.new.machine.jobs }
        ensures same { self.new.kept ≡ self.old.kept }
        ensures cpus { self.new.cpus ≡ self.old.cpus }
        ensures stock { self.new.stock ≡ self.old.stock }
    {
        self.machine.turn_ahead(cpu)
    }

    /// Gives the job that a CPU has in hand, if it has one, its whole budget back.
    pub fn refill(&mut self, cpu: u8)
        ensures refills { IsRefilled self.old.machine cpu self.new.machine }
        ensures same { self.new.kept ≡ self.old.kept }
        ensures cpus { self.new.cpus ≡ self.old.cpus }
        ensures stock { self.new.stock ≡ self.old.stock }
    {
        self.machine.refill(cpu);
    }

    /// The turns of a schedule that is printed by CPUs, each with how many turns it takes before the
    /// next.
    pub fn turns_by(&mut self, runs: &[(u8, u64)])
        ensures runs { (w : World) → Shows self.old.machine w → (z : World)
            × RunsSchedule w (unrolled runs.now) z × Shows self.new.machine z }
        ensures same { self.new.kept ≡ self.old.kept }
        ensures cpus { self.new.cpus ≡ self.old.cpus }
        ensures stock { self.new.stock ≡ self.old.stock }
    {
        self.machine.turns_by(runs)
    }

    /// Keeps the machine, unless one is found that shows all that it shows, perhaps but for registers
    /// that are written before they are read. Under which number. It may have come by a CPU's turn.
    pub(crate) fn keep(&mut self, turned: Option<Turned>) -> Result<usize, AllocError>
        requires { CameBy self.old.kept turned self.old.machine.jobs }
        ensures within { IfOk result (λ n. n < length self.new.kept) }
        ensures kept { IfOk result (λ n. IsKeptAlikeAt self.new.kept n self.new.machine) }
        ensures adds { AddsOne self.old.kept self.old.machine self.new.kept }
        ensures same { self.new.machine ≡ self.old.machine }
        ensures cpus { self.new.cpus ≡ self.old.cpus }
        ensures more { HasMore self.old.stock self.new.stock }
    {
        self.machine.stands();
        recall(&mut self.room, &self.states, turned)?;
        keep_machine(
            self.alloc,
            &self.shape,
            &self.machine,
            &mut self.stores,
            &mut self.parts,
            &mut self.room,
        )?;
        let number = self
            .states
            .keep(self.alloc, self.parts.jobs(), &self.room.numbers)?;
        Ok(number)
    }

    /// The numbers under which the machine's store and jobs are kept are written over those of the room:
    /// what isn't there yet is kept. It may have come by a CPU's turn.
    pub(crate) fn enter(
        &mut self,
        room: &mut Room,
        turned: Option<Turned>,
    ) -> Result<(), AllocError>
        requires { CameBy self.old.kept turned self.old.machine.jobs }
        ensures kept { self.new.kept ≡ self.old.kept }
        ensures numbered { OnOk result
            (IsNumbered self.new.stock self.new.machine room.new.numbers.items) }
        ensures same { self.new.machine ≡ self.old.machine }
        ensures cpus { self.new.cpus ≡ self.old.cpus }
        ensures more { HasMore self.old.stock self.new.stock }
    {
        self.machine.stands();
        recall(room, &self.states, turned)?;
        keep_machine(
            self.alloc,
            &self.shape,
            &self.machine,
            &mut self.stores,
            &mut self.parts,
            room,
        )?;
        Ok(())
    }

    /// Makes a CPU's turn from a kept machine, and then the turns of it that no store sees. The numbers of
    /// the store and jobs that they lead to are written over those of the room. How many were made after
    /// the first.
    pub(crate) fn look_ahead(
        &mut self,
        room: &mut Room,
        place: usize,
        cpu: u8,
    ) -> Result<u32, AllocError>
        requires { place < length self.old.kept }
        ensures kept { self.new.kept ≡ self.old.kept }
        ensures turn { IfOk result (λ n. IsTurnAhead false self.old.kept self.new.stock place cpu n
            room.new.numbers.items) }
        ensures cpus { self.new.cpus ≡ self.old.cpus }
        ensures more { HasMore self.old.stock self.new.stock }
    {
        self.restore(place)?;
        let made = self.turn_ahead(cpu);
        let ahead = turns_of(made)?;
        self.enter(room, Some(Turned { place, cpu }))?;
        Ok(ahead)
    }

    /// As `look_ahead`, where the job that the CPU has in hand then, if it has one, gets its whole budget
    /// back.
    pub(crate) fn look_ahead_patiently(
        &mut self,
        room: &mut Room,
        place: usize,
        cpu: u8,
    ) -> Result<u32, AllocError>
        requires { place < length self.old.kept }
        ensures kept { self.new.kept ≡ self.old.kept }
        ensures turn { IfOk result (λ n. IsTurnAhead true self.old.kept self.new.stock place cpu n
            room.new.numbers.items) }
        ensures cpus { self.new.cpus ≡ self.old.cpus }
        ensures more { HasMore self.old.stock self.new.stock }
    {
        self.restore(place)?;
        let made = self.turn_ahead(cpu);
        let ahead = turns_of(made)?;
        self.refill(cpu);
        self.enter(room, Some(Turned { place, cpu }))?;
        Ok(ahead)
    }

    /// Whether a kept machine is the one of these numbers, perhaps but for which of its equal jobs is how
    /// far, and for registers that are written before they are read.
    pub(crate) fn is_elsewhere(
        &self,
        twins: &mut Twins,
        place: usize,
        numbers: &[u32],
    ) -> Result<bool, AllocError>
        requires place { place < length self.now.kept }
        requires numbered { (m : MachineState) × IsNumbered self.now.stock m numbers.now }
        requires peers { ArePeers self.now.stock.shape self.now.stock.programs twins.old.peers.items }
        requires tables { AreLiveTables self.now.stock.programs (table_at twins.old.tables.items) }
        ensures peers { twins.new.peers ≡ twins.old.peers }
        ensures tables { twins.new.tables ≡ twins.old.tables }
        ensures kept { IfOk result (λ is. is ≡ true → (m : MachineState)
            → IsNumbered self.now.stock m numbers.now
            → IsKeptElsewhereAt twins.old.peers.items self.now.kept place m) }
    {
        let tuple = self.states.tuple(place);
        if tuple[0] != numbers[0] {
            return Ok(false);
        }
        let others = behind_first(tuple);
        let own = behind_first(numbers);
        let is = twins.are_alike(self.parts.jobs(), own, others)?;
        Ok(is)
    }

    /// Which jobs of the first machine are equal.
    pub(crate) fn peers(&self) -> Result<Vec<Peer>, AllocError>
        requires { 0 < length self.now.kept }
        ensures { IfOk result (λ ps. FitPeers self.now.stock self.now.kept ps.items) }
    {
        let first = behind_first(self.states.tuple(0));
        let programs = self.machine.programs();
        let peers = find_peers(self.alloc, &self.shape, programs, self.parts.jobs(), first)?;
        Ok(peers)
    }

    /// By program, the registers that it may read before it writes them.
    pub(crate) fn tables(&self) -> Result<Vec<Live>, AllocError>
        ensures { IfOk result (λ ts. AreLiveTables self.now.stock.programs (table_at ts.items)) }
    {
        let tables = live_tables(self.alloc, self.machine.programs(), Merged::Alike)?;
        Ok(tables)
    }

    /// The kept jobs.
    pub(crate) fn jobs(&self) -> &[KeptJob] {
        self.parts.jobs()
    }

    /// The numbers of a kept machine's store and jobs.
    pub(crate) fn numbers(&self, place: usize) -> &[u32]
        requires { place < length self.now.kept }
    {
        self.states.tuple(place)
    }

    /// Keeps the machine whose store and jobs are there under these numbers, as `keep` does. Under
    /// which number.
    pub(crate) fn keep_numbered(&mut self, numbers: &[u32]) -> Result<usize, AllocError>
        requires { (m : MachineState) × IsNumbered self.old.stock m numbers.now }
        ensures within { IfOk result (λ n. n < length self.new.kept) }
        ensures kept { IfOk result (λ n. (m : MachineState) → IsNumbered self.old.stock m numbers.now
            → IsKeptAlikeAt self.new.kept n m) }
        ensures adds { (m : MachineState) → IsNumbered self.old.stock m numbers.now
            → AddsOne self.old.kept m self.new.kept }
        ensures same { self.new.machine ≡ self.old.machine }
        ensures cpus { self.new.cpus ≡ self.old.cpus }
        ensures stock { self.new.stock ≡ self.old.stock }
    {
        let number = self.states.keep(self.alloc, self.parts.jobs(), numbers)?;
        Ok(number)
    }

    /// Has another machine of the same kind be a kept one.
    pub(crate) fn look(&self, machine: &mut Machine, place: usize) -> Result<(), AllocError>
        requires fits { FitsStock self.now.stock machine.old }
        requires there { place < length self.now.kept }
        ensures ok { OnOk result (slice_get self.now.kept place ≡ Some machine.new) }
        ensures fits { FitsStock self.now.stock machine.new }
    {
        let tuple = self.states.tuple(place);
        let store = self.stores.store(tuple[0] as usize);
        let numbers = behind_first(tuple);
        machine.restore(self.alloc, store, self.parts.jobs(), numbers)?;
        Ok(())
    }

    /// The numbers under which the store and the jobs of another machine are there, which came by a
    /// CPU's turn, are written over those of the room, if they all are.
    pub(crate) fn number(&self, machine: &Machine, room: &mut Room, turned: Turned) -> bool
        requires { CameBy self.now.kept (Some turned) machine.now.jobs }
        ensures { result ≡ true → AreKeptUnder self.now.stock.stores self.now.stock.parts
            machine.now room.new.numbers.items }
    {
        let Ok(()) = recall(room, &self.states, Some(turned)) else {
            return false;
        };
        find_machine(machine, &self.stores, &self.parts, room).is_some()
    }

    /// Another machine of the same kind.
    pub(crate) fn another(&self) -> Result<Machine, AllocError>
        ensures { IfOk result (FitsStock self.now.stock) }
    {
        let store = new_store(self.alloc, &self.shape)?;
        let machine = self.machine.another(self.alloc, store)?;
        Ok(machine)
    }

    /// How many CPUs there are: those of the numbers below it.
    pub fn cpus(&self) -> u8
        ensures cpus { result ≡ self.now.cpus }
        ensures idle { (i c : ℕ) → result ≤ c → IsIdleAt self.now.kept i c }
    {
        self.shape.cpus()
    }

    /// Whether each job of a kept machine has ended.
    pub fn has_ended(&self, place: usize) -> bool
        requires { place < length self.now.kept }
        ensures ended { result ≡ true → HaveEndedAt self.now.kept place }
        ensures works { result ≡ false → HaveEndedAt self.now.kept place → ⊥ }
    {
        have_ended(self.parts.jobs(), behind_first(self.states.tuple(place)))
    }

    /// Whether no job of a kept machine has ended out of budget.
    pub fn none_ran_out(&self, place: usize) -> bool
        requires { place < length self.now.kept }
        ensures none { result ≡ true → NoneRanOutAt self.now.kept place }
        ensures out { result ≡ false → NoneRanOutAt self.now.kept place → ⊥ }
    {
        none_ran_out(self.parts.jobs(), behind_first(self.states.tuple(place)))
    }

    /// Whether a CPU has work in a kept machine.
    pub fn has_work(&self, place: usize, cpu: u8) -> bool
        requires { place < length self.now.kept }
        ensures { result ≡ false → IsIdleAt self.now.kept place cpu }
    {
        has_work(
            self.parts.jobs(),
            behind_first(self.states.tuple(place)),
            cpu,
        )
    }

    /// A number of steps that each job of a kept machine has in its budget.
    pub fn least_budget(&self) -> u64
        ensures { HaveBudgets self.now.kept result }
    {
        least_budget(self.parts.jobs())
    }

    /// No world is shown by two of the kept machines.
    pub fn apart(&self)
        ensures { AreApart self.now.kept }
    {
        self.stores.apart();
        self.parts.apart();
        self.states.apart();
    }

    /// Each of them is of the kind that is kept.
    pub(crate) fn of_kind(&self)
        ensures { AreOfKind self.now.stock self.now.kept }
    {
        let _ = &self.states;
    }

    /// Machines of which the first is kept, and then one of those that count as one.
    pub fn new(
        alloc: Global,
        shape: StoreShape,
        machine: Machine,
        merged: Merged,
    ) -> Result<Album, AllocError>
        requires shape { IsOfShape shape machine.store }
        requires lists { machine.lists ≡ None }
        ensures one { IfOk result (λ a. length a.kept ≡ 1) }
        ensures first { IfOk result (λ a. ShowsFirst a.kept machine) }
    {
        let mut album = Album::empty(alloc, shape, machine, merged)?;
        album.keep(None)?;
        Ok(album)
    }
}
