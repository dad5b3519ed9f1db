//! A machine to work with, and states of it that are kept as they were: one of those that count as one.

ghost use Rattle.std.specs.Prelude.{◌≡◌, ◌⊎◌, ◌++◌, ◌∷◌, [], All, IfSome, OnOk, Some, slice_get};
ghost use Rattle.bpf_plain.specs.PlainStore.{IsSavedAs};
ghost use Rattle.bpf_plain.specs.Alike.{IsSameShape};
ghost use Rattle.bpf_machine.specs.Parts.{IsSameHost};
ghost use Rattle.bpf_buffering.specs.Private.Kept.{ShowsAsMuch};

use crate::buffering::Buffering;
use crate::classes::Classes;
use crate::pools::Pools;
use crate::pools::stores::Stores;
use crate::states::States;
use bpf_alike::{Merged, live_tables};
use bpf_live::Live;
use bpf_machine::Turn;
use bpf_plain::PlainStore;
use std::alloc::{AllocError, Global};
use std::marker::Model;

/// The bytes become those that a store is saved as.
fn save_store(store: &PlainStore, bytes: &mut Vec<u8>) -> Result<(), AllocError>
    ensures { OnOk result (IsSavedAs store.now bytes.new.items) }
{
    bytes.clear();
    store.save(bytes)
}

/// The machine takes a kept store that is saved as its own, if one is found; else its own is kept. The
/// number of the store that it has then; none where memory is refused.
fn settle(
    alloc: Global,
    machine: &mut Buffering,
    stores: &mut Stores,
    bytes: &mut Vec<u8>,
) -> Option<u32>
    requires { All (IsSameShape machine.old.machine.store) stores.old }
    ensures shows { ShowsAsMuch machine.old machine.new }
    ensures host { IsSameHost machine.old.machine machine.new.machine }
    ensures at { IfSome result (λ n. slice_get stores.new n ≡ Some machine.new.machine.store) }
    ensures adds { (stores.new ≡ stores.old)
        ⊎ (stores.new ≡ stores.old ++ machine.old.machine.store ∷ []) }
{
    save_store(machine.store(), bytes).ok()?;
    if let Some(number) = stores.find(bytes) {
        machine.take_store(stores.store(number));
        return Some(number);
    }
    stores.keep_anew(alloc, machine.store()).ok()
}

/// A machine to work with, and kept states of it, each under its number, in the order in which they
/// came.
#[derive(Drop)]
pub struct Album {
    alloc: Global,
    machine: Buffering,
    pools: Pools,
    states: States,
    /// By which states are found that count as one.
    classes: Classes,
    /// The number of the machine's store, where it is known.
    store: Option<u32>,
    /// Room to save a store.
    bytes: Vec<u8>,
}

impl Model for Album {
    ghost use Rattle.std.specs.Prelude.{map};
    ghost use Rattle.bpf_alike.specs.Worlds.{AreLiveTables, table_at};
    ghost use Rattle.bpf_buffering.specs.Album.{AlbumState};
    ghost use Rattle.bpf_buffering.specs.Private.Kept.{kept_state, IsAlbum};

    ghost Value = { AlbumState };

    ghost view = { λ a. record {
      machine = a.machine;
      kept = map (kept_state a.pools a.machine.machine.programs) a.states;
    } };

    ghost invariant = { λ a. IsAlbum a.machine a.pools a.states a.store
        × AreLiveTables a.machine.machine.programs (table_at a.classes) };
}

impl Album {
    ghost use Rattle.std.specs.Prelude.{◌≡◌, ◌⊎◌, ◌<◌, ◌≤◌, ◌+◌, ◌++◌, ◌∷◌, ℕ, [], true, false, Some, None, IfOk, IfSome, OnOk, OnErr, length, replicate, slice_get};
    ghost use Rattle.bpf_machine.specs.Patient.{IsRefilled};
    ghost use Rattle.bpf_x86.specs.Machine.{TurnOf, FlushOf};
    ghost use Rattle.bpf_buffering.specs.Search.{BufferedState, MovesTo, RunsTo, CannotMove, buffer_at};
    ghost use Rattle.bpf_buffering.specs.Buffering.{TurnsTo};
    ghost use Rattle.bpf_alike.specs.Worlds.{AreLiveTables, table_at};
    ghost use Rattle.bpf_buffering.specs.Ahead.{MovesAhead};
    ghost use Rattle.bpf_buffering.specs.Album.{HaveEndedAt};
    ghost use Rattle.bpf_buffering.specs.Alike.{IsKeptAlikeAtX86};

    /// Nothing is kept yet. States count as one by these tables.
    fn empty(alloc: Global, machine: Buffering, tables: Vec<Live>) -> Album
        requires { AreLiveTables machine.machine.programs (table_at tables.items) }
        ensures { result ≡ record { machine = machine; kept = [] } }
    {
        Album {
            alloc,
            machine,
            pools: Pools::new(alloc),
            states: States::new(alloc),
            classes: Classes::new(alloc, tables),
            store: None,
            bytes: Vec::new(alloc),
        }
    }

    /// The machine as it is now is kept.
    pub fn new(alloc: Global, machine: Buffering, merged: Merged) -> Result<Album, AllocError>
        ensures machine { IfOk result (λ a. a.machine ≡ machine) }
        ensures kept { IfOk result (λ a. a.kept ≡ machine ∷ []) }
    {
        let tables = live_tables(alloc, machine.programs(), merged)?;
        let mut album = Album::empty(alloc, machine, tables);
        album.keep_new()?;
        Ok(album)
    }

    /// The machine to work with.
    pub fn machine(&self) -> &Buffering
        ensures { result.now ≡ self.now.machine }
    {
        &self.machine
    }

    /// How many are kept.
    pub fn len(&self) -> usize
        ensures { result ≡ length self.now.kept }
    {
        self.states.len()
    }

    /// How many CPUs there are. Those of the numbers from it on have no move that changes anything.
    pub fn cpus(&self) -> u8
        ensures beyond { (i c : ℕ) (m : BufferedState) → slice_get self.now.kept i ≡ Some m
            → result ≤ c → MovesTo m (TurnOf c) m × CannotMove m (FlushOf c) }
        ensures few { result ≤ 16 }
    {
        self.machine.cpus()
    }

    /// Whether each job of a kept state has ended.
    pub fn has_ended(&self, place: usize) -> bool
        requires { place < length self.now.kept }
        ensures ended { result ≡ true → HaveEndedAt self.now.kept place }
        ensures works { result ≡ false → HaveEndedAt self.now.kept place → ⊥ }
    {
        self.pools.jobs.have_ended(&self.states.at(place).jobs)
    }

    /// Takes a kept state to work with. Where memory is refused the machine stays as it is.
    pub fn restore(&mut self, place: usize) -> Result<(), AllocError>
        requires { place < length self.old.kept }
        ensures ok { OnOk result (slice_get self.old.kept place ≡ Some self.new.machine) }
        ensures err { OnErr result (self.new.machine ≡ self.old.machine) }
        ensures same { self.new.kept ≡ self.old.kept }
    {
        let kept = self.states.at(place);
        let jobs = self.pools.jobs.copy(self.alloc, &kept.jobs)?;
        let buffers = self.pools.buffers.copy(self.alloc, kept.buffers)?;
        let store = self.pools.stores.store(kept.store);
        self.machine.take(store, jobs, buffers);
        self.store = Some(kept.store);
        Ok(())
    }

    /// After a move: the machine takes a kept store that is saved as its own, if one is found.
    fn settle(&mut self)
        ensures shows { ShowsAsMuch self.old.machine self.new.machine }
        ensures same { self.new.kept ≡ self.old.kept }
    {
        let store = settle(
            self.alloc,
            &mut self.machine,
            &mut self.pools.stores,
            &mut self.bytes,
        );
        self.store = store;
    }

    /// One turn of a CPU, after which no kept store is looked for.
    pub fn turn(&mut self, cpu: u8) -> Result<Turn, AllocError>
        ensures turns { IfOk result
            (λ turn. TurnsTo self.old.machine cpu turn self.new.machine) }
        ensures host { IsSameHost self.old.machine.machine self.new.machine.machine }
        ensures same { self.new.kept ≡ self.old.kept }
    {
        self.store = None;
        self.machine.turn(cpu)
    }

    /// The CPU's oldest waiting store reaches memory, after which no kept store is looked for. Whether
    /// one waits.
    pub fn flush_alone(&mut self, cpu: u8) -> bool
        ensures flushed { result ≡ true
            → MovesTo self.old.machine (FlushOf cpu) self.new.machine }
        ensures empty { result ≡ false → buffer_at self.old.machine.buffers cpu ≡ [] }
        ensures unchanged { result ≡ false → self.new.machine ≡ self.old.machine }
        ensures host { IsSameHost self.old.machine.machine self.new.machine.machine }
        ensures same { self.new.kept ≡ self.old.kept }
    {
        self.store = None;
        self.machine.flush(cpu)
    }

    /// One turn of a CPU, and then those of its turns that no other CPU sees. How many of these; `None`
    /// of a CPU without work.
    pub fn turn_ahead(&mut self, cpu: u8) -> Result<Option<u64>, AllocError>
        ensures moves { OnOk result
            (MovesAhead self.old.machine (TurnOf cpu) self.new.machine) }
        ensures turns { IfOk result (λ more. IfSome more (λ n. RunsTo self.old.machine
            (replicate (n + 1) (TurnOf cpu)) self.new.machine)) }
        ensures idle { IfOk result (λ more. more ≡ None
            → self.new.machine ≡ self.old.machine) }
        ensures same { self.new.kept ≡ self.old.kept }
    {
        let known = self.store;
        self.store = None;
        if self.machine.turn(cpu)? == Turn::Idle {
            self.store = known;
            return Ok(None);
        }
        let more = self.machine.run_ahead(cpu)?;
        self.settle();
        Ok(Some(more))
    }

    /// Gives the job that a CPU has in hand, if it has one, its whole budget back.
    pub fn refill(&mut self, cpu: u8)
        ensures refills { IsRefilled self.old.machine.machine cpu self.new.machine.machine }
        ensures buffers { self.new.machine.buffers ≡ self.old.machine.buffers }
        ensures same { self.new.kept ≡ self.old.kept }
    {
        self.machine.refill(cpu);
    }

    /// The CPU's oldest waiting store reaches memory. Whether one waits.
    pub fn flush(&mut self, cpu: u8) -> bool
        ensures flushed { result ≡ true
            → MovesTo self.old.machine (FlushOf cpu) self.new.machine }
        ensures none { result ≡ false → CannotMove self.old.machine (FlushOf cpu) }
        ensures unchanged { result ≡ false → self.new.machine ≡ self.old.machine }
        ensures same { self.new.kept ≡ self.old.kept }
    {
        if !self.machine.flush(cpu) {
            return false;
        }
        self.store = None;
        self.settle();
        true
    }

    /// Keeps the machine as it is.
    fn keep_new(&mut self) -> Result<(), AllocError>
        ensures adds { OnOk result (self.new.kept ≡ self.old.kept ++ self.old.machine ∷ []) }
        ensures err { OnErr result (self.new.kept ≡ self.old.kept) }
        ensures machine { self.new.machine ≡ self.old.machine }
    {
        let one = self.pools.number(self.alloc, &self.machine, self.store)?;
        self.classes
            .add(self.alloc, &self.pools.jobs, &mut self.states, one)?;
        Ok(())
    }

    /// Keeps the machine as it is, unless one is found that shows all that it shows, but for dead registers.
    /// Under which number.
    pub fn keep(&mut self) -> Result<usize, AllocError>
        ensures adds { OnOk result ((self.new.kept ≡ self.old.kept)
            ⊎ (self.new.kept ≡ self.old.kept ++ self.old.machine ∷ [])) }
        ensures inside { IfOk result (λ n. n < length self.new.kept) }
        ensures alike { IfOk result (λ n. IsKeptAlikeAtX86 self.new.kept n self.old.machine) }
        ensures err { OnErr result (self.new.kept ≡ self.old.kept) }
        ensures machine { self.new.machine ≡ self.old.machine }
    {
        let one = self.pools.number(self.alloc, &self.machine, self.store)?;
        let found = self.classes.find(&self.pools.jobs, &self.states, &one)?;
        if let Some(place) = found {
            return Ok(place);
        }
        let place = self.states.len();
        self.classes
            .add(self.alloc, &self.pools.jobs, &mut self.states, one)?;
        Ok(place)
    }

    /// About how many bytes of memory the kept states take.
    pub fn bytes(&self) -> usize {
        let states = self.states.bytes(self.machine.jobs());
        let classes = self.classes.bytes();
        self.pools
            .bytes()
            .saturating_add(states)
            .saturating_add(classes)
    }
}
