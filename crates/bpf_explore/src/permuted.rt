//! A search that keeps one of the machines that are the same but for which of their equal jobs is how
//! far.

ghost use Rattle.std.specs.Prelude.{◌≡◌, ◌<◌, [], IfOk, IfSome, length};
ghost use Rattle.bpf_machine.specs.Machine.{MachineState};
ghost use Rattle.bpf_alike.specs.Worlds.{AreLiveTables, table_at};
ghost use Rattle.bpf_equal.specs.Groups.{ArePeers};
ghost use Rattle.bpf_explore.specs.Album.{IsNumbered};
ghost use Rattle.bpf_explore.specs.Private.Peers.{FitPeers, IsKeptElsewhereAt};

use crate::album::{Album, Room};
use crate::crew::Crew;
use crate::explorer::Explorer;
use crate::frontier::Frontier;
use crate::places::Places;
use crate::runs::Strictly;
use crate::spread::Spread;
use bpf_alike::Merged;
use bpf_equal::{Peer, Twins};
use std::alloc::{AllocError, Global};
use std::marker::Model;

/// The kept machine that is that of these numbers but for which of its equal jobs is how far, if one is.
pub(crate) fn find_known(
    album: &Album,
    twins: &mut Twins,
    places: &mut Places,
    numbers: &[u32],
) -> Result<Option<usize>, AllocError>
    requires numbered { (m : MachineState) × IsNumbered album.now.stock m numbers.now }
    requires peers { ArePeers album.now.stock.shape album.now.stock.programs
        twins.old.peers.items }
    requires tables { AreLiveTables album.now.stock.programs (table_at twins.old.tables.items) }
    ensures peers { twins.new.peers ≡ twins.old.peers }
    ensures tables { twins.new.tables ≡ twins.old.tables }
    ensures within { IfOk result (λ found. IfSome found (λ place. place < length album.now.kept)) }
    ensures kept { IfOk result (λ found. IfSome found (λ place. (m : MachineState)
        → IsNumbered album.now.stock m numbers.now
        → IsKeptElsewhereAt twins.old.peers.items album.now.kept place m)) }
{
    places.learn(album, twins)?;
    let hash = places.hash(twins, numbers);
    for step in 0..places.len() {
        let Some(place) = places.place(hash, step) else {
            return Ok(None);
        };
        if place < album.len() && album.is_elsewhere(twins, place, numbers)? {
            return Ok(Some(place));
        }
    }
    Ok(None)
}

/// Which jobs of a search are equal; none is to another where no states are merged.
pub(crate) fn equal_jobs(
    alloc: Global,
    album: &Album,
    merged: Merged,
) -> Result<Vec<Peer>, AllocError>
    requires { 0 < length album.now.kept }
    ensures { IfOk result (λ peers. FitPeers album.now.stock album.now.kept peers.items) }
{
    match merged {
        Merged::Alike => album.peers(),
        Merged::Same => Ok(Vec::new(alloc)),
    }
}

/// A search, and which of its jobs are equal.
#[derive(Drop)]
pub struct PermutedExplorer {
    explorer: Explorer,
    twins: Twins,
    places: Places,
    room: Room,
}

impl Model for PermutedExplorer {
    ghost use Rattle.bpf_explore.specs.Album.{PermutedState};
    ghost use Rattle.bpf_explore.specs.Private.Permuted.{AreTwins};

    ghost Value = { PermutedState };

    ghost view = { λ p. record { found = p.explorer; peers = p.twins.peers.items } };

    ghost invariant = { λ p. AreTwins p.explorer.stock p.explorer.kept p.twins.peers.items
        p.twins.tables.items };
}

impl PermutedExplorer {
    ghost use Rattle.std.specs.Prelude.{◌≡◌, ◌<◌, IfOk, length};
    ghost use Rattle.bpf_machine.specs.Schedule.{World};
    ghost use Rattle.bpf_equal.specs.Races.{StaysExchanged};
    ghost use Rattle.bpf_explore.specs.Album.{BeginsAt};
    ghost use Rattle.bpf_explore.specs.Private.Peers.{FitPeers};

    /// The same search, in which equal jobs are looked for where states are merged.
    pub fn new(
        alloc: Global,
        explorer: Explorer,
        merged: Merged,
    ) -> Result<PermutedExplorer, AllocError>
        requires { 0 < length explorer.kept }
        ensures { IfOk result (λ p. p.found ≡ explorer) }
    {
        let peers = equal_jobs(alloc, explorer.album(), merged)?;
        let tables = explorer.album().tables()?;
        Ok(PermutedExplorer {
            explorer,
            twins: Twins::new(alloc, peers, tables),
            places: Places::new(alloc),
            room: Room::new(alloc),
        })
    }

    /// What it kept, and the equal jobs.
    pub(crate) fn into_spread(self) -> (Spread<Strictly>, Vec<Peer>)
        ensures spread { result.0 ≡ self.found }
        ensures peers { result.1.items ≡ self.peers }
        ensures fit { FitPeers self.found.stock self.found.kept self.peers }
    {
        (self.explorer.into_spread(), self.twins.into_peers())
    }

    /// The search, and the equal jobs: the first machine stays as it is where two of them change places.
    pub fn into_parts(self) -> (Explorer, Vec<Peer>)
        ensures found { result.0 ≡ self.found }
        ensures peers { result.1.items ≡ self.peers }
        ensures stays { (w : World) → BeginsAt self.found.kept w → StaysExchanged self.peers w }
    {
        self.explorer.leads();
        self.explorer.album().of_kind();
        (self.explorer, self.twins.into_peers())
    }
}

impl Frontier for PermutedExplorer {
    ghost use Rattle.bpf_explore.specs.Search.{Permuted};

    ghost kept = { λ p. p.found.kept };

    ghost manner = { λ p. Permuted p.peers };

    ghost width = { λ p. p.found.cpus };

    ghost has_made = { λ p turns. Unit {0} };

    ghost was_refused = { λ p. Unit {0} };

    fn count(&self) -> usize {
        self.explorer.len()
    }

    fn bytes(&self) -> usize {
        self.explorer.bytes().saturating_add(self.places.bytes())
    }

    fn cpus(&self) -> u8 {
        self.explorer.cpus()
    }

    fn turn(&mut self, place: usize, cpu: u8) -> Result<(), AllocError> {
        let looked = self.explorer.look(&mut self.room, place, cpu)?;
        let Some(ahead) = looked else {
            return Ok(());
        };
        let numbers = &self.room.numbers;
        let album = self.explorer.album();
        if let Some(_) = find_known(album, &mut self.twins, &mut self.places, numbers)? {
            return Ok(());
        }
        let number = self.explorer.keep_turn(place, cpu, ahead, numbers)?;
        self.places.add(self.explorer.album(), &self.twins, number)?;
        Ok(())
    }

    fn prepare<C: Crew>(&mut self, crew: &C, place: usize) {
        self.explorer.send_ahead(crew, place);
    }
}
