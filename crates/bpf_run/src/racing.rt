//! `ebpf explore --races`: every data race of a run file's jobs, whatever the order of the CPUs' turns.

ghost use Rattle.std.specs.Prelude.{◌≡◌, IfOk, map, string_bytes};
ghost use Rattle.bpf_file.specs.File.{file_of};
ghost use Rattle.bpf_cpu.specs.Setup.{IsRunnable, named_in};
ghost use Rattle.bpf_jobs.specs.Printed.{first_of};
ghost use Rattle.bpf_races.specs.Races.{AreRaces};
ghost use Rattle.bpf_replies.specs.Answer.{Replies};
ghost use Rattle.bpf_run.specs.Racing.{FindsRaces, IsRacesFile, TellsRaces, is_any_race};

use bpf_check::Raced;
use bpf_command::{RaceOptions, SearchOptions};
use bpf_cpu::Setup;
use bpf_explore::{Crew, Observer};
use bpf_file::RunFile;
use bpf_loader::Named;
use bpf_races::{
    Part, Races, comment_races, find_races, find_races_patiently, list_races, synced_parts,
};
use bpf_replies::exploring::scope_of;
use bpf_replies::racer::Racer;
use bpf_replies::refusal::Refusal;
use bpf_replies::reply::Reply;
use bpf_replies::running::file_in;
use bpf_shared::StoreShape;
use std::alloc::{AllocError, Global};

/// What is printed of races.
struct Told {
    text: String,
    /// Whether there is one.
    raced: bool,
    /// Whether they are all.
    all: bool,
}

/// Whether there is some race.
fn is_any_race(races: &Races) -> bool
    ensures { result ≡ is_any_race races.now.list.items }
{
    !races.list.is_empty()
}

/// How many maps and arrays a store of this shape has.
fn named_of(shape: &StoreShape) -> Named
    ensures { result ≡ named_in shape.now }
{
    Named {
        maps: shape.maps().len(),
        arrays: shape.arrays().len(),
    }
}

/// The races of jobs, by either search.
fn races_of<C: Crew, O: Observer>(
    alloc: Global,
    options: &SearchOptions,
    setup: Setup,
    sync: &[Part],
    crew: &C,
    observer: &mut O,
) -> Result<Races, AllocError>
    requires crew { C.can }
    requires runs { IsRunnable setup }
    ensures { IfOk result (λ r. AreRaces options.now.patient (first_of setup) sync.now
        r.list.items r.all r.refused options.now.limit) }
{
    let scope = scope_of(options, crew);
    if options.patient {
        find_races_patiently(alloc, setup, sync, scope, observer)
    } else {
        find_races(alloc, setup, sync, scope, observer)
    }
}

/// What is printed of the races of a file's jobs, but for those at bytes that are left out.
fn tell_races<C: Crew, O: Observer>(
    alloc: Global,
    options: SearchOptions,
    sync: &[Part],
    file: RunFile,
    crew: &C,
    observer: &mut O,
) -> Result<Told, AllocError>
    requires crew { C.can }
    requires runs { IsRunnable file.setup }
    ensures { IfOk result (λ told. TellsRaces options.patient options.limit (file_of file)
        sync.now (string_bytes told.text) told.raced told.all) }
{
    let RunFile { setup, names, .. } = file;
    let named = named_of(&setup.shape);
    let races = races_of(alloc, &options, setup, sync, crew, observer)?;
    let text = list_races(alloc, named, &names, sync, &races)?;
    let raced = is_any_race(&races);
    let all = races.all;
    Ok(Told { text, raced, all })
}

/// What is found of the races of a file's jobs, as tests rest on it.
fn found_races<C: Crew, O: Observer>(
    alloc: Global,
    options: &SearchOptions,
    file: RunFile,
    crew: &C,
    observer: &mut O,
) -> Result<Raced, AllocError>
    requires crew { C.can }
    requires runs { IsRunnable file.setup }
    ensures { IfOk result (FindsRaces options.now.patient options.now.limit (file_of file)) }
{
    let RunFile { setup, names, .. } = file;
    let named = named_of(&setup.shape);
    let races = races_of(alloc, options, setup, &[], crew, observer)?;
    let lines = comment_races(alloc, named, &names, &races.list)?;
    Ok(Raced {
        lines,
        some: is_any_race(&races),
        all: races.all,
    })
}

/// The search of `ebpf explore --races`, for `ebpf check`.
#[derive(Drop)]
pub struct AllRaces;

impl Racer for AllRaces {
    ghost use Rattle.bpf_run.specs.Racing.{AreRacesOf};

    ghost finds = { AreRacesOf };

    fn races<C: Crew, O: Observer>(
        alloc: Global,
        options: &SearchOptions,
        text: &str,
        crew: &C,
        observer: &mut O,
    ) -> Result<Raced, Refusal> {
        let file = file_in(alloc, text)?;
        let raced = found_races(alloc, options, file, crew, observer)?;
        Ok(raced)
    }
}

/// `ebpf explore --races`.
#[tactic(auto, using(crate::proofs::Raced::raced))]
pub fn race_file<C: Crew, O: Observer>(
    alloc: Global,
    options: RaceOptions,
    text: &str,
    crew: &C,
    observer: &mut O,
) -> Result<Reply, Refusal>
    requires crew { C.can }
    ensures { Replies (IsRacesFile options.search.patient options.search.limit
        (map string_bytes options.sync.items) text.now) result }
{
    let file = file_in(alloc, text)?;
    let Some(parts) = synced_parts(alloc, &file.names, &file.setup.shape, &options.sync)? else {
        return Err(Refusal::NoMap);
    };
    let Told { text, raced, all } = tell_races(
        alloc,
        options.search,
        &parts,
        file,
        crew,
        observer,
    )?;
    Ok(Reply::Outcomes {
        text,
        stopped: raced,
        all,
    })
}
