//! Whether worker threads may reach outcomes that turns don't.
ghost use Rattle.std.specs.Prelude.{◌≡◌, ◌+◌, ◌≤◌, ◌<◌, All, IsTrue, IfOk, IfSome, Some, length, map, slice_get};
ghost use Rattle.bpf_pairs.specs.Pairs.{pair_of};
ghost use Rattle.bpf_cpu.specs.Task.{waiting};
ghost use Rattle.bpf_threads.specs.Counting.{AddUp, AreBounds, HasAtMost, HaveAtMost};
ghost use Rattle.bpf_threads.specs.Threads.{AreOnOneCpu, AreRoomy, HasRoomForRemovals, HasRoomForUpdates, IsReadWhole, IsRoomy, IsTrueOf};
ghost use Rattle.bpf_threads.specs.Outside.{AllReadOutside};
ghost use Rattle.bpf_threads.specs.Private.Charts.{AreCharts, IsAdded, IsBoundAt, IsChartOf, IsWithin, ReadsWholeAt};

use crate::bounding::bound;
use crate::chart::{Drawn, chart};
use crate::counting::{Counted, Kind};
use crate::outside::all_read_outside;
use bpf_cpu::Job;
use bpf_loader::Program;
use bpf_pairs::{Pair, count_in};
use bpf_shared::{MapShape, StoreShape};
use std::alloc::{AllocError, Global};

/// In which ways threads may reach more outcomes than turns.
#[derive(Clone, Copy, PartialEq, Eq, Debug)]
pub struct Threads {
    /// An update may be answered that no element is free, where turns find one.
    pub elements: bool,
    /// A call may read a key or a value from a value of a map or an array while others write it, or
    /// put an array's value there in parts.
    pub parts: bool,
}

/// The program of a number.
fn program_at(programs: &[Program], place: usize) -> &Program
    requires { place < length programs.now }
    ensures { slice_get programs.now place ≡ Some result.now }
{
    &programs[place]
}

/// The chart of one.
fn chart_at(charts: &[Drawn], place: usize) -> &Drawn
    requires { place < length charts.now }
    ensures { slice_get charts.now place ≡ Some result.now }
{
    &charts[place]
}

/// The job of a number.
fn job_at(jobs: &[Job], place: usize) -> &Job
    requires { place < length jobs.now }
    ensures { slice_get jobs.now place ≡ Some result.now }
{
    &jobs[place]
}

/// Charts of the programs.
fn charts(alloc: Global, programs: &[Program]) -> Result<Vec<Drawn>, AllocError>
    ensures { IfOk result (λ charts. AreCharts programs.now charts.items) }
{
    let mut charts = Vec::new(alloc);
    for place in 0..programs.len() {
        let chart = chart(alloc, program_at(programs, place))?;
        charts.push(chart)?;
    }
    Ok(charts)
}

/// How many counted calls a run of a program makes at most, by its chart.
fn bound_by(
    alloc: Global,
    program: &Program,
    chart: &Drawn,
    counted: Counted,
) -> Result<Option<u64>, AllocError>
    requires { IsChartOf program.now chart.now }
    ensures { IfOk result (λ most. IfSome most
        (λ n. HasAtMost counted program.now n)) }
{
    if !chart.whole {
        return Ok(None);
    }
    bound(alloc, program, &chart.spots, counted)
}

/// How many counted calls a run of the program of this number makes at most, by its chart.
fn bound_at(
    alloc: Global,
    programs: &[Program],
    charts: &[Drawn],
    counted: Counted,
    place: usize,
) -> Result<Option<u64>, AllocError>
    requires charts { AreCharts programs.now charts.now }
    requires place { place < length programs.now }
    ensures { IfOk result (IsBoundAt counted programs.now place) }
{
    if place >= charts.len() {
        return Ok(None);
    }
    let program = program_at(programs, place);
    bound_by(alloc, program, chart_at(charts, place), counted)
}

/// How many counted calls a run of each program makes at most.
fn bounds(
    alloc: Global,
    programs: &[Program],
    charts: &[Drawn],
    counted: Counted,
) -> Result<Vec<Option<u64>>, AllocError>
    requires { AreCharts programs.now charts.now }
    ensures { IfOk result (λ bounds. AreBounds counted programs.now bounds.items) }
{
    let mut bounds = Vec::new(alloc);
    for place in 0..programs.len() {
        let most = bound_at(alloc, programs, charts, counted, place)?;
        bounds.push(most)?;
    }
    Ok(bounds)
}

/// What was found of the program of a number.
fn bound_of(bounds: &[Option<u64>], program: usize) -> Option<u64>
    ensures { IfSome result (λ most. slice_get bounds.now program ≡ Some (Some most)) }
{
    match bounds.get(program) {
        Some(bound) => *bound,
        None => None,
    }
}

/// Two numbers together, where there is room for that.
fn sum_of(most: u64, sum: u64) -> Option<u64>
    ensures { IfSome result (λ n. n ≡ most + sum) }
{
    most.checked_add(sum)
}

/// The sum of the jobs from this one on, where that of those after it is this.
fn added(bounds: &[Option<u64>], jobs: &[Job], place: usize, sum: u64) -> Option<u64>
    requires { place < length jobs.now }
    ensures { IfSome result (IsAdded bounds.now jobs.now place sum) }
{
    let job = job_at(jobs, place);
    match bound_of(bounds, job.program) {
        Some(most) => sum_of(most, sum),
        None => None,
    }
}

/// The sum of all jobs; `None` where some program has no bound.
fn add_up(bounds: &[Option<u64>], jobs: &[Job]) -> Option<u64>
    ensures { IfSome result (AddUp bounds.now (map waiting jobs.now)) }
{
    let mut sum: u64 = 0;
    for behind in 0..jobs.len() {
        match added(bounds, jobs, jobs.len() - 1 - behind, sum) {
            Some(more) => sum = more,
            None => return None,
        }
    }
    Some(sum)
}

/// How many counted calls the jobs make at most.
fn most_of(
    alloc: Global,
    programs: &[Program],
    charts: &[Drawn],
    jobs: &[Job],
    counted: Counted,
) -> Result<Option<u64>, AllocError>
    requires { AreCharts programs.now charts.now }
    ensures { IfOk result (λ most. IfSome most
        (HaveAtMost counted programs.now (map waiting jobs.now))) }
{
    let bounds = bounds(alloc, programs, charts, counted)?;
    Ok(add_up(&bounds, jobs))
}

/// Whether a number was found, and is no greater than this.
fn is_within(number: Option<u64>, limit: u64) -> bool
    ensures { IsTrue result → IsWithin number limit }
{
    match number {
        Some(number) => number <= limit,
        None => false,
    }
}

/// A map's number and sizes, how many pairs it has at first, and how many CPUs there are.
#[derive(Clone, Copy)]
struct Sizes {
    map: u8,
    shape: MapShape,
    pairs: usize,
    cpus: u8,
}

/// Whether a map has an element for each pair and each update.
fn has_room_for_updates(
    alloc: Global,
    programs: &[Program],
    charts: &[Drawn],
    jobs: &[Job],
    sizes: Sizes,
) -> Result<bool, AllocError>
    requires charts { AreCharts programs.now charts.now }
    requires small { (sizes.shape.max ≤ 65536) × (sizes.shape.spare ≤ 65536) }
    ensures { IfOk result (λ room. IsTrue room → HasRoomForUpdates programs.now
        (map waiting jobs.now) sizes.map sizes.shape sizes.pairs) }
{
    let elements = sizes.shape.max + sizes.shape.spare;
    let pairs = sizes.pairs as u64;
    if elements < pairs {
        return Ok(false);
    }
    let counted = Counted {
        map: sizes.map,
        kind: Kind::Updates,
    };
    let most = most_of(alloc, programs, charts, jobs, counted)?;
    Ok(is_within(most, elements - pairs))
}

/// Whether it has as many to spare as values can leave it, and one more for each CPU.
fn has_room_for_removals(
    alloc: Global,
    programs: &[Program],
    charts: &[Drawn],
    jobs: &[Job],
    sizes: Sizes,
) -> Result<bool, AllocError>
    requires { AreCharts programs.now charts.now }
    ensures { IfOk result (λ room. IsTrue room
        → HasRoomForRemovals programs.now (map waiting jobs.now) sizes.map sizes.shape sizes.cpus) }
{
    let cpus = u64::from(sizes.cpus);
    if sizes.shape.spare < cpus {
        return Ok(false);
    }
    let counted = Counted {
        map: sizes.map,
        kind: Kind::Removals,
    };
    let most = most_of(alloc, programs, charts, jobs, counted)?;
    Ok(is_within(most, sizes.shape.spare - cpus))
}

/// Whether updates of a map can't lack an element on threads that they find in turns.
fn is_roomy(
    alloc: Global,
    programs: &[Program],
    charts: &[Drawn],
    jobs: &[Job],
    sizes: Sizes,
) -> Result<bool, AllocError>
    requires charts { AreCharts programs.now charts.now }
    requires small { (sizes.shape.max ≤ 65536) × (sizes.shape.spare ≤ 65536) }
    ensures { IfOk result (λ roomy. IsTrue roomy → IsRoomy programs.now
        (map waiting jobs.now) sizes.cpus sizes.map sizes.shape sizes.pairs) }
{
    if has_room_for_updates(alloc, programs, charts, jobs, sizes)? {
        return Ok(true);
    }
    has_room_for_removals(alloc, programs, charts, jobs, sizes)
}

/// The sizes of the map of a number.
fn map_at(maps: &[MapShape], place: usize) -> MapShape
    requires { place < length maps.now }
    ensures { slice_get maps.now place ≡ Some result }
{
    maps[place]
}

/// Whether it is so of each map.
fn are_roomy(
    alloc: Global,
    shape: &StoreShape,
    pairs: &[Pair],
    programs: &[Program],
    charts: &[Drawn],
    jobs: &[Job],
) -> Result<bool, AllocError>
    requires { AreCharts programs.now charts.now }
    ensures { IfOk result (λ roomy. IsTrue roomy → AreRoomy shape.now (map pair_of pairs.now)
        programs.now (map waiting jobs.now)) }
{
    let cpus = shape.cpus();
    let maps = shape.maps();
    for place in 0..maps.len() {
        let sizes = Sizes {
            map: place as u8,
            shape: map_at(maps, place),
            pairs: count_in(place as u8, pairs),
            cpus,
        };
        if !is_roomy(alloc, programs, charts, jobs, sizes)? {
            return Ok(false);
        }
    }
    Ok(true)
}

/// Whether calls of a program read keys and values outside the values of maps and arrays, and store
/// those of arrays at once.
fn reads_whole(shape: &StoreShape, program: &Program, chart: &Drawn) -> bool
    requires { IsChartOf program.now chart.now }
    ensures { IsTrue result → AllReadOutside shape.now program.now }
{
    chart.whole && all_read_outside(shape, program, &chart.spots)
}

/// Whether it is so of the program of this number.
fn program_reads_whole(
    shape: &StoreShape,
    programs: &[Program],
    charts: &[Drawn],
    place: usize,
) -> bool
    requires { AreCharts programs.now charts.now }
    ensures { IsTrue result → ReadsWholeAt shape.now programs.now place }
{
    if place >= programs.len() || place >= charts.len() {
        return false;
    }
    reads_whole(shape, program_at(programs, place), chart_at(charts, place))
}

/// Whether it is so of each job's program.
fn are_read_whole(shape: &StoreShape, programs: &[Program], charts: &[Drawn], jobs: &[Job]) -> bool
    requires { AreCharts programs.now charts.now }
    ensures { IsTrue result → All (IsReadWhole shape.now programs.now) (map waiting jobs.now) }
{
    for behind in 0..jobs.len() {
        let job = job_at(jobs, jobs.len() - 1 - behind);
        if !program_reads_whole(shape, programs, charts, job.program) {
            return false;
        }
    }
    true
}

/// Whether one CPU has all jobs.
fn are_on_one_cpu(jobs: &[Job]) -> bool
    ensures { IsTrue result → AreOnOneCpu (map waiting jobs.now) }
{
    if jobs.is_empty() {
        return true;
    }
    let cpu = job_at(jobs, 0).cpu;
    for behind in 0..jobs.len() {
        let job = job_at(jobs, jobs.len() - 1 - behind);
        if job.cpu != cpu {
            return false;
        }
    }
    true
}

/// In which ways worker threads may reach more outcomes of the jobs than turns, as far as their
/// programs say.
pub fn may_differ(
    alloc: Global,
    shape: &StoreShape,
    pairs: &[Pair],
    programs: &[Program],
    jobs: &[Job],
) -> Result<Threads, AllocError>
    ensures { IfOk result (IsTrueOf shape.now (map pair_of pairs.now) programs.now
        (map waiting jobs.now)) }
{
    if are_on_one_cpu(jobs) {
        return Ok(Threads {
            elements: false,
            parts: false,
        });
    }
    let charts = charts(alloc, programs)?;
    let roomy = are_roomy(alloc, shape, pairs, programs, &charts, jobs)?;
    let whole = are_read_whole(shape, programs, &charts, jobs);
    Ok(Threads {
        elements: !roomy,
        parts: !whole,
    })
}
