//! Every outcome of jobs: the search from a shape and its jobs to the answers.

ghost use Rattle.std.specs.Prelude.{◌≡◌, ◌<◌, ℕ, true, false, IfOk, length, map, string_bytes};
ghost use Rattle.bpf_names.specs.Names.{names_of};
ghost use Rattle.bpf_cpu.specs.Setup.{IsRunnable};
ghost use Rattle.bpf_machine.specs.Schedule.{World};
ghost use Rattle.bpf_jobs.specs.Printed.{first_of};
ghost use Rattle.bpf_equal.specs.Patient.{AreAllExchanged};
ghost use Rattle.bpf_explore.specs.Album.{BeginsAt, HaveWholeBudgets};
ghost use Rattle.bpf_explore.specs.Outcomes.{AreOutcomes, IsExplored};
ghost use Rattle.bpf_explore.specs.Patient.{ArePatient, IsSearchedPatiently};
ghost use Rattle.bpf_explore.specs.Search.{CameTo, CameToEnds, Permuted, Richly, ShowsEnds, ShowsEndsInBudget, rows_of};
ghost use Rattle.bpf_explore.specs.Private.Answers.{IsAnsweredAt, IsFirst, StartsFresh};
ghost use Rattle.bpf_explore.specs.Private.Edges.{AreTurns};
ghost use Rattle.bpf_explore.specs.Private.Hung.{AllHang, AllLeadOrBeyond, StaysFirst};
ghost use Rattle.bpf_explore.specs.Private.Replays.{CanRunOut, NoneRunsOut};

use crate::answers::{Answer, gather};
use crate::budgets::{Budgets, judge_budgets};
use crate::crew::Crew;
use crate::dives::{dive_further, dive_patiently};
use crate::frontier::{Extent, explore};
use crate::hung::{Hung, gather_hung};
use crate::observer::Observer;
use crate::opening::{Scope, permuted_patient_search_of, permuted_search_of};
use crate::patience::{both, gather_patiently};
use crate::patient::PatientExplorer;
use crate::permuted::PermutedExplorer;
use crate::runs::{Freely, Strictly};
use crate::spread::Spread;
use crate::turns::Turns;
use bpf_cpu::Setup;
use bpf_names::Names;
use std::alloc::{AllocError, Global};

/// What jobs may reach.
#[derive(Drop)]
pub struct Explored {
    /// In the order of their texts' bytes, none twice.
    pub answers: Vec<Answer>,
    /// Whether no outcome is left out.
    pub all: bool,
    /// Whether the search ended because memory ran out.
    pub refused: bool,
    /// How many states were kept: machines that schedules lead to, no two of them the same.
    pub states: usize,
}

/// The answers: what is printed of each kept machine without work, and, where the search met its
/// limit, of where dives lead. A dive only adds answers, so one that is refused memory is passed over.
fn find_answers(
    alloc: Global,
    explorer: &mut Spread<Strictly>,
    names: &Names,
    maps: bool,
    extent: Extent,
) -> Result<Vec<Answer>, AllocError>
    requires { (w : World) × IsFirst explorer.old.kept w }
    ensures same { explorer.new.kept ≡ explorer.old.kept }
    ensures outcomes { IfOk result (λ answers. (w : World) → IsFirst explorer.old.kept w
        → AreOutcomes w (names_of names.now) maps answers.items) }
    ensures answered { IfOk result (λ answers. (i : ℕ)
        → IsAnsweredAt explorer.old.kept (names_of names.now) maps answers.items i) }
{
    let mut answers = gather(alloc, explorer, names, maps)?;
    if !extent.is_limited() {
        return Ok(answers);
    }
    let _ = dive_further(alloc, explorer, names, maps, &mut answers);
    Ok(answers)
}

/// What a search found that came this far.
fn conclude(
    alloc: Global,
    explorer: &mut Spread<Strictly>,
    names: &Names,
    maps: bool,
    extent: Extent,
) -> Result<Explored, AllocError>
    requires { (w : World) × IsFirst explorer.old.kept w }
    ensures { IfOk result (λ e. (w : World) (limit : ℕ) → BeginsAt explorer.old.kept w
        → CameToEnds ShowsEnds explorer.old.kept extent limit
        → IsExplored w (names_of names.now) maps e.answers.items e.all e.refused limit
        e.states) }
{
    crate::laws::cover_tells_all();
    explorer.leads();
    explorer.apart();
    let answers = find_answers(alloc, explorer, names, maps, extent)?;
    let states = explorer.len();
    Ok(Explored {
        answers,
        all: extent.is_whole(),
        refused: extent.is_refused(),
        states,
    })
}

/// What a search found that came this far, and how far it is then: where it left nothing out, ends are
/// kept in all places that equal jobs may have.
fn close_ends(
    explorer: PermutedExplorer,
    extent: Extent,
    limit: usize,
) -> (Spread<Strictly>, Extent)
    requires { StartsFresh explorer.found.kept }
    ensures begins { (w : World) → BeginsAt explorer.found.kept w → BeginsAt result.0.kept w }
    ensures ends { CameTo (Permuted explorer.peers) explorer.found.kept extent limit
        → CameToEnds ShowsEnds result.0.kept result.1 limit }
{
    bpf_equal::laws::kept_ends_are_shown();
    let (mut spread, peers) = explorer.into_spread();
    if !extent.is_whole() {
        return (spread, extent);
    }
    let closed = spread.close(&peers, limit);
    (spread, closed)
}

/// Searches through all schedules of jobs over a new store whose maps, and then arrays, have these
/// names, until no state is new, more are kept than the limit, or memory is refused to the search. Out
/// of memory before or after it is the only refusal. The observer learns meanwhile how far it is.
pub fn explore_jobs<C: Crew, O: Observer>(
    alloc: Global,
    setup: Setup,
    names: &Names,
    maps: bool,
    scope: Scope<'_, C>,
    observer: &mut O,
) -> Result<Explored, AllocError>
    requires can { C.can }
    requires setup { IsRunnable setup }
    ensures { IfOk result (λ e. IsExplored (first_of setup)
        (names_of names.now) maps e.answers.items e.all e.refused scope.entry.limit e.states) }
{
    let mut explorer = permuted_search_of(alloc, setup, scope.merged)?;
    let came = explore(&mut explorer, scope.crew, scope.limit, observer);
    let (mut spread, extent) = close_ends(explorer, came, scope.limit);
    conclude(alloc, &mut spread, names, maps, extent)
}

/// What jobs may reach, but for how many steps are left of budgets.
#[derive(Drop)]
pub struct ExploredPatiently {
    /// Outcomes in which no job is out of budget, in the order of their texts' bytes, none twice.
    pub answers: Vec<Answer>,
    /// Whether none of them is left out.
    pub all: bool,
    /// Whether the search ended because memory ran out.
    pub refused: bool,
    /// How many states were kept, no two of them the same where each job in hand has its whole budget
    /// left.
    pub states: usize,
    /// States from which no end can be reached, each but for those that it leads to.
    pub hung: Vec<Hung>,
    /// Whether some schedule uses a budget up.
    pub budgets: Budgets,
}

/// What is hung, and whether a schedule to it uses a budget up: nothing is printed where states are
/// left out.
fn find_hung(
    alloc: Global,
    explorer: &mut PatientExplorer,
    turns: &Turns,
    whole: bool,
) -> Result<(Vec<Hung>, bool), AllocError>
    requires fresh { StartsFresh explorer.old.kept }
    requires turns { whole ≡ true → AreTurns explorer.old.kept turns.now }
    requires stays { StaysFirst turns.now.peers.items explorer.old.kept }
    ensures same { explorer.new.kept ≡ explorer.old.kept }
    ensures peers { explorer.new.peers ≡ explorer.old.peers }
    ensures hung { IfOk result (λ r. AllHang explorer.old.kept r.0.items) }
    ensures ends { IfOk result (λ r. whole ≡ true → r.1 ≡ true
        → AllLeadOrBeyond turns.now.peers.items explorer.old.kept r.0.items) }
    ensures exchanged { IfOk result (λ r. AreAllExchanged turns.now.peers.items r.0.items) }
    ensures out { IfOk result (λ r. r.1 ≡ false → CanRunOut explorer.old.kept) }
{
    if whole {
        gather_hung(alloc, explorer, turns)
    } else {
        Ok((Vec::new(alloc), true))
    }
}

/// Whether some schedule uses a budget up, where it is known that one does, or that no states are
/// left out.
fn find_budgets(
    alloc: Global,
    explorer: &mut PatientExplorer,
    turns: &Turns,
    whole: bool,
    fit: bool,
) -> Result<Budgets, AllocError>
    requires first { 0 < length explorer.old.kept }
    requires turns { whole ≡ true → AreTurns explorer.old.kept turns.now }
    requires out { fit ≡ false → CanRunOut explorer.old.kept }
    ensures same { explorer.new.kept ≡ explorer.old.kept }
    ensures peers { explorer.new.peers ≡ explorer.old.peers }
    ensures unfit { IfOk result (λ b. fit ≡ false → b ≡ Budgets.RunOut) }
    ensures suffice { IfOk result (λ b. b ≡ Budgets.Suffice → NoneRunsOut explorer.old.kept) }
    ensures out { IfOk result (λ b. b ≡ Budgets.RunOut → CanRunOut explorer.old.kept) }
{
    if !fit {
        return Ok(Budgets::RunOut);
    }
    if whole {
        judge_budgets(alloc, explorer, turns)
    } else {
        Ok(Budgets::Unknown)
    }
}

/// What is hung, whether all schedules to it fit the budgets, and whether some schedule uses a budget up.
fn judge(
    alloc: Global,
    explorer: &mut PatientExplorer,
    turns: &Turns,
    whole: bool,
) -> Result<(Vec<Hung>, bool, Budgets), AllocError>
    requires fresh { StartsFresh explorer.old.kept }
    requires turns { whole ≡ true → AreTurns explorer.old.kept turns.now }
    requires stays { StaysFirst turns.now.peers.items explorer.old.kept }
    ensures same { explorer.new.kept ≡ explorer.old.kept }
    ensures peers { explorer.new.peers ≡ explorer.old.peers }
    ensures hung { IfOk result (λ r. AllHang explorer.old.kept r.0.items) }
    ensures ends { IfOk result (λ r. whole ≡ true → r.1 ≡ true
        → AllLeadOrBeyond turns.now.peers.items explorer.old.kept r.0.items) }
    ensures exchanged { IfOk result (λ r. AreAllExchanged turns.now.peers.items r.0.items) }
    ensures unfit { IfOk result (λ r. r.1 ≡ false → r.2 ≡ Budgets.RunOut) }
    ensures suffice { IfOk result (λ r. r.2 ≡ Budgets.Suffice → NoneRunsOut explorer.old.kept) }
    ensures out { IfOk result (λ r. r.2 ≡ Budgets.RunOut → CanRunOut explorer.old.kept) }
{
    let (hung, fit) = find_hung(alloc, explorer, turns, whole)?;
    let budgets = find_budgets(alloc, explorer, turns, whole, fit)?;
    Ok((hung, fit, budgets))
}

/// The answers of a patient search, with where dives lead, where it met its limit. Whether what is
/// printed of each kept machine without work is one.
fn find_patiently(
    alloc: Global,
    spread: &mut Spread<Freely>,
    names: &Names,
    maps: bool,
    extent: Extent,
) -> Result<(Vec<Answer>, bool), AllocError>
    requires { StartsFresh spread.old.kept }
    ensures same { spread.new.kept ≡ spread.old.kept }
    ensures outcomes { IfOk result (λ r. (w : World) → IsFirst spread.old.kept w
        → ArePatient w (names_of names.now) maps r.0.items) }
    ensures answered { IfOk result (λ r. r.1 ≡ true → (i : ℕ)
        → IsAnsweredAt spread.old.kept (names_of names.now) maps r.0.items i) }
    ensures out { IfOk result (λ r. r.1 ≡ false → CanRunOut spread.old.kept) }
{
    let (mut answers, told) = gather_patiently(alloc, spread, names, maps)?;
    if !extent.is_limited() {
        return Ok((answers, told));
    }
    let _ = dive_patiently(alloc, spread, names, maps, &mut answers);
    Ok((answers, told))
}

/// What a patient search found that came this far, and how far it is then: where it left nothing out, ends
/// are kept in all places that equal jobs may have.
fn close_patiently(
    explorer: PatientExplorer,
    extent: Extent,
    limit: usize,
) -> (Spread<Freely>, Extent)
    requires { StartsFresh explorer.kept }
    ensures begins { (w : World) → BeginsAt explorer.kept w → BeginsAt result.0.kept w }
    ensures before { (w : World) → IsFirst result.0.kept w → IsFirst explorer.kept w }
    ensures whole { result.1 ≡ Extent.Whole → extent ≡ Extent.Whole }
    ensures budgets { HaveWholeBudgets explorer.kept → HaveWholeBudgets result.0.kept }
    ensures ends { CameTo (Richly explorer.peers) explorer.kept extent limit
        → CameToEnds ShowsEndsInBudget result.0.kept result.1 limit }
{
    bpf_equal::laws::kept_ends_are_shown();
    let (mut spread, peers) = explorer.into_spread();
    if !extent.is_whole() {
        return (spread, extent);
    }
    let closed = spread.close(&peers, limit);
    (spread, closed)
}

/// Whether some schedule uses a budget up, where it is known besides whether the schedules of all answers
/// fit the budgets.
fn settle_budgets(told: bool, budgets: Budgets) -> Budgets
    ensures told { told ≡ true → result ≡ budgets }
    ensures out { told ≡ false → result ≡ Budgets.RunOut }
{
    if told { budgets } else { Budgets::RunOut }
}

/// What a patient search found that came this far.
fn conclude_patiently(
    alloc: Global,
    mut explorer: PatientExplorer,
    names: &Names,
    maps: bool,
    reach: (Extent, usize),
) -> Result<ExploredPatiently, AllocError>
    requires fresh { StartsFresh explorer.kept }
    requires made { reach.0 ≡ Extent.Whole
        → explorer.made ≡ rows_of explorer.cpus (length explorer.kept) }
    ensures { IfOk result (λ e. (w : World) → BeginsAt explorer.kept w
        → CameTo (Richly explorer.peers) explorer.kept reach.0 reach.1
        → IsSearchedPatiently w (names_of names.now) maps e.answers.items e.all e.refused
        reach.1 e.states e.hung.items e.budgets) }
{
    crate::laws::patient_tell_all();
    bpf_equal::laws::permuted_can_end();
    bpf_equal::laws::covered_lie_beyond();
    bpf_equal::laws::beyond_is_exchanged();
    let (extent, limit) = reach;
    explorer.refilled();
    explorer.stays();
    let turns = explorer.take_turns()?;
    let (hung, fit, judged) = judge(alloc, &mut explorer, &turns, extent.is_whole())?;
    let (mut spread, closed) = close_patiently(explorer, extent, limit);
    spread.leads();
    spread.apart();
    let (answers, told) = find_patiently(alloc, &mut spread, names, maps, closed)?;
    let budgets = settle_budgets(told, judged);
    let fits = both(told, fit);
    let all = both(closed.is_whole(), fits);
    let states = spread.len();
    Ok(ExploredPatiently {
        answers,
        all,
        refused: closed.is_refused(),
        states,
        hung,
        budgets,
    })
}

/// Searches for outcomes in which no job is out of budget: machines that differ only in how many
/// steps are left of budgets count as one, and so do those that differ only in which of their equal jobs
/// is how far, where states are merged. The outcomes aren't all where more are kept than the
/// limit, where memory is refused to the search, or where a schedule that was found uses a budget up,
/// which is reported then. Besides, states from which no end can be reached, however many steps jobs
/// are given, and whether some schedule uses a budget up. Out of memory before or after the search is
/// the only refusal.
pub fn search_patiently<C: Crew, O: Observer>(
    alloc: Global,
    setup: Setup,
    names: &Names,
    maps: bool,
    scope: Scope<'_, C>,
    observer: &mut O,
) -> Result<ExploredPatiently, AllocError>
    requires can { C.can }
    requires setup { IsRunnable setup }
    ensures { IfOk result (λ e. IsSearchedPatiently (first_of setup)
        (names_of names.now) maps e.answers.items e.all e.refused scope.entry.limit e.states
        e.hung.items e.budgets) }
{
    let mut explorer = permuted_patient_search_of(alloc, setup, scope.merged)?;
    let extent = explore(&mut explorer, scope.crew, scope.limit, observer);
    conclude_patiently(alloc, explorer, names, maps, (extent, scope.limit))
}
