//! The search: turns are made from each kept machine, and what is new is kept.

ghost use Rattle.std.specs.Prelude.{◌≡◌, ◌<◌, ◌≤◌, ◌++◌, ◌∷◌, [], ℕ, List, OnOk, OnErr, length};
ghost use Rattle.bpf_machine.specs.Machine.{MachineState};
ghost use Rattle.bpf_explore.specs.Search.{Manner, IsTurned, IsExpanded, IsIdleAt, Extends, IsWhole, CoversAll, row_of, rows_of};

use crate::crew::Crew;
use crate::observer::{Observer, tell};
use std::alloc::AllocError;

/// How far a search came.
#[derive(Clone, Copy, PartialEq, Eq, Debug)]
pub enum Extent {
    /// Nothing is left to be kept.
    Whole,
    /// More are kept than the limit.
    Limited,
    /// Memory was refused before.
    Refused,
}

impl Extent {
    ghost use Rattle.bpf_explore.specs.Search.{is_whole, is_limited, is_refused};

    /// Whether nothing is left to be kept.
    pub fn is_whole(self) -> bool
        ensures { result ≡ is_whole self }
    {
        matches!(self, Extent::Whole)
    }

    /// Whether more are kept than the limit.
    pub(crate) fn is_limited(self) -> bool
        ensures { result ≡ is_limited self }
    {
        matches!(self, Extent::Limited)
    }

    /// Whether it ended because memory ran out.
    pub fn is_refused(self) -> bool
        ensures { result ≡ is_refused self }
    {
        matches!(self, Extent::Refused)
    }
}

/// Machines that are kept, each under its number. They stay as they are.
pub trait Frontier {
    /// The kept machines, by their numbers.
    ghost kept: { Self → List MachineState };

    /// Which machines count as kept. In any search those do of which one is kept that is alike but
    /// for registers that are written before they are read; in some besides those where equal jobs
    /// have changed places, or those of which one is kept that has more steps left of its budgets.
    ghost manner: { Self → Manner };

    /// How many CPUs there are.
    ghost width: { Self → ℕ };

    /// These turns were made, in this order: from which kept machine each, and by which CPU.
    ghost has_made: { Self → List (ℕ × ℕ) → Type 0 };

    /// A turn was refused memory.
    ghost was_refused: { Self → Type 0 };

    /// How many are kept.
    fn count(&self) -> usize
        ensures { result ≡ length (kept self.now) };

    /// About how many bytes of memory they take.
    fn bytes(&self) -> usize;

    /// How many CPUs there are: those of the numbers below it. Others have no work in any kept
    /// machine.
    fn cpus(&self) -> u8
        ensures width { result ≡ width self.now }
        ensures idle { (i c : ℕ) → result ≤ c → IsIdleAt (kept self.now) i c };

    /// Makes a CPU's turn from a kept machine, and then the turns of it that no store sees. Keeps
    /// the machine that they lead to, unless it counts as kept already.
    fn turn(&mut self, place: usize, cpu: u8) -> Result<(), AllocError>
        requires { place < length (kept self.old) }
        ensures turned { OnOk result (IsTurned (manner self.new) (kept self.new) place cpu) }
        ensures made { OnOk result ((turns : List (ℕ × ℕ)) → has_made self.old turns
            → has_made self.new (turns ++ (place, cpu) ∷ [])) }
        ensures refused { OnErr result (was_refused self.new) }
        ensures extends { Extends (kept self.old) (kept self.new) }
        ensures width { width self.new ≡ width self.old }
        ensures same { manner self.new ≡ manner self.old };

    /// Has a crew make turns ahead, from this kept machine on, where that is worth it. It keeps
    /// nothing: only `turn` does.
    fn prepare<C: Crew>(&mut self, crew: &C, place: usize)
        requires { C.can }
        ensures kept { kept self.new ≡ kept self.old }
        ensures made { (turns : List (ℕ × ℕ)) → has_made self.old turns → has_made self.new turns }
        ensures width { width self.new ≡ width self.old }
        ensures same { manner self.new ≡ manner self.old };
}

/// Makes the turn of each CPU from a kept machine.
fn expand<F: Frontier>(frontier: &mut F, place: usize) -> Result<(), AllocError>
    requires { place < length (F.kept frontier.old) }
    ensures expanded { OnOk result
        (IsExpanded (F.manner frontier.new) (F.kept frontier.new) place) }
    ensures made { OnOk result ((turns : List (ℕ × ℕ)) → F.has_made frontier.old turns
        → F.has_made frontier.new (turns ++ row_of place (F.width frontier.old))) }
    ensures refused { OnErr result (F.was_refused frontier.new) }
    ensures extends { Extends (F.kept frontier.old) (F.kept frontier.new) }
    ensures width { F.width frontier.new ≡ F.width frontier.old }
    ensures same { F.manner frontier.new ≡ F.manner frontier.old }
{
    for cpu in 0..frontier.cpus() {
        frontier.turn(place, cpu)?;
    }
    Ok(())
}

/// Makes the turn of each CPU from a kept machine, and has a crew make turns ahead before.
fn advance<F: Frontier, C: Crew>(frontier: &mut F, crew: &C, place: usize) -> Result<(), AllocError>
    requires can { C.can }
    requires place { place < length (F.kept frontier.old) }
    ensures expanded { OnOk result
        (IsExpanded (F.manner frontier.new) (F.kept frontier.new) place) }
    ensures made { OnOk result ((turns : List (ℕ × ℕ)) → F.has_made frontier.old turns
        → F.has_made frontier.new (turns ++ row_of place (F.width frontier.old))) }
    ensures refused { OnErr result (F.was_refused frontier.new) }
    ensures extends { Extends (F.kept frontier.old) (F.kept frontier.new) }
    ensures width { F.width frontier.new ≡ F.width frontier.old }
    ensures same { F.manner frontier.new ≡ F.manner frontier.old }
{
    frontier.prepare(crew, place);
    expand(frontier, place)?;
    Ok(())
}

/// How far a search came that was refused memory, where n are kept.
pub(crate) fn cut_short(count: usize, limit: usize) -> Extent
    ensures part { result ≡ Extent.Whole → ⊥ }
    ensures met { result ≡ Extent.Limited → limit < count }
    ensures short { result ≡ Extent.Refused → count ≤ limit }
{
    if count > limit {
        Extent::Limited
    } else {
        Extent::Refused
    }
}

/// Makes the turn of each CPU from each kept machine, until nothing is new, more than `limit` are
/// kept, or memory is refused. How far it came: what is kept so far stays. A crew may make turns ahead,
/// and the observer learns of it meanwhile.
pub fn explore<F: Frontier, C: Crew, O: Observer>(
    frontier: &mut F,
    crew: &C,
    limit: usize,
    observer: &mut O,
) -> Extent
    requires { C.can }
    ensures whole { result ≡ Extent.Whole
        → IsWhole (F.manner frontier.new) (F.kept frontier.new) }
    ensures covers { result ≡ Extent.Whole
        → CoversAll (F.manner frontier.new) (F.kept frontier.new) }
    ensures made { result ≡ Extent.Whole → F.has_made frontier.old []
        → F.has_made frontier.new (rows_of (F.width frontier.new) (length (F.kept frontier.new))) }
    ensures met { result ≡ Extent.Limited → limit < length (F.kept frontier.new) }
    ensures refused { result ≡ Extent.Refused → F.was_refused frontier.new }
    ensures short { result ≡ Extent.Refused → length (F.kept frontier.new) ≤ limit }
    ensures extends { Extends (F.kept frontier.old) (F.kept frontier.new) }
    ensures same { F.manner frontier.new ≡ F.manner frontier.old }
{
    bpf_alike::laws::alike_sets_cover();
    bpf_equal::laws::permuted_patient_sets_cover();
    bpf_equal::laws::permuted_sets_cover();
    let mut next = 0;
    while next < frontier.count() {
        if frontier.count() > limit {
            return Extent::Limited;
        }
        let Ok(()) = advance(frontier, crew, next) else {
            return cut_short(frontier.count(), limit);
        };
        next += 1;
        tell(frontier, next, observer);
    }
    Extent::Whole
}
