//! Jobs that have ended, where two of them change places.

ghost use Rattle.std.specs.Prelude.{◌≡◌, ◌<◌, ℕ, All, IfOk, length};
ghost use Rattle.bpf_machine.specs.Parts.{chosen};
ghost use Rattle.bpf_equal.specs.Permutations.{exchanged};
ghost use Rattle.bpf_explore.specs.Private.Peers.{AreExchanged, CountUp};

use crate::album::number_of;
use bpf_machine::{KeptJob, KeptStage};
use std::alloc::{AllocError, Global};

/// The place where the job of a place is, where two change places.
fn exchanged_place(place: usize, one: usize, other: usize) -> usize
    ensures { result ≡ exchanged one other place }
{
    if place == one {
        other
    } else if place == other {
        one
    } else {
        place
    }
}

/// A job that has ended as another did. One that hasn't ended counts as out of memory.
fn ended_as(alloc: Global, part: &KeptJob, other: &KeptJob) -> Result<KeptJob, AllocError>
    ensures { IfOk result (λ job. job ≡ record part.now { stage = other.now.stage }) }
{
    let outcome = other.outcome().ok_or(AllocError)?;
    let stage = KeptStage::Ended(outcome);
    KeptJob::new(alloc, part.cpu(), part.program(), part.budget(), &stage)
}

/// The jobs of these numbers, with the ends of two of them exchanged.
pub(crate) fn exchange_ends(
    alloc: Global,
    parts: &[KeptJob],
    numbers: &[u32],
    one: usize,
    other: usize,
) -> Result<Vec<KeptJob>, AllocError>
    requires within { All (λ n. n < length parts.now) numbers.now }
    requires one { one < length numbers.now }
    requires other { other < length numbers.now }
    ensures { IfOk result (λ jobs.
        AreExchanged one other (chosen parts.now numbers.now) jobs.items) }
{
    let mut jobs = Vec::new(alloc);
    for place in 0..numbers.len() {
        let from = exchanged_place(place, one, other);
        let part = &parts[numbers[place] as usize];
        let other = &parts[numbers[from] as usize];
        let job = ended_as(alloc, part, other)?;
        jobs.push(job)?;
    }
    Ok(jobs)
}

/// The numbers below this one.
pub(crate) fn count_up(alloc: Global, count: usize) -> Result<Vec<u32>, AllocError>
    ensures { IfOk result (λ numbers. CountUp numbers.items count) }
{
    let mut numbers = Vec::new(alloc);
    for place in 0..count {
        let number = number_of(place)?;
        numbers.push(number)?;
    }
    Ok(numbers)
}
