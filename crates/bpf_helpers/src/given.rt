//! The helpers that answer from what a job was given.

ghost use Rattle.std.specs.Prelude.{◌≡◌, ◌↔◌, ◌<◌, ◌^◌, IsTrue};
ghost use Rattle.bpf_helpers.specs.Given.{AnswersJob, AsksOnce, IsJobHelper, process_of, random_after};

use crate::numbers::{
    GET_CURRENT_PID_TGID, GET_CURRENT_UID_GID, GET_PRANDOM_U32, GET_SMP_PROCESSOR_ID,
    KTIME_GET_BOOT_NS, KTIME_GET_NS, MAP_DELETE_ELEM, SPIN_LOCK, SPIN_UNLOCK, TRACE_PRINTK,
};
use rand_core::{Rng, SeedableRng};
use rand_xoshiro::SplitMix64;

/// What a job is given beside the bytes of its memory.
#[derive(Clone, Copy, PartialEq, Eq, Debug)]
pub struct Given {
    /// The job's number, from 0 on.
    pub job: u64,
    /// The time at which it runs, in nanoseconds.
    pub time: u64,
    /// The seed of its random numbers.
    pub seed: u64,
}

impl Given {
    /// What a job is given of which nothing is said.
    pub const NOTHING: Given = Given {
        job: 0,
        time: 0,
        seed: 0,
    };
}

/// By how much the generator's state goes on with each number.
const RANDOM_STEP: u64 = 0x9e37_79b9_7f4a_7c15;

/// How many processes there can be.
const PROCESSES: u64 = 0x1_0000_0000;

/// The random number of a seed after this many others.
fn random_after(seed: u64, drawn: u64) -> u64
    ensures { result ≡ random_after seed drawn }
{
    let state = seed.wrapping_add(drawn.wrapping_mul(RANDOM_STEP));
    let mut generator = SplitMix64::seed_from_u64(state);
    u64::from(generator.next_u32())
}

/// The number of a job's process, in both halves.
fn process_of(job: u64) -> u64
    ensures { result ≡ process_of job }
{
    let process = job.wrapping_add(1) % PROCESSES;
    process * (PROCESSES + 1)
}

/// Whether a helper answers from what the job was given.
#[inline]
pub fn is_of_job(number: u32) -> bool
    ensures { IsTrue result ↔ IsJobHelper number }
{
    // the helpers of maps first, which are called most
    number > MAP_DELETE_ELEM
        && matches!(
            number,
            KTIME_GET_NS
                | GET_PRANDOM_U32
                | GET_CURRENT_PID_TGID
                | GET_CURRENT_UID_GID
                | KTIME_GET_BOOT_NS
                | TRACE_PRINTK
        )
}

/// Whether a helper has one event at most, whatever registers hold.
pub fn asks_once(number: u32) -> bool
    ensures { IsTrue result ↔ AsksOnce number }
{
    matches!(number, GET_SMP_PROCESSOR_ID | SPIN_LOCK | SPIN_UNLOCK) || is_of_job(number)
}

/// What the helper of this number answers a job, for R0. It counts the random numbers that the job
/// has drawn. It is out of line, so that calls on maps don't pay for it.
#[cold]
#[inline(never)]
pub fn answer_job(number: u32, given: &Given, drawn: &mut u64) -> u64
    requires { IsJobHelper number }
    ensures { AnswersJob number given.now drawn.old result drawn.new }
{
    match number {
        GET_PRANDOM_U32 => {
            let answer = random_after(given.seed, *drawn);
            *drawn = drawn.wrapping_add(1);
            answer
        }
        GET_CURRENT_PID_TGID => process_of(given.job),
        GET_CURRENT_UID_GID | TRACE_PRINTK => 0,
        _ => given.time,
    }
}
