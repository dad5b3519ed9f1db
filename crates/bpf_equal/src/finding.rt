//! Which jobs are equal before the first turn.

ghost use Rattle.std.specs.Prelude.{◌≡◌, ◌≢◌, ◌<◌, ℕ, [], All, IfOk, Some, true, false, length, slice_get};
ghost use Rattle.std.specs.List.{list_any};
ghost use Rattle.bpf_insn.specs.declared.instruction.Insn.TheVariants.{CallHelper};
ghost use Rattle.bpf_loader.specs.Places.{Begins};
ghost use Rattle.bpf_machine.specs.Parts.{chosen};
ghost use Rattle.bpf_equal.specs.States.{AsksNoMarks, TellsMarks};
ghost use Rattle.bpf_equal.specs.Groups.{AreEquallyFresh, AreJobsOf, ArePeers};
ghost use Rattle.bpf_equal.specs.Peers.{Peer as EqualJob};
ghost use Rattle.bpf_equal.specs.Worlds.{IsBlind};
ghost use Rattle.bpf_equal.specs.Private.Finding.{AreEqualJobs, ArePair, IsPairAt, IsPeerOf};

use crate::peers::{Peer, peer_at};
use crate::twins::is_of;
use crate::unmarked::wait_alike;
use bpf_insn::Insn;
use bpf_loader::Program;
use bpf_machine::KeptJob;
use bpf_shared::{ArrayShape, StoreShape};
use std::alloc::{AllocError, Global};

/// The helpers that answer by marks: a random number, the CPU's number, and the process's.
const GET_PRANDOM_U32: u32 = 7;

const GET_SMP_PROCESSOR_ID: u32 = 8;

const GET_CURRENT_PID_TGID: u32 = 14;

/// No program has more words.
const WORDS: usize = 65536;

/// Whether an instruction calls a helper that answers by marks.
fn is_mark_call(insn: &Insn) -> bool
    ensures { result ≡ false → (n : ℕ) → insn.now ≡ CallHelper n → TellsMarks n → ⊥ }
{
    match insn {
        Insn::CallHelper { number } => {
            *number == GET_SMP_PROCESSOR_ID
                || *number == GET_CURRENT_PID_TGID
                || *number == GET_PRANDOM_U32
        }
        _ => false,
    }
}

/// Whether the one does that begins at this pc.
fn asks_at(program: &Program, pc: usize) -> bool
    ensures { result ≡ false → (n : ℕ)
        → Begins program.now.instructions pc (CallHelper n) → TellsMarks n → ⊥ }
{
    bpf_loader::laws::one_instruction_begins();
    if pc >= WORDS {
        return true;
    }
    let word = pc as u32;
    if !program.is_start(word) {
        return false;
    }
    is_mark_call(program.instruction_at(word))
}

/// Whether some instruction of a program does: the program may tell its CPU and its job from others.
fn asks_marks(program: &Program) -> bool
    ensures { result ≡ false → AsksNoMarks program.now }
{
    let words = program.ops().len();
    for pc in 0..words {
        if asks_at(program, pc) {
            return true;
        }
    }
    false
}

/// Whether some array has values by CPU.
fn are_some_by_cpu(arrays: &[ArrayShape]) -> bool
    ensures { result ≡ list_any (λ array. array.per_cpu) arrays.now }
{
    arrays.iter().any(|array| array.per_cpu)
}

/// Whether a program of this number can't tell its CPU and its job from others.
fn is_blind(shape: &StoreShape, programs: &[Program], program: usize) -> bool
    ensures { result ≡ true → IsBlind shape.now programs.now program }
{
    if program >= programs.len() {
        return false;
    }
    if are_some_by_cpu(shape.arrays()) {
        return false;
    }
    !asks_marks(&programs[program])
}

/// Whether a job's program is blind where that is noted.
fn is_told(shape: &StoreShape, programs: &[Program], peer: Peer) -> bool
    ensures { result ≡ true → peer.blind ≡ true → IsBlind shape.now programs.now peer.program }
{
    if peer.blind {
        is_blind(shape, programs, peer.program)
    } else {
        true
    }
}

/// Whether there are no maps.
fn has_no_maps(shape: &StoreShape) -> bool
    ensures { result ≡ true → shape.now.maps ≡ [] }
{
    shape.maps().is_empty()
}

/// Whether a job is as it is noted.
fn is_peer(shape: &StoreShape, programs: &[Program], peer: Peer, job: &KeptJob) -> bool
    ensures { result ≡ true → IsPeerOf shape.now programs.now job.now peer }
{
    if peer.cpu >= shape.cpus() {
        return false;
    }
    if !has_no_maps(shape) {
        return false;
    }
    if !is_of(peer, job) {
        return false;
    }
    is_told(shape, programs, peer)
}

/// Whether two jobs are equal.
fn are_equal(one: Peer, other: Peer, job: &KeptJob, later: &KeptJob) -> bool
    ensures { result ≡ true → AreEqualJobs job.now later.now one other }
{
    one.blind
        && other.program == one.program
        && other.budget == one.budget
        && wait_alike(job, later)
}

/// Whether two jobs run on CPUs of their own, and are equal where they are of one group.
fn is_pair(one: Peer, other: Peer, job: &KeptJob, later: &KeptJob) -> bool
    ensures { result ≡ true → ArePair job.now later.now one other }
{
    if one.cpu == other.cpu {
        return false;
    }
    if one.group != other.group {
        return true;
    }
    are_equal(one, other, job, later)
}

/// Whether the jobs of two places are such a pair, if they aren't one.
fn is_pair_at(
    parts: &[KeptJob],
    numbers: &[u32],
    peers: &[Peer],
    place: usize,
    other: usize,
) -> bool
    requires within { All (λ n. n < length parts.now) numbers.now }
    requires many { length peers.now ≡ length numbers.now }
    requires place { place < length numbers.now }
    requires other { other < length numbers.now }
    ensures { result ≡ true → place ≢ other
        → IsPairAt (chosen parts.now numbers.now) peers.now place other }
{
    if place == other {
        return true;
    }
    let one = peer_at(peers, place);
    let two = peer_at(peers, other);
    let job = &parts[numbers[place] as usize];
    let later = &parts[numbers[other] as usize];
    is_pair(one, two, job, later)
}

/// Whether a job and each other are one.
fn are_pairs(parts: &[KeptJob], numbers: &[u32], peers: &[Peer], place: usize) -> bool
    requires within { All (λ n. n < length parts.now) numbers.now }
    requires many { length peers.now ≡ length numbers.now }
    requires place { place < length numbers.now }
    ensures { result ≡ true → (k : ℕ) → k < length numbers.now → place ≢ k
        → IsPairAt (chosen parts.now numbers.now) peers.now place k }
{
    for other in 0..numbers.len() {
        if !is_pair_at(parts, numbers, peers, place, other) {
            return false;
        }
    }
    true
}

/// What is noted of a job: it is of the group of the first job that is equal.
fn peer_of(
    shape: &StoreShape,
    programs: &[Program],
    parts: &[KeptJob],
    numbers: &[u32],
    peers: &[Peer],
) -> Option<Peer> {
    let place = peers.len();
    let job = parts.get(*numbers.get(place)? as usize)?;
    let mut peer = Peer {
        cpu: job.cpu(),
        program: job.program(),
        budget: job.budget(),
        group: place,
        blind: is_blind(shape, programs, job.program()),
    };
    for earlier in 0..place {
        let first = parts.get(*numbers.get(earlier)? as usize)?;
        if peer.group == place && are_equal(peers[earlier], peer, first, job) {
            peer.group = earlier;
        }
    }
    Some(peer)
}

/// Whether two of them are of one group.
fn are_some_equal(peers: &[Peer]) -> bool {
    for place in 0..peers.len() {
        if peers[place].group != place {
            return true;
        }
    }
    false
}

/// Whether all is as it is noted of the jobs.
fn are_found(
    shape: &StoreShape,
    programs: &[Program],
    parts: &[KeptJob],
    numbers: &[u32],
    peers: &[Peer],
) -> bool
    requires { All (λ n. n < length parts.now) numbers.now }
    ensures { result ≡ true → ArePeers shape.now programs.now peers.now
        × AreJobsOf peers.now (chosen parts.now numbers.now)
        × AreEquallyFresh peers.now (chosen parts.now numbers.now) }
{
    if peers.len() != numbers.len() {
        return false;
    }
    for place in 0..numbers.len() {
        let peer = peer_at(peers, place);
        let job = &parts[numbers[place] as usize];
        if !is_peer(shape, programs, peer, job) {
            return false;
        }
        if !are_pairs(parts, numbers, peers, place) {
            return false;
        }
    }
    true
}

/// Of jobs that all wait, which are equal: none is noted where no two are.
pub fn find_peers(
    alloc: Global,
    shape: &StoreShape,
    programs: &[Program],
    parts: &[KeptJob],
    numbers: &[u32],
) -> Result<Vec<Peer>, AllocError>
    requires { All (λ n. n < length parts.now) numbers.now }
    ensures peers { IfOk result (λ ps. ArePeers shape.now programs.now ps.items) }
    ensures jobs { IfOk result (λ ps. (j : ℕ) (one : EqualJob) → slice_get ps.items j ≡ Some one
        → AreJobsOf ps.items (chosen parts.now numbers.now)
        × AreEquallyFresh ps.items (chosen parts.now numbers.now)) }
{
    let mut peers = Vec::new(alloc);
    for _ in 0..numbers.len() {
        if let Some(peer) = peer_of(shape, programs, parts, numbers, &peers) {
            peers.push(peer)?;
        }
    }
    if !are_some_equal(&peers) {
        return Ok(Vec::new(alloc));
    }
    if !are_found(shape, programs, parts, numbers, &peers) {
        return Ok(Vec::new(alloc));
    }
    Ok(peers)
}
