//! Calls that read states, and put those that these lead to into parts.

ghost use Rattle.std.specs.Prelude.{◌≡◌, ◌<◌, ◌≤◌, ◌++◌, ℕ, All, List, Some, [], false, true, IfNone, IfOk, IfSome, OnOk, drop, length, map, slice_get, string_bytes};
ghost use Rattle.bpf_names.specs.Names.{names_of};
ghost use Rattle.bpf_expand.specs.Filter.{IsReportIn};
ghost use Rattle.bpf_expand.specs.Parts.{AreFound, ArePaired, IfNoState, IfParted, IsFound, IsParted, LeadsTo, NoneIsAt, counts_line, end_lines, put, put_all};
ghost use Rattle.bpf_expand.specs.Private.Traced.{AreLater, AreTraced, IsPut, origin_of};
ghost use Rattle.bpf_expand.specs.State.{AreSuccessors, Host, IsNoState};

use crate::expander::Expander;
use crate::lines::end_line;
use crate::origin::{Origin, origin_parts};
use crate::parts::{Parted, into_parts};
use crate::states::States;
use crate::successor::Successor;
use bpf_names::Names;
use std::alloc::{AllocError, Global};

/// The states of a call.
#[derive(Drop)]
pub struct Given {
    /// Those of which it is asked what they lead to.
    pub read: Vec<Vec<u8>>,
    /// Others that are known.
    pub seen: Vec<Vec<u8>>,
}

/// What a call comes to.
#[derive(Drop)]
pub enum Called {
    Parted(Parted),
    /// What has this number among those that were read is no state of the host.
    NoState(usize),
}

/// What is found in a call.
#[derive(Drop)]
struct Found {
    /// The states that were known before, and then the new ones.
    known: States,
    /// What each new one was found by.
    origins: Vec<Origin>,
    /// The reports of states where no CPU has work.
    ends: States,
    /// Of each how many states were read before one that has it.
    numbers: Vec<u64>,
}

/// Keeps one of the states that the state of a number leads to.
fn put_one(
    known: &mut States,
    origins: &mut Vec<Origin>,
    number: u64,
    successor: &Successor,
) -> Result<(), AllocError>
    ensures known { OnOk result (known.new ≡ put known.old successor.now.bytes.items) }
    ensures put { OnOk result (IsPut (origin_of number successor.now)
        successor.now.bytes.items origins.old.items known.old origins.new.items known.new) }
{
    if known.put_new(&successor.bytes)? {
        let origin = Origin {
            number,
            cpu: successor.cpu,
            ahead: successor.ahead,
        };
        origins.push(origin)?;
    }
    Ok(())
}

/// Keeps what CPUs' turns lead to from the state of a number.
fn put_found(
    known: &mut States,
    origins: &mut Vec<Origin>,
    number: u64,
    found: &[Successor],
) -> Result<(), AllocError>
    ensures known { OnOk result (known.new
        ≡ put_all known.old (map (λ s. s.bytes.items) found.now)) }
    ensures traced { OnOk result ((h : Host) (read : List (List ℕ)) (first : ℕ)
        → All (λ s. LeadsTo h read (origin_of number s) s.bytes.items) found.now
        → AreLater (LeadsTo h read) first origins.old.items known.old
        → AreLater (LeadsTo h read) first origins.new.items known.new) }
{
    for successor in found {
        put_one(known, origins, number, successor)?;
    }
    Ok(())
}

/// Keeps the report of the state of a number, if it is a new one.
fn put_report(found: &mut Found, report: &[u8], number: u64) -> Result<(), AllocError>
    ensures ends { OnOk result (found.new.ends ≡ put found.old.ends report.now) }
    ensures known { found.new.known ≡ found.old.known }
    ensures origins { found.new.origins ≡ found.old.origins }
    ensures put { OnOk result (IsPut number report.now found.old.numbers.items found.old.ends
        found.new.numbers.items found.new.ends) }
{
    if found.ends.put_new(report)? {
        found.numbers.push(number)?;
    }
    Ok(())
}

/// Keeps the report of the state of a number, from which no CPU's turn leads on. Whether the bytes
/// are one.
fn put_end(
    expander: &mut Expander,
    names: &Names,
    bytes: &[u8],
    number: u64,
    found: &mut Found,
) -> Result<bool, AllocError>
    requires { AreSuccessors expander.old.host bytes.now [] }
    ensures put { IfOk result (λ is. is ≡ true → (report : List ℕ)
        × IsReportIn expander.new.host (names_of names.now) bytes.now report
        × (found.new.ends ≡ put found.old.ends report)) }
    ensures known { found.new.known ≡ found.old.known }
    ensures traced { IfOk result (λ is. is ≡ true → (read : List (List ℕ)) (first : ℕ)
        → slice_get read number ≡ Some bytes.now
        → AreTraced expander.new.host (names_of names.now) read first found.old
        → AreTraced expander.new.host (names_of names.now) read first found.new) }
    ensures none { IfOk result (λ is. is ≡ false → IsNoState expander.new.host bytes.now) }
    ensures same { expander.new.host ≡ expander.old.host }
{
    if !expander.take(bytes)? {
        return Ok(false);
    }
    let report = expander.report(names)?;
    put_report(found, report.as_bytes(), number)?;
    Ok(true)
}

/// Keeps what the state of a number leads to, or its report. Whether the bytes are one.
fn expand(
    expander: &mut Expander,
    names: &Names,
    bytes: &[u8],
    number: u64,
    found: &mut Found,
) -> Result<bool, AllocError>
    ensures found { IfOk result (λ is. is ≡ true → (led ends : List (List ℕ))
        × IsFound expander.new.host (names_of names.now) bytes.now led ends
        × (found.new.known ≡ put_all found.old.known led)
        × (found.new.ends ≡ put_all found.old.ends ends)) }
    ensures traced { IfOk result (λ is. is ≡ true → (read : List (List ℕ)) (first : ℕ)
        → slice_get read number ≡ Some bytes.now
        → AreTraced expander.new.host (names_of names.now) read first found.old
        → AreTraced expander.new.host (names_of names.now) read first found.new) }
    ensures none { IfOk result (λ is. is ≡ false → IsNoState expander.new.host bytes.now) }
    ensures same { expander.new.host ≡ expander.old.host }
{
    let Some(led) = expander.successors(bytes)? else {
        return Ok(false);
    };
    if led.is_empty() {
        return put_end(expander, names, bytes, number, found);
    }
    put_found(&mut found.known, &mut found.origins, number, &led)?;
    Ok(true)
}

/// Keeps what each of some states leads to. The number of the first one that is no state.
fn expand_all(
    expander: &mut Expander,
    names: &Names,
    read: &[Vec<u8>],
    found: &mut Found,
) -> Result<Option<usize>, AllocError>
    ensures all { IfOk result (λ o. IfNone o ((led ends : List (List ℕ))
        × AreFound expander.new.host (names_of names.now) (map (λ v. v.items) read.now)
        (length read.now) led ends
        × (found.new.known ≡ put_all found.old.known led)
        × (found.new.ends ≡ put_all found.old.ends ends))) }
    ensures traced { IfOk result (λ o. IfNone o ((first : ℕ)
        → AreTraced expander.new.host (names_of names.now) (map (λ v. v.items) read.now) first
        found.old
        → AreTraced expander.new.host (names_of names.now) (map (λ v. v.items) read.now) first
        found.new)) }
    ensures refused { IfOk result (λ o. IfSome o (NoneIsAt expander.new.host
        (map (λ v. v.items) read.now))) }
    ensures same { expander.new.host ≡ expander.old.host }
{
    for number in 0..read.len() {
        if !expand(expander, names, &read[number], number as u64, found)? {
            return Ok(Some(number));
        }
    }
    Ok(None)
}

/// The lines of reports, each with the number of a state that has it.
fn end_lines(alloc: Global, ends: &[Vec<u8>], numbers: &[u64]) -> Result<String, AllocError>
    requires { length numbers.now ≡ length ends.now }
    ensures { IfOk result (λ text. string_bytes text
        ≡ end_lines (map (λ v. v.items) ends.now) numbers.now) }
{
    let mut text = String::new(alloc);
    for end in 0..ends.len() {
        let line = end_line(alloc, &ends[end], numbers[end])?;
        text.push_str(line.as_str())?;
    }
    Ok(text)
}

/// How many states were read, and how many are new.
fn counts_line(alloc: Global, read: usize, new: usize) -> Result<String, AllocError>
    ensures { IfOk result (λ text. string_bytes text ≡ counts_line read new) }
{
    format!(in alloc; "{read} states, {new} new\n")
}

/// What states lead to that were read, but for those that are known, in n parts.
pub fn parts_of(
    alloc: Global,
    expander: &mut Expander,
    names: &Names,
    given: &Given,
    count: usize,
) -> Result<Called, AllocError>
    requires { 0 < count }
    ensures parted { IfOk result (λ called. IfParted called (IsParted expander.new.host
        (names_of names.now) count (map (λ v. v.items) given.now.read.items)
        (map (λ v. v.items) given.now.seen.items))) }
    ensures refused { IfOk result (λ called. IfNoState called (NoneIsAt expander.new.host
        (map (λ v. v.items) given.now.read.items))) }
    ensures same { expander.new.host ≡ expander.old.host }
{
    let mut known = States::new(alloc);
    known.put_all(&given.read)?;
    known.put_all(&given.seen)?;
    let first = known.count();
    let mut found = Found {
        known,
        origins: Vec::new(alloc),
        ends: States::new(alloc),
        numbers: Vec::new(alloc),
    };
    if let Some(number) = expand_all(expander, names, &given.read, &mut found)? {
        return Ok(Called::NoState(number));
    }
    let new = found.known.from(first);
    let parts = into_parts(alloc, new, count)?;
    let origins = origin_parts(alloc, new, &found.origins, count)?;
    let mut text = end_lines(alloc, found.ends.from(0), &found.numbers)?;
    let counts = counts_line(alloc, given.read.len(), new.len())?;
    text.push_str(counts.as_str())?;
    Ok(Called::Parted(Parted {
        parts,
        origins,
        text,
    }))
}
