//! `ebpf run`: the jobs of a run file, in rounds on one thread or on worker threads.

ghost use Rattle.std.specs.Prelude.{◌≡◌, ◌++◌, [], IfErr, IfOk, Ok, string_bytes};
ghost use Rattle.bpf_check.specs.Listing.{left_text};
ghost use Rattle.bpf_file.specs.File.{File, file_of};
ghost use Rattle.bpf_file.specs.Reading.{IsRunFile};
ghost use Rattle.bpf_cpu.specs.Setup.{IsRunnable};
ghost use Rattle.bpf_sched.specs.Refusing.{AreWorkers};
ghost use Rattle.bpf_replies.specs.Answer.{Replies};
ghost use Rattle.bpf_replies.specs.Judging.{IsJudgedOfFile};
ghost use Rattle.bpf_replies.specs.Running.{IsBufferHistory, IsBufferHistoryOfFile, IsHistoryBy, IsHistoryOfFile, IsRunByWorkers, IsRunWithBuffers, IsRunWithBuffersOfFile, IsRunWithPackets, IsRunWithPacketsOfFile, IsRunOfFile, IsToldBy, RefusesFile};

use crate::comments::{Reading, expected_in, left_in};
use crate::refusal::Refusal;
use crate::reply::Reply;
use bpf_buffer_events::run_with_buffer_events;
use bpf_check::{check_printed, left_text};
use bpf_events::run_with_history;
use bpf_file::{RunFile, read_file};
use bpf_flushes::run_with_buffers;
use bpf_jobs::{Report, run_jobs_by};
use bpf_packets::run_with_packets;
use bpf_workers::{Counted, Extras, run_counted};
use std::alloc::{AllocError, Global};
use std::sync::Wait;
use std::thread::Threads;

/// The run file that a text says.
pub fn file_in(alloc: Global, text: &str) -> Result<RunFile, Refusal>
    ensures said { IfOk result (λ f. IsRunFile text.now (Ok (file_of f))) }
    ensures fits { IfOk result (λ f. IsRunnable f.setup) }
    ensures refused { IfErr result (RefusesFile text.now) }
{
    let file = read_file(alloc, text.as_bytes())?;
    Ok(file)
}

/// What is printed of the jobs that a text says, by these turns and then in rounds.
#[tactic(auto, using(crate::proofs::FreshFiles::told))]
fn report_by(
    alloc: Global,
    by: &[(u8, u64)],
    keys: bool,
    maps: bool,
    text: &str,
) -> Result<Report, Refusal>
    ensures told { IfOk result (λ report. (f : File) × IsRunFile text.now (Ok f)
        × IsToldBy by.now keys maps f (string_bytes report.text) report.stopped) }
    ensures refused { IfErr result (RefusesFile text.now) }
{
    let file = file_in(alloc, text)?;
    let RunFile { setup, names, .. } = file;
    let report = run_jobs_by(alloc, setup, &names, by, keys, maps)?;
    Ok(report)
}

/// `ebpf run`: these turns, and then rounds.
pub fn run_file(
    alloc: Global,
    by: &[(u8, u64)],
    keys: bool,
    maps: bool,
    text: &str,
) -> Result<Reply, Refusal>
    ensures { Replies (IsRunOfFile by.now keys maps text.now) result }
{
    let Report { text, stopped } = report_by(alloc, by, keys, maps, text)?;
    Ok(Reply::Jobs(text, stopped))
}

/// Tests of a run, after a comment that counts the expectations that are no tests of it.
fn with_left(alloc: Global, left: usize, tests: &str) -> Result<String, AllocError>
    ensures { IfOk result (λ text. string_bytes text ≡ left_text [] left ++ tests.now) }
{
    let mut text = left_text(alloc, "", left)?;
    text.push_str(tests)?;
    Ok(text)
}

/// `ebpf run --check`: whether these turns and rounds give what the file's comments expect.
pub fn judge_file(alloc: Global, by: &[(u8, u64)], keys: bool, text: &str) -> Result<Reply, Refusal>
    ensures { Replies (IsJudgedOfFile by.now keys text.now) result }
{
    let reading = Reading {
        lists: keys,
        ends: true,
        x86: false,
        lenient: false,
    };
    let expected = expected_in(alloc, reading, text)?;
    let left = left_in(alloc, reading, text)?;
    let report = report_by(alloc, by, keys, true, text)?;
    let judged = check_printed(alloc, &expected, report.text.as_str())?;
    let text = with_left(alloc, left, judged.text.as_str())?;
    Ok(Reply::Jobs(text, judged.refuted))
}

/// All that happens in the turns of jobs that a text says, by these turns and then in rounds.
#[tactic(auto, using(crate::proofs::FreshFiles::history))]
pub(crate) fn history_by(
    alloc: Global,
    by: &[(u8, u64)],
    keys: bool,
    maps: bool,
    text: &str,
) -> Result<Report, Refusal>
    ensures told { IfOk result (λ report. (f : File) × IsRunFile text.now (Ok f)
        × IsHistoryBy by.now keys maps f (string_bytes report.text) report.stopped) }
    ensures refused { IfErr result (RefusesFile text.now) }
{
    let file = file_in(alloc, text)?;
    let RunFile { setup, names, .. } = file;
    let report = run_with_history(alloc, setup, &names, by, keys, maps)?;
    Ok(report)
}

/// `ebpf run --events`: these turns and then rounds, with all that happens in them.
pub fn run_file_with_history(
    alloc: Global,
    by: &[(u8, u64)],
    keys: bool,
    maps: bool,
    text: &str,
) -> Result<Reply, Refusal>
    ensures { Replies (IsHistoryOfFile by.now keys maps text.now) result }
{
    let Report { text, stopped } = history_by(alloc, by, keys, maps, text)?;
    Ok(Reply::Jobs(text, stopped))
}

/// What is printed of the jobs that a text says and of their packets, by these turns and then in
/// rounds.
#[tactic(auto, using(crate::proofs::FreshFiles::with_packets))]
fn packets_by(
    alloc: Global,
    by: &[(u8, u64)],
    keys: bool,
    maps: bool,
    text: &str,
) -> Result<Report, Refusal>
    ensures told { IfOk result (λ report. (f : File) × IsRunFile text.now (Ok f)
        × IsRunWithPackets by.now keys maps f (string_bytes report.text) report.stopped) }
    ensures refused { IfErr result (RefusesFile text.now) }
{
    let file = file_in(alloc, text)?;
    let RunFile { setup, names, .. } = file;
    let report = run_with_packets(alloc, setup, &names, by, keys, maps)?;
    Ok(report)
}

/// `ebpf run --packets`: these turns and then rounds, with what jobs leave in their packets.
pub fn run_file_with_packets(
    alloc: Global,
    by: &[(u8, u64)],
    keys: bool,
    maps: bool,
    text: &str,
) -> Result<Reply, Refusal>
    ensures { Replies (IsRunWithPacketsOfFile by.now keys maps text.now) result }
{
    let Report { text, stopped } = packets_by(alloc, by, keys, maps, text)?;
    Ok(Reply::Jobs(text, stopped))
}

/// What is printed of the jobs that a text says, on CPUs with store buffers by these moves and then in
/// rounds.
#[tactic(auto, using(crate::proofs::FreshFiles::with_buffers))]
fn buffered_by(alloc: Global, by: &[(u8, u64)], maps: bool, text: &str) -> Result<Report, Refusal>
    ensures told { IfOk result (λ report. (f : File) × IsRunFile text.now (Ok f)
        × IsRunWithBuffers by.now maps f (string_bytes report.text) report.stopped) }
    ensures refused { IfErr result (RefusesFile text.now) }
{
    let file = file_in(alloc, text)?;
    let RunFile { setup, names, .. } = file;
    let report = run_with_buffers(alloc, setup, &names, by, maps)?;
    Ok(report)
}

/// `ebpf run --x86`: these moves and then rounds, on CPUs with store buffers.
pub fn run_file_with_buffers(
    alloc: Global,
    by: &[(u8, u64)],
    maps: bool,
    text: &str,
) -> Result<Reply, Refusal>
    ensures { Replies (IsRunWithBuffersOfFile by.now maps text.now) result }
{
    let Report { text, stopped } = buffered_by(alloc, by, maps, text)?;
    Ok(Reply::Jobs(text, stopped))
}

/// All that happens in the moves of jobs that a text says, on CPUs with store buffers by these moves and
/// then in rounds.
#[tactic(auto, using(crate::proofs::FreshFiles::buffer_history))]
pub(crate) fn buffer_history_by(
    alloc: Global,
    by: &[(u8, u64)],
    maps: bool,
    text: &str,
) -> Result<Report, Refusal>
    ensures told { IfOk result (λ report. (f : File) × IsRunFile text.now (Ok f)
        × IsBufferHistory by.now maps f (string_bytes report.text) report.stopped) }
    ensures refused { IfErr result (RefusesFile text.now) }
{
    let file = file_in(alloc, text)?;
    let RunFile { setup, names, .. } = file;
    let report = run_with_buffer_events(alloc, setup, &names, by, maps)?;
    Ok(report)
}

/// `ebpf run --x86 --events`: these moves and then rounds, on CPUs with store buffers, with all that
/// happens in them.
pub fn run_file_with_buffer_events(
    alloc: Global,
    by: &[(u8, u64)],
    maps: bool,
    text: &str,
) -> Result<Reply, Refusal>
    ensures { Replies (IsBufferHistoryOfFile by.now maps text.now) result }
{
    let Report { text, stopped } = buffer_history_by(alloc, by, maps, text)?;
    Ok(Reply::Jobs(text, stopped))
}

/// `ebpf run --workers`, and what workers came to at the maps, where that is asked for.
pub fn run_file_by_workers<T: Threads + Wait + Sync>(
    rt: &T,
    alloc: Global,
    workers: u8,
    extras: Extras,
    text: &str,
) -> Result<Reply, Refusal>
    requires { AreWorkers workers }
    ensures { Replies (IsRunByWorkers extras.stats extras.keys extras.maps text.now) result }
{
    let read = file_in(alloc, text)?;
    let Counted { report, stats } = run_counted(rt, alloc, read, workers, extras)?;
    let Report { text, stopped } = report;
    Ok(Reply::Counted {
        text,
        stopped,
        stats,
    })
}
