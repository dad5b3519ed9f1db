//! The whole program: from its words, a source and a sink to its exit status.

ghost use Rattle.std.specs.Prelude.{◌≡◌, ◌≢◌, ◌≤◌, ◌⊎◌, [], false, map, option_map, string_bytes, IfErr, IfOk, IsErr, IsOkAnd};
ghost use Rattle.clap.specs.Words.{kind_of};
ghost use Rattle.clap.specs.declared.error.kind.ErrorKind.TheVariants as kind;
ghost use Rattle.bpf_command.specs.Names.{Refuses};
ghost use Rattle.bpf_command.specs.declared.command.Request.{Request};
ghost use Rattle.bpf_command.specs.declared.command_line.CommandError.{CommandError};
ghost use Rattle.bpf_run.specs.Objects.{IsShown};
ghost use Rattle.bpf_replies.specs.Answer.{Prints, exit_status, stats_of};
ghost use Rattle.bpf_run.specs.Conversing.{Converses, asked_talk};
ghost use Rattle.bpf_run.specs.Program.{Does, Follows, error_of, IfExit, IfNotText, IfShown, IfMisused, IsAsked, IsPrintedAs};
ghost use Rattle.bpf_run.specs.declared.program.Misuse.{Misuse};
ghost use Rattle.bpf_replies.specs.declared.refusal.Refusal.{Refusal};

use crate::conversing::{asked_talk, talk_named};
use crate::explaining::{Failures, Question, Subject, explain, explain_context, hint_at_run, warn};
use crate::objects::{Errand, answer_as, perform_as};
use crate::perform::Performed;
use crate::progress::{Aside, Teller};
use crate::racing::AllRaces;
use crate::scouting::crew_of;
use crate::spreading::{Shelf, Spreading, perform_spread};
use bpf_command::{Command, CommandError, Request, request_of};
use bpf_lines::HexError;
use bpf_replies::printing::{answer, print_page};
use bpf_replies::refusal::Refusal;
use bpf_replies::reply::{Reply, Status};
use bpf_replies::several::check_files;
use bpf_replies::stream::{Sink, Source};
use bpf_talk::Terminal;
use clap::error;
use std::alloc::Global;
use std::io;
use std::io::ErrorKind;
use std::sync::Wait;
use std::thread::Threads;

/// What is wrong with words that `clap` takes.
#[derive(Clone, Copy, PartialEq, Eq, Debug)]
pub enum Misuse {
    /// What is to be explained is no code that the program prints, nor another name with a page.
    Code,
    /// A text spells no schedule.
    Schedule,
    /// Options are there of which one rules out the other, as a schedule and workers.
    TwoWays,
    /// What is counted of a run on worker threads is asked for without workers.
    Workers,
    /// Several files are named, and what goes with one alone.
    OneFile,
    /// What is asked of a run is there without `--run`, or the listing beside it.
    Run,
    /// Maps of locks are named without `--races`, or an outcome is asked for beside it.
    Races,
    /// Files of states are asked for without a folder and a number of parts, or beside what is done of
    /// lines alone.
    Files,
    /// What is of turns alone is asked of a search beside store buffers.
    TurnsAlone,
}

impl Misuse {
    /// What is said of it.
    fn text(self) -> &'static str {
        match self {
            Misuse::Code => NO_CODE,
            Misuse::Schedule => NO_SCHEDULE,
            Misuse::TwoWays => TWO_WAYS,
            Misuse::Workers => NO_WORKERS,
            Misuse::OneFile => ONE_FILE,
            Misuse::Run => NO_RUN,
            Misuse::Races => NO_RACES,
            Misuse::Files => NO_FILES,
            Misuse::TurnsAlone => TURNS_ALONE,
        }
    }
}

/// What is left to do once the words have been followed.
#[derive(Drop)]
pub enum Ending {
    /// To exit with this status.
    Exit(Status),
    /// To exit with this status, and to explain on standard error why the context is refused.
    NoContext(Status),
    /// To exit with this status, once what is printed beside a command's answer is on standard error.
    Performed(Performed),
    /// To exit so, and to explain on standard error what came of the command.
    Explained(Question, Performed),
    /// To show what `clap` says: a fault of the words, help or the version.
    Shown(clap::Error),
    /// To say that a word isn't UTF-8.
    NotText,
    /// To say what is wrong with the words, where `clap` finds no fault.
    Misused(Misuse),
}

const NO_CODE: &str = "\
no such code is printed: there are A1 to A6, E1 to E14, F1 to F7, G1 to G5, H1, J1 to J4, L1 to L11, S1 to S12 and X1;
nor is it an error (ENOMEM, EEXIST, ENOENT, E2BIG, EINVAL, EPERM, EBUSY), a flag (BPF_ANY, BPF_NOEXIST, BPF_EXIST),
a helper (lookup, update, delete, cpu, spin_lock, or bpf_map_lookup_elem and the like),
or a word of run files (spare, packet, xdp, tc)

For more information, try 'ebpf explain --help'.";

const NO_SCHEDULE: &str = "\
no schedule: its words are C, one turn of CPU C, and C*N, N turns of it, as in '0*9 1 0*2',
and beside '--x86' also C! and C!*N, flushes of its store buffer

For more information, try 'ebpf run --help'.";

const TWO_WAYS: &str = "\
'--workers' goes with none of '--by', '--events', '--packets' and '--check', nor any of the last three with another,
and '--x86' goes with none of '--workers', '--packets', '--check' and '--keys'

For more information, try 'ebpf run --help'.";

const NO_WORKERS: &str = "\
'--stats' goes beside '--workers' alone

For more information, try 'ebpf run --help'.";

const ONE_FILE: &str = "\
'-' and '--explain' go with one FILE alone

For more information, try 'ebpf check --help'.";

const NO_RUN: &str = "\
'--budget' and '--ctx' go beside '--run' alone, and '--listing' doesn't

For more information, try 'ebpf asm --help'.";

const NO_RACES: &str = "\
'--sync' goes beside '--races' alone, and '--show' doesn't

For more information, try 'ebpf explore --help'.";

const NO_FILES: &str = "\
'--into', '--parts', '--seen' and STATES go together, '--seen' and STATES may be left out,
and they go with none of '--first', '--x86', '--races' and '--explain'

For more information, try 'ebpf expand --help'.";

const TURNS_ALONE: &str = "\
'--x86' goes with none of '--races', '--sync' and '--workers'

For more information, try 'ebpf explore --help'.";

/// The exit status after a fault of the command line.
pub const USAGE: u8 = 2;

/// Performs a command, in a conversation where one is asked for.
fn perform_command<T: Threads + Wait + Sync + Aside, R: Source, W: Sink, D: Terminal>(
    rt: &T,
    alloc: Global,
    errand: Errand,
    source: &mut R,
    sink: &mut W,
    terminal: &mut D,
) -> Performed
    requires readable { R.has_failed source.old ≡ false }
    requires writable { W.has_failed sink.old ≡ false }
    requires hears { D.is_unread terminal.old ≡ false }
    requires tells { D.has_failed terminal.old ≡ false }
    ensures { Does errand.entry.command errand.entry.json
        (option_map (λ s. s.now) errand.entry.file)
        (asked_talk errand.entry.command (option_map (λ s. s.now) errand.entry.file)
        errand.entry.json)
        (terminal.new ≡ terminal.old) (Converses (D.passes terminal.old terminal.new)
        (D.is_unread terminal.new) (D.has_failed terminal.new))
        (R.remaining source.old) (R.file source.old) (R.has_failed source.new)
        (W.contents sink.old) (W.contents sink.new) (W.has_failed sink.new) result.status
        (stats_of result.reply) }
{
    match asked_talk(&errand.command, errand.file, errand.json) {
        Some(asked) => talk_named(alloc, asked, source, sink, terminal),
        None => perform_as(rt, alloc, errand, source, sink),
    }
}

/// A command as the words ask for it.
#[derive(Drop)]
struct Wish {
    command: Command,
    /// The file that is read in place of standard input.
    file: Option<String>,
    /// Whether its answer is explained.
    explain: bool,
    /// Whether objects are written in place of lines.
    json: bool,
}

/// Performs a command. What it writes and its status don't depend on whether it is explained.
fn perform_for<T: Threads + Wait + Sync + Aside, R: Source, W: Sink, D: Terminal>(
    rt: &T,
    alloc: Global,
    wish: Wish,
    source: &mut R,
    sink: &mut W,
    terminal: &mut D,
) -> Ending
    requires readable { R.has_failed source.old ≡ false }
    requires writable { W.has_failed sink.old ≡ false }
    requires hears { D.is_unread terminal.old ≡ false }
    requires tells { D.has_failed terminal.old ≡ false }
    ensures performed { IfExit result (λ status stats. Does wish.command wish.json
        (option_map string_bytes wish.file)
        (asked_talk wish.command (option_map string_bytes wish.file) wish.json)
        (terminal.new ≡ terminal.old) (Converses (D.passes terminal.old terminal.new)
        (D.is_unread terminal.new) (D.has_failed terminal.new))
        (R.remaining source.old) (R.file source.old) (R.has_failed source.new)
        (W.contents sink.old) (W.contents sink.new) (W.has_failed sink.new) status stats) }
    ensures shown { IfShown result (λ e. ⊥) }
    ensures text { IfNotText result ⊥ }
    ensures misused { IfMisused result (λ _. ⊥) }
{
    let Wish {
        command,
        file,
        explain,
        json,
    } = wish;
    let subject = if explain {
        Some(Subject::of(&command))
    } else {
        None
    };
    let errand = Errand {
        command,
        file: file.as_ref().map(String::as_str),
        json,
    };
    let done = perform_command(rt, alloc, errand, source, sink, terminal);
    match subject {
        Some(subject) => Ending::Explained(Question { subject, file }, done),
        None => Ending::Performed(done),
    }
}

/// Whether `--explain` is among words in which `clap` finds no fault.
fn has_explain(words: &[String]) -> bool {
    let mut options = words.iter().take_while(|word| word.as_str() != "--");
    options.any(|word| word.as_str() == "--explain")
}

/// Does what is asked, or prints why nothing can be done. A refused context is to be explained
/// where that is asked for, too.
fn follow<T: Threads + Wait + Sync + Aside + Shelf, R: Source, W: Sink, D: Terminal>(
    rt: &T,
    alloc: Global,
    asked: Result<Request, CommandError>,
    explain: bool,
    source: &mut R,
    sink: &mut W,
    terminal: &mut D,
) -> Ending
    requires readable { R.has_failed source.old ≡ false }
    requires writable { W.has_failed sink.old ≡ false }
    requires hears { D.is_unread terminal.old ≡ false }
    requires tells { D.has_failed terminal.old ≡ false }
    ensures performed { IfExit result (λ status stats. IfOk asked (λ request.
        Follows request (T.has_made rt.now) (source.new ≡ source.old)
        (terminal.new ≡ terminal.old) (Converses (D.passes terminal.old terminal.new) (D.is_unread terminal.new)
        (D.has_failed terminal.new))
        (R.remaining source.old) (R.file source.old)
        (R.has_failed source.new) (W.contents sink.old) (W.contents sink.new)
        (W.has_failed sink.new) status stats)) }
    ensures refused { IfExit result (λ status stats. IfErr asked (λ e. ((source.new ≡ source.old)
        × (terminal.new ≡ terminal.old)) × (stats ≡ []) × ((r : Refusal) × IsPrintedAs e r
        × Prints (Reply.Refused r) (W.contents sink.old) (W.contents sink.new)
        (W.has_failed sink.new) status))) }
    ensures shown { IfShown result (λ e. (asked ≡ Err (CommandError.Shown e))
        × (source.new ≡ source.old) × (sink.new ≡ sink.old) × (terminal.new ≡ terminal.old)) }
    ensures text { IfNotText result ⊥ }
    ensures misused { IfMisused result (λ misuse. (asked ≡ Err (error_of misuse))
        × (source.new ≡ source.old) × (sink.new ≡ sink.old) × (terminal.new ≡ terminal.old)) }
{
    let refusal = match asked {
        Ok(
            Request::Perform {
                command,
                file,
                explain,
                json,
            },
        ) => {
            let wish = Wish {
                command,
                file,
                explain,
                json,
            };
            return perform_for(rt, alloc, wish, source, sink, terminal);
        }
        Ok(Request::CheckAll { check, files, json }) => {
            let mut teller = Teller::new(rt, check.search.progress);
            let crew = crew_of(rt, check.search.workers);
            let reply = check_files::<AllRaces, _, _, _>(
                alloc,
                &check,
                &files,
                source,
                &crew,
                &mut teller,
            );
            return Ending::Exit(answer_as(json, alloc, &reply, sink));
        }
        Ok(Request::Spread { spread, file }) => {
            let errand = Spreading { spread, file };
            return Ending::Exit(perform_spread(rt, alloc, &errand, source, sink));
        }
        Ok(Request::Page(topic)) => return Ending::Exit(print_page(alloc, topic, sink)),
        Err(CommandError::Shown(error)) => return Ending::Shown(error),
        Err(CommandError::NoCode) => return Ending::Misused(Misuse::Code),
        Err(CommandError::NoSchedule) => return Ending::Misused(Misuse::Schedule),
        Err(CommandError::TwoWays) => return Ending::Misused(Misuse::TwoWays),
        Err(CommandError::NoWorkers) => return Ending::Misused(Misuse::Workers),
        Err(CommandError::OneFile) => return Ending::Misused(Misuse::OneFile),
        Err(CommandError::NoRun) => return Ending::Misused(Misuse::Run),
        Err(CommandError::NoRaces) => return Ending::Misused(Misuse::Races),
        Err(CommandError::NoFiles) => return Ending::Misused(Misuse::Files),
        Err(CommandError::TurnsAlone) => return Ending::Misused(Misuse::TurnsAlone),
        Err(CommandError::NotHex) => Refusal::Hex(HexError::NotHex),
        Err(CommandError::OutOfMemory) => Refusal::OutOfMemory,
    };
    let no_context = explain && matches!(refusal, Refusal::Hex(_));
    let status = answer(alloc, &Reply::Refused(refusal), sink);
    if no_context {
        Ending::NoContext(status)
    } else {
        Ending::Exit(status)
    }
}

/// Does what the words ask for, of which the first is the program's name. What is wrong with them
/// is said before anything is read.
pub fn program<T: Threads + Wait + Sync + Aside + Shelf, R: Source, W: Sink, D: Terminal>(
    rt: &T,
    alloc: Global,
    words: io::Result<Vec<String>>,
    source: &mut R,
    sink: &mut W,
    terminal: &mut D,
) -> Ending
    requires readable { R.has_failed source.old ≡ false }
    requires writable { W.has_failed sink.old ≡ false }
    requires hears { D.is_unread terminal.old ≡ false }
    requires tells { D.has_failed terminal.old ≡ false }
    ensures followed { IfExit result (λ status stats. IfOk words (λ words.
        ((request : Request) × IsAsked (map string_bytes words.items) request
        × Follows request (T.has_made rt.now) (source.new ≡ source.old)
        (terminal.new ≡ terminal.old) (Converses (D.passes terminal.old terminal.new) (D.is_unread terminal.new)
        (D.has_failed terminal.new))
        (R.remaining source.old) (R.file source.old)
        (R.has_failed source.new) (W.contents sink.old) (W.contents sink.new)
        (W.has_failed sink.new) status stats)
        ⊎ ((e : CommandError) × Refuses (map string_bytes words.items) e
        × ((source.new ≡ source.old) × (terminal.new ≡ terminal.old)) × (stats ≡ [])
        × ((r : Refusal) × IsPrintedAs e r
        × Prints (Reply.Refused r) (W.contents sink.old) (W.contents sink.new)
        (W.has_failed sink.new) status)))) }
    ensures memory { IfExit result (λ status stats. IfErr words (λ _. (source.new ≡ source.old)
        × (terminal.new ≡ terminal.old) × (stats ≡ [])
        × Prints (Reply.Refused Refusal.OutOfMemory) (W.contents sink.old)
        (W.contents sink.new) (W.has_failed sink.new) status)) }
    ensures shown { IfShown result (λ e. IsOkAnd words (λ words.
        Refuses (map string_bytes words.items) (CommandError.Shown e))
        × (source.new ≡ source.old) × (sink.new ≡ sink.old) × (terminal.new ≡ terminal.old)) }
    ensures not_text { IfNotText result (IsErr words
        × (source.new ≡ source.old) × (sink.new ≡ sink.old) × (terminal.new ≡ terminal.old)) }
    ensures misused { IfMisused result (λ misuse. IsOkAnd words (λ words.
        Refuses (map string_bytes words.items) (error_of misuse))
        × (source.new ≡ source.old) × (sink.new ≡ sink.old) × (terminal.new ≡ terminal.old)) }
{
    match words {
        Ok(words) => {
            let asked = request_of(alloc, &words);
            let explain = has_explain(&words);
            follow(rt, alloc, asked, explain, source, sink, terminal)
        }
        Err(error) if error.kind() == ErrorKind::OutOfMemory => {
            Ending::Exit(answer(alloc, &Reply::Refused(Refusal::OutOfMemory), sink))
        }
        Err(_) => Ending::NotText,
    }
}

/// Shows what `clap` says; the exit status, which shows a fault of the words whether or not it
/// could be shown.
fn show<P: Print + Eprint>(rt: &P, error: &clap::Error) -> u8
    ensures fault { kind_of error.now ≢ kind.DisplayHelp → kind_of error.now ≢ kind.DisplayVersion
        → result ≡ USAGE }
    ensures help { kind_of error.now ≡ kind.DisplayHelp → result ≤ 1 }
    ensures version { kind_of error.now ≡ kind.DisplayVersion → result ≤ 1 }
{
    let shown = error.print(rt);
    if error.use_stderr() {
        USAGE
    } else if shown.is_ok() {
        0
    } else {
        1
    }
}

/// Prints that a write failed, and gives the exit status.
fn exit<P: Eprint>(rt: &P, status: Status) -> u8
    ensures { result ≡ exit_status status }
{
    if status == Status::Failed {
        let _ = eprintln!(rt; "error: the output couldn't be written");
    }
    status.code()
}

/// Prints what workers came to at the maps, where that is asked for and the answer could be printed.
fn tell_stats<P: Eprint>(rt: &P, done: &Performed) {
    if done.status == Status::Failed {
        return;
    }
    if let Reply::Counted { stats, .. } = &done.reply {
        let _ = eprint!(rt; "{}", stats.as_str());
    }
}

/// Does what is left to do, and gives the exit status as a number.
pub fn end<P: Print + Eprint>(rt: &P, alloc: Global, ending: Ending, failures: Failures) -> u8
    ensures exit { IfExit ending (λ status stats. result ≡ exit_status status) }
    ensures fault { IfShown ending (λ e. kind_of e ≢ kind.DisplayHelp
        → kind_of e ≢ kind.DisplayVersion → result ≡ USAGE) }
    ensures help { IfShown ending (λ e. kind_of e ≡ kind.DisplayHelp → result ≤ 1) }
    ensures version { IfShown ending (λ e. kind_of e ≡ kind.DisplayVersion → result ≤ 1) }
    ensures not_text { IfNotText ending (result ≡ USAGE) }
    ensures misused { IfMisused ending (λ _. result ≡ USAGE) }
{
    match ending {
        Ending::Exit(status) => exit(rt, status),
        Ending::NoContext(status) => {
            explain_context(rt, status);
            exit(rt, status)
        }
        Ending::Performed(done) => {
            tell_stats(rt, &done);
            warn(rt, alloc, &done);
            exit(rt, done.status)
        }
        Ending::Explained(question, done) => {
            tell_stats(rt, &done);
            explain(rt, alloc, &question, &done, failures);
            exit(rt, done.status)
        }
        Ending::Shown(error) => {
            let status = show(rt, &error);
            hint_at_run(rt, alloc, &error);
            status
        }
        Ending::NotText => {
            let _ = eprintln!(rt; "error: the command line isn't UTF-8");
            USAGE
        }
        Ending::Misused(misuse) => {
            let _ = eprintln!(rt; "error: {}", misuse.text());
            USAGE
        }
    }
}
