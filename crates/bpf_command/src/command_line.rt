//! The command that words name: what `clap` finds in them, and what its options stand for.

ghost use Rattle.std.specs.Prelude.{◌≡◌, ◌<◌, ◌≤◌, [], codes, false, IfErr, IfOk, IfSome, IsOkUnless, IsSomeAnd, map, OnOk, option_and_then, option_map, Some, string_bytes, true};
ghost use Rattle.bpf_explain.specs.Term.{topic_of};
ghost use Rattle.clap.specs.Kinds.{FailsBy};
ghost use Rattle.clap.specs.Takes.{is_given};
ghost use Rattle.clap.specs.Words.{fault_of, first_of, first_value, found_of, rows_of, subcommand_name_of, subcommand_of, subcommand_rows_of};
ghost use Rattle.bpf_command.specs.CommandLine.{ebpf, counts_alone, do_clash, do_part, do_part_races, HasBudget, HasLimit, HasParts, HasShown, HasWorkers, IsCommandName, IsRunnerName, IsSearchName, IsWorkName, MayHaveWorkers, names_several, NamesBudget, NamesLimit, NamesParts, NamesShown, NamesWorkers, wants_files, wants_lines, wants_no_buffers, wants_no_flushes, wants_one};
ghost use Rattle.bpf_command.specs.Names.{AreMoves, Asks, AsksBy, file_in, IsContext, IsSchedule, Names, NamesCheck, NamesRaces, NamesRun, NamesSearch, Refuses, RefusesContext, RefusesFlags, RefusesFound, RefusesMoves, RefusesSchedule, as_flags, flag_of};

use crate::command::{
    CheckOptions, Command, FileOptions, HistoryOptions, JudgeOptions, MAX_LIMIT, MAX_WORKERS,
    RaceOptions, Request, RunOptions, SearchOptions, ShowOptions, SpreadOptions, X86Options,
};
use crate::given::{given_texts, names_input, names_several};
use crate::options::ebpf_command;
use bpf_base::MAX_BUDGET;
use bpf_explain::{Topic, topic_named};
use bpf_mem::context::MAX_CONTEXT;
use clap::ArgMatches;
use clap::error::ErrorKind;
use clap::parser::ValueSource;
use hex::FromHexError;
use std::alloc::Global;
use std::convert::AsStr;

/// Why words name no command that can be done.
#[derive(Debug, Drop)]
pub enum CommandError {
    /// `clap` doesn't accept the words, or they ask for help or the version: its own text.
    Shown(clap::Error),
    /// The context isn't pairs of hex digits, or has too many bytes.
    NotHex,
    /// The schedule isn't one.
    NoSchedule,
    /// Options are there of which one rules out the other: a schedule, events, packets or a check
    /// beside a number of workers, whose CPUs take no turns; two of events, packets and a check; or
    /// workers, one of these or lists of keys beside store buffers.
    TwoWays,
    /// What is counted of a run on worker threads is asked for without workers.
    NoWorkers,
    /// Several files are named, and what goes with one alone: standard input, or to explain.
    OneFile,
    /// What is asked of a run is there without `--run`, or the listing beside it.
    NoRun,
    /// Maps of locks are named without `--races`, or an outcome is asked for beside it.
    NoRaces,
    /// Files of states are asked for without a folder and a number of parts, or beside what is done of
    /// lines alone.
    NoFiles,
    /// What is of turns alone is asked of a search beside store buffers: races, or workers.
    TurnsAlone,
    /// The page is asked for of what is no code that the program prints, nor another name with one.
    NoCode,
    OutOfMemory,
}

/// What `clap` finds in the words, of which the first is the program's name.
fn matches_of<'a, S: AsStr>(alloc: Global, words: &'a [S]) -> Result<ArgMatches<'a>, clap::Error>
    ensures found { IfOk result (λ m. subcommand_rows_of m
        ≡ subcommand_of ebpf (map S.text words.entry.now)) }
    ensures known { IfOk result (λ m. IsSomeAnd (subcommand_name_of m) IsCommandName) }
    ensures checked { IfOk result (λ m. IfSome (subcommand_rows_of m)
        (λ found. IsRunnerName found.0 → HasBudget found.1)) }
    ensures counted { IfOk result (λ m. IfSome (subcommand_rows_of m)
        (λ found. MayHaveWorkers found.0 → HasWorkers found.1)) }
    ensures limited { IfOk result (λ m. IfSome (subcommand_rows_of m)
        (λ found. IsSearchName found.0 → HasLimit found.1)) }
    ensures shown { IfOk result (λ m. IfSome (subcommand_rows_of m)
        (λ found. found.0 ≡ codes "explore" → HasShown found.1)) }
    ensures parted { IfOk result (λ m. IfSome (subcommand_rows_of m)
        (λ found. found.0 ≡ codes "expand" → HasParts found.1)) }
    ensures faults { FailsBy (fault_of ebpf (map S.text words.entry.now)) result }
{
    let matches = ebpf_command(alloc)?.try_get_matches_from(words)?;
    Ok(matches)
}

/// What `clap` reads of `--budget`, or its default.
fn found_budget(options: &ArgMatches) -> Option<u64>
    requires checked { HasBudget (rows_of (found_of options.now)) }
    ensures named { IsSomeAnd result (NamesBudget (rows_of (found_of options.now))) }
    ensures limited { IfSome result (λ n. n ≤ MAX_BUDGET) }
{
    options.get_one::<u64>("budget")
}

fn budget_of(options: &ArgMatches) -> u64
    requires checked { HasBudget (rows_of (found_of options.now)) }
    ensures named { NamesBudget (rows_of (found_of options.now)) result }
    ensures limited { result ≤ MAX_BUDGET }
{
    let Some(budget) = found_budget(options) else {
        unreachable!();
    };
    budget
}

fn context_bytes(alloc: Global, digits: &str) -> Result<Vec<u8>, CommandError>
    ensures given { IfOk result (λ v. IsContext (Some digits.now) v.items) }
    ensures refused { IfErr result (RefusesContext (Some digits.now)) }
{
    let bytes = match hex::decode(alloc, digits.as_bytes()) {
        Ok(bytes) => bytes,
        Err(FromHexError::OutOfMemory) => return Err(CommandError::OutOfMemory),
        Err(_) => return Err(CommandError::NotHex),
    };
    if bytes.len() > MAX_CONTEXT {
        return Err(CommandError::NotHex);
    }
    Ok(bytes)
}

fn context_of(alloc: Global, options: &ArgMatches) -> Result<Vec<u8>, CommandError>
    ensures given { IfOk result (λ v.
        IsContext (first_value (found_of options.now) (codes "ctx")) v.items) }
    ensures refused { IfErr result
        (RefusesContext (first_value (found_of options.now) (codes "ctx"))) }
{
    match options.get_str("ctx") {
        Some(digits) => context_bytes(alloc, digits),
        None => Ok(Vec::new(alloc)),
    }
}

/// The options of a run of one program.
#[tactic(auto, using(crate::proofs::OptionRows::context_in_rows, crate::proofs::OptionRows::no_context_in_rows))]
fn program_run_of(alloc: Global, options: &ArgMatches) -> Result<RunOptions, CommandError>
    requires checked { HasBudget (rows_of (found_of options.now)) }
    ensures named { IfOk result (NamesRun (rows_of (found_of options.now))) }
    ensures refused { IfErr result
        (RefusesContext (first_of (codes "ctx") (rows_of (found_of options.now)))) }
{
    let context = context_of(alloc, options)?;
    let budget = budget_of(options);
    Ok(RunOptions { budget, context })
}

fn hex_of(alloc: Global, options: &ArgMatches) -> Result<Command, CommandError>
    requires checked { HasBudget (rows_of (found_of options.now)) }
    ensures named { IfOk result (Names (Some (codes "hex", rows_of (found_of options.now)))) }
    ensures refused { IfErr result
        (RefusesContext (first_of (codes "ctx") (rows_of (found_of options.now)))) }
{
    let run = program_run_of(alloc, options)?;
    Ok(Command::Hex(run))
}

/// What `clap` reads of `--workers`, if it is given.
fn workers_of(options: &ArgMatches) -> Option<u8>
    requires counted { HasWorkers (rows_of (found_of options.now)) }
    ensures named { NamesWorkers (rows_of (found_of options.now)) result }
    ensures some { IfSome result (λ n. 0 < n) }
    ensures few { IfSome result (λ n. n ≤ MAX_WORKERS) }
{
    options.get_one::<u8>("workers")
}

/// What `clap` reads of `--limit`, or its default.
fn found_limit(options: &ArgMatches) -> Option<u64>
    requires limited { HasLimit (rows_of (found_of options.now)) }
    ensures named { IsSomeAnd result (NamesLimit (rows_of (found_of options.now))) }
    ensures limited { IfSome result (λ n. n ≤ MAX_LIMIT) }
{
    options.get_one::<u64>("limit")
}

fn limit_of(options: &ArgMatches) -> u64
    requires limited { HasLimit (rows_of (found_of options.now)) }
    ensures named { NamesLimit (rows_of (found_of options.now)) result }
    ensures limited { result ≤ MAX_LIMIT }
{
    let Some(limit) = found_limit(options) else {
        unreachable!();
    };
    limit
}

/// What `clap` reads of `--show`, if it is given.
fn shown_of(options: &ArgMatches) -> Option<u64>
    requires shown { HasShown (rows_of (found_of options.now)) }
    ensures named { NamesShown (rows_of (found_of options.now)) result }
    ensures counted { IfSome result (λ n. 0 < n) }
{
    options.get_one::<u64>("show")
}

/// Whether this option is given. A default's value has a source of its own.
#[tactic(auto, using(crate::proofs::OptionRows::given_in_rows))]
fn is_given(options: &ArgMatches, id: &str) -> bool
    ensures { result ≡ is_given id.now (rows_of (found_of options.now)) }
{
    options.contains_id(id) && options.value_source(id) != Some(ValueSource::DefaultValue)
}

/// Whether what is asked of a run is there without `--run`, or the listing beside it.
fn do_part(options: &ArgMatches) -> bool
    ensures { result ≡ do_part (rows_of (found_of options.now)) }
{
    if is_given(options, "run") {
        is_given(options, "listing")
    } else {
        is_given(options, "budget") || is_given(options, "ctx")
    }
}

#[tactic(auto, using(crate::proofs::OptionRows::asm_refused))]
fn asm_of(alloc: Global, options: &ArgMatches) -> Result<Command, CommandError>
    requires checked { HasBudget (rows_of (found_of options.now)) }
    ensures named { IfOk result (Names (Some (codes "asm", rows_of (found_of options.now)))) }
    ensures refused { IfErr result (RefusesFound (codes "asm", rows_of (found_of options.now))) }
{
    if do_part(options) {
        return Err(CommandError::NoRun);
    }
    if is_given(options, "run") {
        let run = program_run_of(alloc, options)?;
        return Ok(Command::AsmRun(run));
    }
    Ok(Command::Asm {
        listing: is_given(options, "listing"),
    })
}

/// The schedule that `--by` spells, of no turns where it isn't given.
fn schedule_of(alloc: Global, options: &ArgMatches) -> Result<Vec<(u8, u64)>, CommandError>
    ensures given { IfOk result (λ v.
        IsSchedule (first_value (found_of options.now) (codes "by")) v.items) }
    ensures refused { IfErr result
        (RefusesSchedule (first_value (found_of options.now) (codes "by"))) }
{
    let Some(text) = options.get_str("by") else {
        return Ok(Vec::new(alloc));
    };
    match bpf_schedule::runs_in(alloc, text.as_bytes()) {
        Ok(Some(runs)) => Ok(runs),
        Ok(None) => Err(CommandError::NoSchedule),
        Err(_) => Err(CommandError::OutOfMemory),
    }
}

/// The moves that `--by` spells beside `--x86`, none where it isn't given.
fn moves_of(alloc: Global, options: &ArgMatches) -> Result<Vec<(u8, u64)>, CommandError>
    ensures given { IfOk result (λ v.
        AreMoves (first_value (found_of options.now) (codes "by")) v.items) }
    ensures refused { IfErr result
        (RefusesMoves (first_value (found_of options.now) (codes "by"))) }
{
    let Some(text) = options.get_str("by") else {
        return Ok(Vec::new(alloc));
    };
    match bpf_schedule::moves_in(alloc, text.as_bytes()) {
        Ok(Some(moves)) => Ok(moves),
        Ok(None) => Err(CommandError::NoSchedule),
        Err(_) => Err(CommandError::OutOfMemory),
    }
}

/// Whether what CPUs with store buffers don't do is asked for beside them.
fn wants_no_buffers(options: &ArgMatches) -> bool
    ensures { result ≡ wants_no_buffers (rows_of (found_of options.now)) }
{
    is_given(options, "x86")
        && (is_given(options, "workers")
            || is_given(options, "check")
            || is_given(options, "packets")
            || is_given(options, "keys"))
}

/// Whether options are given of which one rules out the other.
fn do_clash(options: &ArgMatches) -> bool
    ensures { result ≡ do_clash (rows_of (found_of options.now)) }
{
    let events = is_given(options, "events");
    let check = is_given(options, "check");
    let packets = is_given(options, "packets");
    let turns = is_given(options, "by") || events || check || packets;
    let two = events && check || events && packets || check && packets;
    is_given(options, "workers") && turns || two || wants_no_buffers(options)
}

/// Whether what is counted of a run on worker threads is asked for without workers.
fn counts_alone(options: &ArgMatches) -> bool
    ensures { result ≡ counts_alone (rows_of (found_of options.now)) }
{
    is_given(options, "stats") && !is_given(options, "workers")
}

/// A run on CPUs with store buffers.
#[tactic(auto, using(crate::proofs::OptionRows::moves_in_rows, crate::proofs::OptionRows::no_moves_in_rows))]
fn x86_run_of(alloc: Global, options: &ArgMatches) -> Result<Command, CommandError>
    requires fits { do_clash (rows_of (found_of options.now)) ≡ false }
    requires counts { counts_alone (rows_of (found_of options.now)) ≡ false }
    requires asked { is_given (codes "x86") (rows_of (found_of options.now)) ≡ true }
    ensures named { IfOk result (Names (Some (codes "run", rows_of (found_of options.now)))) }
    ensures refused { IfErr result (RefusesFound (codes "run", rows_of (found_of options.now))) }
{
    let by = moves_of(alloc, options)?;
    let maps = is_given(options, "maps");
    if !is_given(options, "events") {
        return Ok(Command::X86(X86Options { maps, by }));
    }
    Ok(Command::X86History(X86Options { maps, by }))
}

#[tactic(auto, using(crate::proofs::OptionRows::schedule_in_rows, crate::proofs::OptionRows::no_turns_in_rows))]
fn run_of(alloc: Global, options: &ArgMatches) -> Result<Command, CommandError>
    requires counted { HasWorkers (rows_of (found_of options.now)) }
    ensures named { IfOk result (Names (Some (codes "run", rows_of (found_of options.now)))) }
    ensures refused { IfErr result (RefusesFound (codes "run", rows_of (found_of options.now))) }
{
    if do_clash(options) {
        return Err(CommandError::TwoWays);
    }
    if counts_alone(options) {
        return Err(CommandError::NoWorkers);
    }
    if is_given(options, "x86") {
        return x86_run_of(alloc, options);
    }
    let by = schedule_of(alloc, options)?;
    let keys = is_given(options, "keys");
    let maps = is_given(options, "maps");
    if is_given(options, "events") {
        return Ok(Command::History(HistoryOptions { keys, maps, by }));
    }
    if is_given(options, "packets") {
        return Ok(Command::Packets(HistoryOptions { keys, maps, by }));
    }
    if is_given(options, "check") {
        return Ok(Command::Judge(JudgeOptions { keys, by }));
    }
    Ok(Command::Run(FileOptions {
        keys,
        maps,
        by,
        workers: workers_of(options),
        stats: is_given(options, "stats"),
    }))
}

/// The options of a command that searches.
fn search_of(options: &ArgMatches) -> SearchOptions
    requires limited { HasLimit (rows_of (found_of options.now)) }
    requires counted { HasWorkers (rows_of (found_of options.now)) }
    ensures { NamesSearch (rows_of (found_of options.now)) result }
{
    let workers = workers_of(options);
    SearchOptions {
        limit: limit_of(options),
        patient: is_given(options, "patient"),
        progress: is_given(options, "progress"),
        all_states: is_given(options, "all-states"),
        workers,
    }
}

/// The options of `check`.
fn check_of(options: &ArgMatches) -> CheckOptions
    requires limited { HasLimit (rows_of (found_of options.now)) }
    requires counted { HasWorkers (rows_of (found_of options.now)) }
    ensures { NamesCheck (rows_of (found_of options.now)) result }
{
    CheckOptions {
        search: search_of(options),
        limited: is_given(options, "limit"),
        lenient: is_given(options, "lenient"),
        lines: is_given(options, "json"),
        states: is_given(options, "states"),
        x86: is_given(options, "x86"),
    }
}

/// Whether what a search through flushes of store buffers doesn't do is asked for beside it.
fn wants_no_flushes(options: &ArgMatches) -> bool
    ensures { result ≡ wants_no_flushes (rows_of (found_of options.now)) }
{
    is_given(options, "x86")
        && (is_given(options, "races") || is_given(options, "sync") || is_given(options, "workers"))
}

/// The check of one file.
fn check_one_of(options: &ArgMatches) -> Result<Command, CommandError>
    requires limited { HasLimit (rows_of (found_of options.now)) }
    requires counted { HasWorkers (rows_of (found_of options.now)) }
    ensures named { IfOk result (Names (Some (codes "check", rows_of (found_of options.now)))) }
    ensures refused { IfErr result (RefusesFound (codes "check", rows_of (found_of options.now))) }
{
    if wants_no_flushes(options) {
        return Err(CommandError::TurnsAlone);
    }
    Ok(Command::Check(check_of(options)))
}

/// The options of a search for races.
fn races_of(alloc: Global, options: &ArgMatches) -> Result<RaceOptions, CommandError>
    requires limited { HasLimit (rows_of (found_of options.now)) }
    requires counted { HasWorkers (rows_of (found_of options.now)) }
    ensures named { IfOk result (NamesRaces (rows_of (found_of options.now))) }
    ensures memory { IsOkUnless result CommandError.OutOfMemory }
{
    let sync = given_texts(alloc, options, "sync")?;
    Ok(RaceOptions {
        search: search_of(options),
        sync,
    })
}

/// Whether maps of locks are named without `--races`, or an outcome is asked for beside it.
fn do_part_races(options: &ArgMatches) -> bool
    ensures { result ≡ do_part_races (rows_of (found_of options.now)) }
{
    if is_given(options, "races") {
        is_given(options, "show")
    } else {
        is_given(options, "sync")
    }
}

fn explore_of(alloc: Global, options: &ArgMatches) -> Result<Command, CommandError>
    requires limited { HasLimit (rows_of (found_of options.now)) }
    requires counted { HasWorkers (rows_of (found_of options.now)) }
    requires shown { HasShown (rows_of (found_of options.now)) }
    ensures named { IfOk result (Names (Some (codes "explore", rows_of (found_of options.now)))) }
    ensures refused { IfErr result
        (RefusesFound (codes "explore", rows_of (found_of options.now))) }
{
    if do_part_races(options) {
        return Err(CommandError::NoRaces);
    }
    if wants_no_flushes(options) {
        return Err(CommandError::TurnsAlone);
    }
    if is_given(options, "races") {
        let races = races_of(alloc, options)?;
        return Ok(Command::Races(races));
    }
    let search = search_of(options);
    let x86 = is_given(options, "x86");
    match shown_of(options) {
        Some(outcome) if x86 => Ok(Command::ShowX86(ShowOptions { outcome, search })),
        Some(outcome) => Ok(Command::Show(ShowOptions { outcome, search })),
        None if x86 => Ok(Command::ExploreX86(search)),
        None => Ok(Command::Explore(search)),
    }
}

/// What `clap` reads of `--parts`, if it is given.
fn parts_of(options: &ArgMatches) -> Option<u16>
    requires parted { HasParts (rows_of (found_of options.now)) }
    ensures named { NamesParts (rows_of (found_of options.now)) result }
    ensures some { IfSome result (λ n. 0 < n) }
{
    options.get_one::<u16>("parts")
}

/// Whether files of states are asked for.
fn wants_files(options: &ArgMatches) -> bool
    ensures { result ≡ wants_files (rows_of (found_of options.now)) }
{
    let written = is_given(options, "into") || is_given(options, "parts");
    written || is_given(options, "seen") || is_given(options, "states")
}

/// Whether what isn't done of files of states is asked for.
fn wants_lines(options: &ArgMatches) -> bool
    ensures { result ≡ wants_lines (rows_of (found_of options.now)) }
{
    let printed = is_given(options, "first") || is_given(options, "x86");
    printed || is_given(options, "races") || is_given(options, "explain")
}

/// The folder that files of states are to be written into.
fn folder_of(alloc: Global, options: &ArgMatches) -> Result<Option<String>, CommandError>
    ensures named { IfOk result (λ folder. option_map string_bytes folder
        ≡ first_of (codes "into") (rows_of (found_of options.now))) }
    ensures memory { IsOkUnless result CommandError.OutOfMemory }
{
    let Some(name) = options.get_str("into") else {
        return Ok(None);
    };
    match name.to_string(alloc) {
        Ok(folder) => Ok(Some(folder)),
        Err(_) => Err(CommandError::OutOfMemory),
    }
}

/// The command `expand` of files of states.
#[tactic(auto, using(crate::proofs::OptionRows::no_folder, crate::proofs::OptionRows::no_count))]
fn spread_of(alloc: Global, options: &ArgMatches) -> Result<Request, CommandError>
    requires parted { HasParts (rows_of (found_of options.now)) }
    requires wanted { wants_files (rows_of (found_of options.now)) ≡ true }
    ensures asked { IfOk result (Asks (Some (codes "expand", rows_of (found_of options.now)))) }
    ensures refused { IfErr result (RefusesFound (codes "expand", rows_of (found_of options.now))) }
{
    if wants_lines(options) {
        return Err(CommandError::NoFiles);
    }
    let Some(folder) = folder_of(alloc, options)? else {
        return Err(CommandError::NoFiles);
    };
    let Some(parts) = parts_of(options) else {
        return Err(CommandError::NoFiles);
    };
    let states = given_texts(alloc, options, "states")?;
    let seen = given_texts(alloc, options, "seen")?;
    let is_patient = is_given(options, "patient");
    let spread = SpreadOptions {
        patient: is_patient,
        folder,
        parts,
        states,
        seen,
    };
    Ok(Request::Spread {
        spread,
        file: asked_file(alloc, options)?,
    })
}

/// The command `expand` with what it is to print, with store buffers or without.
fn expand_of(options: &ArgMatches) -> Result<Command, CommandError>
    ensures named { IfOk result (Names (Some (codes "expand", rows_of (found_of options.now)))) }
    ensures refused { IfErr result (RefusesFound (codes "expand", rows_of (found_of options.now))) }
{
    if wants_no_flushes(options) {
        return Err(CommandError::TurnsAlone);
    }
    let first = is_given(options, "first");
    let patient = is_given(options, "patient");
    let races = is_given(options, "races");
    if is_given(options, "x86") {
        Ok(Command::ExpandX86 { first, patient })
    } else {
        Ok(Command::Expand {
            first,
            patient,
            races,
        })
    }
}

/// The command `debug`, with store buffers or without.
fn debug_of(options: &ArgMatches) -> Command
    ensures { Names (Some (codes "debug", rows_of (found_of options.now))) result }
{
    let echo = is_given(options, "echo");
    let strict = is_given(options, "strict");
    if is_given(options, "x86") {
        Command::DebugX86 { echo, strict }
    } else {
        Command::Debug { echo, strict }
    }
}

fn named(alloc: Global, name: &str, options: &ArgMatches) -> Result<Command, CommandError>
    requires known { IsWorkName name.now }
    requires checked { IsRunnerName name.now → HasBudget (rows_of (found_of options.now)) }
    requires counted { MayHaveWorkers name.now → HasWorkers (rows_of (found_of options.now)) }
    requires limited { IsSearchName name.now → HasLimit (rows_of (found_of options.now)) }
    requires shown { name.now ≡ codes "explore" → HasShown (rows_of (found_of options.now)) }
    ensures named { IfOk result (Names (Some (name.now, rows_of (found_of options.now)))) }
    ensures refused { IfErr result (RefusesFound (name.now, rows_of (found_of options.now))) }
{
    match name {
        "hex" => hex_of(alloc, options),
        "asm" => asm_of(alloc, options),
        "disasm" => Ok(Command::Disasm {
            pc: is_given(options, "pc"),
        }),
        "run" => run_of(alloc, options),
        "explore" => explore_of(alloc, options),
        "check" => check_one_of(options),
        "expand" => expand_of(options),
        _ => Ok(debug_of(options)),
    }
}

/// What `explain` is asked for.
fn asked_topic(options: &ArgMatches) -> Option<Topic>
    ensures { result ≡ option_and_then topic_of
        (first_of (codes "code") (rows_of (found_of options.now))) }
{
    match options.get_str("code") {
        Some(text) => topic_named(text),
        None => None,
    }
}

/// The file that is to be read in place of standard input.
#[tactic(auto, using(crate::proofs::OptionRows::no_file))]
fn asked_file(alloc: Global, options: &ArgMatches) -> Result<Option<String>, CommandError>
    ensures named { IfOk result (λ file.
        option_map string_bytes file ≡ file_in (rows_of (found_of options.now))) }
    ensures memory { IsOkUnless result CommandError.OutOfMemory }
{
    let Some(name) = options.get_str("file") else {
        return Ok(None);
    };
    if name == "-" {
        return Ok(None);
    }
    match name.to_string(alloc) {
        Ok(name) => Ok(Some(name)),
        Err(_) => Err(CommandError::OutOfMemory),
    }
}

/// Whether several files are named, and what goes with one alone.
fn wants_one(options: &ArgMatches) -> bool
    ensures { result ≡ wants_one (rows_of (found_of options.now)) }
{
    names_several(options) && (names_input(options) || is_given(options, "explain"))
}

/// The check of several files.
fn check_all_of(alloc: Global, options: &ArgMatches) -> Result<Request, CommandError>
    requires limited { HasLimit (rows_of (found_of options.now)) }
    requires counted { HasWorkers (rows_of (found_of options.now)) }
    requires several { names_several (rows_of (found_of options.now)) ≡ true }
    ensures asked { IfOk result (Asks (Some (codes "check", rows_of (found_of options.now)))) }
    ensures refused { IfErr result (RefusesFound (codes "check", rows_of (found_of options.now))) }
{
    if wants_one(options) {
        return Err(CommandError::OneFile);
    }
    if wants_no_flushes(options) {
        return Err(CommandError::TurnsAlone);
    }
    let files = given_texts(alloc, options, "file")?;
    Ok(Request::CheckAll {
        check: check_of(options),
        files,
        json: is_given(options, "json"),
    })
}

fn requested(alloc: Global, name: &str, options: &ArgMatches) -> Result<Request, CommandError>
    requires known { IsCommandName name.now }
    requires checked { IsRunnerName name.now → HasBudget (rows_of (found_of options.now)) }
    requires counted { MayHaveWorkers name.now → HasWorkers (rows_of (found_of options.now)) }
    requires limited { IsSearchName name.now → HasLimit (rows_of (found_of options.now)) }
    requires shown { name.now ≡ codes "explore" → HasShown (rows_of (found_of options.now)) }
    requires parted { name.now ≡ codes "expand" → HasParts (rows_of (found_of options.now)) }
    ensures asked { IfOk result (Asks (Some (name.now, rows_of (found_of options.now)))) }
    ensures refused { IfErr result (RefusesFound (name.now, rows_of (found_of options.now))) }
{
    if name == "explain" {
        return match asked_topic(options) {
            Some(topic) => Ok(Request::Page(topic)),
            None => Err(CommandError::NoCode),
        };
    }
    if name == "check" && names_several(options) {
        return check_all_of(alloc, options);
    }
    if name == "expand" && wants_files(options) {
        return spread_of(alloc, options);
    }
    let command = named(alloc, name, options)?;
    let file = asked_file(alloc, options)?;
    let explain = is_given(options, "explain");
    Ok(Request::Perform {
        command,
        file,
        explain,
        json: is_given(options, "json"),
    })
}

/// The texts of the words.
fn texts_of<'a, S: AsStr>(alloc: Global, words: &'a [S]) -> Result<Vec<&'a str>, CommandError>
    ensures same { IfOk result (λ v. map (λ w. w.now) v.items ≡ map S.text words.entry.now) }
    ensures memory { IsOkUnless result CommandError.OutOfMemory }
{
    let mut texts = Vec::new(alloc);
    for word in words {
        if texts.push(word.as_str()).is_err() {
            return Err(CommandError::OutOfMemory);
        }
    }
    Ok(texts)
}

/// The option that a word stands for.
fn flag_of<'a>(word: &'a str) -> &'a str
    ensures { result.now ≡ flag_of word.now }
{
    match word {
        "help" => "--help",
        "version" => "--version",
        _ => word,
    }
}

fn copied<'a>(alloc: Global, words: &[&'a str]) -> Result<Vec<&'a str>, CommandError>
    ensures same { IfOk result (λ v. v.items ≡ words.entry.now) }
    ensures memory { IsOkUnless result CommandError.OutOfMemory }
{
    match Vec::from_slice(alloc, words) {
        Ok(copied) => Ok(copied),
        Err(_) => Err(CommandError::OutOfMemory),
    }
}

/// The words as `clap` reads them: `help` and `version` are the options of these names.
#[tactic(auto, using(crate::proofs::Flags::other_flags))]
fn as_flags<'a>(alloc: Global, words: &[&'a str]) -> Result<Vec<&'a str>, CommandError>
    ensures same { IfOk result (λ v. map (λ w. w.now) v.items
        ≡ as_flags (map (λ w. w.now) words.entry.now)) }
    ensures memory { IsOkUnless result CommandError.OutOfMemory }
{
    match words {
        [program, word] => copied(alloc, &[*program, flag_of(word)]),
        [program, word, name] => {
            if *word == "help" {
                copied(alloc, &[*program, *name, "--help"])
            } else {
                copied(alloc, words)
            }
        }
        _ => copied(alloc, words),
    }
}

/// What words ask for as `clap` reads them.
fn request_by(alloc: Global, words: &[&str]) -> Result<Request, CommandError>
    ensures accepted { OnOk result (fault_of ebpf (map (λ w. w.now) words.now) ≡ []) }
    ensures asked { IfOk result (Asks (subcommand_of ebpf (map (λ w. w.now) words.now))) }
    ensures refused { IfErr result (RefusesFlags (map (λ w. w.now) words.now)) }
{
    let matches = match matches_of(alloc, words) {
        Ok(matches) => matches,
        Err(error) if error.kind() == ErrorKind::OutOfMemory => {
            return Err(CommandError::OutOfMemory);
        }
        Err(error) => return Err(CommandError::Shown(error)),
    };
    let Some((name, options)) = matches.subcommand() else {
        unreachable!();
    };
    requested(alloc, name, options)
}

/// What the words ask for, of which the first is the program's name.
pub fn request_of<'a, S: AsStr>(alloc: Global, words: &'a [S]) -> Result<Request, CommandError>
    ensures accepted { OnOk result (fault_of ebpf (as_flags (map S.text words.entry.now)) ≡ []) }
    ensures asked { IfOk result (AsksBy (map S.text words.entry.now)) }
    ensures refused { IfErr result (Refuses (map S.text words.entry.now)) }
{
    let texts = texts_of(alloc, words)?;
    let flags = as_flags(alloc, &texts)?;
    request_by(alloc, &flags)
}
