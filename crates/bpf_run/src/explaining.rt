//! What is said of a command's answer on standard error, after it is printed.

use crate::fault::{details_of_assembly, details_of_file, details_of_program};
use crate::hung::with_places;
use crate::perform::Performed;
use crate::tracing::prints_of_file;
use bpf_advice::{Detail, Details, Input, Language, advise, warnings_of};
use bpf_codes::Code;
use bpf_command::{Command, FileOptions, HistoryOptions};
use bpf_cpu::Outcome;
use bpf_debug::Answer;
use bpf_explain::page_of;
use bpf_jobs::OutcomeText;
use bpf_replies::reply::{Reply, Status};
use clap::error::ErrorKind;
use std::alloc::{AllocError, Global};
use std::io;

const BY_WORKERS: &str =
    "  no more is known of a run on worker threads; without them the CPUs take turns, and it is repeated\n";

const BY_TURNS: &str =
    "  hint: 'steps' of 'ebpf debug' makes these turns; then 'regs' and 'mem' show what the CPU has\n";

const BY_COMMANDS: &str =
    "  hint: 'break CPU PC' stops there; then 'regs' and 'mem' show what the CPU has\n";

const BY_SCHEDULES: &str =
    "  hint: the line 'by' above the outcome is a schedule that leads to this\n";

const BY_ONE_SCHEDULE: &str =
    "  hint: 'ebpf explore' prints the turns that lead to this, and 'steps' of 'ebpf debug' makes them\n";

const NO_CONTEXT: &str =
    "  hint: `--ctx` takes pairs of hex digits, a byte each, without `0x`, and at most 4,096 bytes\n";

/// What is to be explained: of which command an answer is, as far as that matters.
#[derive(Drop)]
pub enum Subject {
    Assembly,
    Words,
    /// The run of a program that is given as words.
    Program { budget: u64, context: Vec<u8> },
    /// The run of a program that is given as assembly text.
    AssembledProgram { budget: u64, context: Vec<u8> },
    /// The jobs of a run file, in rounds.
    Rounds,
    /// The jobs of a run file, by turns that are given, and then in rounds. Without the turns where
    /// there was no memory for them.
    Turns { by: Option<Vec<(u8, u64)>> },
    /// The jobs of a run file, on CPUs with store buffers.
    Buffers,
    /// The jobs of a run file, on worker threads.
    Workers,
    /// Commands of the debugger.
    Script,
    /// The jobs of a run file, by all schedules.
    Schedules,
    /// The jobs of a run file, by all schedules, on CPUs with store buffers.
    BufferSchedules,
    /// One outcome of these.
    Shown,
    /// The data races of them.
    Races,
    /// What a run file expects of them.
    Tests,
    /// What it expects of them on CPUs with store buffers.
    BufferTests,
}

/// What is asked: to explain the answer of a command to a file, or to standard input.
#[derive(Drop)]
pub struct Question {
    pub subject: Subject,
    pub file: Option<String>,
}

impl Subject {
    /// What the answer to a command is about.
    pub fn of(command: &Command) -> Subject {
        match command {
            Command::Asm { .. } => Subject::Assembly,
            Command::Disasm { .. } => Subject::Words,
            Command::Hex(options) => match options.context.clone() {
                Ok(context) => Subject::Program {
                    budget: options.budget,
                    context,
                },
                Err(_) => Subject::Words,
            },
            Command::AsmRun(options) => match options.context.clone() {
                Ok(context) => Subject::AssembledProgram {
                    budget: options.budget,
                    context,
                },
                Err(_) => Subject::Assembly,
            },
            Command::Run(
                FileOptions {
                    workers: Some(_),
                    ..
                },
            ) => Subject::Workers,
            Command::Run(FileOptions { by, .. })
            | Command::History(HistoryOptions { by, .. })
            | Command::Packets(HistoryOptions { by, .. }) => Subject::turns(by),
            Command::X86(_) | Command::X86History(_) => Subject::Buffers,
            Command::Show(_) | Command::ShowX86(_) => Subject::Shown,
            Command::Judge(_) => Subject::Tests,
            Command::Debug { .. } | Command::DebugX86 { .. } => Subject::Script,
            Command::Explore(_) => Subject::Schedules,
            Command::ExploreX86(_) => Subject::BufferSchedules,
            Command::Races(_) => Subject::Races,
            Command::Check(options) if options.x86 => Subject::BufferTests,
            Command::Check(_) => Subject::Tests,
            Command::Expand { .. } | Command::ExpandX86 { .. } => Subject::Schedules,
        }
    }

    /// The jobs of a run file, by turns that may be given.
    fn turns(by: &Vec<(u8, u64)>) -> Subject {
        if by.is_empty() {
            Subject::Rounds
        } else {
            Subject::Turns {
                by: by.clone().ok(),
            }
        }
    }

    fn language(&self) -> Language {
        match self {
            Subject::Assembly | Subject::AssembledProgram { .. } => Language::Assembly,
            Subject::Words | Subject::Program { .. } => Language::Words,
            Subject::Rounds
            | Subject::Turns { .. }
            | Subject::Buffers
            | Subject::Workers
            | Subject::Script
            | Subject::Schedules
            | Subject::BufferSchedules
            | Subject::Shown
            | Subject::Races
            | Subject::Tests
            | Subject::BufferTests => Language::RunFile,
        }
    }

    /// What is said of a fault, or of a job out of budget, of which nothing more is known.
    fn otherwise(&self) -> &'static str {
        match self {
            Subject::Turns { .. } => BY_TURNS,
            Subject::Workers => BY_WORKERS,
            Subject::Script => BY_COMMANDS,
            Subject::Schedules | Subject::BufferSchedules => BY_SCHEDULES,
            Subject::Shown => BY_ONE_SCHEDULE,
            _ => "",
        }
    }
}

/// The number of a script's first line in the input: that after the line `---`.
fn first_line_of_script(input: &str) -> usize {
    let ends = input.split('\n').position(|line| {
        let words = line.split(';').next().unwrap_or("");
        words.trim() == "---"
    });
    ends.map_or(1, |place| place.saturating_add(2))
}

/// Appends what a line of a script is answered to the text. A refusal is printed with its line.
fn push_answer(text: &mut String, number: usize, answer: &Answer) -> Result<(), AllocError> {
    match answer {
        Ok(answer) => text.push_str(answer.as_str()),
        Err(error) => match error.line().strip_prefix("refused ") {
            Some(code) => write!(text, "refused line {number} {code}"),
            None => text.push_str(error.line()),
        },
    }
}

/// What a reply prints, where refused lines of a script have their numbers.
fn printed(alloc: Global, reply: &Reply, input: &str) -> Result<String, AllocError> {
    match reply {
        Reply::Text(text)
        | Reply::Jobs(text, _)
        | Reply::Counted { text, .. }
        | Reply::Outcomes { text, .. }
        | Reply::Several { text, .. }
        | Reply::NoOutcome { text, .. } => text.as_str().to_string(alloc),
        Reply::Script { answers, .. } => {
            let first = first_line_of_script(input);
            let mut text = String::new(alloc);
            for (place, answer) in answers.iter().enumerate() {
                push_answer(&mut text, first.saturating_add(place), answer)?;
            }
            Ok(text)
        }
        Reply::Ended(outcome) => format!(in alloc; "{}\n", OutcomeText(*outcome)),
        Reply::Refused(refusal) => format!(in alloc; "refused {refusal}\n"),
    }
}

/// What is known of the faults of an answer; nothing where there is no memory for it.
fn details(alloc: Global, subject: &Subject, reply: &Reply, input: &str) -> Vec<Detail> {
    let known = match (subject, reply) {
        (
            Subject::Program { budget, context },
            Reply::Ended(Outcome::Fault(..) | Outcome::OutOfBudget(_)),
        ) => details_of_program(alloc, *budget, context, input),
        (
            Subject::AssembledProgram { budget, context },
            Reply::Ended(Outcome::Fault(..) | Outcome::OutOfBudget(_)),
        ) => details_of_assembly(alloc, *budget, context, input),
        (Subject::Rounds, Reply::Jobs(_, true)) => details_of_file(alloc, input),
        _ => None,
    };
    known.unwrap_or(Vec::new(alloc))
}

/// What calls of `bpf_trace_printk` would print in a run; nothing where there is no memory for it.
fn prints(alloc: Global, subject: &Subject, reply: &Reply, input: &str) -> String {
    let lines = match (subject, reply) {
        (Subject::Rounds, Reply::Jobs(..)) => prints_of_file(alloc, input, &[]),
        (Subject::Turns { by: Some(by) }, Reply::Jobs(..)) => prints_of_file(alloc, input, by),
        _ => None,
    };
    lines.unwrap_or(String::new(alloc))
}

/// What there is to say of an answer, from what was read and what was printed.
fn explanation(alloc: Global, subject: &Subject, done: &Performed) -> Result<String, AllocError> {
    let text = str::from_utf8(&done.input).unwrap_or("");
    let mut printed = printed(alloc, &done.reply, text)?;
    let x86 = matches!(subject, Subject::BufferSchedules | Subject::BufferTests);
    if x86 || matches!(subject, Subject::Schedules | Subject::Tests) {
        printed = with_places(alloc, text, printed.as_str(), x86)?;
    }
    let known = details(alloc, subject, &done.reply, text);
    let input = Input {
        language: subject.language(),
        bytes: &done.input,
        text,
    };
    let details = Details {
        known: &known,
        otherwise: subject.otherwise(),
    };
    let mut said = prints(alloc, subject, &done.reply, text);
    let advice = advise(alloc, &input, printed.as_str(), &details)?;
    said.push_str(advice.as_str())?;
    Ok(said)
}

/// Warns of instructions in comments of what was read, unless the answer couldn't be printed.
pub fn warn<P: Eprint>(rt: &P, alloc: Global, done: &Performed) {
    if done.status == Status::Failed {
        return;
    }
    let text = str::from_utf8(&done.input).unwrap_or("");
    if let Ok(text) = warnings_of(alloc, text) {
        let _ = eprint!(rt; "{}", text.as_str());
    }
}

/// Explains that what `--ctx` has is refused, unless the refusal couldn't be printed.
pub fn explain_context<P: Eprint>(rt: &P, status: Status) {
    if status == Status::Failed {
        return;
    }
    let meaning = page_of(Code::H1).meaning;
    let _ = eprint!(rt; "refused H1: {meaning}\n{NO_CONTEXT}  see: ebpf explain H1\n");
}

/// Hints at `run` where the word in the place of a command looks like a run file's name.
pub fn hint_at_run<P: Eprint>(rt: &P, alloc: Global, error: &clap::Error) {
    if error.kind() != ErrorKind::InvalidSubcommand {
        return;
    }
    let Ok(text) = format!(in alloc; "{error}") else {
        return;
    };
    let word = text.as_str().split('\'').nth(1).unwrap_or("");
    if word.ends_with(".run") {
        let _ = eprintln!(rt; "\n  hint: `ebpf run {word}` runs the jobs of a run file");
    }
}

/// Why reads failed, of those that did.
#[derive(Clone, Copy)]
pub struct Failures<'a> {
    /// Of standard input, or of the file in its place.
    pub source: Option<&'a io::Error>,
    /// Of the commands of a conversation.
    pub terminal: Option<&'a io::Error>,
}

/// Explains the refusals and faults of an answer, unless it couldn't be printed: first why the input
/// couldn't be read, if it couldn't.
pub fn explain<P: Eprint>(
    rt: &P,
    alloc: Global,
    question: &Question,
    done: &Performed,
    failures: Failures,
) {
    if done.status == Status::Failed {
        return;
    }
    if let Some(failure) = failures.terminal {
        let _ = eprintln!(rt; "standard input: {failure}");
    }
    if let Some(failure) = failures.source {
        let name = question
            .file
            .as_ref()
            .map_or("standard input", String::as_str);
        let _ = eprintln!(rt; "{name}: {failure}");
    }
    if let Ok(text) = explanation(alloc, &question.subject, done) {
        let _ = eprint!(rt; "{}", text.as_str());
    }
}
