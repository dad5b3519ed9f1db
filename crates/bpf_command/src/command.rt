//! What the program can be asked for.

ghost use Rattle.std.specs.Prelude.{◌<◌, ◌≤◌, IfSome, vec_len};
ghost use Rattle.bpf_base.specs.declared.budget.TheConstants.{MAX_BUDGET};
ghost use Rattle.bpf_mem.specs.Limits.{max_context};
ghost use Rattle.bpf_command.specs.Lemmas.Ranges.{few-prop, some-prop};
ghost use Rattle.bpf_command.specs.declared.command.TheConstants.{MAX_LIMIT, MAX_WORKERS};

use bpf_base::MAX_BUDGET;
use bpf_explain::Topic;

/// The greatest number of worker threads that may be asked for.
pub const MAX_WORKERS: u8 = 16;

/// The greatest number of parts that states may be put into.
pub const MAX_PARTS: u16 = 1_024;

/// The greatest limit that may be asked for.
pub const MAX_LIMIT: u64 = 1_000_000_000;

/// The options of a run of one program, in their ranges.
#[derive(PartialEq, Eq, Debug, Drop)]
pub struct RunOptions {
    /// The greatest number of steps.
    pub budget: u64,
    pub context: Vec<u8>,
    ghost limited: { budget ≤ MAX_BUDGET },
    ghost small: { vec_len context ≤ max_context },
}

/// The options of `run`, in their ranges.
#[derive(PartialEq, Eq, Debug, Drop)]
pub struct FileOptions {
    /// To list the keys of all maps after each CPU's last job, and to print the lists.
    pub keys: bool,
    /// To print the maps afterwards.
    pub maps: bool,
    /// The turns that come before rounds: CPUs, each with how many it takes before the next.
    pub by: Vec<(u8, u64)>,
    /// The number of worker threads; without one the CPUs take turns on one thread.
    pub workers: Option<u8>,
    /// To print the maps' numbers as workers left them, a line a map. It needs workers.
    pub stats: bool,
    ghost some: { IfSome workers (λ n. 0 < n) } by { some-prop workers },
    ghost few: { IfSome workers (λ n. n ≤ MAX_WORKERS) } by { few-prop workers MAX_WORKERS },
}

/// The options of a run in turns on one thread that prints all that happens in it, or what jobs
/// leave in their packets.
#[derive(PartialEq, Eq, Debug, Drop)]
pub struct HistoryOptions {
    /// To list the keys of all maps after each CPU's last job, and to print the lists.
    pub keys: bool,
    /// To print the maps afterwards.
    pub maps: bool,
    /// The turns that come before rounds: CPUs, each with how many it takes before the next.
    pub by: Vec<(u8, u64)>,
}

/// The options of a run on CPUs with store buffers.
#[derive(PartialEq, Eq, Debug, Drop)]
pub struct X86Options {
    /// To print the maps afterwards.
    pub maps: bool,
    /// The turns of CPUs and flushes of their buffers that come before rounds, each with how often
    /// it is made before the next. From 128 on it is the flush of the CPU of 128 less.
    pub by: Vec<(u8, u64)>,
}

/// The options of a run in turns on one thread that is judged.
#[derive(PartialEq, Eq, Debug, Drop)]
pub struct JudgeOptions {
    /// To list the keys of all maps after each CPU's last job: what is expected of the lists is
    /// judged too.
    pub keys: bool,
    /// The turns that come before rounds: CPUs, each with how many it takes before the next.
    pub by: Vec<(u8, u64)>,
}

/// The options of a search through all schedules, in their ranges.
#[derive(PartialEq, Eq, Debug, Drop)]
pub struct SearchOptions {
    /// The search ends once more states than this are kept.
    pub limit: u64,
    /// To look for outcomes in which no budget is used up.
    pub patient: bool,
    /// To report on standard error how far the search is. What is found doesn't depend on it.
    pub progress: bool,
    /// To keep states too that count as one with another. What is found doesn't depend on it.
    pub all_states: bool,
    /// The number of worker threads that make turns ahead; without one, as many as the machine has
    /// processors. What is found doesn't depend on it.
    pub workers: Option<u8>,
    ghost limited: { limit ≤ MAX_LIMIT },
    ghost some: { IfSome workers (λ n. 0 < n) } by { some-prop workers },
    ghost few: { IfSome workers (λ n. n ≤ MAX_WORKERS) } by { few-prop workers MAX_WORKERS },
}

/// The options of a search whose outcomes are compared with what comments of the file expect.
#[derive(PartialEq, Eq, Debug, Drop)]
pub struct CheckOptions {
    pub search: SearchOptions,
    /// Whether the limit was given: else one that the file's comments ask for takes its place.
    pub limited: bool,
    /// To pass over comments that are meant to expect something and can't.
    pub lenient: bool,
    /// To print before each test the line of the file that expects it, for its JSON object.
    pub lines: bool,
    /// To print before a file's tests how many states were kept.
    pub states: bool,
    /// To search through the flushes of store buffers too, as on x86.
    pub x86: bool,
}

/// The options of a search of which one outcome is shown.
#[derive(PartialEq, Eq, Debug, Drop)]
pub struct ShowOptions {
    /// The number of the outcome, counted from 1.
    pub outcome: u64,
    pub search: SearchOptions,
    ghost counted: { 0 < outcome },
}

/// The options of a search for data races.
#[derive(PartialEq, Eq, Debug, Drop)]
pub struct RaceOptions {
    pub search: SearchOptions,
    /// Names of maps whose values are locks or the like: races for them are left out.
    pub sync: Vec<String>,
}

/// The options of a call that reads and writes files of states.
#[derive(PartialEq, Eq, Debug, Drop)]
pub struct SpreadOptions {
    /// To pass over how many steps are left of budgets.
    pub patient: bool,
    /// The folder of the files that are written.
    pub folder: String,
    /// How many files are written.
    pub parts: u16,
    /// The files that are read; where none is named, the first state is.
    pub states: Vec<String>,
    /// The files of other states that are known.
    pub seen: Vec<String>,
    ghost some: { 0 < parts },
}

/// A command with its options.
#[derive(PartialEq, Eq, Debug, Drop)]
pub enum Command {
    /// Run a program given as hex digits.
    Hex(RunOptions),
    /// Assembly text to words in hex digits, or to itself with the pcs and words of its lines.
    Asm {
        listing: bool,
    },
    /// Assembly text to words, and run those.
    AsmRun(RunOptions),
    /// Words in hex digits to assembly text, with the pcs and words of its lines where that is
    /// asked for.
    Disasm {
        pc: bool,
    },
    /// Run the jobs of a run file.
    Run(FileOptions),
    /// Run them in turns, and print all that happens.
    History(HistoryOptions),
    /// Run them in turns, and print what they leave in their packets.
    Packets(HistoryOptions),
    /// Run them on CPUs with store buffers.
    X86(X86Options),
    /// Run them so, and print all that happens.
    X86History(X86Options),
    /// Run them in turns, and print whether the outcome is as the comments of the file expect.
    Judge(JudgeOptions),
    /// Find what the jobs of a run file can reach, by every schedule.
    Explore(SearchOptions),
    /// Find what they can reach on CPUs with store buffers.
    ExploreX86(SearchOptions),
    /// Print all that happens on the way to one of the outcomes of every schedule.
    Show(ShowOptions),
    /// Print all that happens on the way to one of the outcomes on CPUs with store buffers.
    ShowX86(ShowOptions),
    /// Find the data races of all schedules.
    Races(RaceOptions),
    /// Say by every schedule whether a run file's outcomes are as its comments expect.
    Check(CheckOptions),
    /// Print what each CPU's turn leads to from states that are read, each a line.
    Expand {
        /// To print the first state in place of those that others lead to.
        first: bool,
        /// To pass over how many steps are left of budgets.
        patient: bool,
        /// To print the data races of each state before what it leads to.
        races: bool,
    },
    /// Print what each move leads to from states, of CPUs with store buffers, that are read.
    ExpandX86 {
        /// To print the first state in place of those that others lead to.
        first: bool,
        /// To pass over how many steps are left of budgets.
        patient: bool,
    },
    /// Run the jobs of a run file by commands, and show what they ask for.
    Debug {
        /// To print each line before its answer.
        echo: bool,
        /// To take a command that is refused for a refusal of all.
        strict: bool,
    },
    /// Run the jobs of a run file by commands, on CPUs with store buffers.
    DebugX86 {
        /// To print each line before its answer.
        echo: bool,
        /// To take a command that is refused for a refusal of all.
        strict: bool,
    },
}

/// What a command line asks for.
#[derive(PartialEq, Eq, Debug, Drop)]
pub enum Request {
    /// To do a command, and to explain its refusal or fault beside the answer where that is asked
    /// for. What the command answers doesn't depend on it.
    Perform {
        command: Command,
        /// What is read in place of standard input.
        file: Option<String>,
        explain: bool,
        /// To write JSON objects in place of lines.
        json: bool,
    },
    /// To check several files, one after the other.
    CheckAll {
        check: CheckOptions,
        files: Vec<String>,
        /// To write JSON objects in place of lines.
        json: bool,
    },
    /// To write what the states of files lead to into other files, by a hash.
    Spread {
        spread: SpreadOptions,
        /// The run file, where it isn't read from standard input.
        file: Option<String>,
    },
    /// To print the page of a code, or of an error, a flag, a helper or a word of run files.
    Page(Topic),
}
