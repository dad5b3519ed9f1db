//! What a printed line says.

ghost use Rattle.std.specs.Prelude.{◌≡◌, IfOk, string_bytes};
ghost use Rattle.bpf_json.specs.Lines.{flush_members, flush_object, flush_text, object, plain, plan_text, states_object, states_text, store_text, word_members};

use crate::event::Event;
use crate::job::Job;
use crate::known::Known;
use crate::race::Race;
use crate::test::{Test, file_member, file_text};
use crate::texts::{all_text, by_text, exact_members, joined, member, text_member, truth};
use crate::value::Value;
use std::alloc::{AllocError, Global};

/// The plan of a file without tests, in TAP's form.
pub(crate) const NO_TESTS: &str = "1..0 # SKIP no expectations";

/// A line that `run`, `explore` or `check` prints.
#[derive(PartialEq, Eq, Debug, Drop)]
pub enum Line {
    Job(Job),
    /// What a CPU does.
    Event(Event),
    /// A waiting store of this many bytes at an address reaches memory.
    Flush {
        cpu: u64,
        size: u64,
        at: String,
        word: u64,
    },
    /// What a job leaves in its packet, in hex digits.
    Packet {
        job: u64,
        bytes: String,
    },
    Value(Value),
    /// The schedule of the outcome whose lines follow, of no words where that is one of no turns.
    By(String),
    /// The schedule of a state from which no end can be reached.
    Hung(String),
    /// How many outcomes were found among how many states, and whether they are all.
    Counts {
        all: bool,
        outcomes: u64,
        states: u64,
    },
    Race(Race),
    /// How many races were found, and whether they are all.
    Races {
        all: bool,
        races: u64,
    },
    /// How many tests follow.
    Plan(u64),
    Test(Test),
    /// How many states were searched for the tests that follow, and of which file these are where
    /// there are several.
    States {
        file: Option<String>,
        states: u64,
    },
    /// A comment of tests that is of none of them.
    Note(String),
    /// Why nothing was done.
    Refused(String),
    /// Any other.
    Other(String),
}

/// How many tests follow; where none does, that they are skipped.
fn plan_text(alloc: Global, count: u64) -> Result<String, AllocError>
    ensures { IfOk result (λ s. string_bytes s ≡ plan_text count) }
{
    if count == 0 {
        NO_TESTS.to_string(alloc)
    } else {
        format!(in alloc; "1..{count}")
    }
}

/// How many states were searched, of which file where there are several, as a comment.
fn states_text(alloc: Global, file: &Option<String>, states: u64) -> Result<String, AllocError>
    ensures { IfOk result (λ s. string_bytes s ≡ states_text file.now states) }
{
    let file = file_text(alloc, file)?;
    format!(in alloc; "# {file}{states} states")
}

/// The object for it.
fn states_object(
    alloc: Global,
    known: &Known,
    file: &Option<String>,
    states: u64,
) -> Result<String, AllocError>
    ensures { IfOk result (λ s. string_bytes s ≡ states_object known.now file.now states) }
{
    let file = file_member(alloc, known, file)?;
    format!(in alloc; "{{\"states\":{states}{file}}}")
}

/// A store of a word of this many bytes.
#[tactic(auto, unfolding(crate::specs::Lines::store_text))]
fn store_text(alloc: Global, size: u64, at: &str, word: u64) -> Result<String, AllocError>
    ensures { IfOk result (λ s. string_bytes s ≡ store_text size at.now word) }
{
    format!(in alloc; "store {size} at {at} {word}")
}

/// The line of a waiting store that reaches memory.
#[tactic(auto, unfolding(crate::specs::Lines::flush_text))]
fn flush_text(alloc: Global, cpu: u64, size: u64, at: &str, word: u64) -> Result<String, AllocError>
    ensures { IfOk result (λ s. string_bytes s ≡ flush_text cpu size at.now word) }
{
    let store = store_text(alloc, size, at, word)?;
    format!(in alloc; "cpu {cpu} flush {store}")
}

/// The members for an address and the word that is stored there.
#[tactic(auto, unfolding(crate::specs::Lines::word_members))]
fn word_members(alloc: Global, at: &str, word: u64) -> Result<String, AllocError>
    ensures { IfOk result (λ s. string_bytes s ≡ word_members at.now word) }
{
    let at = text_member(alloc, "at", at)?;
    let word = exact_members(alloc, "value", word)?;
    joined(alloc, at.as_str(), word.as_str())
}

/// The members for a waiting store that reaches memory.
#[tactic(auto, unfolding(crate::specs::Lines::flush_members))]
fn flush_members(alloc: Global, size: u64, at: &str, word: u64) -> Result<String, AllocError>
    ensures { IfOk result (λ s. string_bytes s ≡ flush_members size at.now word) }
{
    let event = "\"event\":\"flush\",";
    let word = word_members(alloc, at, word)?;
    format!(in alloc; "{event}\"size\":{size},{word}")
}

/// The object for it.
#[tactic(auto, unfolding(crate::specs::Lines::flush_object))]
fn flush_object(
    alloc: Global,
    cpu: u64,
    size: u64,
    at: &str,
    word: u64,
) -> Result<String, AllocError>
    ensures { IfOk result (λ s. string_bytes s ≡ flush_object cpu size at.now word) }
{
    let members = flush_members(alloc, size, at, word)?;
    format!(in alloc; "{{\"cpu\":{cpu},{members}}}")
}

impl Line {
    /// The line as it is printed, without its end.
    pub(crate) fn plain(&self, alloc: Global) -> Result<String, AllocError>
        ensures { IfOk result (λ s. string_bytes s ≡ plain self.now) }
    {
        match self {
            Line::Job(job) => job.plain(alloc),
            Line::Event(event) => event.plain(alloc),
            Line::Flush {
                cpu,
                size,
                at,
                word,
            } => flush_text(alloc, *cpu, *size, at.as_str(), *word),
            Line::Packet { job, bytes } => format!(in alloc; "packet {job} {bytes}"),
            Line::Value(value) => value.plain(alloc),
            Line::By(schedule) => by_text(alloc, schedule.as_str()),
            Line::Hung(schedule) => {
                let by = by_text(alloc, schedule.as_str())?;
                format!(in alloc; "hung {by}")
            }
            Line::Counts {
                all,
                outcomes,
                states,
            } => {
                let head = all_text(*all);
                format!(in alloc; "{head}: {outcomes} outcomes, {states} states")
            }
            Line::Race(race) => race.plain(alloc),
            Line::Races { all, races } => {
                let head = all_text(*all);
                format!(in alloc; "{head}: {races} races")
            }
            Line::Plan(count) => plan_text(alloc, *count),
            Line::Test(test) => test.plain(alloc),
            Line::States { file, states } => states_text(alloc, file, *states),
            Line::Note(text) => format!(in alloc; "# {text}"),
            Line::Refused(why) => format!(in alloc; "refused {why}"),
            Line::Other(text) => text.as_str().to_string(alloc),
        }
    }

    /// The line as a JSON object, with what is known beside it.
    pub(crate) fn object(&self, alloc: Global, known: &Known) -> Result<String, AllocError>
        ensures { IfOk result (λ s. string_bytes s ≡ object known.now self.now) }
    {
        match self {
            Line::Job(job) => job.object(alloc, known),
            Line::Event(event) => event.object(alloc, known),
            Line::Flush {
                cpu,
                size,
                at,
                word,
            } => flush_object(alloc, *cpu, *size, at.as_str(), *word),
            Line::Packet { job, bytes } => {
                let bytes = text_member(alloc, "packet", bytes.as_str())?;
                format!(in alloc; "{{\"job\":{job},{bytes}}}")
            }
            Line::Value(value) => value.object(alloc),
            Line::By(schedule) => member(alloc, "by", schedule.as_str()),
            Line::Hung(schedule) => member(alloc, "hung_by", schedule.as_str()),
            Line::Counts {
                all,
                outcomes,
                states,
            } => {
                let all = truth(*all);
                format!(in alloc; "{{\"all\":{all},\"outcomes\":{outcomes},\"states\":{states}}}")
            }
            Line::Race(race) => race.object(alloc, known),
            Line::Races { all, races } => {
                let all = truth(*all);
                format!(in alloc; "{{\"all\":{all},\"races\":{races}}}")
            }
            Line::Plan(count) => format!(in alloc; "{{\"tests\":{count}}}"),
            Line::Test(test) => test.object(alloc, known),
            Line::States { file, states } => states_object(alloc, known, file, *states),
            Line::Note(text) => member(alloc, "note", text.as_str()),
            Line::Refused(why) => member(alloc, "refused", why.as_str()),
            Line::Other(text) => member(alloc, "line", text.as_str()),
        }
    }
}
