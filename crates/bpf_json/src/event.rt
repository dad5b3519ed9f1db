//! Lines of events.

ghost use Rattle.std.specs.Prelude.{◌≡◌, IfOk, string_bytes};
ghost use Rattle.bpf_json.specs.Lines.{call_members, call_text, change_members, change_text, event_object, event_text, flags_members, number_first, update_members};

use crate::digits::Digits;
use crate::known::Known;
use crate::texts::{digits_members, exact_members, joined, line_member, text_member};
use std::alloc::{AllocError, Global};

/// The numbers of an access, or of an atomic operation.
#[derive(PartialEq, Eq, Debug, Drop)]
pub enum Change {
    Loaded(u64),
    Stored(u64),
    /// An operation with a number, where another was before.
    Changed {
        operand: u64,
        found: u64,
    },
    /// An operation with a number, where the number before was to be this one.
    Compared {
        operand: u64,
        expected: u64,
        found: u64,
    },
}

/// What happens.
#[derive(PartialEq, Eq, Debug, Drop)]
pub enum Call {
    /// A job begins or ends.
    Job(String),
    Lookup {
        map: String,
        key: Digits,
        answer: String,
    },
    Update {
        map: String,
        key: Digits,
        value: Digits,
        flags: u64,
        answer: String,
    },
    Delete {
        map: String,
        key: Digits,
        answer: String,
    },
    /// An access of this many bytes at an address, or an atomic operation.
    Access {
        name: String,
        size: u64,
        at: String,
        change: Change,
    },
}

/// What a CPU does, in which job and at which pc.
#[derive(PartialEq, Eq, Debug, Drop)]
pub struct Event {
    pub cpu: u64,
    pub job: u64,
    pub pc: u64,
    pub call: Call,
}

/// The members for a number of 64 bits, before others.
#[tactic(auto, unfolding(crate::specs::Lines::number_first))]
fn number_first(alloc: Global, name: &str, number: u64, others: &str) -> Result<String, AllocError>
    ensures { IfOk result (λ s. string_bytes s ≡ number_first name.now number others.now) }
{
    let own = exact_members(alloc, name, number)?;
    joined(alloc, own.as_str(), others)
}

/// The members for an update, its map and its key.
#[tactic(auto, unfolding(crate::specs::Lines::update_members))]
fn update_members(alloc: Global, map: &str, key: &Digits) -> Result<String, AllocError>
    ensures { IfOk result (λ s. string_bytes s ≡ update_members map.now key.now) }
{
    let map = text_member(alloc, "map", map)?;
    let key = digits_members(alloc, "key", key)?;
    format!(in alloc; "\"event\":\"update\",{map},{key}")
}

/// The members for its flags, and for its answer.
#[tactic(auto, unfolding(crate::specs::Lines::flags_members))]
fn flags_members(alloc: Global, flags: u64, answer: &str) -> Result<String, AllocError>
    ensures { IfOk result (λ s. string_bytes s ≡ flags_members flags answer.now) }
{
    let flags = exact_members(alloc, "flags", flags)?;
    let answer = text_member(alloc, "answer", answer)?;
    joined(alloc, flags.as_str(), answer.as_str())
}

impl Change {
    fn plain(&self, alloc: Global) -> Result<String, AllocError>
        ensures { IfOk result (λ s. string_bytes s ≡ change_text self.now) }
    {
        match self {
            Change::Loaded(found) => format!(in alloc; " = {found}"),
            Change::Stored(word) => format!(in alloc; " {word}"),
            Change::Changed { operand, found } => format!(in alloc; " {operand} = {found}"),
            Change::Compared {
                operand,
                expected,
                found,
            } => format!(in alloc; " {operand} expected {expected} = {found}"),
        }
    }

    fn members(&self, alloc: Global) -> Result<String, AllocError>
        ensures { IfOk result (λ s. string_bytes s ≡ change_members self.now) }
    {
        match self {
            Change::Loaded(number) | Change::Stored(number) => {
                exact_members(alloc, "value", *number)
            }
            Change::Changed { operand, found } => {
                let found = exact_members(alloc, "found", *found)?;
                number_first(alloc, "operand", *operand, found.as_str())
            }
            Change::Compared {
                operand,
                expected,
                found,
            } => {
                let found = exact_members(alloc, "found", *found)?;
                let last = number_first(alloc, "expected", *expected, found.as_str())?;
                number_first(alloc, "operand", *operand, last.as_str())
            }
        }
    }
}

impl Call {
    fn plain(&self, alloc: Global) -> Result<String, AllocError>
        ensures { IfOk result (λ s. string_bytes s ≡ call_text self.now) }
    {
        match self {
            Call::Job(name) => name.as_str().to_string(alloc),
            Call::Lookup { map, key, answer } => {
                let key = key.hex.as_str();
                format!(in alloc; "lookup {map} {key} = {answer}")
            }
            Call::Update {
                map,
                key,
                value,
                flags,
                answer,
            } => {
                let key = key.hex.as_str();
                let value = value.hex.as_str();
                format!(in alloc; "update {map} {key} {value} flags {flags} = {answer}")
            }
            Call::Delete { map, key, answer } => {
                let key = key.hex.as_str();
                format!(in alloc; "delete {map} {key} = {answer}")
            }
            Call::Access {
                name,
                size,
                at,
                change,
            } => {
                let change = change.plain(alloc)?;
                format!(in alloc; "{name} {size} at {at}{change}")
            }
        }
    }

    fn members(&self, alloc: Global) -> Result<String, AllocError>
        ensures { IfOk result (λ s. string_bytes s ≡ call_members self.now) }
    {
        match self {
            Call::Job(name) => text_member(alloc, "event", name.as_str()),
            Call::Lookup { map, key, answer } => {
                let map = text_member(alloc, "map", map.as_str())?;
                let key = digits_members(alloc, "key", key)?;
                let answer = text_member(alloc, "answer", answer.as_str())?;
                format!(in alloc; "\"event\":\"lookup\",{map},{key},{answer}")
            }
            Call::Update {
                map,
                key,
                value,
                flags,
                answer,
            } => {
                let key = update_members(alloc, map.as_str(), key)?;
                let value = digits_members(alloc, "value", value)?;
                let flags = flags_members(alloc, *flags, answer.as_str())?;
                let pair = joined(alloc, key.as_str(), value.as_str())?;
                joined(alloc, pair.as_str(), flags.as_str())
            }
            Call::Delete { map, key, answer } => {
                let map = text_member(alloc, "map", map.as_str())?;
                let key = digits_members(alloc, "key", key)?;
                let answer = text_member(alloc, "answer", answer.as_str())?;
                format!(in alloc; "\"event\":\"delete\",{map},{key},{answer}")
            }
            Call::Access {
                name,
                size,
                at,
                change,
            } => {
                let name = text_member(alloc, "event", name.as_str())?;
                let at = text_member(alloc, "at", at.as_str())?;
                let change = change.members(alloc)?;
                format!(in alloc; "{name},\"size\":{size},{at},{change}")
            }
        }
    }
}

impl Event {
    pub(crate) fn plain(&self, alloc: Global) -> Result<String, AllocError>
        ensures { IfOk result (λ s. string_bytes s ≡ event_text self.now) }
    {
        let Event { cpu, job, pc, .. } = self;
        let call = self.call.plain(alloc)?;
        format!(in alloc; "cpu {cpu} job {job} pc {pc} {call}")
    }

    pub(crate) fn object(&self, alloc: Global, known: &Known) -> Result<String, AllocError>
        ensures { IfOk result (λ s. string_bytes s ≡ event_object known.now self.now) }
    {
        let Event { cpu, job, pc, .. } = self;
        let line = line_member(alloc, known.line_of_job(self.job, self.pc))?;
        let call = self.call.members(alloc)?;
        format!(in alloc; "{{\"cpu\":{cpu},\"job\":{job},\"pc\":{pc}{line},{call}}}")
    }
}
