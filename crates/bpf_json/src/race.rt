//! Lines of races.

ghost use Rattle.std.specs.Prelude.{◌≡◌, IfOk, string_bytes};
ghost use Rattle.bpf_json.specs.Lines.{key_members, key_text, place_object, place_text, race_object, race_text, raced_members, raced_text};

use crate::digits::Digits;
use crate::known::Known;
use crate::texts::{by_text, digits_members, line_member, text_member};
use std::alloc::{AllocError, Global};

/// A CPU, the number of the program that it runs, and where it is in that.
#[derive(Clone, Copy, PartialEq, Eq, Debug)]
pub struct Place {
    pub cpu: u64,
    pub program: u64,
    pub pc: u64,
}

/// The value for which two CPUs race.
#[derive(PartialEq, Eq, Debug, Drop)]
pub enum Raced {
    /// That of a key of a map, if one leads to it.
    Pair { map: String, key: Option<Digits> },
    /// That of an index of an array.
    Element { array: String, index: Digits },
    /// A variable, by its name.
    Variable(String),
}

/// Two CPUs that race where they are, the value for which they do, and a schedule that leads there.
#[derive(PartialEq, Eq, Debug, Drop)]
pub struct Race {
    pub one: Place,
    pub other: Place,
    pub at: Raced,
    pub by: String,
}

/// A CPU, its program, and where it is in that.
fn place_text(alloc: Global, at: Place) -> Result<String, AllocError>
    ensures { IfOk result (λ s. string_bytes s ≡ place_text at) }
{
    let Place { cpu, program, pc } = at;
    format!(in alloc; "cpu {cpu} prog {program} pc {pc}")
}

/// A CPU, its program and where it is in that, as a JSON object.
fn place_object(alloc: Global, known: &Known, at: Place) -> Result<String, AllocError>
    ensures { IfOk result (λ s. string_bytes s ≡ place_object known.now at) }
{
    let Place { cpu, program, pc } = at;
    let line = line_member(alloc, known.line_at(program, pc))?;
    format!(in alloc; "{{\"cpu\":{cpu},\"prog\":{program},\"pc\":{pc}{line}}}")
}

/// A key in hex, or that none leads to the value any more.
fn key_text(key: &Option<Digits>) -> &str
    ensures { result.now ≡ key_text key.now }
{
    match key {
        Some(key) => key.hex.as_str(),
        None => "deleted",
    }
}

/// The members for a key, if one leads to the value.
fn key_members(alloc: Global, key: &Option<Digits>) -> Result<String, AllocError>
    ensures { IfOk result (λ s. string_bytes s ≡ key_members key.now) }
{
    match key {
        Some(key) => digits_members(alloc, "key", key),
        None => "\"key\":null".to_string(alloc),
    }
}

impl Raced {
    fn plain(&self, alloc: Global) -> Result<String, AllocError>
        ensures { IfOk result (λ s. string_bytes s ≡ raced_text self.now) }
    {
        match self {
            Raced::Pair { map, key } => {
                let key = key_text(key);
                format!(in alloc; "map {map} {key}")
            }
            Raced::Element { array, index } => {
                let index = index.hex.as_str();
                format!(in alloc; "array {array} {index}")
            }
            Raced::Variable(name) => format!(in alloc; "var {name}"),
        }
    }

    fn members(&self, alloc: Global) -> Result<String, AllocError>
        ensures { IfOk result (λ s. string_bytes s ≡ raced_members self.now) }
    {
        match self {
            Raced::Pair { map, key } => {
                let map = text_member(alloc, "map", map.as_str())?;
                let key = key_members(alloc, key)?;
                format!(in alloc; "{map},{key}")
            }
            Raced::Element { array, index } => {
                let array = text_member(alloc, "array", array.as_str())?;
                let index = digits_members(alloc, "index", index)?;
                format!(in alloc; "{array},{index}")
            }
            Raced::Variable(name) => text_member(alloc, "var", name.as_str()),
        }
    }
}

impl Race {
    pub(crate) fn plain(&self, alloc: Global) -> Result<String, AllocError>
        ensures { IfOk result (λ s. string_bytes s ≡ race_text self.now) }
    {
        let one = place_text(alloc, self.one)?;
        let other = place_text(alloc, self.other)?;
        let at = self.at.plain(alloc)?;
        let by = by_text(alloc, self.by.as_str())?;
        format!(in alloc; "race {one} {other} {at} {by}")
    }

    pub(crate) fn object(&self, alloc: Global, known: &Known) -> Result<String, AllocError>
        ensures { IfOk result (λ s. string_bytes s ≡ race_object known.now self.now) }
    {
        let one = place_object(alloc, known, self.one)?;
        let other = place_object(alloc, known, self.other)?;
        let at = self.at.members(alloc)?;
        let by = text_member(alloc, "by", self.by.as_str())?;
        format!(in alloc; "{{\"race\":[{one},{other}],{at},{by}}}")
    }
}
