//! Lines of values: what maps, arrays and variables hold in the end.

ghost use Rattle.std.specs.Prelude.{◌≡◌, IfOk, string_bytes};
ghost use Rattle.bpf_json.specs.Lines.{owner_member, owner_text, value_object, value_text};

use crate::digits::Digits;
use crate::texts::{digits_members, exact_members, text_member};
use std::alloc::{AllocError, Global};

/// A value that is there in the end.
#[derive(PartialEq, Eq, Debug, Drop)]
pub enum Value {
    /// That of a key of a map.
    Pair {
        map: String,
        key: Digits,
        value: Digits,
    },
    /// That of an index of an array, and of a CPU where each CPU has a value of its own.
    Element {
        array: String,
        index: u64,
        cpu: Option<u64>,
        value: Digits,
    },
    /// A variable's number.
    Variable {
        name: String,
        number: u64,
    },
}

/// The CPU whose value it is, where each has one.
fn owner_text(alloc: Global, cpu: Option<u64>) -> Result<String, AllocError>
    ensures { IfOk result (λ s. string_bytes s ≡ owner_text cpu) }
{
    match cpu {
        Some(cpu) => format!(in alloc; " cpu {cpu}"),
        None => Ok(String::new(alloc)),
    }
}

/// The member for it.
fn owner_member(alloc: Global, cpu: Option<u64>) -> Result<String, AllocError>
    ensures { IfOk result (λ s. string_bytes s ≡ owner_member cpu) }
{
    match cpu {
        Some(cpu) => format!(in alloc; ",\"cpu\":{cpu}"),
        None => Ok(String::new(alloc)),
    }
}

impl Value {
    pub(crate) fn plain(&self, alloc: Global) -> Result<String, AllocError>
        ensures { IfOk result (λ s. string_bytes s ≡ value_text self.now) }
    {
        match self {
            Value::Pair { map, key, value } => {
                let (key, value) = (key.hex.as_str(), value.hex.as_str());
                format!(in alloc; "map {map} {key}={value}")
            }
            Value::Element {
                array,
                index,
                cpu,
                value,
            } => {
                let owner = owner_text(alloc, *cpu)?;
                let value = value.hex.as_str();
                format!(in alloc; "array {array} {index}{owner}={value}")
            }
            Value::Variable { name, number } => format!(in alloc; "var {name}={number}"),
        }
    }

    pub(crate) fn object(&self, alloc: Global) -> Result<String, AllocError>
        ensures { IfOk result (λ s. string_bytes s ≡ value_object self.now) }
    {
        match self {
            Value::Pair { map, key, value } => {
                let map = text_member(alloc, "map", map.as_str())?;
                let key = digits_members(alloc, "key", key)?;
                let value = digits_members(alloc, "value", value)?;
                format!(in alloc; "{{{map},{key},{value}}}")
            }
            Value::Element {
                array,
                index,
                cpu,
                value,
            } => {
                let array = text_member(alloc, "array", array.as_str())?;
                let owner = owner_member(alloc, *cpu)?;
                let value = digits_members(alloc, "value", value)?;
                format!(in alloc; "{{{array},\"index\":{index}{owner},{value}}}")
            }
            Value::Variable { name, number } => {
                let name = text_member(alloc, "var", name.as_str())?;
                let number = exact_members(alloc, "value", *number)?;
                format!(in alloc; "{{{name},{number}}}")
            }
        }
    }
}
