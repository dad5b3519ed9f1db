//! The lines of the keys that CPUs have listed.

ghost use Rattle.std.specs.Prelude.{◌≡◌, ◌++◌, IfOk, OnOk, [], length, map, slice_index_or, string_bytes};
ghost use Rattle.bpf_machine.specs.Machine.{Shows};
ghost use Rattle.bpf_machine.specs.Schedule.{World};
ghost use Rattle.bpf_jobs.specs.Printed.{cpu_lines, key_word, key_words, lines_of_lists, list_line};

use bpf_machine::Machine;
use bpf_shared::KeyList;
use std::alloc::{AllocError, Global};

/// Appends a blank and a key to the text.
fn push_word(alloc: Global, text: &mut String, key: &[u8]) -> Result<(), AllocError>
    ensures { OnOk result (string_bytes text.new ≡ string_bytes text.old ++ key_word key.now) }
{
    let key = hex::encode(alloc, key)?;
    let word = format!(in alloc; " {key}")?;
    text.push_str(word.as_str())
}

/// Appends the keys of a list to the text.
fn push_keys(alloc: Global, text: &mut String, list: &KeyList) -> Result<(), AllocError>
    ensures { OnOk result (string_bytes text.new
        ≡ string_bytes text.old ++ key_words (length list.now.keys) list.now.keys) }
{
    for place in 0..usize::MAX {
        let Some(key) = list.get(place) else {
            return Ok(());
        };
        push_word(alloc, text, key)?;
    }
    // No list is so long.
    Err(AllocError)
}

/// Appends the line of a map's keys to the text, as a CPU has listed them.
fn push_list(
    alloc: Global,
    text: &mut String,
    cpu: u8,
    name: &str,
    list: &KeyList,
) -> Result<(), AllocError>
    ensures { OnOk result (string_bytes text.new
        ≡ string_bytes text.old ++ list_line cpu name.now list.now.keys) }
{
    let head = format!(in alloc; "keys cpu {cpu} {name}")?;
    text.push_str(head.as_str())?;
    push_keys(alloc, text, list)?;
    text.push_str("\n")
}

/// The name of a map by its number, or of an array by the number of maps and its own; none where
/// none is given.
pub(crate) fn name_at(names: &[String], number: usize) -> &str
    ensures { result.now ≡ slice_index_or (map string_bytes names.now) number [] }
{
    match names.get(number) {
        Some(name) => name.as_str(),
        None => "",
    }
}

/// Appends the lines of all that a CPU has listed to the text: one a map, in their order.
pub fn push_lists(
    alloc: Global,
    text: &mut String,
    cpu: u8,
    names: &[String],
    lists: &[KeyList],
) -> Result<(), AllocError>
    ensures { OnOk result (string_bytes text.new ≡ string_bytes text.old
        ++ cpu_lines cpu (map string_bytes names.now) (length lists.now)
        (map (λ list. list.keys) lists.now)) }
{
    for map in 0..lists.len() {
        push_list(alloc, text, cpu, name_at(names, map), &lists[map])?;
    }
    Ok(())
}

/// The lines of all that CPUs have listed, by rising CPU.
pub(crate) fn list_keys(
    alloc: Global,
    machine: &Machine,
    names: &[String],
) -> Result<String, AllocError>
    ensures { IfOk result (λ text. (w : World) → Shows machine.now w
        → string_bytes text ≡ lines_of_lists w (map string_bytes names.now)) }
{
    let mut text = String::new(alloc);
    for cpu in 0..machine.cpus() {
        push_lists(alloc, &mut text, cpu, names, machine.lists(cpu))?;
    }
    Ok(text)
}
