//! What may be meant by a comment that is meant to expect something and can't.

use crate::excerpt::fields;
use crate::labels::difference;
use bpf_lines::numbers::value;
use bpf_lines::words::{Numeral, numeral_of};
use std::alloc::{AllocError, Global};

/// The words of a line's comment.
fn words_of<'a>(alloc: Global, line: &'a str) -> Result<Vec<&'a str>, AllocError> {
    let mut words = Vec::new(alloc);
    let comment = line.split(';').nth(1).unwrap_or("");
    for word in comment.split_ascii_whitespace() {
        words.push(word)?;
    }
    Ok(words)
}

/// The line of a run file that is of this kind and has this name.
fn line_named<'a>(file: &'a str, kind: &str, name: &str) -> Option<&'a str> {
    file.split('\n').find(|line| {
        let mut words = fields(line);
        words.next() == Some(kind) && words.next() == Some(name)
    })
}

/// The CPU of a job, the job's number counted from 0, as its line has it.
fn cpu_of(file: &str, job: usize) -> Option<&str> {
    let line = file
        .split('\n')
        .filter(|line| fields(line).next() == Some("job"))
        .nth(job)?;
    fields(line).nth(1)
}

/// How many jobs a run file has.
fn count_of_jobs(file: &str) -> usize {
    file.split('\n')
        .filter(|line| fields(line).next() == Some("job"))
        .count()
}

/// The names of a run file's lines of a kind, with commas between them.
fn names_of(alloc: Global, file: &str, kind: &str) -> Result<String, AllocError> {
    let mut names = String::new(alloc);
    for line in file.split('\n') {
        let mut words = fields(line);
        if words.next() == Some(kind)
            && let Some(name) = words.next()
        {
            if !names.is_empty() {
                names.push_str(", ")?;
            }
            names.push_str(name)?;
        }
    }
    Ok(names)
}

/// Whether a word is the other, but for one byte.
fn is_nearly(word: &str, other: &str) -> bool {
    difference(word.as_bytes(), other.as_bytes()) <= 1
}

/// The number after a sign, or after `=` and a sign.
fn signed_in(word: &str) -> Option<u64> {
    let number = match word.rsplit_once('=') {
        Some((_, number)) => number,
        None => word,
    };
    number.strip_prefix("-")?.parse().ok()
}

/// The number that is written in hex in a word, perhaps after `=`.
fn hex_in(word: &str) -> Option<u64> {
    let number = match word.rsplit_once('=') {
        Some((_, number)) => number,
        None => word,
    };
    if !number.starts_with("0x") {
        return None;
    }
    let Numeral { radix, digits } = numeral_of(number.as_bytes())?;
    value(radix, digits)
}

/// What is said of the numbers and the relations among words.
fn hint_of_numbers(alloc: Global, words: &[&str]) -> Result<Option<String>, AllocError> {
    for word in words {
        if *word == "==" {
            return Ok(Some("`=` compares: `==` isn't there".to_string(alloc)?));
        }
        if let Some(number) = signed_in(word) {
            let plain = 0u64.wrapping_sub(number);
            let hint = format!(in alloc;
                "numbers have no sign here: -{number} is {plain}, as `r0` and others of 64 bits are printed"
            )?;
            return Ok(Some(hint));
        }
        if let Some(number) = hex_in(word) {
            let hint = format!(in alloc; "numbers are decimal here: {number} for `{word}`")?;
            return Ok(Some(hint));
        }
    }
    Ok(None)
}

/// Whether words after the first one begin another part of a claim.
fn has_second(words: &[&str]) -> bool {
    let mut before = "";
    for word in words {
        let begins = matches!(*word, "job" | "map" | "var" | "array" | "r0");
        if begins && !before.is_empty() && before != "of" && before != "and" && before != "or" {
            return true;
        }
        before = *word;
    }
    false
}

/// What is said of the joints between parts.
fn hint_of_joints(words: &[&str]) -> Option<&'static str> {
    let has_and = words.iter().any(|word| *word == "and");
    let has_or = words.iter().any(|word| *word == "or");
    if has_and && has_or {
        Some("`and` and `or` can't both be in one expectation: each has a comment of its own")
    } else if has_second(words) {
        Some("between two claims there is `and`, or `or`")
    } else {
        None
    }
}

/// That a job is on another CPU.
fn other_cpu(alloc: Global, number: usize, own: &str) -> Result<String, AllocError> {
    format!(in alloc; "job {number} is on CPU {own}: `job {number} cpu {own} ..`")
}

/// What is said of a job by its number, and of its CPU where the words name one.
fn hint_of_job(
    alloc: Global,
    file: &str,
    job: &str,
    cpu: Option<&str>,
) -> Result<Option<String>, AllocError> {
    let Ok(number) = job.parse::<usize>() else {
        return Ok(None);
    };
    let Some(own) = cpu_of(file, number) else {
        let count = count_of_jobs(file);
        let hint = format!(in alloc;
            "there is no job {number}: the file has {count}, counted from 0"
        )?;
        return Ok(Some(hint));
    };
    match cpu {
        Some(cpu) if cpu != own => Ok(Some(other_cpu(alloc, number, own)?)),
        _ => Ok(None),
    }
}

/// How the lines begin that give names.
static KINDS: [&str; 3] = ["map", "array", "var"];

/// What a kind of line is called.
fn kind_text(kind: &str) -> &'static str {
    match kind {
        "map" => "map",
        "array" => "array",
        _ => "variable",
    }
}

/// That nothing of this kind has a name, and what there is.
fn no_name(alloc: Global, file: &str, kind: &str, name: &str) -> Result<String, AllocError> {
    let what = kind_text(kind);
    for other in KINDS.iter() {
        if *other != kind && line_named(file, other, name).is_some() {
            let other = kind_text(other);
            return format!(in alloc; "{name} is no {what}, but the file has this {other}");
        }
    }
    let names = names_of(alloc, file, kind)?;
    if names.is_empty() {
        format!(in alloc; "the file has no {what}")
    } else {
        format!(in alloc; "there is no {what} {name}; there is {}", names.as_str())
    }
}

/// What is said of the name of a map, an array or a variable, which ends before `[` or `=`.
fn hint_of_name(
    alloc: Global,
    file: &str,
    kind: &str,
    word: &str,
) -> Result<Option<String>, AllocError> {
    let name = word.split('[').next().unwrap_or("");
    let name = name.split('=').next().unwrap_or("");
    match line_named(file, kind, name) {
        Some(_) => Ok(None),
        None => Ok(Some(no_name(alloc, file, kind, name)?)),
    }
}

/// What is said of a map's key and value, as its line has their sizes.
fn hint_of_pair(
    alloc: Global,
    file: &str,
    name: &str,
    pair: &str,
) -> Result<Option<String>, AllocError> {
    let Some(line) = line_named(file, "map", name) else {
        return Ok(None);
    };
    if !pair.contains('=') {
        return Ok(None);
    }
    let (Some(key), Some(value)) = (fields(line).nth(3), fields(line).nth(5)) else {
        return Ok(None);
    };
    let hint = format!(in alloc;
        "a key of {name} has {key} bytes and a value {value}, two digits of lower case hex each: `map {name} KEY=VALUE`"
    )?;
    Ok(Some(hint))
}

/// What is said of a claim by its first words.
fn hint_of_claim(alloc: Global, file: &str, claim: &[&str]) -> Result<Option<String>, AllocError> {
    match claim {
        ["job", job, "cpu", cpu, ..] => hint_of_job(alloc, file, job, Some(*cpu)),
        ["job", _, ..] => Ok(Some(
            "a job's line has its CPU: `job 0 cpu 0 r0=1`, or `r0 of job 0 = 1`".to_string(alloc)?,
        )),
        ["r0", "of", "job", job, ..] => hint_of_job(alloc, file, job, None),
        [word, ..] if word.starts_with("r0") => {
            Ok(Some("which job's: `r0 of job 0 = 1`".to_string(alloc)?))
        }
        [kind, word, ..] if matches!(*kind, "map" | "array" | "var") => {
            hint_of_name(alloc, file, kind, word)
        }
        _ => Ok(None),
    }
}

/// What is said of a claim on a map whose name is right.
fn hint_of_map(alloc: Global, file: &str, claim: &[&str]) -> Result<Option<String>, AllocError> {
    match claim {
        ["map", name, pair] => hint_of_pair(alloc, file, name, pair),
        ["map", field, relation, ..] if field.contains('[') && *relation != "of" => Ok(Some(
            format!(in alloc; "the number's size is after the place: `map {field} of u64 ..`")?,
        )),
        _ => Ok(None),
    }
}

/// What is said of a claim of one word that is expected of CPUs with store buffers alone.
fn hint_of_x86_word(word: &str) -> Option<&'static str> {
    if is_nearly(word, "race") {
        Some("`race` asks of orders of turns, and has no form for `--x86` alone: `never race`")
    } else if is_nearly(word, "ends") || is_nearly(word, "hung") || word == "hangs" {
        Some(
            "`always-x86 ends` and `sometimes-x86 hung` ask if schedules can end, beside `--patient` or a comment `; check patient`",
        )
    } else {
        hint_of_word(word)
    }
}

/// What is said of a claim of one word.
fn hint_of_word(word: &str) -> Option<&'static str> {
    if is_nearly(word, "race") {
        Some("`never race` and `sometimes race` ask for data races")
    } else if is_nearly(word, "ends") || is_nearly(word, "hung") || word == "hangs" {
        Some(
            "`always ends` and `sometimes hung` ask if schedules can end, beside `--patient` or a comment `; check patient`",
        )
    } else if is_nearly(word, "fault") {
        Some("`fault` is that some job ended in one: `never fault`")
    } else {
        None
    }
}

/// Whether a word says how often, of CPUs with store buffers alone.
fn is_of_x86(word: &str) -> bool {
    matches!(word, "always-x86" | "sometimes-x86" | "never-x86")
}

/// What is said of a comment's first word.
fn hint_of_first(word: &str) -> Option<&'static str> {
    match word {
        "always" | "sometimes" | "never" => None,
        _ if is_of_x86(word) => None,
        _ if is_nearly(word, "check") => {
            Some("`check patient`, `check limit N`, or both: `check patient limit N`")
        }
        _ if word.contains("-") => Some(
            "what only `check --x86` tests begins with `always-x86`, `sometimes-x86` or `never-x86`",
        ),
        _ => Some(
            "an expectation begins with `always`, `sometimes` or `never`, and prose with none that looks like them",
        ),
    }
}

/// What is said of a claim as a whole, where nothing is said of its words.
const NO_CLAIM: &str =
    "a claim is a line that `run --maps` prints, `fault`, `r0 of job 0 = 1`, `var x < 3`, `map m[0] of u64 = 1`, or several with `and` or `or`; prose begins with another word";

/// The words of a claim up to its first joint.
fn first_part<'a, 'b>(claim: &'b [&'a str]) -> &'b [&'a str] {
    let size = claim
        .iter()
        .position(|word| *word == "and" || *word == "or")
        .unwrap_or(claim.len());
    claim.get(..size).unwrap_or(claim)
}

/// What is said of each part of a claim, from the first of which something is.
fn hint_of_parts(alloc: Global, file: &str, claim: &[&str]) -> Result<Option<String>, AllocError> {
    let mut rest = claim;
    for _ in 0..claim.len() {
        let part = first_part(rest);
        if let Some(hint) = hint_of_claim(alloc, file, part)? {
            return Ok(Some(hint));
        }
        if let Some(hint) = hint_of_map(alloc, file, part)? {
            return Ok(Some(hint));
        }
        rest = rest.get(part.len().saturating_add(1)..).unwrap_or(&[]);
    }
    Ok(None)
}

/// The hint of a whole expectation, after the word that says how often.
fn hint_of_whole(
    alloc: Global,
    file: &str,
    first: &str,
    claim: &[&str],
) -> Result<String, AllocError> {
    if let [word] = claim {
        let hint = if is_of_x86(first) {
            hint_of_x86_word(word)
        } else {
            hint_of_word(word)
        };
        if let Some(hint) = hint {
            return hint.to_string(alloc);
        }
    }
    if let Some(hint) = hint_of_joints(claim) {
        return hint.to_string(alloc);
    }
    if let Some(hint) = hint_of_numbers(alloc, claim)? {
        return Ok(hint);
    }
    match hint_of_parts(alloc, file, claim)? {
        Some(hint) => Ok(hint),
        None => NO_CLAIM.to_string(alloc),
    }
}

/// What may be meant by the comment of a line that is refused.
pub fn hint_of_comment(alloc: Global, file: &str, line: &str) -> Result<String, AllocError> {
    let words = words_of(alloc, line)?;
    let [first, claim @ ..] = words.as_slice() else {
        return NO_CLAIM.to_string(alloc);
    };
    match hint_of_first(first) {
        Some(hint) => hint.to_string(alloc),
        None => hint_of_whole(alloc, file, first, claim),
    }
}
