//! Which claims words make of a file's outcomes.

ghost use Rattle.std.specs.Prelude.{◌≡◌, ◌==◌, ◌<◌, ◌≤◌, ◌++◌, ◌∷◌, IfOk, codes, length, map, nat_lt, option_map, string_bytes};
ghost use Rattle.std.specs.Fmt.{decimal};
ghost use Rattle.std.specs.List.{after_first, before_first, list_any, position_or_len};
ghost use Rattle.std.specs.Option.{option_copied};
ghost use Rattle.bpf_base.specs.Bytes.{low_bytes, modulus};
ghost use Rattle.bpf_check.specs.Parts.{compared_part, comparison_in, fault_part, is_fault_form, field_in, field_part, has_field, in_16_bits, index_in, is_close, is_field_form, is_joint, is_open, is_result_form, join_in, joint_of, line_of, line_part, name_in, offset_in, pair_part, pair_start, part_in, parts_in, relation_in, result_in, result_part, result_start, size_in, is_variable_form, variable_part, variable_start, wanted_in, words_behind};
ghost use Rattle.bpf_check.specs.Private.Joints.{PushesParts};
ghost use Rattle.bpf_shared.specs.Access.{bytes_in};

use crate::claim::{Comparison, Field, Join, Kind, Part, Relation};
use crate::subjects::{Subjects, is, number_in, stands, word_at};
use bpf_lines::hex_text::to_hex;
use bpf_shared::{MapShape, Size};
use std::alloc::{AllocError, Global};

/// The line of these words, with one blank between two.
fn joined(alloc: Global, first: &[u8], more: &[&[u8]]) -> Result<Vec<u8>, AllocError>
    ensures { IfOk result (λ line. line.items
        ≡ first.now ++ words_behind (length more.now) (map (λ f. f.now) more.now)) }
{
    let mut line = first.to_vec(alloc)?;
    for word in more {
        line.push(b' ')?;
        line.extend_from_slice(word)?;
    }
    Ok(line)
}

/// The words as a line.
pub(crate) fn line_of(alloc: Global, words: &[&[u8]]) -> Result<Vec<u8>, AllocError>
    ensures { IfOk result (λ line. line.items ≡ line_of (map (λ f. f.now) words.now)) }
{
    match words {
        [] => Ok(Vec::new(alloc)),
        [first, more @ ..] => joined(alloc, first, more),
    }
}

/// The relation that a word spells.
fn relation_in(word: &[u8]) -> Option<Relation>
    ensures { result ≡ relation_in word.now }
{
    if is(word, "=") {
        Some(Relation::Equal)
    } else if is(word, "!=") {
        Some(Relation::Unequal)
    } else if is(word, "<") {
        Some(Relation::Below)
    } else if is(word, "<=") {
        Some(Relation::AtMost)
    } else if is(word, ">") {
        Some(Relation::Above)
    } else if is(word, ">=") {
        Some(Relation::AtLeast)
    } else {
        None
    }
}

/// A relation, and the number after it.
fn comparison_in(word: &[u8], number: &[u8]) -> Option<Comparison>
    ensures { result ≡ comparison_in word.now number.now }
{
    let relation = relation_in(word)?;
    let number = number_in(number)?;
    Some(Comparison { relation, number })
}

/// Whether words have the form `r0 of job J REL N`.
fn is_result_form(words: &[&[u8]]) -> bool
    ensures { result ≡ is_result_form (map (λ f. f.now) words.now) }
{
    words.len() == 6 && stands(words, 0, "r0") && stands(words, 1, "of") && stands(words, 2, "job")
}

/// How the line of a job that ends with a number begins.
fn result_start(alloc: Global, job: u64, cpu: u64) -> Result<Vec<u8>, AllocError>
    ensures { IfOk result (λ start. start.items ≡ result_start job cpu) }
{
    let start = format!(in alloc; "job {job} cpu {cpu} r0=")?;
    Ok(start.into_bytes())
}

/// That the job of a number ends with a number that compares so, if there is the job.
fn result_part(
    alloc: Global,
    subjects: &Subjects,
    job: u64,
    comparison: Comparison,
) -> Result<Option<Part>, AllocError>
    ensures { IfOk result (λ part. part ≡ result_part subjects.now job comparison) }
{
    let Some(cpu) = subjects.cpu_of(Some(job)) else {
        return Ok(None);
    };
    let bytes = result_start(alloc, job, cpu)?;
    let kind = Kind::Result(comparison);
    Ok(Some(Part { kind, bytes }))
}

/// What words of this form claim, if the rest of them has it.
fn result_in(
    alloc: Global,
    subjects: &Subjects,
    words: &[&[u8]],
) -> Result<Option<Part>, AllocError>
    ensures { IfOk result (λ part. part ≡ result_in subjects.now (map (λ f. f.now) words.now)) }
{
    let Some(job) = number_in(word_at(words, 3)) else {
        return Ok(None);
    };
    match comparison_in(word_at(words, 4), word_at(words, 5)) {
        Some(comparison) => result_part(alloc, subjects, job, comparison),
        None => Ok(None),
    }
}

/// Whether words have the form `map NAME[K]+AT of SIZE REL N`.
fn is_field_form(words: &[&[u8]]) -> bool
    ensures { result ≡ is_field_form (map (λ f. f.now) words.now) }
{
    words.len() == 6 && stands(words, 0, "map") && stands(words, 2, "of")
}

/// The size that a word spells.
fn size_in(word: &[u8]) -> Option<Size>
    ensures { result ≡ size_in word.now }
{
    if is(word, "u8") {
        Some(Size::Byte)
    } else if is(word, "u16") {
        Some(Size::Half)
    } else if is(word, "u32") {
        Some(Size::Word)
    } else if is(word, "u64") {
        Some(Size::Double)
    } else {
        None
    }
}

/// How much of a word is before its first `[`.
fn open_in(word: &[u8]) -> usize
    ensures value { result ≡ length (before_first is_open word.now) }
    ensures bound { result ≤ length word.now }
{
    word.iter().take_while(|byte| **byte != b'[').count()
}

/// How much of it is before its first `]`.
fn close_in(word: &[u8]) -> usize
    ensures value { result ≡ length (before_first is_close word.now) }
    ensures bound { result ≤ length word.now }
{
    word.iter().take_while(|byte| **byte != b']').count()
}

/// What is before a word's first `[`.
fn before_open<'a>(word: &'a [u8]) -> &'a [u8]
    ensures { result.now ≡ before_first is_open word.now }
{
    &word[..open_in(word)]
}

/// What is after it.
fn after_open<'a>(word: &'a [u8]) -> &'a [u8]
    ensures { result.now ≡ after_first is_open word.now }
{
    let place = open_in(word);
    if place < word.len() {
        &word[place + 1..]
    } else {
        &word[place..]
    }
}

/// What is before a word's first `]`.
fn before_close<'a>(word: &'a [u8]) -> &'a [u8]
    ensures { result.now ≡ before_first is_close word.now }
{
    &word[..close_in(word)]
}

/// What is after it.
fn after_close<'a>(word: &'a [u8]) -> &'a [u8]
    ensures { result.now ≡ after_first is_close word.now }
{
    let place = close_in(word);
    if place < word.len() {
        &word[place + 1..]
    } else {
        &word[place..]
    }
}

/// Whether a word has a `]`.
fn has_close(word: &[u8]) -> bool
    ensures { result ≡ list_any is_close word.now }
{
    word.iter().any(|byte| *byte == b']')
}

/// The number between brackets.
fn index_in(word: &[u8]) -> Option<u64>
    ensures { result ≡ index_in word.now }
{
    let rest = after_open(word);
    if has_close(rest) {
        number_in(before_close(rest))
    } else {
        None
    }
}

/// The number, if 16 bits hold it.
fn in_16_bits(number: u64) -> Option<u16>
    ensures { result ≡ in_16_bits number }
{
    u16::try_from(number).ok()
}

/// The number after `+`; 0 where there is nothing.
fn offset_in(bytes: &[u8]) -> Option<u16>
    ensures { result ≡ offset_in bytes.now }
{
    match bytes {
        [] => Some(0),
        [b'+', digits @ ..] => in_16_bits(number_in(digits)?),
        _ => None,
    }
}

/// The number in a value that two words name.
fn field_in(place: &[u8], size: &[u8]) -> Option<Field>
    ensures { result ≡ field_in place.now size.now }
{
    let size = size_in(size)?;
    let offset = offset_in(after_close(place))?;
    Some(Field { offset, size })
}

/// Which number in a map is claimed to be what.
#[derive(Clone, Copy)]
struct Wanted {
    /// The number of the key.
    index: u64,
    field: Field,
    comparison: Comparison,
}

/// What words of this form claim, whatever the map.
fn wanted_in(words: &[&[u8]]) -> Option<Wanted>
    ensures { result ≡ wanted_in (map (λ f. f.now) words.now) }
{
    let index = index_in(word_at(words, 1))?;
    let field = field_in(word_at(words, 1), word_at(words, 3))?;
    let comparison = comparison_in(word_at(words, 4), word_at(words, 5))?;
    Some(Wanted {
        index,
        field,
        comparison,
    })
}

/// Whether n bytes hold a number.
pub(crate) fn is_held(size: u64, number: u64) -> bool
    ensures { result ≡ nat_lt number (modulus size) }
{
    if size >= 8 {
        true
    } else {
        number >> (8 * size) == 0
    }
}

/// Whether a map of these sizes has keys of this number, and room for the field.
fn has_field(shape: &MapShape, wanted: Wanted) -> bool
    ensures { result ≡ has_field shape.now wanted }
{
    is_held(shape.key, wanted.index) && wanted.field.end() <= shape.value
}

/// The lowest bytes of a number, the lowest first.
fn low_bytes(alloc: Global, size: u64, number: u64) -> Result<Vec<u8>, AllocError>
    ensures { IfOk result (λ bytes. bytes.items ≡ low_bytes size number) }
{
    let mut bytes = Vec::new(alloc);
    let mut left = number;
    for _ in 0..size {
        bytes.push((left % 256) as u8)?;
        left /= 256;
    }
    Ok(bytes)
}

/// How the line of a pair begins, by the map's name and the key.
fn pair_start(alloc: Global, name: &[u8], key: &[u8]) -> Result<Vec<u8>, AllocError>
    ensures { IfOk result (λ start. start.items ≡ pair_start name.now key.now) }
{
    let key = to_hex(alloc, key)?;
    let mut start = b"map ".to_vec(alloc)?;
    start.extend_from_slice(name)?;
    start.push(b' ')?;
    start.extend_from_slice(key.as_bytes())?;
    start.push(b'=')?;
    Ok(start)
}

/// What is claimed of a map of this name and these sizes, if it has room for it.
fn field_part(
    alloc: Global,
    name: &[u8],
    wanted: Wanted,
    shape: &MapShape,
) -> Result<Option<Part>, AllocError>
    ensures { IfOk result (λ part. part ≡ field_part name.now wanted shape.now) }
{
    if !has_field(shape, wanted) {
        return Ok(None);
    }
    let key = low_bytes(alloc, shape.key, wanted.index)?;
    let bytes = pair_start(alloc, name, &key)?;
    let kind = Kind::Field(wanted.field, wanted.comparison);
    Ok(Some(Part { kind, bytes }))
}

/// What words of this form claim, if the rest of them has it.
fn pair_part(
    alloc: Global,
    subjects: &Subjects,
    words: &[&[u8]],
) -> Result<Option<Part>, AllocError>
    ensures { IfOk result (λ part. part ≡ pair_part subjects.now (map (λ f. f.now) words.now)) }
{
    let Some(wanted) = wanted_in(words) else {
        return Ok(None);
    };
    let name = before_open(word_at(words, 1));
    match subjects.map_of(name) {
        Some(shape) => field_part(alloc, name, wanted, shape),
        None => Ok(None),
    }
}

/// Whether words have the form `var NAME REL N`.
fn is_variable_form(words: &[&[u8]]) -> bool
    ensures { result ≡ is_variable_form (map (λ f. f.now) words.now) }
{
    words.len() == 4 && stands(words, 0, "var")
}

/// How the line of a variable begins.
fn variable_start(alloc: Global, name: &[u8]) -> Result<Vec<u8>, AllocError>
    ensures { IfOk result (λ start. start.items ≡ variable_start name.now) }
{
    let mut start = b"var ".to_vec(alloc)?;
    start.extend_from_slice(name)?;
    start.push(b'=')?;
    Ok(start)
}

/// What words of this form claim, if there is such a variable, and the rest of them has the form.
fn variable_part(
    alloc: Global,
    subjects: &Subjects,
    words: &[&[u8]],
) -> Result<Option<Part>, AllocError>
    ensures { IfOk result (λ part. part ≡ variable_part subjects.now (map (λ f. f.now) words.now)) }
{
    let name = word_at(words, 1);
    let Some(comparison) = comparison_in(word_at(words, 2), word_at(words, 3)) else {
        return Ok(None);
    };
    if subjects.variable_size(name).is_none() {
        return Ok(None);
    }
    let bytes = variable_start(alloc, name)?;
    let kind = Kind::Result(comparison);
    Ok(Some(Part { kind, bytes }))
}

/// The part of a claim that is a line.
pub(crate) fn line_part(line: Vec<u8>) -> Part
    ensures { result ≡ line_part line.items }
{
    Part {
        kind: Kind::Line,
        bytes: line,
    }
}

/// What these words claim that isn't a line.
fn compared_part(
    alloc: Global,
    subjects: &Subjects,
    words: &[&[u8]],
) -> Result<Option<Part>, AllocError>
    ensures { IfOk result (λ part. part ≡ compared_part subjects.now (map (λ f. f.now) words.now)) }
{
    if is_result_form(words) {
        result_in(alloc, subjects, words)
    } else if is_field_form(words) {
        pair_part(alloc, subjects, words)
    } else if is_variable_form(words) {
        variable_part(alloc, subjects, words)
    } else {
        Ok(None)
    }
}

/// Whether words are `fault`.
fn is_fault_form(words: &[&[u8]]) -> bool
    ensures { result ≡ is_fault_form (map (λ f. f.now) words.now) }
{
    words.len() == 1 && stands(words, 0, "fault")
}

/// The part of a claim that these words are, if they are one.
#[tactic(auto, unfolding(crate::specs::Parts::part_in))]
fn part_in(alloc: Global, subjects: &Subjects, words: &[&[u8]]) -> Result<Option<Part>, AllocError>
    ensures { IfOk result (λ part. part ≡ part_in subjects.now (map (λ f. f.now) words.now)) }
{
    if subjects.can_print_all(words) {
        Ok(Some(line_part(line_of(alloc, words)?)))
    } else if is_fault_form(words) {
        let bytes = Vec::new(alloc);
        Ok(Some(Part {
            kind: Kind::Fault,
            bytes,
        }))
    } else {
        compared_part(alloc, subjects, words)
    }
}

/// How many words are before the first that is this one.
fn joint_place(words: &[&[u8]], joint: &str) -> usize
    ensures value { result ≡ position_or_len (is_joint joint.now) (map (λ f. f.now) words.now) }
    ensures bound { result ≤ length words.now }
{
    match words {
        [] => 0,
        [word, others @ ..] => {
            if is(word, joint) {
                0
            } else {
                1 + joint_place(others, joint)
            }
        }
    }
}

/// Whether one of the words is this one.
fn has_joint(words: &[&[u8]], joint: &str) -> bool
    ensures { result ≡ list_any (is_joint joint.now) (map (λ f. f.now) words.now) }
{
    match words {
        [] => false,
        [word, others @ ..] => is(word, joint) || has_joint(others, joint),
    }
}

/// Appends the parts between words of a kind to others; returns whether all are parts.
fn push_parts(
    alloc: Global,
    subjects: &Subjects,
    joint: &str,
    words: &[&[u8]],
    parts: &mut Vec<Part>,
) -> Result<bool, AllocError>
    ensures { IfOk result (λ all. PushesParts subjects.now joint.now (map (λ f. f.now) words.now)
        parts.old.items all parts.new.items) }
{
    let place = joint_place(words, joint);
    match part_in(alloc, subjects, &words[..place])? {
        Some(part) => parts.push(part)?,
        None => return Ok(false),
    }
    if place < words.len() {
        Ok(push_parts(alloc, subjects, joint, &words[place + 1..], parts)?)
    } else {
        Ok(true)
    }
}

/// The parts between words of a kind, if all are parts.
pub(crate) fn parts_in(
    alloc: Global,
    subjects: &Subjects,
    joint: &str,
    words: &[&[u8]],
) -> Result<Option<Vec<Part>>, AllocError>
    ensures { IfOk result (λ parts. option_map (λ ps. ps.items) parts
        ≡ parts_in subjects.now joint.now (map (λ f. f.now) words.now)) }
{
    let mut parts = Vec::new(alloc);
    if push_parts(alloc, subjects, joint, words, &mut parts)? {
        Ok(Some(parts))
    } else {
        Ok(None)
    }
}

impl Join {
    /// The word between two parts.
    pub(crate) fn joint(self) -> &'static str
        ensures { result.now ≡ joint_of self }
    {
        match self {
            Join::All => "and",
            Join::Any => "or",
        }
    }

    /// What joins the parts of a claim.
    pub(crate) fn of(words: &[&[u8]]) -> Join
        ensures { result ≡ join_in (map (λ f. f.now) words.now) }
    {
        if has_joint(words, "or") {
            Join::Any
        } else {
            Join::All
        }
    }
}
