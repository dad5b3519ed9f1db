//! The lines that a file's outcomes can have.

ghost use Rattle.std.specs.Prelude.{◌≡◌, ◌==◌, ◌+◌, ◌%◌, ◌≤◌, IfSome, drop, length, map, string_bytes};
ghost use Rattle.std.specs.List.{after_first, before_first, list_all};
ghost use Rattle.std.specs.Option.{option_copied};
ghost use Rattle.std.specs.Str.{bytes_eq};
ghost use Rattle.bpf_names.specs.Names.{names_of};
ghost use Rattle.bpf_check.specs.Subjects.{are_bytes, are_keys, array_of, at, can_print, can_print_all, cpu_of, has_jobs, has_plain_digits, is_array_line, is_array_value, is_below, is_budget_end, is_end, is_equals, is_exit, is_fault, is_fault_end, is_hex_digit, is_job_line, is_keys_line, is_map_line, is_number, is_numbered, is_of_size, is_own_value, is_pair, is_result, is_same, is_shared_value, is_value, is_variable_line, is_zero, map_of, number_in, place_of, stands, variable_size};

use crate::parts::is_held;
use bpf_lines::numbers::{self, Radix};
use bpf_names::{Names, bytes_in};
use bpf_shared::{ArrayShape, MapShape, Size, StoreShape};
use std::marker::Model;

/// What the lines of a file's outcomes speak of, and what may be asked of them.
#[derive(Drop)]
pub struct Subjects {
    /// The CPU of each job.
    jobs: Vec<u8>,
    names: Names,
    /// The sizes of maps and arrays, by their numbers.
    shape: StoreShape,
    /// Whether lists of keys are among the lines.
    lists: bool,
    /// Whether it may be asked if each schedule can end.
    ends: bool,
    /// Whether the CPUs have store buffers.
    x86: bool,
}

/// What may be asked of outcomes.
#[derive(Clone, Copy)]
pub struct Questions {
    /// Whether lists of keys are among their lines.
    pub lists: bool,
    /// Whether it may be asked if each schedule can end.
    pub ends: bool,
    /// Whether they are those of CPUs with store buffers.
    pub x86: bool,
}

impl Model for Subjects {
    ghost use Rattle.bpf_names.specs.Names.{names_of};
    ghost use Rattle.bpf_check.specs.Subjects.{Subjects};

    ghost Value = { Subjects };

    ghost view = { λ s. record {
      jobs = s.jobs.items;
      cpus = s.shape.cpus;
      names = names_of s.names;
      maps = s.shape.maps;
      arrays = s.shape.arrays;
      lists = s.lists;
      ends = s.ends;
      x86 = s.x86;
    } };
}

/// Whether a word is this one.
pub(crate) fn is(word: &[u8], text: &str) -> bool
    ensures { result ≡ bytes_eq word.now text.now }
{
    word == text.as_bytes()
}

fn has_plain_digits(word: &[u8]) -> bool
    ensures { result ≡ has_plain_digits word.now }
{
    numbers::is_numeral(10, word) && (word.len() == 1 || !word.starts_with(b"0"))
}

/// The number that a word is, as numbers are printed.
pub(crate) fn number_in(word: &[u8]) -> Option<u64>
    ensures { result ≡ number_in word.now }
{
    if !has_plain_digits(word) {
        return None;
    }
    numbers::value(Radix::Decimal, word)
}

fn is_number(word: &[u8]) -> bool
    ensures { result ≡ is_number word.now }
{
    match number_in(word) {
        Some(_) => true,
        None => false,
    }
}

fn is_same(first: Option<u64>, second: Option<u64>) -> bool
    ensures { result ≡ is_same first second }
{
    match (first, second) {
        (Some(first), Some(second)) => first == second,
        (None, _) | (Some(_), None) => false,
    }
}

/// Whether a word says which number a job ended with.
fn is_result(word: &[u8]) -> bool
    ensures { result ≡ is_result word.now }
{
    word.starts_with(b"r0=") && is_number(&word[3..])
}

fn is_fault(word: &[u8]) -> bool
    ensures { result ≡ is_fault word.now }
{
    match word {
        [letter, number] => *letter == b'F' && b'1' <= *number && *number <= b'7',
        _ => false,
    }
}

fn is_hex_digit(byte: u8) -> bool
    ensures { result ≡ is_hex_digit byte }
{
    matches!(byte, b'0'..=b'9' | b'a'..=b'f')
}

fn are_hex_digits(word: &[u8]) -> bool
    ensures { result ≡ list_all is_hex_digit word.now }
{
    word.iter().all(|byte| is_hex_digit(*byte))
}

fn is_even(len: usize) -> bool
    ensures { result ≡ (len % 2 == 0) }
{
    len % 2 == 0
}

/// Whether a word is n bytes in lower case hex.
fn are_bytes(count: u64, word: &[u8]) -> bool
    ensures { result ≡ are_bytes count word.now }
{
    is_even(word.len()) && (word.len() / 2) as u64 == count && are_hex_digits(word)
}

/// How much of a word is before its first `=`.
fn equals_in(word: &[u8]) -> usize
    ensures value { result ≡ length (before_first is_equals word.now) }
    ensures bound { result ≤ length word.now }
{
    word.iter().take_while(|byte| **byte != b'=').count()
}

/// What is before a word's first `=`.
fn key_of<'a>(word: &'a [u8]) -> &'a [u8]
    ensures { result.now ≡ before_first is_equals word.now }
{
    &word[..equals_in(word)]
}

/// What is after it.
fn value_of<'a>(word: &'a [u8]) -> &'a [u8]
    ensures { result.now ≡ after_first is_equals word.now }
{
    let place = equals_in(word);
    if place < word.len() {
        &word[place + 1..]
    } else {
        &word[place..]
    }
}

/// Whether a word is a key and a value of a map of these sizes.
fn is_pair(shape: Option<&MapShape>, word: &[u8]) -> bool
    ensures { result ≡ is_pair (option_copied shape.entry) word.now }
{
    match shape {
        Some(shape) => are_bytes(shape.key, key_of(word)) && are_bytes(shape.value, value_of(word)),
        None => false,
    }
}

fn is_zero(byte: u8) -> bool
    ensures { result ≡ is_zero byte }
{
    byte == b'0'
}

fn are_zeros(word: &[u8]) -> bool
    ensures { result ≡ list_all is_zero word.now }
{
    word.iter().all(|byte| is_zero(*byte))
}

/// Whether a word is n bytes that aren't all zeros, in lower case hex.
fn is_value(count: u64, word: &[u8]) -> bool
    ensures { result ≡ is_value count word.now }
{
    are_bytes(count, word) && !are_zeros(word)
}

fn is_below(limit: u64, number: Option<u64>) -> bool
    ensures { result ≡ is_below limit number }
{
    match number {
        Some(number) => number < limit,
        None => false,
    }
}

/// Whether a word is a number below a limit and a value of n bytes.
fn is_numbered(limit: u64, count: u64, word: &[u8]) -> bool
    ensures { result ≡ is_numbered limit count word.now }
{
    is_below(limit, number_in(key_of(word))) && is_value(count, value_of(word))
}

/// Whether this many bytes hold a number.
fn is_of_size(size: Option<Size>, number: Option<u64>) -> bool
    ensures { result ≡ is_of_size size number }
{
    match (size, number) {
        (Some(size), Some(number)) => is_held(bytes_in(size) as u64, number),
        _ => false,
    }
}

/// Whether words are n bytes each, in lower case hex.
fn are_keys_of(size: u64, words: &[&[u8]]) -> bool
    ensures { result ≡ list_all (are_bytes size) (map (λ f. f.now) words.now) }
{
    match words {
        [] => true,
        [word, others @ ..] => are_bytes(size, word) && are_keys_of(size, others),
    }
}

/// Whether words are keys of a map of these sizes.
fn are_keys(shape: Option<&MapShape>, words: &[&[u8]]) -> bool
    ensures { result ≡ are_keys (option_copied shape.entry) (map (λ f. f.now) words.now) }
{
    match shape {
        Some(shape) => are_keys_of(shape.key, words),
        None => false,
    }
}

/// The word at place `n`; none where there are fewer.
pub(crate) fn word_at<'a>(words: &[&'a [u8]], n: usize) -> &'a [u8]
    ensures { result.now ≡ at (map (λ f. f.now) words.now) n }
{
    match words.get(n) {
        Some(word) => word,
        None => &[],
    }
}

/// Whether it is this one.
pub(crate) fn stands(words: &[&[u8]], n: usize, text: &str) -> bool
    ensures { result ≡ stands (map (λ f. f.now) words.now) n text.now }
{
    is(word_at(words, n), text)
}

/// Whether three words and one after them say that a job ended with a number.
fn is_exit(words: &[&[u8]]) -> bool
    ensures { result ≡ is_exit (map (λ f. f.now) words.now) }
{
    words.len() == 4 && is_result(word_at(words, 3))
}

/// Whether words after three say that it ended in a fault.
fn is_fault_end(words: &[&[u8]]) -> bool
    ensures { result ≡ is_fault_end (map (λ f. f.now) words.now) }
{
    words.len() == 7
        && stands(words, 3, "fault")
        && is_fault(word_at(words, 4))
        && stands(words, 5, "at")
        && is_number(word_at(words, 6))
}

/// Whether words after three say that it ended out of budget.
fn is_budget_end(words: &[&[u8]]) -> bool
    ensures { result ≡ is_budget_end (map (λ f. f.now) words.now) }
{
    words.len() == 8
        && stands(words, 3, "out")
        && stands(words, 4, "of")
        && stands(words, 5, "budget")
        && stands(words, 6, "at")
        && is_number(word_at(words, 7))
}

/// Whether words after three say how a job ends.
fn is_end(words: &[&[u8]]) -> bool
    ensures { result ≡ is_end (map (λ f. f.now) words.now) }
{
    is_exit(words) || is_fault_end(words) || is_budget_end(words)
}

/// Whether a word after an array's name is an index with its value.
fn is_shared_value(shape: &ArrayShape, words: &[&[u8]]) -> bool
    ensures { result ≡ is_shared_value shape.now (map (λ f. f.now) words.now) }
{
    words.len() == 2 && is_numbered(shape.max, shape.value, word_at(words, 1))
}

/// Whether words after it are an index and a CPU with its value.
fn is_own_value(cpus: u8, shape: &ArrayShape, words: &[&[u8]]) -> bool
    ensures { result ≡ is_own_value cpus shape.now (map (λ f. f.now) words.now) }
{
    words.len() == 4
        && is_below(shape.max, number_in(word_at(words, 1)))
        && stands(words, 2, "cpu")
        && is_numbered(u64::from(cpus), shape.value, word_at(words, 3))
}

/// Whether words after it are a value of an array of these sizes.
fn is_array_value(cpus: u8, shape: Option<&ArrayShape>, words: &[&[u8]]) -> bool
    ensures { result ≡ is_array_value cpus (option_copied shape.entry) (map (λ f. f.now) words.now) }
{
    match shape {
        Some(shape) if shape.frozen => false,
        Some(shape) if shape.per_cpu => is_own_value(cpus, shape, words),
        Some(shape) => is_shared_value(shape, words),
        None => false,
    }
}

/// The names after the first n.
fn names_after(names: &[String], count: usize) -> &[String]
    ensures { map string_bytes result.now ≡ drop count (map string_bytes names.now) }
{
    if count <= names.len() {
        &names[count..]
    } else {
        &[]
    }
}

/// The number of the first of this name.
fn place_of(name: &[u8], names: &[String]) -> Option<usize>
    ensures value { result ≡ place_of name.now (map string_bytes names.now) }
    ensures bound { IfSome result (λ k. k + 1 ≤ length names.now) }
{
    match names {
        [] => None,
        [known, others @ ..] => {
            if known.as_bytes() == name {
                Some(0)
            } else {
                let place = place_of(name, others)?;
                Some(place + 1)
            }
        }
    }
}

impl Subjects {
    /// What lines of a file's outcomes speak of: jobs on these CPUs, maps and arrays of these sizes,
    /// and the names of these and of variables.
    pub fn new(jobs: Vec<u8>, names: Names, shape: StoreShape, questions: Questions) -> Subjects
        ensures { result ≡ record {
          jobs = jobs.items;
          cpus = shape.cpus;
          names = names_of names;
          maps = shape.maps;
          arrays = shape.arrays;
          lists = questions.lists;
          ends = questions.ends;
          x86 = questions.x86;
        } }
    {
        Subjects {
            jobs,
            names,
            shape,
            lists: questions.lists,
            ends: questions.ends,
            x86: questions.x86,
        }
    }

    /// The CPU of the job of this number.
    pub(crate) fn cpu_of(&self, job: Option<u64>) -> Option<u64>
        ensures { result ≡ cpu_of self.now job }
    {
        match job {
            Some(job) => match self.jobs.get(job as usize) {
                Some(cpu) => Some(u64::from(*cpu)),
                None => None,
            },
            None => None,
        }
    }

    /// Whether some job is on this CPU.
    fn has_jobs(&self, cpu: Option<u64>) -> bool
        ensures { result ≡ has_jobs self.now cpu }
    {
        self.jobs
            .iter()
            .any(|own| is_same(Some(u64::from(*own)), cpu))
    }

    /// The sizes of the map of this name.
    pub(crate) fn map_of(&self, name: &[u8]) -> Option<&MapShape>
        ensures { option_copied result ≡ map_of self.now name.now }
    {
        match place_of(name, &self.names.maps) {
            Some(place) => self.shape.maps().get(place),
            None => None,
        }
    }

    /// The sizes of the array of this name.
    fn array_of(&self, name: &[u8]) -> Option<&ArrayShape>
        ensures { option_copied result ≡ array_of self.now name.now }
    {
        match place_of(name, names_after(&self.names.maps, self.shape.maps().len())) {
            Some(place) => self.shape.arrays().get(place),
            None => None,
        }
    }

    /// The size of the variable of this name, if it has a line.
    pub(crate) fn variable_size(&self, name: &[u8]) -> Option<Size>
        ensures { result ≡ variable_size self.now name.now }
    {
        let variable = self.names.variable(name)?;
        let array = self.shape.arrays().get(usize::from(variable.array))?;
        if array.frozen {
            None
        } else {
            Some(variable.size)
        }
    }

    /// Whether words after `job` make a line with it.
    fn is_job_line(&self, words: &[&[u8]]) -> bool
        ensures { result ≡ is_job_line self.now (map (λ f. f.now) words.now) }
    {
        stands(words, 1, "cpu")
            && is_same(
                self.cpu_of(number_in(word_at(words, 0))),
                number_in(word_at(words, 2)),
            )
            && is_end(words)
    }

    /// Whether words after `map` do.
    fn is_map_line(&self, words: &[&[u8]]) -> bool
        ensures { result ≡ is_map_line self.now (map (λ f. f.now) words.now) }
    {
        words.len() == 2 && is_pair(self.map_of(word_at(words, 0)), word_at(words, 1))
    }

    /// Whether words after `array` do.
    fn is_array_line(&self, words: &[&[u8]]) -> bool
        ensures { result ≡ is_array_line self.now (map (λ f. f.now) words.now) }
    {
        let shape = self.array_of(word_at(words, 0));
        is_array_value(self.shape.cpus(), shape, words)
    }

    /// Whether words after `var` do.
    fn is_variable_line(&self, words: &[&[u8]]) -> bool
        ensures { result ≡ is_variable_line self.now (map (λ f. f.now) words.now) }
    {
        let word = word_at(words, 0);
        words.len() == 1 && is_of_size(self.variable_size(key_of(word)), number_in(value_of(word)))
    }

    /// Whether words after `keys` do.
    fn is_keys_line(&self, words: &[&[u8]]) -> bool
        ensures { result ≡ is_keys_line self.now (map (λ f. f.now) words.now) }
    {
        let [word, cpu, name, keys @ ..] = words else {
            return false;
        };
        is(word, "cpu") && self.has_jobs(number_in(cpu)) && are_keys(self.map_of(name), keys)
    }

    /// Whether it may be asked if each schedule can end.
    pub(crate) fn ends(&self) -> bool
        ensures { result ≡ self.now.ends }
    {
        self.ends
    }

    /// Whether the CPUs have store buffers.
    pub(crate) fn x86(&self) -> bool
        ensures { result ≡ self.now.x86 }
    {
        self.x86
    }

    /// Whether an outcome can have the line of these words.
    #[tactic(auto, unfolding(crate::specs::Subjects::can_print))]
    fn can_print(&self, first: &[u8], more: &[&[u8]]) -> bool
        ensures { result ≡ can_print self.now first.now (map (λ f. f.now) more.now) }
    {
        if is(first, "job") {
            self.is_job_line(more)
        } else if is(first, "map") {
            self.is_map_line(more)
        } else if is(first, "array") {
            self.is_array_line(more)
        } else if is(first, "var") {
            self.is_variable_line(more)
        } else {
            self.lists && is(first, "keys") && self.is_keys_line(more)
        }
    }

    /// Whether words are a line that an outcome can have.
    pub(crate) fn can_print_all(&self, words: &[&[u8]]) -> bool
        ensures { result ≡ can_print_all self.now (map (λ f. f.now) words.now) }
    {
        match words {
            [] => false,
            [first, more @ ..] => self.can_print(first, more),
        }
    }
}
