//! What a line of a run file says.

ghost use Rattle.std.specs.Prelude.{◌≡◌, ◌≤◌, length, map, IfOk, IsUtf8};
ghost use Rattle.std.specs.List.{after_first, before_first};
ghost use Rattle.std.specs.Option.{option_copied};
ghost use Rattle.bpf_lines.specs.Words.{written_number};
ghost use Rattle.bpf_file.specs.Form.{field_at};
ghost use Rattle.bpf_file.specs.Statement.{limited, count_at, held_at, Says, cpus_said, seed_said, map_said, masked_said, array_said, data_said, variable_at, variable_said, put_said, is_open, closed, key_number, size_named, numbers_said, job_said, budgeted_said, work_of, last_two, before_two, with_packet, packeted_of, timed_of, seeded_of, arrays_of, growing_of, statement_of};

use crate::line::LineError;
use crate::packet::{Hook, PacketLine};
use crate::version::Version;
use crate::{form, variable};
use bpf_base::MAX_BUDGET;
use bpf_lines::words::{self, NumberError};
use bpf_shared::{ArrayShape, MapShape, Size};

/// What one line says, where it isn't assembly. Names and digits are as they are.
#[derive(Clone, Copy)]
pub enum Statement<'a> {
    /// The first line, by the version that it says.
    Version(Version),
    /// How many CPUs there are.
    Cpus(u64),
    /// The seed of the maps' hashes.
    Seed(u64),
    /// A map by its name.
    Map(&'a str, MapShape),
    /// An array by its name.
    Array(&'a str, ArrayShape),
    Data(DataLine<'a>),
    Variable(VariableLine<'a>),
    Put(PutLine<'a>),
    PutNumbers(NumbersLine<'a>),
    /// A program's name; its assembly lines follow.
    Program(&'a [u8]),
    /// A program's name, and its words as hex digits.
    Words(&'a [u8], &'a [u8]),
    Job(JobLine<'a>),
}

/// Bytes that an array has at first, as their line says them.
#[derive(Clone, Copy)]
pub struct DataLine<'a> {
    /// The array's name.
    pub array: &'a str,
    /// Where they begin, counted from the array's first byte.
    pub at: u32,
    /// The bytes as hex digits.
    pub digits: &'a [u8],
}

/// A name for bytes of an array's first value, as its line says it.
#[derive(Clone, Copy)]
pub struct VariableLine<'a> {
    pub name: &'a str,
    /// The array's name.
    pub array: &'a str,
    /// Where the bytes begin in the value.
    pub at: u32,
    pub size: Size,
}

/// A pair of a map, or a value of an array, as its line says it.
#[derive(Clone, Copy)]
pub struct PutLine<'a> {
    /// The name of the map or the array.
    pub name: &'a str,
    /// The key's hex digits, or the index.
    pub key: &'a [u8],
    /// The value's hex digits.
    pub value: &'a [u8],
}

/// A pair of a map, or a value of an array, by numbers, as its line says it.
#[derive(Clone, Copy)]
pub struct NumbersLine<'a> {
    /// The name of the map or the array.
    pub name: &'a str,
    /// The number of the key, or the index.
    pub key: u64,
    /// The size of each number of the value.
    pub size: Size,
    /// The numbers, apart by commas.
    pub numbers: &'a [u8],
}

/// A job as its line says it.
#[derive(Clone, Copy)]
pub struct JobLine<'a> {
    /// The CPU's number, where 64 bits hold it.
    pub cpu: Option<u64>,
    /// The program's name.
    pub program: &'a [u8],
    /// How many steps it may make, where the line says it.
    pub budget: Option<u64>,
    /// The context's bytes as hex digits, where the line has them.
    pub context: Option<&'a [u8]>,
    /// The packet, where the line has one in the place of a context.
    pub packet: Option<PacketLine<'a>>,
    /// The time at which it runs, where the line says it.
    pub time: Option<u64>,
    /// The seed of its random numbers, where the line says it.
    pub seed: Option<u64>,
}

/// The greatest size of a map or an array, offset, and number of CPUs that a line may have.
const MOST: u64 = 0xffff_ffff;

/// The number that a word is, if it is in its range.
fn count_in(word: &[u8], most: u64) -> Result<u64, LineError>
    ensures number { result ≡ limited most (written_number word.now) }
    ensures within { IfOk result (λ n. n ≤ most) }
{
    match words::number(word) {
        Ok(number) => {
            if number <= most {
                Ok(number)
            } else {
                Err(LineError::BadNumber)
            }
        }
        Err(NumberError::TooLarge) => Err(LineError::BadNumber),
        Err(NumberError::NoNumber) => Err(LineError::BadForm),
    }
}

/// The number that a field is, if it is in its range.
fn count_at(fields: &[&[u8]], at: usize, most: u64) -> Result<u64, LineError>
    ensures number { result ≡ count_at (map (λ f. f.now) fields.now) at most }
    ensures within { IfOk result (λ n. n ≤ most) }
{
    count_in(form::field_at(fields, at), most)
}

/// The number that a field is, if 64 bits hold it.
fn held_at(fields: &[&[u8]], at: usize) -> Option<u64>
    ensures { result ≡ held_at (map (λ f. f.now) fields.now) at }
{
    match words::number(form::field_at(fields, at)) {
        Ok(number) => Some(number),
        Err(_) => None,
    }
}

fn cpus<'a>(fields: &[&'a [u8]]) -> Result<Statement<'a>, LineError>
    ensures { Says result (cpus_said (map (λ f. f.now) fields.now)) }
{
    let cpus = count_at(fields, 1, MOST)?;
    Ok(Statement::Cpus(cpus))
}

fn seed<'a>(fields: &[&'a [u8]]) -> Result<Statement<'a>, LineError>
    ensures { Says result (seed_said (map (λ f. f.now) fields.now)) }
{
    let seed = count_at(fields, 1, u64::MAX)?;
    Ok(Statement::Seed(seed))
}

/// A map with this mask, whose second field is a name.
fn map<'a>(fields: &[&'a [u8]], mask: u32, grow: bool) -> Result<Statement<'a>, LineError>
    requires { IsUtf8 (field_at (map (λ f. f.now) fields.now) 1) }
    ensures { Says result (map_said (map (λ f. f.now) fields.now) mask grow) }
{
    let key = count_at(fields, 3, MOST)?;
    let value = count_at(fields, 5, MOST)?;
    let max = count_at(fields, 7, MOST)?;
    let spare = count_at(fields, 9, MOST)?;
    let Ok(name) = str::from_utf8(form::field_at(fields, 1)) else {
        unreachable!()
    };
    Ok(Statement::Map(
        name,
        MapShape {
            key,
            value,
            max,
            spare,
            mask,
            grow,
        },
    ))
}

fn masked_map<'a>(fields: &[&'a [u8]], grow: bool) -> Result<Statement<'a>, LineError>
    requires { IsUtf8 (field_at (map (λ f. f.now) fields.now) 1) }
    ensures { Says result (masked_said (map (λ f. f.now) fields.now) grow) }
{
    let mask = count_at(fields, 11, MOST)?;
    map(fields, mask as u32, grow)
}

/// An array, whose second field is a name.
fn array<'a>(fields: &[&'a [u8]], per_cpu: bool, frozen: bool) -> Result<Statement<'a>, LineError>
    requires { IsUtf8 (field_at (map (λ f. f.now) fields.now) 1) }
    ensures { Says result (array_said (map (λ f. f.now) fields.now) per_cpu frozen) }
{
    let value = count_at(fields, 3, MOST)?;
    let max = count_at(fields, 5, MOST)?;
    let Ok(name) = str::from_utf8(form::field_at(fields, 1)) else {
        unreachable!()
    };
    Ok(Statement::Array(
        name,
        ArrayShape {
            value,
            max,
            per_cpu,
            frozen,
        },
    ))
}

/// Bytes of an array, whose second field is a name.
fn data<'a>(fields: &[&'a [u8]]) -> Result<Statement<'a>, LineError>
    requires { IsUtf8 (field_at (map (λ f. f.now) fields.now) 1) }
    ensures { Says result (data_said (map (λ f. f.now) fields.now)) }
{
    let at = count_at(fields, 2, MOST)?;
    let Ok(array) = str::from_utf8(form::field_at(fields, 1)) else {
        unreachable!()
    };
    Ok(Statement::Data(DataLine {
        array,
        at: at as u32,
        digits: form::field_at(fields, 3),
    }))
}

/// A variable, where it begins at a multiple of its size.
fn sized<'a>(
    name: &'a str,
    array: &'a str,
    at: u32,
    size: Option<Size>,
) -> Result<Statement<'a>, LineError>
    ensures { Says result (variable_at name.now array.now at size) }
{
    match size {
        Some(size) if variable::is_aligned(at, size) => Ok(Statement::Variable(VariableLine {
            name,
            array,
            at,
            size,
        })),
        _ => Err(LineError::BadNumber),
    }
}

/// A variable, whose second and third fields are names.
fn variable<'a>(fields: &[&'a [u8]]) -> Result<Statement<'a>, LineError>
    requires name { IsUtf8 (field_at (map (λ f. f.now) fields.now) 1) }
    requires array { IsUtf8 (field_at (map (λ f. f.now) fields.now) 2) }
    ensures { Says result (variable_said (map (λ f. f.now) fields.now)) }
{
    let at = count_at(fields, 3, MOST)?;
    let bytes = count_at(fields, 4, MOST)?;
    let Ok(name) = str::from_utf8(form::field_at(fields, 1)) else {
        unreachable!()
    };
    let Ok(array) = str::from_utf8(form::field_at(fields, 2)) else {
        unreachable!()
    };
    sized(name, array, at as u32, variable::size_of(bytes as u32))
}

/// A pair or a value, whose second field is a name.
fn put<'a>(fields: &[&'a [u8]]) -> Result<Statement<'a>, LineError>
    requires { IsUtf8 (field_at (map (λ f. f.now) fields.now) 1) }
    ensures { Says result (put_said (map (λ f. f.now) fields.now)) }
{
    let Ok(name) = str::from_utf8(form::field_at(fields, 1)) else {
        unreachable!()
    };
    Ok(Statement::Put(PutLine {
        name,
        key: form::field_at(fields, 2),
        value: form::field_at(fields, 3),
    }))
}

/// How much of a word is before its first `[`.
fn open_in(word: &[u8]) -> usize
    ensures value { result ≡ length (before_first is_open word.now) }
    ensures bound { result ≤ length word.now }
{
    word.iter().take_while(|byte| **byte != b'[').count()
}

/// What is before it.
fn before_open<'a>(word: &'a [u8]) -> &'a [u8]
    ensures { result.now ≡ before_first is_open word.now }
{
    &word[..open_in(word)]
}

/// What is after it.
fn after_open<'a>(word: &'a [u8]) -> &'a [u8]
    ensures { result.now ≡ after_first is_open word.now }
{
    let place = open_in(word);
    if place < word.len() {
        &word[place + 1..]
    } else {
        &word[place..]
    }
}

/// What is before the last byte, if that is `]`.
#[tactic(auto, using(crate::proofs::Puts::closed_none))]
fn closed<'a>(word: &'a [u8]) -> Option<&'a [u8]>
    ensures { option_copied result ≡ closed word.now }
{
    let (last, digits) = word.split_last()?;
    if *last == b']' { Some(digits) } else { None }
}

/// The number between brackets.
fn key_number(place: &[u8]) -> Result<u64, LineError>
    ensures { result ≡ key_number place.now }
{
    let Some(digits) = closed(after_open(place)) else {
        return Err(LineError::BadForm);
    };
    count_in(digits, u64::MAX)
}

/// The size that a word spells.
fn size_named(word: &[u8]) -> Option<Size>
    ensures { result ≡ size_named word.now }
{
    if word == b"u8".as_slice() {
        Some(Size::Byte)
    } else if word == b"u16".as_slice() {
        Some(Size::Half)
    } else if word == b"u32".as_slice() {
        Some(Size::Word)
    } else if word == b"u64".as_slice() {
        Some(Size::Double)
    } else {
        None
    }
}

/// A pair or a value by numbers.
fn put_numbers<'a>(fields: &[&'a [u8]]) -> Result<Statement<'a>, LineError>
    ensures { Says result (numbers_said (map (λ f. f.now) fields.now)) }
{
    let place = form::field_at(fields, 1);
    let name = before_open(place);
    if !form::is_name(name) {
        return Err(LineError::BadForm);
    }
    let Ok(name) = str::from_utf8(name) else {
        unreachable!()
    };
    let key = key_number(place)?;
    let Some(size) = size_named(form::field_at(fields, 3)) else {
        return Err(LineError::BadForm);
    };
    Ok(Statement::PutNumbers(NumbersLine {
        name,
        key,
        size,
        numbers: form::field_at(fields, 5),
    }))
}

/// A job with this budget and context.
fn job<'a>(
    fields: &[&'a [u8]],
    budget: Option<u64>,
    context: Option<&'a [u8]>,
) -> Result<Statement<'a>, LineError>
    ensures { Says result
        (job_said (map (λ f. f.now) fields.now) budget (option_copied context.entry)) }
{
    Ok(Statement::Job(JobLine {
        cpu: held_at(fields, 1),
        program: form::field_at(fields, 2),
        budget,
        context,
        packet: None,
        time: None,
        seed: None,
    }))
}

fn budgeted_job<'a>(
    fields: &[&'a [u8]],
    context: Option<&'a [u8]>,
) -> Result<Statement<'a>, LineError>
    ensures { Says result (budgeted_said (map (λ f. f.now) fields.now)
        (option_copied context.entry)) }
{
    let budget = count_at(fields, 4, MAX_BUDGET)?;
    job(fields, Some(budget), context)
}

/// A line about a program or a job.
fn work<'a>(fields: &[&'a [u8]]) -> Result<Statement<'a>, LineError>
    ensures { Says result (work_of (map (λ f. f.now) fields.now)) }
{
    if form::has_form(&form::PROGRAM, fields) {
        Ok(Statement::Program(form::field_at(fields, 1)))
    } else if form::has_form(&form::WORDS, fields) {
        Ok(Statement::Words(form::field_at(fields, 1), form::field_at(fields, 3)))
    } else if form::has_form(&form::JOB, fields) {
        job(fields, None, None)
    } else if form::has_form(&form::JOB_WITH_BUDGET, fields) {
        budgeted_job(fields, None)
    } else if form::has_form(&form::JOB_WITH_CONTEXT, fields) {
        job(fields, None, Some(form::field_at(fields, 4)))
    } else if form::has_form(&form::JOB_WITH_BOTH, fields) {
        budgeted_job(fields, Some(form::field_at(fields, 6)))
    } else {
        Err(LineError::BadForm)
    }
}

/// The last two fields, and those before them.
fn split_two<'a, 'b>(fields: &'b [&'a [u8]]) -> (&'b [&'a [u8]], &'b [&'a [u8]])
    ensures before { map (λ f. f.now) result.0.now ≡ before_two (map (λ f. f.now) fields.now) }
    ensures last { map (λ f. f.now) result.1.now ≡ last_two (map (λ f. f.now) fields.now) }
{
    fields.split_at(fields.len().saturating_sub(2))
}

/// A job with the packet at the end of its line, in the place of a context.
fn with_packet<'a>(hook: Hook, fields: &[&'a [u8]]) -> Result<Statement<'a>, LineError>
    ensures { Says result (with_packet hook (map (λ f. f.now) fields.now)) }
{
    let (before, last) = split_two(fields);
    match work(before)? {
        Statement::Job(job) => {
            if job.context.is_some() {
                return Err(LineError::BadForm);
            }
            let digits = form::field_at(last, 1);
            Ok(Statement::Job(JobLine {
                packet: Some(PacketLine { hook, digits }),
                ..job
            }))
        }
        _ => Err(LineError::BadForm),
    }
}

/// A line about a program or a job, which may have a packet at its end.
fn packeted<'a>(fields: &[&'a [u8]]) -> Result<Statement<'a>, LineError>
    ensures { Says result (packeted_of (map (λ f. f.now) fields.now)) }
{
    let (_, last) = split_two(fields);
    if form::has_form(&form::XDP, last) {
        with_packet(Hook::Xdp, fields)
    } else if form::has_form(&form::TC, last) {
        with_packet(Hook::Tc, fields)
    } else {
        work(fields)
    }
}

/// And a time after that.
fn timed<'a>(fields: &[&'a [u8]]) -> Result<Statement<'a>, LineError>
    ensures { Says result (timed_of (map (λ f. f.now) fields.now)) }
{
    let (before, last) = split_two(fields);
    if !form::has_form(&form::TIME, last) {
        return packeted(fields);
    }
    match packeted(before)? {
        Statement::Job(job) => {
            let time = count_at(last, 1, u64::MAX)?;
            Ok(Statement::Job(JobLine {
                time: Some(time),
                ..job
            }))
        }
        _ => Err(LineError::BadForm),
    }
}

/// And a seed after that.
fn seeded<'a>(fields: &[&'a [u8]]) -> Result<Statement<'a>, LineError>
    ensures { Says result (seeded_of (map (λ f. f.now) fields.now)) }
{
    let (before, last) = split_two(fields);
    if !form::has_form(&form::RANDOM, last) {
        return timed(fields);
    }
    match timed(before)? {
        Statement::Job(job) => {
            let seed = count_at(last, 1, u64::MAX)?;
            Ok(Statement::Job(JobLine {
                seed: Some(seed),
                ..job
            }))
        }
        _ => Err(LineError::BadForm),
    }
}

/// A line about an array, a variable or a pair, or about a program or a job.
fn arrays<'a>(fields: &[&'a [u8]]) -> Result<Statement<'a>, LineError>
    ensures { Says result (arrays_of (map (λ f. f.now) fields.now)) }
{
    if form::has_form(&form::ARRAY, fields) {
        array(fields, false, false)
    } else if form::has_form(&form::PER_CPU_ARRAY, fields) {
        array(fields, true, false)
    } else if form::has_form(&form::FROZEN_ARRAY, fields) {
        array(fields, false, true)
    } else if form::has_form(&form::FROZEN_PER_CPU_ARRAY, fields) {
        array(fields, true, true)
    } else if form::has_form(&form::DATA, fields) {
        data(fields)
    } else if form::has_form(&form::VARIABLE, fields) {
        variable(fields)
    } else if form::has_form(&form::PUT, fields) {
        put(fields)
    } else if form::has_form(&form::PUT_NUMBERS, fields) {
        put_numbers(fields)
    } else {
        seeded(fields)
    }
}

/// A line about a map that grows, or about an array, a variable, a program or a job.
fn growing<'a>(version: Version, fields: &[&'a [u8]]) -> Result<Statement<'a>, LineError>
    ensures { Says result (growing_of version (map (λ f. f.now) fields.now)) }
{
    if form::has_form(&form::GROWING_MAP, fields) {
        map(fields, u32::MAX, true)
    } else if form::has_form(&form::GROWING_MASKED_MAP, fields) {
        masked_map(fields, true)
    } else if version.has_arrays() {
        arrays(fields)
    } else {
        work(fields)
    }
}

/// What a line with these fields says in a file of this version.
pub fn said<'a>(version: Version, fields: &[&'a [u8]]) -> Result<Statement<'a>, LineError>
    ensures { Says result (statement_of version (map (λ f. f.now) fields.now)) }
{
    if form::has_form(&form::VERSION, fields) {
        Ok(Statement::Version(Version::First))
    } else if form::has_form(&form::SECOND_VERSION, fields) {
        Ok(Statement::Version(Version::Second))
    } else if form::has_form(&form::THIRD_VERSION, fields) {
        Ok(Statement::Version(Version::Third))
    } else if form::has_form(&form::CPUS, fields) {
        cpus(fields)
    } else if form::has_form(&form::SEED, fields) {
        seed(fields)
    } else if form::has_form(&form::MAP, fields) {
        map(fields, u32::MAX, false)
    } else if form::has_form(&form::MASKED_MAP, fields) {
        masked_map(fields, false)
    } else if version.may_grow() {
        growing(version, fields)
    } else {
        work(fields)
    }
}
