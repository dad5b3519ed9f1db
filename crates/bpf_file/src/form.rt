//! The forms of the lines of a run file, part by part.

ghost use Rattle.std.specs.Prelude.{◌≡◌, map};
ghost use Rattle.bpf_file.specs.Form.{is_number, is_part, has_form, field_at};

use crate::key::Key;
use bpf_lines::words::{self, NumberError};
use bpf_mem::context::MAX_CONTEXT;
use bpf_mem::packet::MAX_PACKET;

/// What a field of a line has to be.
#[derive(Clone, Copy)]
pub enum Part {
    Word(Key),
    /// A name of 32 characters at most.
    Name,
    Number,
    /// Hex digits, which are looked at when the context is made; 4,096 bytes at most.
    Context,
    /// Hex digits, as many as of 16,384 bytes at most.
    Packet,
    /// Hex digits of a program, an array or a map, of any length; an index; a name with one, a size,
    /// or numbers.
    Words,
}

/// `ebpf-run 1`
pub const VERSION: [Part; 2] = [Part::Word(Key::RunFile), Part::Word(Key::One)];

/// `ebpf-run 2`
pub const SECOND_VERSION: [Part; 2] = [Part::Word(Key::RunFile), Part::Word(Key::Two)];

/// `ebpf-run 3`
pub const THIRD_VERSION: [Part; 2] = [Part::Word(Key::RunFile), Part::Word(Key::Three)];

/// `cpus N`
pub const CPUS: [Part; 2] = [Part::Word(Key::Cpus), Part::Number];

/// `seed N`
pub const SEED: [Part; 2] = [Part::Word(Key::Seed), Part::Number];

/// `map NAME key K value V max M spare P`
pub const MAP: [Part; 10] = [
    Part::Word(Key::Map),
    Part::Name,
    Part::Word(Key::KeySize),
    Part::Number,
    Part::Word(Key::ValueSize),
    Part::Number,
    Part::Word(Key::Max),
    Part::Number,
    Part::Word(Key::Spare),
    Part::Number,
];

/// `map NAME key K value V max M spare P mask X`
pub const MASKED_MAP: [Part; 12] = [
    Part::Word(Key::Map),
    Part::Name,
    Part::Word(Key::KeySize),
    Part::Number,
    Part::Word(Key::ValueSize),
    Part::Number,
    Part::Word(Key::Max),
    Part::Number,
    Part::Word(Key::Spare),
    Part::Number,
    Part::Word(Key::Mask),
    Part::Number,
];

/// A map that grows, from version 2 on: `grow` after the sizes.
pub const GROWING_MAP: [Part; 11] = [
    Part::Word(Key::Map),
    Part::Name,
    Part::Word(Key::KeySize),
    Part::Number,
    Part::Word(Key::ValueSize),
    Part::Number,
    Part::Word(Key::Max),
    Part::Number,
    Part::Word(Key::Spare),
    Part::Number,
    Part::Word(Key::Grow),
];

/// `grow` after the mask.
pub const GROWING_MASKED_MAP: [Part; 13] = [
    Part::Word(Key::Map),
    Part::Name,
    Part::Word(Key::KeySize),
    Part::Number,
    Part::Word(Key::ValueSize),
    Part::Number,
    Part::Word(Key::Max),
    Part::Number,
    Part::Word(Key::Spare),
    Part::Number,
    Part::Word(Key::Mask),
    Part::Number,
    Part::Word(Key::Grow),
];

/// `array NAME value V max M`, in version 3.
pub const ARRAY: [Part; 6] = [
    Part::Word(Key::Array),
    Part::Name,
    Part::Word(Key::ValueSize),
    Part::Number,
    Part::Word(Key::Max),
    Part::Number,
];

/// `percpu` after the sizes.
pub const PER_CPU_ARRAY: [Part; 7] = [
    Part::Word(Key::Array),
    Part::Name,
    Part::Word(Key::ValueSize),
    Part::Number,
    Part::Word(Key::Max),
    Part::Number,
    Part::Word(Key::PerCpu),
];

/// `frozen` after the sizes.
pub const FROZEN_ARRAY: [Part; 7] = [
    Part::Word(Key::Array),
    Part::Name,
    Part::Word(Key::ValueSize),
    Part::Number,
    Part::Word(Key::Max),
    Part::Number,
    Part::Word(Key::Frozen),
];

/// Both after the sizes.
pub const FROZEN_PER_CPU_ARRAY: [Part; 8] = [
    Part::Word(Key::Array),
    Part::Name,
    Part::Word(Key::ValueSize),
    Part::Number,
    Part::Word(Key::Max),
    Part::Number,
    Part::Word(Key::PerCpu),
    Part::Word(Key::Frozen),
];

/// `data NAME AT DIGITS`, in version 3.
pub const DATA: [Part; 4] = [Part::Word(Key::Data), Part::Name, Part::Number, Part::Words];

/// `var NAME ARRAY AT SIZE`, in version 3.
pub const VARIABLE: [Part; 5] = [
    Part::Word(Key::Variable),
    Part::Name,
    Part::Name,
    Part::Number,
    Part::Number,
];

/// `put NAME KEY VALUE`, in version 3.
pub const PUT: [Part; 4] = [Part::Word(Key::Put), Part::Name, Part::Words, Part::Words];

/// `put NAME[K] of SIZE = N,N,..`, in version 3.
pub const PUT_NUMBERS: [Part; 6] = [
    Part::Word(Key::Put),
    Part::Words,
    Part::Word(Key::Of),
    Part::Words,
    Part::Word(Key::Equals),
    Part::Words,
];

/// `prog NAME`, before lines of assembly.
pub const PROGRAM: [Part; 2] = [Part::Word(Key::Program), Part::Name];

/// `prog NAME hex DIGITS`
pub const WORDS: [Part; 4] = [
    Part::Word(Key::Program),
    Part::Name,
    Part::Word(Key::Hex),
    Part::Words,
];

/// `job CPU NAME`
pub const JOB: [Part; 3] = [Part::Word(Key::Job), Part::Number, Part::Name];

/// `job CPU NAME budget N`
pub const JOB_WITH_BUDGET: [Part; 5] = [
    Part::Word(Key::Job),
    Part::Number,
    Part::Name,
    Part::Word(Key::Budget),
    Part::Number,
];

/// `job CPU NAME ctx DIGITS`
pub const JOB_WITH_CONTEXT: [Part; 5] = [
    Part::Word(Key::Job),
    Part::Number,
    Part::Name,
    Part::Word(Key::Context),
    Part::Context,
];

/// `job CPU NAME budget N ctx DIGITS`
pub const JOB_WITH_BOTH: [Part; 7] = [
    Part::Word(Key::Job),
    Part::Number,
    Part::Name,
    Part::Word(Key::Budget),
    Part::Number,
    Part::Word(Key::Context),
    Part::Context,
];

/// `xdp DIGITS`, at the end of a job, in version 3.
pub const XDP: [Part; 2] = [Part::Word(Key::Xdp), Part::Packet];

/// `tc DIGITS`, likewise.
pub const TC: [Part; 2] = [Part::Word(Key::Tc), Part::Packet];

/// `time N` at the end of a job's line, in version 3.
pub const TIME: [Part; 2] = [Part::Word(Key::Time), Part::Number];

/// `random N` at its end.
pub const RANDOM: [Part; 2] = [Part::Word(Key::Random), Part::Number];

/// Whether the field is a number, of any size.
fn is_number(field: &[u8]) -> bool
    ensures { result ≡ is_number field.now }
{
    match words::number(field) {
        Ok(_) | Err(NumberError::TooLarge) => true,
        Err(NumberError::NoNumber) => false,
    }
}

/// Whether a field is a name of 32 characters at most.
pub fn is_name(field: &[u8]) -> bool
    ensures { result ≡ is_part Part.Name field.now }
{
    words::is_name(field) && field.len() <= 32
}

impl Part {
    /// Whether a field is that.
    fn is(self, field: &[u8]) -> bool
        ensures { result ≡ is_part self field.now }
    {
        match self {
            Part::Word(key) => key.is(field),
            Part::Name => is_name(field),
            Part::Number => is_number(field),
            Part::Context => field.len() <= 2 * MAX_CONTEXT,
            Part::Packet => field.len() <= 2 * MAX_PACKET,
            Part::Words => true,
        }
    }
}

/// Whether a line's fields are those of the form, one by one.
pub fn has_form(form: &[Part], fields: &[&[u8]]) -> bool
    ensures { result ≡ has_form form.now (map (λ f. f.now) fields.now) }
{
    match form {
        [] => fields.is_empty(),
        [part, parts @ ..] => match fields {
            [field, others @ ..] => part.is(field) && has_form(parts, others),
            [] => false,
        },
    }
}

/// A field of a line, empty where the line has fewer.
pub fn field_at<'a>(fields: &[&'a [u8]], at: usize) -> &'a [u8]
    ensures { result.now ≡ field_at (map (λ f. f.now) fields.now) at }
{
    match fields.get(at) {
        Some(field) => *field,
        None => &[],
    }
}
