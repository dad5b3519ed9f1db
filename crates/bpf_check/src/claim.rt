//! What is claimed of an outcome: that it has a line, or a line with such a number.

ghost use Rattle.std.specs.Prelude.{◌≡◌, ◌+◌, ◌<◌, ◌≤◌, ◌^◌, IfSome, MatchOption, drop, false, length, nat_eq, true};
ghost use Rattle.std.specs.List.{after_first, before_first, list_all, list_any, starts_with};
ghost use Rattle.bpf_shared.specs.Access.{bytes_in};
ghost use Rattle.bpf_check.specs.declared.claim.Kind.TheVariants as kind;
ghost use Rattle.bpf_check.specs.Claim.{after_four, compares, field_of, has_part, holds, is_fault_line, is_line_of, is_space, joined, low_first};
ghost use Rattle.bpf_check.specs.Faults.{has_fault, is_of_faults};

use crate::subjects::number_in;
use bpf_lines::lines::first_line;
use bpf_lines::numbers::{self, Radix};
use bpf_shared::Size;
use std::marker::Model;

/// How two numbers compare.
#[derive(Clone, Copy)]
pub enum Relation {
    Equal,
    Unequal,
    Below,
    AtMost,
    Above,
    AtLeast,
}

impl Relation {
    /// Whether two numbers compare so.
    fn holds(self, first: u64, second: u64) -> bool
        ensures { result ≡ holds self first second }
    {
        match self {
            Relation::Equal => first == second,
            Relation::Unequal => first != second,
            Relation::Below => first < second,
            Relation::AtMost => first <= second,
            Relation::Above => first > second,
            Relation::AtLeast => first >= second,
        }
    }
}

/// What is claimed of a number: how it compares with another.
#[derive(Clone, Copy)]
pub struct Comparison {
    pub relation: Relation,
    pub number: u64,
}

impl Comparison {
    /// Whether there is a number, and it compares so.
    fn compares(self, number: Option<u64>) -> bool
        ensures { result ≡ compares self number }
    {
        match number {
            Some(number) => self.relation.holds(number, self.number),
            None => false,
        }
    }
}

/// How many bytes a number of a size has.
fn bytes_in(size: Size) -> u64
    ensures value { result ≡ bytes_in size }
    ensures small { result ≤ 8 }
{
    match size {
        Size::Byte => 1,
        Size::Half => 2,
        Size::Word => 4,
        Size::Double => 8,
    }
}

/// Where a number is in a value: the lowest byte first, from an offset on.
#[derive(Clone, Copy)]
pub struct Field {
    pub offset: u16,
    pub size: Size,
}

impl Field {
    /// How long a value has to be.
    pub(crate) fn end(self) -> u64
        ensures { result ≡ self.offset + bytes_in self.size }
    {
        u64::from(self.offset) + bytes_in(self.size)
    }

    /// The number there in a value whose bytes these are in hex, if it is so long.
    fn number(self, digits: &[u8]) -> Option<u64>
        ensures { result ≡ field_of self digits.now }
    {
        let from = 2 * usize::from(self.offset);
        let to = from + 2 * bytes_in(self.size) as usize;
        if to <= digits.len() {
            low_first(&digits[from..to])
        } else {
            None
        }
    }
}

/// Which lines a part of a claim is about.
#[derive(Clone, Copy)]
pub enum Kind {
    /// The line of its bytes.
    Line,
    /// A line that begins with them, and goes on with a decimal number.
    Result(Comparison),
    /// A line that begins with them, and goes on with a value in hex.
    Field(Field, Comparison),
    /// The line of a job that ended in a fault.
    Fault,
}

/// How the parts of a claim are joined.
#[derive(Clone, Copy)]
pub enum Join {
    /// By `and`: an outcome is to have each.
    All,
    /// By `or`: it is to have one of them.
    Any,
}

/// A part of a claim: that an outcome has a line of a kind.
#[derive(Drop)]
pub(crate) struct Part {
    pub(crate) kind: Kind,
    /// The line, or how it begins.
    pub(crate) bytes: Vec<u8>,
}

impl Model for Part {
    ghost use Rattle.bpf_shared.specs.Access.{bytes_in};
    ghost use Rattle.bpf_check.specs.declared.claim.Kind.TheVariants as kind;
    ghost use Rattle.bpf_check.specs.Claim.{Part};

    ghost Value = { Part };

    ghost view = { λ p. record { kind = p.kind; bytes = p.bytes.items } };
}

/// The number whose bytes these are in hex, the lowest first, if 64 bits hold it.
fn low_first(digits: &[u8]) -> Option<u64>
    ensures value { MatchOption result (2 ^ 64 ≤ low_first digits.now)
        (λ n. n ≡ low_first digits.now) }
    ensures fits { IfSome result (λ n. n < 2 ^ 64) }
{
    match digits {
        [high, low, more @ ..] => {
            let above = low_first(more)?;
            let byte = numbers::value(Radix::Hex, &[*high, *low])?;
            above.checked_mul(256)?.checked_add(byte)
        }
        _ => Some(0),
    }
}

/// What is after these bytes, where the line begins with them.
fn after<'a>(bytes: &[u8], line: &'a [u8]) -> Option<&'a [u8]>
    ensures { MatchOption result (starts_with nat_eq line.now bytes.now ≡ false)
        (λ rest. (starts_with nat_eq line.now bytes.now ≡ true)
        × (rest.now ≡ drop (length bytes.now) line.now)) }
{
    if line.starts_with(bytes) {
        Some(&line[bytes.len()..])
    } else {
        None
    }
}

/// How much of a line is before its first blank.
fn space_in(line: &[u8]) -> usize
    ensures value { result ≡ length (before_first is_space line.now) }
    ensures bound { result ≤ length line.now }
{
    line.iter().take_while(|byte| **byte != b' ').count()
}

/// What is after it.
fn after_space<'a>(line: &'a [u8]) -> &'a [u8]
    ensures { result.now ≡ after_first is_space line.now }
{
    let place = space_in(line);
    if place < line.len() {
        &line[place + 1..]
    } else {
        &line[place..]
    }
}

/// What is after a line's first four words.
fn after_four<'a>(line: &'a [u8]) -> &'a [u8]
    ensures { result.now ≡ after_four line.now }
{
    after_space(after_space(after_space(after_space(line))))
}

/// Whether a line is that of a job that ended in a fault.
fn is_fault_line(line: &[u8]) -> bool
    ensures { result ≡ is_fault_line line.now }
{
    line.starts_with(b"job ") && after_four(line).starts_with(b"fault ")
}

/// Whether the number after these bytes compares so.
fn is_result_line(comparison: Comparison, bytes: &[u8], line: &[u8]) -> bool
    ensures { result ≡ is_line_of (kind.Result comparison) bytes.now line.now }
{
    match after(bytes, line) {
        Some(rest) => comparison.compares(number_in(rest)),
        None => false,
    }
}

/// Whether the number in the value after these bytes compares so.
fn is_field_line(field: Field, comparison: Comparison, bytes: &[u8], line: &[u8]) -> bool
    ensures { result ≡ is_line_of (kind.Field field comparison) bytes.now line.now }
{
    match after(bytes, line) {
        Some(rest) => comparison.compares(field.number(rest)),
        None => false,
    }
}

impl Part {
    /// Whether a line is of its kind.
    fn is_line(&self, line: &[u8]) -> bool
        ensures { result ≡ is_line_of self.now.kind self.now.bytes line.now }
    {
        match self.kind {
            Kind::Line => line == self.bytes.as_slice(),
            Kind::Result(comparison) => is_result_line(comparison, &self.bytes, line),
            Kind::Field(field, comparison) => is_field_line(field, comparison, &self.bytes, line),
            Kind::Fault => is_fault_line(line),
        }
    }

    /// Whether a text has such a line.
    pub(crate) fn is_in(&self, text: &[u8]) -> bool
        ensures { result ≡ has_part self.now text.now }
    {
        let mut rest = Some(text);
        'lines: while let Some(left) = rest {
            let (first, behind) = first_line(left);
            if self.is_line(first) {
                return true;
            }
            rest = behind;
        }
        false
    }
}

/// Whether a text has the line of a job that ended in a fault.
pub(crate) fn has_fault(text: &[u8]) -> bool
    ensures { result ≡ has_fault text.now }
{
    let mut rest = Some(text);
    'lines: while let Some(left) = rest {
        let (first, behind) = first_line(left);
        if is_fault_line(first) {
            return true;
        }
        rest = behind;
    }
    false
}

/// Whether a part of a claim speaks of faults.
fn is_of_faults(part: &Part) -> bool
    ensures { result ≡ is_of_faults part.now.kind part.now.bytes }
{
    match part.kind {
        Kind::Line => is_fault_line(&part.bytes),
        Kind::Result(_) | Kind::Field(_, _) => false,
        Kind::Fault => true,
    }
}

/// Whether one of them does.
pub(crate) fn are_of_faults(parts: &[Part]) -> bool
    ensures { result ≡ list_any (λ p. is_of_faults p.kind p.bytes) parts.now }
{
    parts.iter().any(|part| is_of_faults(part))
}

/// Whether a text has each part.
fn has_all(parts: &[Part], text: &[u8]) -> bool
    ensures { result ≡ list_all (λ p. has_part p text.now) parts.now }
{
    parts.iter().all(|part| part.is_in(text))
}

/// Whether it has one of them.
fn has_any(parts: &[Part], text: &[u8]) -> bool
    ensures { result ≡ list_any (λ p. has_part p text.now) parts.now }
{
    parts.iter().any(|part| part.is_in(text))
}

/// Whether a text has each part, or one of them.
pub(crate) fn is_joined(join: Join, parts: &[Part], text: &[u8]) -> bool
    ensures { result ≡ joined join (λ p. has_part p text.now) parts.now }
{
    match join {
        Join::All => has_all(parts, text),
        Join::Any => has_any(parts, text),
    }
}
