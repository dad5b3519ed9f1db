//! Commands, and what a line says.

ghost use Rattle.std.specs.Prelude.{◌≡◌, map, option_map};
ghost use Rattle.std.specs.Str.{bytes_eq};
ghost use Rattle.bpf_debug.specs.Command.{cpu_in, pc_in, address_in, count_in, turns_in, mark_in, one_word, two_words, three_words, four_words, few_words, command_order};

use bpf_lines::words::{self, NumberError};

/// A command of the debugger. A number that is too large to be a CPU's, a pc or an address is none.
#[derive(Clone, Copy)]
pub enum Command<'a> {
    /// A pc is a breakpoint of a CPU.
    Break(Option<u8>, Option<u32>),
    /// A pc is no breakpoint of a CPU.
    Delete(Option<u8>, Option<u32>),
    /// One turn of a CPU.
    Step(Option<u8>),
    /// This many turns of a CPU.
    StepTimes(Option<u8>, u64),
    /// Turns in rounds, up to a breakpoint or until no work is left.
    Go,
    /// A CPU's registers.
    Registers(Option<u8>),
    /// Where a CPU is.
    Where(Option<u8>),
    /// This many bytes at an address, as a CPU's program may read them.
    Memory(Option<u8>, Option<u64>, usize),
    /// The keys of the map of this name, with their values, or the values of the array.
    Map(&'a [u8]),
    /// The keys of the map of this name, without their values, or the indices of the array.
    Keys(&'a [u8]),
    /// The turns made so far.
    Schedule,
    /// Turns of a CPU, up to a pc or until it has no work left.
    GoTo(Option<u8>, Option<u32>),
    /// The maps, arrays and variables, with their names and sizes.
    Maps,
    /// The variables, with their numbers.
    Variables,
    /// The number of the variable of this name.
    Number(&'a [u8]),
    /// The jobs, with how those that ended have ended.
    Jobs,
    /// A number to be printed again.
    Mark(u64),
    /// This many turns are undone.
    Back(u64),
    /// The commands.
    Help,
    /// The values that a CPU's run holds.
    Held(Option<u8>),
    /// The instructions near a CPU's pc.
    Nearby(Option<u8>),
    /// What the last job that ended on a CPU left.
    Last(Option<u8>),
    /// The registers that a CPU's last turn changed.
    Show(Option<u8>),
    /// The value of a key of the map of this name is watched, or that of an index of the array.
    Watch(&'a [u8], &'a [u8]),
    /// The variable of this name is.
    WatchVariable(&'a [u8]),
    /// Nothing is.
    Unwatch,
}

/// Whether a word is this one.
pub fn is(word: &[u8], text: &str) -> bool
    ensures { result ≡ bytes_eq text.now word.now }
{
    text.as_bytes() == word
}

/// A CPU's number: a number of any size, which names none where it is too large.
pub fn cpu_in(word: &[u8]) -> Option<Option<u8>>
    ensures { result ≡ cpu_in word.now }
{
    match words::number(word) {
        Ok(number) => {
            if number < 256 {
                Some(Some(number as u8))
            } else {
                Some(None)
            }
        }
        Err(NumberError::TooLarge) => Some(None),
        Err(NumberError::NoNumber) => None,
    }
}

/// A pc, in the same way.
fn pc_in(word: &[u8]) -> Option<Option<u32>>
    ensures { result ≡ pc_in word.now }
{
    match words::number(word) {
        Ok(number) => {
            if number < 1 << 32 {
                Some(Some(number as u32))
            } else {
                Some(None)
            }
        }
        Err(NumberError::TooLarge) => Some(None),
        Err(NumberError::NoNumber) => None,
    }
}

/// An address, in the same way.
fn address_in(word: &[u8]) -> Option<Option<u64>>
    ensures { result ≡ address_in word.now }
{
    match words::number(word) {
        Ok(number) => Some(Some(number)),
        Err(NumberError::TooLarge) => Some(None),
        Err(NumberError::NoNumber) => None,
    }
}

/// How many bytes are shown at once, at most.
const MOST_SHOWN: u64 = 256;

/// A number of bytes, 1 to `MOST_SHOWN`.
fn count_in(word: &[u8]) -> Option<usize>
    ensures { result ≡ count_in word.now }
{
    match words::number(word) {
        Ok(number) if number >= 1 && number <= MOST_SHOWN => Some(number as usize),
        _ => None,
    }
}

/// How many turns are made at once, at most.
pub const MOST_TURNS: u64 = 1_000_000;

/// A number of turns, 1 to `MOST_TURNS`.
fn turns_in(word: &[u8]) -> Option<u64>
    ensures { result ≡ turns_in word.now }
{
    match words::number(word) {
        Ok(number) if number >= 1 && number <= MOST_TURNS => Some(number),
        _ => None,
    }
}

/// A number of 64 bits.
pub fn mark_in(word: &[u8]) -> Option<u64>
    ensures { result ≡ mark_in word.now }
{
    words::number(word).ok()
}

fn one_word<'a>(word: &[u8]) -> Option<Command<'a>>
    ensures { option_map command_order result ≡ one_word word.now }
{
    if is(word, "go") {
        Some(Command::Go)
    } else if is(word, "schedule") {
        Some(Command::Schedule)
    } else if is(word, "maps") {
        Some(Command::Maps)
    } else if is(word, "vars") {
        Some(Command::Variables)
    } else if is(word, "jobs") {
        Some(Command::Jobs)
    } else if is(word, "help") {
        Some(Command::Help)
    } else if is(word, "watch") {
        Some(Command::Unwatch)
    } else {
        None
    }
}

fn two_words<'a>(word: &[u8], first: &'a [u8]) -> Option<Command<'a>>
    ensures { option_map command_order result ≡ two_words word.now first.now }
{
    if is(word, "step") {
        let cpu = cpu_in(first)?;
        Some(Command::Step(cpu))
    } else if is(word, "regs") {
        let cpu = cpu_in(first)?;
        Some(Command::Registers(cpu))
    } else if is(word, "where") {
        let cpu = cpu_in(first)?;
        Some(Command::Where(cpu))
    } else if is(word, "map") && words::is_name(first) {
        Some(Command::Map(first))
    } else if is(word, "keys") && words::is_name(first) {
        Some(Command::Keys(first))
    } else if is(word, "var") && words::is_name(first) {
        Some(Command::Number(first))
    } else if is(word, "watch") && words::is_name(first) {
        Some(Command::WatchVariable(first))
    } else if is(word, "mark") {
        let number = mark_in(first)?;
        Some(Command::Mark(number))
    } else if is(word, "back") {
        let count = turns_in(first)?;
        Some(Command::Back(count))
    } else if is(word, "held") {
        let cpu = cpu_in(first)?;
        Some(Command::Held(cpu))
    } else if is(word, "list") {
        let cpu = cpu_in(first)?;
        Some(Command::Nearby(cpu))
    } else if is(word, "last") {
        let cpu = cpu_in(first)?;
        Some(Command::Last(cpu))
    } else if is(word, "show") {
        let cpu = cpu_in(first)?;
        Some(Command::Show(cpu))
    } else {
        None
    }
}

fn three_words<'a>(word: &[u8], first: &'a [u8], second: &'a [u8]) -> Option<Command<'a>>
    ensures { option_map command_order result ≡ three_words word.now first.now second.now }
{
    if is(word, "break") {
        let cpu = cpu_in(first)?;
        let pc = pc_in(second)?;
        Some(Command::Break(cpu, pc))
    } else if is(word, "delete") {
        let cpu = cpu_in(first)?;
        let pc = pc_in(second)?;
        Some(Command::Delete(cpu, pc))
    } else if is(word, "step") {
        let cpu = cpu_in(first)?;
        let count = turns_in(second)?;
        Some(Command::StepTimes(cpu, count))
    } else if is(word, "watch") && words::is_name(first) {
        Some(Command::Watch(first, second))
    } else {
        None
    }
}

fn four_words<'a>(word: &[u8], first: &[u8], second: &[u8], third: &[u8]) -> Option<Command<'a>>
    ensures { option_map command_order result ≡ four_words word.now first.now second.now third.now }
{
    if is(word, "mem") {
        let cpu = cpu_in(first)?;
        let address = address_in(second)?;
        let count = count_in(third)?;
        Some(Command::Memory(cpu, address, count))
    } else if (is(word, "go") || is(word, "step")) && is(second, "until") {
        let cpu = cpu_in(first)?;
        let pc = pc_in(third)?;
        Some(Command::GoTo(cpu, pc))
    } else {
        None
    }
}

/// The command that few fields say; `None` where they say none.
pub fn command_of<'a>(fields: &[&'a [u8]]) -> Option<Command<'a>>
    ensures { option_map command_order result ≡ few_words (map (λ f. f.now) fields.now) }
{
    match fields {
        [word] => one_word(word),
        [word, first] => two_words(word, first),
        [word, first, second] => three_words(word, first, second),
        [word, first, second, third] => four_words(word, first, second, third),
        [_, _, _, _, _, ..] => None,
        [] => None,
    }
}
