//! Commands, and what a line says: those of the debugger without store buffers, and two more.

ghost use Rattle.std.specs.Prelude.{◌≡◌, map, option_map};
ghost use Rattle.bpf_debug.specs.Command as plain;
ghost use Rattle.bpf_buffer_debug.specs.Command.{Plain, asked_order, few_words, own_words};

use bpf_debug::Command;
use bpf_debug::command::{command_of, cpu_in, is};

/// A command.
#[derive(Clone, Copy)]
pub enum Asked<'a> {
    /// One that the debugger has without store buffers too.
    Plain(Command<'a>),
    /// A CPU's oldest waiting store reaches memory.
    Flush(Option<u8>),
    /// The stores of a CPU that wait.
    Buffer(Option<u8>),
}

/// What two words say that are a command of CPUs with store buffers alone.
fn own_words<'a>(word: &[u8], first: &[u8]) -> Option<Asked<'a>>
    ensures { option_map asked_order result ≡ own_words word.now first.now }
{
    if is(word, "flush") {
        let cpu = cpu_in(first)?;
        Some(Asked::Flush(cpu))
    } else if is(word, "buffer") {
        let cpu = cpu_in(first)?;
        Some(Asked::Buffer(cpu))
    } else {
        None
    }
}

/// The command without store buffers that few fields say.
fn plain_words<'a>(fields: &[&'a [u8]]) -> Option<Asked<'a>>
    ensures { option_map asked_order result
        ≡ option_map Plain (plain.few_words (map (λ f. f.now) fields.now)) }
{
    let command = command_of(fields)?;
    Some(Asked::Plain(command))
}

/// The command that few fields say; `None` where they say none.
pub fn asked_in<'a>(fields: &[&'a [u8]]) -> Option<Asked<'a>>
    ensures { option_map asked_order result ≡ few_words (map (λ f. f.now) fields.now) }
{
    match fields {
        [word, first] => match own_words(word, first) {
            Some(asked) => Some(asked),
            None => plain_words(fields),
        },
        [] => plain_words(fields),
        [_] => plain_words(fields),
        [_, _, _, ..] => plain_words(fields),
    }
}
