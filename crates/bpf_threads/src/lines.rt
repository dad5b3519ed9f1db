//! The lines about threads, as they are printed.
ghost use Rattle.std.specs.Prelude.{◌≡◌, ◌++◌, OnOk, string_bytes};
ghost use Rattle.bpf_threads.specs.Lines.{elements_text, note_text, notes_text, parts_text, threads_text};

use crate::threads::Threads;
use std::alloc::AllocError;

/// That threads may run out of elements.
fn elements_text(may: bool) -> &'static str
    ensures { result.now ≡ elements_text may }
{
    if may {
        "threads may run out of elements\n"
    } else {
        ""
    }
}

/// That threads may see keys or values in part.
fn parts_text(may: bool) -> &'static str
    ensures { result.now ≡ parts_text may }
{
    if may {
        "threads may see keys or values in part\n"
    } else {
        ""
    }
}

/// Appends a line to the text for each way in which threads may reach more.
pub fn push_threads(text: &mut String, threads: Threads) -> Result<(), AllocError>
    ensures { OnOk result (string_bytes text.new
        ≡ string_bytes text.old ++ threads_text threads) }
{
    text.push_str(elements_text(threads.elements))?;
    text.push_str(parts_text(threads.parts))
}

/// Appends one of these lines to the text as a comment of TAP, which begins with this mark.
fn push_note(text: &mut String, may: bool, mark: &str, line: &str) -> Result<(), AllocError>
    ensures { OnOk result (string_bytes text.new
        ≡ string_bytes text.old ++ note_text may mark.now line.now) }
{
    if !may {
        return Ok(());
    }
    text.push_str("# ")?;
    text.push_str(mark)?;
    text.push_str(line)
}

/// Appends them to the text as comments.
pub fn push_notes(text: &mut String, mark: &str, threads: Threads) -> Result<(), AllocError>
    ensures { OnOk result (string_bytes text.new
        ≡ string_bytes text.old ++ notes_text mark.now threads) }
{
    push_note(
        text,
        threads.elements,
        mark,
        elements_text(threads.elements),
    )?;
    push_note(text, threads.parts, mark, parts_text(threads.parts))
}
