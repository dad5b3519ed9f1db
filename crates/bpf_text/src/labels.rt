//! Where the lines with labels are.

ghost use Rattle.std.specs.Prelude.{◌≡◌, Some, None, OnOk, IsOkUnless, ℕ, List, Option, if◌then◌else◌};
ghost use Rattle.std.specs.Str.{bytes_eq};
ghost use Rattle.std.specs.Option.{option_copied};
ghost use Rattle.bpf_text.specs.Private.Labels.{found, or_else};
ghost use Rattle.bpf_text.specs.Assembly.{is_named, is_twice};

use crate::error::TextError;
use std::collections::HashMap;

/// A line: how many lines and how many words are before it.
#[derive(Clone, Copy)]
pub struct Place {
    pub line: usize,
    pub pc: usize,
}

/// The first line with each label.
pub type Labels<'a> = HashMap<&'a [u8], Place>;

/// The first line with this label.
pub fn place_of(labels: &Labels<'_>, name: &[u8]) -> Option<Place>
    ensures { result ≡ found labels.now name.now }
{
    labels.get(name).copied()
}

/// Notes a line with this label, where none was noted before.
pub fn note<'a>(labels: &mut Labels<'a>, name: &'a [u8], place: Place) -> Result<(), TextError>
    ensures first { OnOk result ((q : List ℕ)
        → found labels.new q ≡ or_else (found labels.old q) (if bytes_eq name.now q
        then Some place else None)) }
    ensures memory { IsOkUnless result TextError.OutOfMemory }
{
    if place_of(labels, name).is_some() {
        return Ok(());
    }
    match labels.insert(name, place) {
        Ok(_) => Ok(()),
        Err(_) => Err(TextError::OutOfMemory),
    }
}

/// Notes a line by its label, if it has one.
pub fn note_line<'a>(
    labels: &mut Labels<'a>,
    label: Option<&'a [u8]>,
    place: Place,
) -> Result<(), TextError>
    ensures first { OnOk result ((q : List ℕ)
        → found labels.new q ≡ or_else (found labels.old q) (if is_named q
        (option_copied label.entry) then Some place else None)) }
    ensures memory { IsOkUnless result TextError.OutOfMemory }
{
    match label {
        Some(name) => note(labels, name, place),
        None => Ok(()),
    }
}

/// Whether a line before this one has its label.
pub fn is_twice(labels: &Labels<'_>, line: usize, label: Option<&[u8]>) -> bool
    ensures { result ≡ is_twice (found labels.now) line (option_copied label.entry) }
{
    match label {
        Some(name) => match place_of(labels, name) {
            Some(place) => place.line != line,
            None => false,
        },
        None => false,
    }
}
