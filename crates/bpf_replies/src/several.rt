//! `ebpf check` of several files: one list of tests over all of them.

ghost use Rattle.std.specs.Prelude.{◌≡◌, ◌≤◌, ◌++◌, IfErr, IfOk, IfSome, OnOk, length, map, string_bytes};
ghost use Rattle.bpf_check.specs.Listing.{plan_text};
ghost use Rattle.bpf_replies.specs.Answer.{Replies};
ghost use Rattle.bpf_replies.specs.Input.{RefusesInput};
ghost use Rattle.bpf_replies.specs.Several.{AreChecked, AreTold, IsPart, IsTextPart, counted, no_part, refused_part, seen, with_part};

use crate::checking::{grounds_in, is_told, is_unmet, states_of, with_head};
use crate::input::{InputError, MAX_INPUT, read_whole};
use crate::racer::Racer;
use crate::refusal::Refusal;
use crate::reply::Reply;
use crate::stream::Source;
use bpf_check::{Asked, CheckedPart, check_named, plan};
use bpf_command::CheckOptions;
use bpf_explore::{Crew, Observer};
use std::alloc::{AllocError, Global};

/// What is printed of a file among several.
#[derive(Drop)]
struct FilePart {
    text: String,
    tests: usize,
    refused: bool,
    /// Whether something isn't as expected.
    unmet: bool,
    /// Whether all that is expected could be decided.
    told: bool,
}

/// A file among several.
#[derive(Clone, Copy)]
struct NamedFile<'a> {
    name: &'a str,
    /// How many tests the files before it have.
    before: usize,
}

/// That a file is refused.
fn refused_part(alloc: Global, name: &str, refusal: Refusal) -> Result<FilePart, AllocError>
    ensures { IfOk result (λ p. seen p ≡ refused_part name.now refusal) }
{
    let text = format!(in alloc; "refused {refusal} - {name}\n")?;
    Ok(FilePart {
        text,
        tests: 0,
        refused: true,
        unmet: false,
        told: true,
    })
}

/// The tests of a file's text, or its first refusal.
fn text_part<D: Racer, C: Crew, O: Observer>(
    alloc: Global,
    options: &CheckOptions,
    file: NamedFile<'_>,
    text: &str,
    crew: &C,
    observer: &mut O,
) -> Result<FilePart, AllocError>
    requires crew { C.can }
    ensures { IfOk result (λ p.
        IsTextPart D.finds options.now file.entry.name.now file.entry.before text.now (seen p)) }
{
    let NamedFile { name, before } = file;
    let grounds = match grounds_in::<D, C, O>(alloc, options, text, crew, observer) {
        Ok(grounds) => grounds,
        Err(refusal) => return refused_part(alloc, name, refusal),
    };
    let asked = Asked {
        expected: &grounds.expected,
        lines: &grounds.lines,
    };
    let CheckedPart {
        text,
        tests,
        conclusion,
    } = check_named(alloc, name, before, asked, &grounds.findings)?;
    let mark = format!(in alloc; "{name}: ")?;
    let states = states_of(options, &grounds.findings);
    let text = with_head(alloc, &mark, states, grounds.notes, &text)?;
    Ok(FilePart {
        text,
        tests,
        refused: false,
        unmet: is_unmet(conclusion),
        told: is_told(conclusion),
    })
}

/// What is printed of a file of these bytes.
fn bytes_part<D: Racer, C: Crew, O: Observer>(
    alloc: Global,
    options: &CheckOptions,
    file: NamedFile<'_>,
    bytes: &[u8],
    crew: &C,
    observer: &mut O,
) -> Result<FilePart, AllocError>
    requires crew { C.can }
    requires short { length bytes.now ≤ MAX_INPUT }
    ensures { IfOk result (λ p.
        IsPart D.finds options.now file.entry.name.now file.entry.before bytes.now (seen p)) }
{
    match str::from_utf8(bytes) {
        Ok(text) => text_part::<D, C, O>(alloc, options, file, text, crew, observer),
        Err(_) => refused_part(alloc, file.name, Refusal::NotText),
    }
}

/// All bytes of a file.
fn bytes_of<R: Source>(alloc: Global, name: &str, source: &mut R) -> Result<Vec<u8>, InputError>
    ensures whole { IfOk result (λ v.
        IfSome (R.file source.old name.now) (λ bytes. v.items ≡ bytes)) }
    ensures short { IfOk result (λ v. length v.items ≤ MAX_INPUT) }
    ensures refused { IfErr result (λ e.
        IfSome (R.file source.old name.now) (λ bytes. RefusesInput bytes (Refusal.Input e))) }
    ensures files { R.file source.new ≡ R.file source.old }
{
    source.open(name)?;
    read_whole(alloc, source)
}

/// What is printed of a file.
fn part_of<D: Racer, R: Source, C: Crew, O: Observer>(
    alloc: Global,
    options: &CheckOptions,
    file: NamedFile<'_>,
    source: &mut R,
    crew: &C,
    observer: &mut O,
) -> Result<FilePart, AllocError>
    requires crew { C.can }
    ensures part { IfOk result (λ p. IfSome (R.file source.old file.entry.name.now)
        (λ bytes. IsPart D.finds options.now file.entry.name.now file.entry.before bytes
        (seen p))) }
    ensures files { R.file source.new ≡ R.file source.old }
{
    match bytes_of(alloc, file.name, source) {
        Ok(bytes) => bytes_part::<D, C, O>(alloc, options, file, &bytes, crew, observer),
        Err(error) => refused_part(alloc, file.name, Refusal::Input(error)),
    }
}

/// What is printed of some files.
#[derive(Drop)]
struct Tally {
    text: String,
    tests: usize,
    refused: bool,
    unmet: bool,
    told: bool,
}

impl Tally {
    /// Puts what is printed of one more after it.
    fn add(&mut self, part: &FilePart) -> Result<(), AllocError>
        ensures { OnOk result (counted self.new ≡ with_part (counted self.old) (seen part.now)) }
    {
        let tests = self.tests.checked_add(part.tests).ok_or(AllocError)?;
        self.text.push_str(part.text.as_str())?;
        self.tests = tests;
        self.refused |= part.refused;
        self.unmet |= part.unmet;
        self.told &= part.told;
        Ok(())
    }
}

/// What is printed of all files.
fn tell_all<D: Racer, R: Source, C: Crew, O: Observer>(
    alloc: Global,
    options: &CheckOptions,
    names: &[String],
    source: &mut R,
    crew: &C,
    observer: &mut O,
) -> Result<Tally, AllocError>
    requires crew { C.can }
    ensures { IfOk result (λ t. AreTold D.finds options.now (R.file source.old)
        (map string_bytes names.now) no_part (counted t)) }
{
    let mut tally = Tally {
        text: String::new(alloc),
        tests: 0,
        refused: false,
        unmet: false,
        told: true,
    };
    for name in names {
        let file = NamedFile {
            name: name.as_str(),
            before: tally.tests,
        };
        let part = part_of::<D, R, C, O>(alloc, options, file, source, crew, observer)?;
        tally.add(&part)?;
    }
    Ok(tally)
}

/// The plan of all tests, and the tests.
fn planned(alloc: Global, tally: &Tally) -> Result<String, AllocError>
    ensures { IfOk result (λ text. string_bytes text
        ≡ plan_text tally.now.tests ++ string_bytes tally.now.text) }
{
    let mut text = plan(alloc, tally.tests)?;
    text.push_str(tally.text.as_str())?;
    Ok(text)
}

/// The tests of several files, and their plan.
fn checked<D: Racer, R: Source, C: Crew, O: Observer>(
    alloc: Global,
    options: &CheckOptions,
    names: &[String],
    source: &mut R,
    crew: &C,
    observer: &mut O,
) -> Result<Reply, Refusal>
    requires crew { C.can }
    ensures { Replies (AreChecked D.finds options.now (R.file source.old)
        (map string_bytes names.now)) result }
{
    let tally = tell_all::<D, R, C, O>(alloc, options, names, source, crew, observer)?;
    let text = planned(alloc, &tally)?;
    Ok(Reply::Several {
        text,
        refused: tally.refused,
        unmet: tally.unmet,
        told: tally.told,
    })
}

/// `ebpf check` of several files.
pub fn check_files<D: Racer, R: Source, C: Crew, O: Observer>(
    alloc: Global,
    options: &CheckOptions,
    names: &[String],
    source: &mut R,
    crew: &C,
    observer: &mut O,
) -> Reply
    requires crew { C.can }
    ensures { AreChecked D.finds options.now (R.file source.old)
        (map string_bytes names.now) result }
{
    Reply::of(checked::<D, R, C, O>(alloc, options, names, source, crew, observer))
}
