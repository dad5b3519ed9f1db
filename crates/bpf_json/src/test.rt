//! Lines of tests, each with what is said of it on a line after it.

ghost use Rattle.std.specs.Prelude.{◌≡◌, IfOk, string_bytes};
ghost use Rattle.bpf_json.specs.Lines.{at_text, file_member, file_text, name_member, remark_member, remark_object, remark_text, said_members, said_objects, said_text, test_object, test_text};

use crate::known::Known;
use crate::texts::{by_text, line_member, member, text_member, truth, verdict};
use std::alloc::{AllocError, Global};

/// What is said of a test on the line after it.
#[derive(PartialEq, Eq, Debug, Drop)]
pub enum Remark {
    /// The schedule that shows it.
    By(String),
    /// A schedule to a state from which no end can be reached.
    HungBy(String),
    /// Any other.
    Note(String),
}

/// A test: the line of the file that expects it, where there is one, whether it is ok, its number, and
/// what is asked, of which file where there are several.
#[derive(PartialEq, Eq, Debug, Drop)]
pub struct Test {
    pub line: Option<u64>,
    pub ok: bool,
    pub number: u64,
    pub file: Option<String>,
    pub name: String,
    pub remark: Option<Remark>,
}

impl Remark {
    /// The remark, without what makes it a comment.
    fn plain(&self, alloc: Global) -> Result<String, AllocError>
        ensures { IfOk result (λ s. string_bytes s ≡ remark_text self.now) }
    {
        match self {
            Remark::By(schedule) => by_text(alloc, schedule.as_str()),
            Remark::HungBy(schedule) => {
                let by = by_text(alloc, schedule.as_str())?;
                format!(in alloc; "hung {by}")
            }
            Remark::Note(text) => text.as_str().to_string(alloc),
        }
    }

    fn member(&self, alloc: Global) -> Result<String, AllocError>
        ensures { IfOk result (λ s. string_bytes s ≡ remark_member self.now) }
    {
        match self {
            Remark::By(schedule) => text_member(alloc, "by", schedule.as_str()),
            Remark::HungBy(schedule) => text_member(alloc, "hung_by", schedule.as_str()),
            Remark::Note(text) => text_member(alloc, "note", text.as_str()),
        }
    }

    /// The remark in an object of its own, as any other comment is.
    fn object(&self, alloc: Global) -> Result<String, AllocError>
        ensures { IfOk result (λ s. string_bytes s ≡ remark_object self.now) }
    {
        let text = self.plain(alloc)?;
        member(alloc, "note", text.as_str())
    }
}

/// The number of the line before a test's.
fn at_text(alloc: Global, line: Option<u64>) -> Result<String, AllocError>
    ensures { IfOk result (λ s. string_bytes s ≡ at_text line) }
{
    match line {
        Some(line) => format!(in alloc; "line {line} "),
        None => Ok(String::new(alloc)),
    }
}

/// The file's name before a test's.
pub(crate) fn file_text(alloc: Global, file: &Option<String>) -> Result<String, AllocError>
    ensures { IfOk result (λ s. string_bytes s ≡ file_text file.now) }
{
    match file {
        Some(file) => format!(in alloc; "{file}: "),
        None => Ok(String::new(alloc)),
    }
}

/// The member for a file's name, where there is one.
fn name_member(alloc: Global, file: &Option<String>) -> Result<String, AllocError>
    ensures { IfOk result (λ s. string_bytes s ≡ name_member file.now) }
{
    match file {
        Some(file) => {
            let file = text_member(alloc, "file", file.as_str())?;
            format!(in alloc; ",{file}")
        }
        None => Ok(String::new(alloc)),
    }
}

/// The member for the file's name before a test's, or else for that which is known.
pub(crate) fn file_member(
    alloc: Global,
    known: &Known,
    file: &Option<String>,
) -> Result<String, AllocError>
    ensures { IfOk result (λ s. string_bytes s ≡ file_member known.now file.now) }
{
    match file {
        Some(_) => name_member(alloc, file),
        None => name_member(alloc, &known.file),
    }
}

/// The line of a remark.
fn said_text(alloc: Global, remark: &Option<Remark>) -> Result<String, AllocError>
    ensures { IfOk result (λ s. string_bytes s ≡ said_text remark.now) }
{
    match remark {
        Some(remark) => {
            let text = remark.plain(alloc)?;
            format!(in alloc; "\n# {text}")
        }
        None => Ok(String::new(alloc)),
    }
}

/// The member for it.
fn said_members(alloc: Global, remark: &Option<Remark>) -> Result<String, AllocError>
    ensures { IfOk result (λ s. string_bytes s ≡ said_members remark.now) }
{
    match remark {
        Some(remark) => {
            let member = remark.member(alloc)?;
            format!(in alloc; ",{member}")
        }
        None => Ok(String::new(alloc)),
    }
}

/// The object for it, on a line of its own.
fn said_objects(alloc: Global, remark: &Option<Remark>) -> Result<String, AllocError>
    ensures { IfOk result (λ s. string_bytes s ≡ said_objects remark.now) }
{
    match remark {
        Some(remark) => {
            let object = remark.object(alloc)?;
            format!(in alloc; "\n{object}")
        }
        None => Ok(String::new(alloc)),
    }
}

impl Test {
    /// The test's line, and that of a remark.
    pub(crate) fn plain(&self, alloc: Global) -> Result<String, AllocError>
        ensures { IfOk result (λ s. string_bytes s ≡ test_text self.now) }
    {
        let Test { number, name, .. } = self;
        let at = at_text(alloc, self.line)?;
        let verdict = verdict(self.ok);
        let file = file_text(alloc, &self.file)?;
        let said = said_text(alloc, &self.remark)?;
        format!(in alloc; "{at}{verdict} {number} - {file}{name}{said}")
    }

    /// The test's object, and that of a remark.
    pub(crate) fn object(&self, alloc: Global, known: &Known) -> Result<String, AllocError>
        ensures { IfOk result (λ s. string_bytes s ≡ test_object known.now self.now) }
    {
        let number = self.number;
        let ok = truth(self.ok);
        let name = file_text(alloc, &self.file)?;
        let name = format!(in alloc; "{name}{}", self.name)?;
        let name = text_member(alloc, "name", name.as_str())?;
        let file = file_member(alloc, known, &self.file)?;
        let at = line_member(alloc, self.line)?;
        let said = said_members(alloc, &self.remark)?;
        let after = said_objects(alloc, &self.remark)?;
        format!(in alloc; "{{\"test\":{number},\"ok\":{ok},{name}{file}{at}{said}}}{after}")
    }
}
