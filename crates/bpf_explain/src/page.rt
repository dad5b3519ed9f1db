//! The page of a code.

use bpf_codes::Code;
use std::fmt;

/// A command for a shell, and the line that it prints.
#[derive(Clone, Copy, PartialEq, Eq, Debug)]
pub struct Example {
    pub command: &'static str,
    pub printed: &'static str,
}

/// What there is to say of a code that the program prints.
#[derive(Clone, Copy, PartialEq, Eq, Debug)]
pub struct Page {
    pub code: Code,
    /// What it means, a sentence without its full stop.
    pub meaning: &'static str,
    /// An input that gives it, where one can be shown.
    pub example: Option<Example>,
    /// What to do.
    pub advice: &'static str,
}

impl fmt::Display for Page {
    ghost use Rattle.std.specs.Prelude.{Some};
    ghost use Rattle.bpf_explain.specs.Page.{page_text};

    ghost output = { λ x. Some (page_text x) };

    fn fmt<W: fmt::Write>(&self, f: &mut fmt::Formatter<W>) -> fmt::Result {
        write!(f, "{}: {}.\n\n", self.code.text(), self.meaning)?;
        if let Some(example) = &self.example {
            write!(f, "    $ {}\n    {}\n\n", example.command, example.printed)?;
        }
        write!(f, "{}\n", self.advice)
    }
}
