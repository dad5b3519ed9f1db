//! What is printed of a refusal.

ghost use Rattle.std.specs.Prelude.{◌≡◌};

use crate::code::Code;
use std::fmt;

/// Where a text, a program or bytes are refused.
#[derive(Clone, Copy, PartialEq, Eq, Debug)]
pub enum Position {
    /// No place can be named.
    Nowhere,
    /// A line, from 1.
    Line(usize),
    /// An instruction, by its place in words of 8 bytes, from 0.
    Pc(u32),
    /// A length in bytes.
    Length(usize),
}

/// Why something is refused, by its code, and where.
#[derive(Clone, Copy, PartialEq, Eq, Debug)]
pub struct Diagnostic {
    pub code: Code,
    pub position: Position,
}

impl Diagnostic {
    ghost use Rattle.bpf_codes.specs.Diagnostic.{nowhere, at_line, at_pc, with_length};

    /// A refusal that names no place.
    pub fn new(code: Code) -> Diagnostic
        ensures { result ≡ nowhere code }
    {
        Diagnostic {
            code,
            position: Position::Nowhere,
        }
    }

    /// A refusal of a line, from 1.
    pub fn at_line(code: Code, line: usize) -> Diagnostic
        ensures { result ≡ at_line code line }
    {
        Diagnostic {
            code,
            position: Position::Line(line),
        }
    }

    /// A refusal of an instruction.
    pub fn at_pc(code: Code, pc: u32) -> Diagnostic
        ensures { result ≡ at_pc code pc }
    {
        Diagnostic {
            code,
            position: Position::Pc(pc),
        }
    }

    /// A refusal of bytes, by their length.
    pub fn with_length(code: Code, length: usize) -> Diagnostic
        ensures { result ≡ with_length code length }
    {
        Diagnostic {
            code,
            position: Position::Length(length),
        }
    }
}

impl fmt::Display for Diagnostic {
    ghost use Rattle.std.specs.Prelude.{Some};
    ghost use Rattle.bpf_codes.specs.Diagnostic.{diagnostic_text};

    ghost output = { λ x. Some (diagnostic_text x) };

    fn fmt<W: fmt::Write>(&self, f: &mut fmt::Formatter<W>) -> fmt::Result {
        let code = self.code.text();
        match self.position {
            Position::Nowhere => f.write_str(code),
            Position::Line(line) => write!(f, "{code} {line}"),
            Position::Pc(pc) => write!(f, "{code} {pc}"),
            Position::Length(length) => write!(f, "{code} {length}"),
        }
    }
}
