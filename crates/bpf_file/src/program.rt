//! Programs of a run file.

ghost use Rattle.std.specs.Prelude.{◌≡◌, ◌+◌, ◌<◌, ◌^◌, length};
ghost use Rattle.bpf_file.specs.Programs.{LoadsProgram, OfBytes, OfDigits, OfAssembly, refusal_behind};
ghost use Rattle.bpf_file.specs.Private.Answers.{OrMemory};
ghost use Rattle.bpf_file.specs.Private.Lines.{line_named};
ghost use Rattle.bpf_text.specs.Symbols.{names_in};

use crate::error::{FileError, Reason};
use bpf_insn::{Insn, InsnError, decode};
use bpf_loader::{LoadError, Named, Program, load};
use bpf_text::{Symbols, TextError, assemble_with};
use hex::FromHexError;
use std::alloc::Global;

/// The program of these instructions.
fn loaded(alloc: Global, line: usize, insns: Vec<Insn>, named: Named) -> Result<Program, FileError>
    ensures { OrMemory (LoadsProgram line named insns.items) result }
{
    match load(alloc, insns, named) {
        Ok(program) => Ok(program),
        Err(LoadError::OutOfMemory) => Err(FileError::OutOfMemory),
        Err(error) => Err(FileError::Refused(line, Reason::Load(error))),
    }
}

/// The program in these bytes.
fn of_bytes(alloc: Global, line: usize, bytes: &[u8], named: Named) -> Result<Program, FileError>
    ensures { OrMemory (OfBytes line named bytes.now) result }
{
    match decode(alloc, bytes) {
        Ok(insns) => loaded(alloc, line, insns, named),
        Err(InsnError::OutOfMemory) => Err(FileError::OutOfMemory),
        Err(error) => Err(FileError::Refused(line, Reason::Insn(error))),
    }
}

/// The program in the hex digits of a line.
pub fn of_digits(
    alloc: Global,
    line: usize,
    digits: &[u8],
    named: Named,
) -> Result<Program, FileError>
    ensures { OrMemory (OfDigits line named digits.now) result }
{
    match hex::decode(alloc, digits) {
        Ok(bytes) => of_bytes(alloc, line, &bytes, named),
        Err(FromHexError::OutOfMemory) => Err(FileError::OutOfMemory),
        Err(_) => Err(FileError::Refused(line, Reason::NotHex)),
    }
}

/// A refusal of the assembly after a line.
fn behind(line: usize, error: TextError) -> FileError
    requires { line + line_named error < 2 ^ 64 }
    ensures { result ≡ refusal_behind line error }
{
    match error {
        TextError::BadLine(at) => FileError::Refused(line + at, Reason::BadInstruction),
        TextError::BadNumber(at) => FileError::Refused(line + at, Reason::BadOperand),
        TextError::UnknownLabel(at) => FileError::Refused(line + at, Reason::UnknownLabel),
        TextError::TwiceLabel(at) => FileError::Refused(line + at, Reason::TwiceLabel),
        TextError::FarLabel(at) => FileError::Refused(line + at, Reason::FarLabel),
        TextError::OutOfMemory => FileError::OutOfMemory,
    }
}

/// The program in the assembly after a line, which may use the names of a table, if there is one.
pub fn of_assembly(
    alloc: Global,
    line: usize,
    text: &[u8],
    named: Named,
    symbols: Option<&Symbols<'_>>,
) -> Result<Program, FileError>
    requires { line + length text.now + 2 < 2 ^ 64 }
    ensures { OrMemory (OfAssembly line named (names_in symbols.entry) text.now) result }
{
    match assemble_with(alloc, symbols, text) {
        Ok(insns) => loaded(alloc, line, insns, named),
        Err(error) => Err(behind(line, error)),
    }
}
