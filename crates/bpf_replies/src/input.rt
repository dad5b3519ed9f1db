//! Input, read whole before anything is done with it.

ghost use Rattle.std.specs.Prelude.{◌≡◌, ◌<◌, ◌≤◌, ◌≢◌, ◌+◌, ◌++◌, List, ℕ, Err, false, IfErr, IfOk, IfSome, OnOk, length};
ghost use Rattle.std.specs.Io.KnownBytes.{Consumes, IsAtEnd};
ghost use Rattle.bpf_replies.specs.Input.{is_failed_read};

use crate::stream::Source;
use bpf_codes::{Code, Diagnostic};
use std::alloc::{AllocError, Global};
use std::io;

/// The greatest number of bytes that are read as input.
pub const MAX_INPUT: usize = 16_777_216;

const CHUNK: usize = 65_536;

/// Why there is no input.
#[derive(Clone, Copy, PartialEq, Eq, Debug)]
pub enum InputError {
    /// A read failed.
    Unread,
    /// There are more than `MAX_INPUT` bytes.
    TooLong,
    OutOfMemory,
}

impl InputError {
    ghost use Rattle.bpf_replies.specs.Diagnostic.{input_diagnostic};

    /// What is printed of it.
    pub fn diagnostic(self) -> Diagnostic
        ensures { result ≡ input_diagnostic self }
    {
        Diagnostic::new(match self {
            InputError::Unread => Code::L7,
            InputError::OutOfMemory => Code::L9,
            InputError::TooLong => Code::L10,
        })
    }
}

impl From<io::Error> for InputError {
    ghost use Rattle.bpf_replies.specs.declared.input.InputError.TheVariants.{Unread};

    ghost from_gives = { λ _ e. e ≡ Unread };

    fn from(_error: io::Error) -> InputError {
        InputError::Unread
    }
}

impl From<AllocError> for InputError {
    ghost use Rattle.bpf_replies.specs.declared.input.InputError.TheVariants.{OutOfMemory};

    ghost from_gives = { λ _ e. e ≡ OutOfMemory };

    fn from(_error: AllocError) -> InputError {
        InputError::OutOfMemory
    }
}

/// One read, whose bytes go after `input`.
fn read_more<R: Source>(
    source: &mut R,
    input: &mut Vec<u8>,
    room: &mut [u8],
) -> Result<usize, InputError>
    requires { R.has_failed source.old ≡ false }
    ensures more { IfOk result (λ n. (bytes : List ℕ)
        × (input.new.items ≡ input.old.items ++ bytes) × (length bytes ≡ n)
        × Consumes (R.remaining source.old) (R.remaining source.new) bytes) }
    ensures taken { (bytes : List ℕ)
        × Consumes (R.remaining source.old) (R.remaining source.new) bytes
        × (length bytes ≤ length room.old) }
    ensures end { 0 < length room.old → result ≡ Ok 0 → IsAtEnd (R.remaining source.new) }
    ensures files { R.file source.new ≡ R.file source.old }
    ensures own { IfErr result (λ e. e ≢ InputError.TooLong) }
    ensures unread { R.has_failed source.new ≡ is_failed_read result }
    ensures reads { R.reads source.new ≤ R.reads source.old + 1 }
{
    let count = source.read(room)?;
    input.extend_from_slice(&room[..count])?;
    Ok(count)
}

/// All bytes that the source has left, at most `MAX_INPUT` of them.
pub fn read_whole<R: Source>(alloc: Global, source: &mut R) -> Result<Vec<u8>, InputError>
    requires { R.has_failed source.old ≡ false }
    ensures whole { IfOk result (λ v.
        IfSome (R.remaining source.old) (λ input. v.items ≡ input)) }
    ensures end { OnOk result (IsAtEnd (R.remaining source.new)) }
    ensures short { IfOk result (λ v. length v.items ≤ MAX_INPUT) }
    ensures files { R.file source.new ≡ R.file source.old }
    ensures too_long { result ≡ Err InputError.TooLong
        → IfSome (R.remaining source.old) (λ input. MAX_INPUT < length input) }
    ensures taken { (bytes : List ℕ)
        × Consumes (R.remaining source.old) (R.remaining source.new) bytes
        × (length bytes ≤ MAX_INPUT + 1) }
    ensures unread { R.has_failed source.new ≡ is_failed_read result }
    ensures reads { R.reads source.new ≤ R.reads source.old + (MAX_INPUT + 1) }
{
    let mut input = Vec::new(alloc);
    let mut chunk = [0; CHUNK];
    for _ in 0..MAX_INPUT + 1 {
        let most = CHUNK.min(MAX_INPUT + 1 - input.len());
        if read_more(source, &mut input, &mut chunk[..most])? == 0 {
            return Ok(input);
        }
        if input.len() > MAX_INPUT {
            return Err(InputError::TooLong);
        }
    }
    unreachable!()
}
