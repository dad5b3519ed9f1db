//! What an input is that isn't hex digits or isn't text.

use bpf_codes::Code;
use std::alloc::{AllocError, Global};

const WORDS_OF_OBJECTS: &str =
    "`llvm-objcopy -O binary --only-section=.text FILE f.bin` takes words out of an object, and `xxd -p f.bin` makes hex digits of them";

/// Whether a line has an address before its words, as objdump prints them, or is about an object.
pub fn is_objdump(line: &str) -> bool {
    match line.trim().split_once(':') {
        Some((address, words)) => {
            let is_address = !address.is_empty()
                && address
                    .as_bytes()
                    .iter()
                    .all(|byte| byte.is_ascii_hexdigit());
            is_address && words.starts_with(|letter: char| letter == ' ' || letter == '\t')
        }
        None => false,
    }
}

/// What an input is that is refused at its first line, or at one that another command would take.
pub fn hint_of_file(code: Code, input: &str, line: &str) -> Option<&'static str> {
    let begins = input
        .split('\n')
        .any(|line| line.trim_start().starts_with("ebpf-run "));
    match code {
        Code::L1 if input.trim().is_empty() => Some("the input is empty"),
        Code::L1 if begins => Some("`ebpf-run 1` comes before all other lines"),
        Code::L1 => Some(
            "a run file begins with a line `ebpf-run 1`; a program alone is run by `ebpf asm --run FILE`",
        ),
        Code::L6 => Some("a line `end` closes the program"),
        Code::H1 if line.contains("0x") => Some("hex digits have no `0x` before them: `ctx 01`"),
        _ => None,
    }
}

/// Says what an input is that isn't hex digits: a refusal of another command, or what objdump
/// prints.
fn push_digits(text: &mut String, input: &str) -> Result<(), AllocError> {
    let first = input.split('\n').next().unwrap_or("");
    if first.starts_with("refused A") {
        write!(
            text,
            "  hint: the input is `{first}`, an answer of `ebpf asm`\n"
        )
    } else if first.starts_with("refused ") || first.starts_with("r0=") {
        write!(
            text,
            "  hint: the input is `{first}`, an answer of `ebpf`\n"
        )
    } else if input
        .split('\n')
        .any(|line| line.contains("file format") || is_objdump(line))
    {
        write!(
            text,
            "  hint: the input is what objdump prints: {WORDS_OF_OBJECTS}\n"
        )
    } else if input.contains("0x") {
        text.push_str("  hint: two digits are a byte, with no `0x` before them\n")
    } else if input.contains("exit") {
        text.push_str("  hint: the input is assembly text: `ebpf asm --run` runs it\n")
    } else {
        Ok(())
    }
}

/// Says what an input is that isn't text.
fn push_bytes(text: &mut String, bytes: &[u8]) -> Result<(), AllocError> {
    match bytes {
        [0x7f, b'E', b'L', b'F', ..] => {
            write!(
                text,
                "  hint: the input is an ELF file: `tools/from-elf FILE` makes a run file of it; {WORDS_OF_OBJECTS}\n"
            )
        }
        _ => text.push_str("  hint: `xxd -p` makes hex digits of bytes\n"),
    }
}

/// Says what the input is, where it is refused as a whole.
pub fn push_input(
    text: &mut String,
    code: Code,
    input: &str,
    bytes: &[u8],
) -> Result<(), AllocError> {
    match code {
        Code::H1 => push_digits(text, input),
        Code::L8 => push_bytes(text, bytes),
        _ => Ok(()),
    }
}
