//! Codes of assembly text and of hex digits.

use crate::page::{Example, Page};
use bpf_codes::Code;

pub static A1: Page = Page {
    code: Code::A1,
    meaning: "a line of assembly text has no form of the language",
    example: Some(Example {
        command: "printf 'mov r0, 5\\nexit\\n' | ebpf asm",
        printed: "refused A1 1",
    }),
    advice: "\
The number is the line's, counted from 1. docs/reference/assembly.md has every
form. Spellings of LLVM and of the kernel that differ: `r0 = 5` instead of
`mov r0, 5`, `;` before a comment, `call 1` instead of a helper's name,
`goto +3` instead of `goto pc+3`, and no `<LBB0_3>` after a target.",
};

pub static A2: Page = Page {
    code: Code::A2,
    meaning: "a line has a form, but a number in it is out of its range",
    example: Some(Example {
        command: "printf 'r0 = 4294967296\\nexit\\n' | ebpf asm",
        printed: "refused A2 1",
    }),
    advice: "\
Constants have 32 bits, signed or not; one of 64 bits has `ll` after it, as in
`r0 = 4294967296 ll`. Offsets and jumps have 16 bits with a sign, `gotol` and
calls 32.",
};

pub static A3: Page = Page {
    code: Code::A3,
    meaning: "it jumps to a label that isn't there",
    example: Some(Example {
        command: "printf 'r0 = 5\\ngoto done\\n' | ebpf asm",
        printed: "refused A3 2",
    }),
    advice: "\
A label comes before a colon, on a line of its own or before an instruction:
`done: exit`. In a run file of version 3 a load may have a name, too: that of a
map or an array in `r1 = map NAME`, of an array or a variable in `r1 = &NAME`.",
};

pub static A4: Page = Page {
    code: Code::A4,
    meaning: "its label was defined before",
    example: Some(Example {
        command: "printf 'a: r0 = 5\\na: exit\\n' | ebpf asm",
        printed: "refused A4 2",
    }),
    advice: "\
Each label is defined once in a program. The number is the second line's.",
};

pub static A5: Page = Page {
    code: Code::A5,
    meaning: "it jumps to a label that is too far",
    example: Some(Example {
        command: "(echo 'goto far'; yes 'r0 = 0' | head -n 32768; echo 'far: exit') | ebpf asm",
        printed: "refused A5 1",
    }),
    advice: "\
A jump reaches 32,767 words forward and 32,768 back, `gotol NAME` as far as the
program goes. A condition gets as far by its opposite, which jumps over a
`gotol`.",
};

pub static A6: Page = Page {
    code: Code::A6,
    meaning: "no memory for the text, or for hex digits",
    example: None,
    advice: "\
The text was no longer than 16,777,216 bytes, and yet the system gave no memory
for it. Try again when other programs have ended, or raise the limit (ulimit
-v).",
};

pub static H1: Page = Page {
    code: Code::H1,
    meaning: "not pairs of hex digits, in the input or in `--ctx`, or a context of more than \
        4,096 bytes",
    example: Some(Example {
        command: "echo 'b70000000' | ebpf hex",
        printed: "refused H1",
    }),
    advice: "\
Two digits a byte, upper or lower case; blanks and line ends may come between
bytes. No `0x`, no addresses: of xxd take `xxd -p`. If it comes from `ebpf asm`,
that printed a refusal instead of words.",
};
