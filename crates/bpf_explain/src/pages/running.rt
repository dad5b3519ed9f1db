//! Codes of faults while a program runs.

use crate::page::{Example, Page};
use bpf_codes::Code;

pub static F1: Page = Page {
    code: Code::F1,
    meaning: "the bytes that are loaded or stored lie in no area of the program's memory",
    example: Some(Example {
        command: "printf 'r1 = 16\\nr0 = *(u8 *)(r1 + 0)\\nexit\\n' | ebpf asm | ebpf hex",
        printed: "fault F1 at 1",
    }),
    advice: "\
The number is the instruction's place in words. A program reaches the frames
that are in use, 512 bytes each below their R10, its context, whose address R1
has at first, and the values that its lookups found. Test a lookup's answer
before you use it: it is 0 where the key isn't there. A helper's key and value
have to lie in such an area too.",
};

pub static F2: Page = Page {
    code: Code::F2,
    meaning: "the address of an atomic operation isn't a multiple of its size",
    example: Some(Example {
        command: "printf 'r1 = 1\\nlock *(u32 *)(r10 - 7) += r1\\nexit\\n' | ebpf asm | ebpf hex",
        printed: "fault F2 at 1",
    }),
    advice: "\
In a value of a map the same holds of loads and stores.",
};

pub static F3: Page = Page {
    code: Code::F3,
    meaning: "a call when 8 frames are in use",
    example: Some(Example {
        command: "printf 'f: call f\\nexit\\n' | ebpf asm | ebpf hex",
        printed: "fault F3 at 0",
    }),
    advice: "\
A call takes a frame of 512 bytes until its `exit`. Recurse less deeply, or
write a loop.",
};

pub static F4: Page = Page {
    code: Code::F4,
    meaning: "a helper was given something else than a map",
    example: Some(Example {
        command: "printf 'r1 = 5\\nr2 = r10\\ncall 1\\nexit\\n' | ebpf asm | ebpf hex",
        printed: "fault F4 at 2",
    }),
    advice: "\
R1 has to hold a map, as `r1 = map 0` puts it there.",
};

pub static F5: Page = Page {
    code: Code::F5,
    meaning: "the program would hold more than 256 values",
    example: None,
    advice: "\
A program holds each value that its lookups found, until it ends: a value's
place isn't used again before. It may hold 256 different ones.",
};

pub static F6: Page = Page {
    code: Code::F6,
    meaning: "the store's counter of this CPU's runs is used up",
    example: None,
    advice: "\
A CPU makes at most 2^63 - 1 runs over one store.",
};

pub static F7: Page = Page {
    code: Code::F7,
    meaning: "a store to a value that may only be read",
    example: None,
    advice: "\
The values of an array that is `frozen` can't be changed, as C's constants
can't. Write to an array that isn't, or to a copy in the program's frame.",
};
