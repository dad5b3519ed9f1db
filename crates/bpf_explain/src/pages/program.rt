//! Codes of programs.

use crate::page::{Example, Page};
use bpf_codes::Code;

pub static E1: Page = Page {
    code: Code::E1,
    meaning: "a program of no instructions",
    example: Some(Example {
        command: "printf '' | ebpf hex",
        printed: "refused E1",
    }),
    advice: "\
A program has 1 to 65,536 words. In a run file: lines of assembly before `end`.",
};

pub static E2: Page = Page {
    code: Code::E2,
    meaning: "n bytes, which are not whole words",
    example: Some(Example {
        command: "echo 'b7000000050000' | ebpf hex",
        printed: "refused E2 7",
    }),
    advice: "\
A word is 8 bytes, 16 hex digits. The number is that of the bytes found.",
};

pub static E3: Page = Page {
    code: Code::E3,
    meaning: "more than 65,536 words",
    example: Some(Example {
        command: "(yes 'r0 = 0' | head -n 65536; echo exit) | ebpf asm | ebpf hex",
        printed: "refused E3",
    }),
    advice: "\
A wide instruction (`r1 = 5 ll`, `r1 = map 0`) has two words.",
};

pub static E4: Page = Page {
    code: Code::E4,
    meaning: "an opcode that RFC 9669 doesn't have, or a row that this machine doesn't take",
    example: Some(Example {
        command: "echo 'bc00200000000000 9500000000000000' | ebpf hex",
        printed: "refused E4 0",
    }),
    advice: "\
The number is the instruction's place in words, from 0. Legacy packet loads,
calls by BTF id, and of the wide loads those of map values, variables, code
addresses and maps by index aren't taken.",
};

pub static E5: Page = Page {
    code: Code::E5,
    meaning: "a field that this instruction has no use for isn't zero",
    example: Some(Example {
        command: "echo 'b700010005000000 9500000000000000' | ebpf hex",
        printed: "refused E5 0",
    }),
    advice: "\
RFC 9669 wants unused fields to be zero: here the offset is 1, where a move has
none.",
};

pub static E6: Page = Page {
    code: Code::E6,
    meaning: "the second word of a wide instruction is missing",
    example: Some(Example {
        command: "echo '1800000005000000' | ebpf hex",
        printed: "refused E6 0",
    }),
    advice: "\
After the first word of a 64-bit constant comes one with opcode 0, whose
immediate is the upper half.",
};

pub static E7: Page = Page {
    code: Code::E7,
    meaning: "there is no register of this number: the last is R10",
    example: Some(Example {
        command: "echo 'b70b000005000000 9500000000000000' | ebpf hex",
        printed: "refused E7 0",
    }),
    advice: "\
A word's second byte has the destination in its low half and the source in its
upper half, each from 0 to 10.",
};

pub static E8: Page = Page {
    code: Code::E8,
    meaning: "it writes R10, which only calls change",
    example: Some(Example {
        command: "echo 'b70a000005000000 9500000000000000' | ebpf hex",
        printed: "refused E8 0",
    }),
    advice: "\
R10 is the top of the frame, 512 bytes of stack below it. Copy it first:
`r2 = r10`, then `r2 += -8`.",
};

pub static E9: Page = Page {
    code: Code::E9,
    meaning: "it jumps out of the program",
    example: Some(Example {
        command: "printf 'goto +5\\nexit\\n' | ebpf asm | ebpf hex",
        printed: "refused E9 0",
    }),
    advice: "\
A distance counts words from the next instruction on; a label counts for you.",
};

pub static E10: Page = Page {
    code: Code::E10,
    meaning: "it jumps to the second word of a wide instruction",
    example: Some(Example {
        command: "printf 'goto +1\\nr0 = 5 ll\\nexit\\n' | ebpf asm | ebpf hex",
        printed: "refused E10 0",
    }),
    advice: "\
A wide instruction counts two words: jump to its first, or past both. A label
counts for you.",
};

pub static E11: Page = Page {
    code: Code::E11,
    meaning: "the program could run on past its last instruction",
    example: Some(Example {
        command: "printf 'r0 = 5\\n' | ebpf asm | ebpf hex",
        printed: "refused E11 0",
    }),
    advice: "\
The last instruction is `exit`, or a jump that has no condition. The number is
that instruction's place.",
};

pub static E12: Page = Page {
    code: Code::E12,
    meaning: "a helper that this machine doesn't have",
    example: Some(Example {
        command: "printf 'call 4\\nexit\\n' | ebpf asm | ebpf hex",
        printed: "refused E12 0",
    }),
    advice: "\
It has 1, 2 and 3 (lookup, update and deletion in maps), 8 (the CPU's number), 5
and 125 (the time), 6 (`bpf_trace_printk`, which prints nothing), 7 (a random
number), 14 and 15 (process and user), 93 and 94 (locks). A call of a function
of the program is `call +4` or `call NAME`.",
};

pub static E13: Page = Page {
    code: Code::E13,
    meaning: "a map that the program wasn't given; `hex` gives none",
    example: Some(Example {
        command: "printf 'r1 = map 0\\nr0 = 0\\nexit\\n' | ebpf asm | ebpf hex",
        printed: "refused E13 0",
    }),
    advice: "\
Maps are given by a run file, which numbers them from 0 in its order, and
arrays from 16 on: `ebpf run`.",
};

pub static E14: Page = Page {
    code: Code::E14,
    meaning: "no memory for the program",
    example: None,
    advice: "\
The program was no longer than 65,536 words, and yet the system gave no memory
for it. Try again when other programs have ended, or raise the limit (ulimit
-v).",
};
