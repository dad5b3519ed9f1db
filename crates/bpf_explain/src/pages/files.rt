//! Codes of input, of run files, and of the shapes of their maps.

use crate::page::{Example, Page};
use bpf_codes::Code;

pub static L1: Page = Page {
    code: Code::L1,
    meaning: "the first line of the run file is none of `ebpf-run 1`, `ebpf-run 2` and `ebpf-run 3`",
    example: Some(Example {
        command: "printf 'cpus 2\\n' | ebpf run",
        printed: "refused line 1 L1",
    }),
    advice: "\
Empty lines and comments may come before it.",
};

pub static L2: Page = Page {
    code: Code::L2,
    meaning: "a line of the run file has none of its forms, is out of order, or is one too \
        many",
    example: Some(Example {
        command: "printf 'ebpf-run 1\\nseed 5\\ncpus 2\\n' | ebpf run",
        printed: "refused line 3 L2",
    }),
    advice: "\
The order is: `ebpf-run 1`, `cpus`, `seed`, maps, arrays, what both have at first and
variables, programs, jobs; each but the first may be missing. Names have at most 32
characters, contexts at most 4,096 bytes; there are at most 256 variables, 256
programs, 4,096 jobs and 4,096 pairs of maps. A map may end with `grow` only where
the first line is `ebpf-run 2` or `ebpf-run 3`; lines `array`, `data`, `var` and `put`
are of `ebpf-run 3`.
docs/reference/run-files.md has every form.",
};

pub static L3: Page = Page {
    code: Code::L3,
    meaning: "a number of the line is out of its range",
    example: Some(Example {
        command: "printf 'ebpf-run 1\\nseed 18446744073709551616\\n' | ebpf run",
        printed: "refused line 2 L3",
    }),
    advice: "\
A seed has 64 bits; sizes and masks of maps, sizes of arrays, offsets and the number
of CPUs 32; a budget is at most 1,000,000,000. A variable has 1, 2, 4 or 8 bytes, and
begins at a multiple of them.",
};

pub static L4: Page = Page {
    code: Code::L4,
    meaning: "a map, an array, a variable or a program of this name was given before",
    example: Some(Example {
        command: "printf 'ebpf-run 1\\nprog a hex 9500000000000000\\nprog a hex \
            9500000000000000\\n' | ebpf run",
        printed: "refused line 3 L4",
    }),
    advice: "\
A program may have the name of a map, an array or a variable; no two of these
have one name.",
};

pub static L5: Page = Page {
    code: Code::L5,
    meaning: "the job's CPU or program, or the array or map of a `data`, `var` or `put` line, isn't \
        there",
    example: Some(Example {
        command: "printf 'ebpf-run 1\\nprog a hex 9500000000000000\\njob 1 a\\n' | ebpf run",
        printed: "refused line 3 L5",
    }),
    advice: "\
CPUs are numbered from 0; without a line `cpus N` there is one.",
};

pub static L6: Page = Page {
    code: Code::L6,
    meaning: "the program that begins at this line has no `end`",
    example: Some(Example {
        command: "printf 'ebpf-run 1\\nprog a\\nexit\\n' | ebpf run",
        printed: "refused line 2 L6",
    }),
    advice: "\
After its assembly a program has a line `end`; one given by `hex` has none, its
digits are on its own line.",
};

pub static L7: Page = Page {
    code: Code::L7,
    meaning: "the input couldn't be read to its end",
    example: Some(Example {
        command: "ebpf hex < .",
        printed: "refused L7",
    }),
    advice: "\
It is a folder, a FILE that isn't there or that you may not read, or a disk that fails: `--explain`
says which. A failed read isn't tried again.",
};

pub static L8: Page = Page {
    code: Code::L8,
    meaning: "the input isn't UTF-8",
    example: Some(Example {
        command: "printf '\\377' | ebpf hex",
        printed: "refused L8",
    }),
    advice: "\
Words come as hex digits and not as bytes: `xxd -p` makes digits of a file.",
};

pub static L9: Page = Page {
    code: Code::L9,
    meaning: "no memory for the input, the command line, the CPU or the answer",
    example: None,
    advice: "\
Try again when other programs have ended, or raise the limit (ulimit -v).",
};

pub static L10: Page = Page {
    code: Code::L10,
    meaning: "more than 16,777,216 bytes of input",
    example: Some(Example {
        command: "yes | head -c 16777217 | ebpf hex",
        printed: "refused L10",
    }),
    advice: "\
The longest program has 65,536 words, which are 1,114,112 bytes as lines of hex
digits.",
};

pub static L11: Page = Page {
    code: Code::L11,
    meaning: "the comment of this line expects what no outcome can have, or asks for no search",
    example: Some(Example {
        command: "printf '; never job 5 cpu 0 r0=1\\nebpf-run 1\\nprog a\\nexit\\nend\\njob 0 a\\n' | \
            ebpf check",
        printed: "refused line 1 L11",
    }),
    advice: "\
It has two words or more and begins with `always`, `sometimes` or `never`, or a word
one edit away; but after that comes no line that `run --maps` prints of this file: a
job with its CPU, or a map with a key and a value of its sizes in lower case hex, and
numbers without a 0 before them; nor `fault`, `r0 of job J < N`, `var NAME = N`,
`map NAME[K]+AT of u64 = N`, or several of these joined by `and`, or by `or`; nor `race`
after `never` or `sometimes`. `always ends` and `sometimes hung` take `--patient`, as
`always-x86 ends` and `sometimes-x86 hung` do, and lines `keys` take `run --check --keys`.
Or it begins with `check patient` or `check limit`, or words one edit away, and isn't
`check patient`, `check limit N` or both, with N from 0 to 1,000,000,000.
`check --lenient` passes such comments over.",
};

pub static S1: Page = Page {
    code: Code::S1,
    meaning: "a map's keys have 1 to 64 bytes",
    example: Some(Example {
        command: "printf 'ebpf-run 1\\nmap m key 0 value 8 max 1 spare 0\\n' | ebpf run",
        printed: "refused line 2 S1",
    }),
    advice: "\
To key by more, hash it first; a map of one value has a key of one byte, 0.",
};

pub static S2: Page = Page {
    code: Code::S2,
    meaning: "a map's values have 1 to 256 bytes",
    example: Some(Example {
        command: "printf 'ebpf-run 1\\nmap m key 4 value 257 max 1 spare 0\\n' | ebpf run",
        printed: "refused line 2 S2",
    }),
    advice: "\
Part a longer value over several maps, or over several keys of one.",
};

pub static S3: Page = Page {
    code: Code::S3,
    meaning: "a map has room for 1 to 65,536 keys",
    example: Some(Example {
        command: "printf 'ebpf-run 1\\nmap m key 4 value 8 max 0 spare 0\\n' | ebpf run",
        printed: "refused line 2 S3",
    }),
    advice: "\
`max` is how many keys the map holds at a time.",
};

pub static S4: Page = Page {
    code: Code::S4,
    meaning: "a map has at most 65,536 spare elements",
    example: Some(Example {
        command: "printf 'ebpf-run 1\\nmap m key 4 value 8 max 1 spare 65537\\n' | ebpf run",
        printed: "refused line 2 S4",
    }),
    advice: "\
Spare elements are what values that were replaced or deleted stay in while a
program may still hold them.",
};

pub static S5: Page = Page {
    code: Code::S5,
    meaning: "there are at most 16 maps",
    example: Some(Example {
        command: "(echo 'ebpf-run 1'; seq -f 'map m%g key 4 value 8 max 1 spare 0' 17) | ebpf run",
        printed: "refused line 18 S5",
    }),
    advice: "\
Two maps of one shape can be one whose key has a byte more that keeps them
apart.",
};

pub static S6: Page = Page {
    code: Code::S6,
    meaning: "there are 1 to 16 CPUs",
    example: Some(Example {
        command: "printf 'ebpf-run 1\\ncpus 17\\n' | ebpf run",
        printed: "refused line 2 S6",
    }),
    advice: "\
One CPU takes as many jobs as wanted, one after the other.",
};

pub static S7: Page = Page {
    code: Code::S7,
    meaning: "no memory for a store of this shape",
    example: None,
    advice: "\
A crate that makes a store gets it. `ebpf` prints L9 instead: it lacked memory
for the whole command.",
};

pub static S8: Page = Page {
    code: Code::S8,
    meaning: "an array's values have 1 to 65,536 bytes",
    example: None,
    advice: "\
Part a longer value over several arrays, or over several indices of one.",
};

pub static S9: Page = Page {
    code: Code::S9,
    meaning: "an array has 1 to 65,536 values",
    example: None,
    advice: "\
`max` is how many values the array has. An index is below it.",
};

pub static S10: Page = Page {
    code: Code::S10,
    meaning: "an array takes at most 16 MiB",
    example: None,
    advice: "\
A value takes its size, rounded up to a multiple of 8. An array has `max` of
them, and one that is `percpu` has as many for each CPU.",
};

pub static S11: Page = Page {
    code: Code::S11,
    meaning: "there are at most 16 arrays",
    example: None,
    advice: "\
Two arrays of one value can be one whose value has the bytes of both.",
};

pub static S12: Page = Page {
    code: Code::S12,
    meaning: "what a map or an array has at first fits it, and a variable an array's first value",
    example: Some(Example {
        command: "printf 'ebpf-run 3\\nmap m key 1 value 1 max 1 spare 0\\nput m 00 01\\nput m 01 \
            01\\n' | ebpf run",
        printed: "refused line 4 S12",
    }),
    advice: "\
A `put` line has a key and a value of the map's sizes, each key of a map once, and
the map has room for its keys; or it has an index of the array, and all bytes of a
value. A variable's bytes are all in the first value of an array that isn't `percpu`.
Of `data` offsets are counted from the first value on. A value begins every `value`
bytes, rounded up to a multiple of 8.",
};
