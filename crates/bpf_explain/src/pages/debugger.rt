//! Commands of the debugger.

use crate::page::{Example, Page};
use bpf_codes::Code;

pub static G1: Page = Page {
    code: Code::G1,
    meaning: "there is no CPU of this number",
    example: Some(Example {
        command: "printf 'ebpf-run 1\\nprog a\\nexit\\nend\\njob 0 a\\n---\\nstep 1\\n' | ebpf debug",
        printed: "refused G1",
    }),
    advice: "\
A run file has the CPUs 0 to `cpus` less 1; without that line it has CPU 0.",
};

pub static G2: Page = Page {
    code: Code::G2,
    meaning: "no program has an instruction that begins at this pc",
    example: Some(Example {
        command: "printf 'ebpf-run 1\\nprog a\\nr0 = 1 ll\\nexit\\nend\\njob 0 a\\n---\\nbreak 0 1\\n' | ebpf debug",
        printed: "refused G2",
    }),
    advice: "\
A pc counts words, and a wide instruction has two.",
};

pub static G3: Page = Page {
    code: Code::G3,
    meaning: "no map, array or variable of this name can be named here",
    example: Some(Example {
        command: "printf 'ebpf-run 1\\nprog a\\nexit\\nend\\njob 0 a\\n---\\nmap m\\n' | ebpf debug",
        printed: "refused G3",
    }),
    advice: "\
The names are those of the run file's `map`, `array` and `var` lines. `map` and
`keys` take a map or an array, and so does `watch` with a key or an index; `var`
takes a variable, and so does `watch` with a name alone. `--sync` of `ebpf
explore --races` takes a map, bytes that its values have, or a variable.",
};

pub static G4: Page = Page {
    code: Code::G4,
    meaning: "not a command of the debugger",
    example: Some(Example {
        command: "printf 'ebpf-run 1\\nprog a\\nexit\\nend\\njob 0 a\\n---\\nmem 0 0 257\\n' | ebpf debug",
        printed: "refused G4",
    }),
    advice: "\
The first word is none, there are too few words or too many, or a number isn't
one; `mem` shows 1 to 256 bytes.",
};

pub static G5: Page = Page {
    code: Code::G5,
    meaning: "no memory for a command of the debugger",
    example: None,
    advice: "\
The command isn't done, and the next one is read.",
};
