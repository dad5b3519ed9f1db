//! Jobs that are run by worker threads.

use crate::page::Page;
use bpf_codes::Code;

pub static J1: Page = Page {
    code: Code::J1,
    meaning: "jobs without a worker",
    example: None,
    advice: "\
A crate that calls `run_jobs` of bpf_sched gets it for 0 workers. `ebpf run`
doesn't print it: `--workers` takes 1 to 16.",
};

pub static J2: Page = Page {
    code: Code::J2,
    meaning: "more than 16 workers",
    example: None,
    advice: "\
A crate that calls `run_jobs` of bpf_sched gets it. `ebpf run` doesn't print it:
`--workers` takes 1 to 16.",
};

pub static J3: Page = Page {
    code: Code::J3,
    meaning: "a job for a CPU that the store hasn't",
    example: None,
    advice: "\
A crate that calls `run_jobs` of bpf_sched gets it. `ebpf run` doesn't print it:
such a line of a run file is refused before, by L5.",
};

pub static J4: Page = Page {
    code: Code::J4,
    meaning: "no memory for the workers and their jobs",
    example: None,
    advice: "\
No job was begun. Try again when other programs have ended, raise the limit
(ulimit -v), or leave `--workers` out.",
};
