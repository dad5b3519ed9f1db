//! States of a search that are read.

use crate::page::{Example, Page};
use bpf_codes::Code;

pub static X1: Page = Page {
    code: Code::X1,
    meaning: "a line is no state of the file's jobs",
    example: Some(Example {
        command: "echo 00 | ebpf expand examples/lost-update.run",
        printed: "refused X1 1",
    }),
    advice: "\
The number is the line's, counted from 1. A state is one line of lower case hex,
as `expand --first` prints one, and `expand` after the word `state`; those of
another file, or of other maps or jobs, are none of this file's.",
};
