//! Errors that jobs end with as their answers.

use std::alloc::AllocError;

/// What is known of an error that a helper answers.
static ERRORS: [(u64, &str, &str); 6] = [
    (
        2,
        "ENOENT",
        "an update with flags 2, or a deletion, of a key that isn't there",
    ),
    (
        7,
        "E2BIG",
        "an update of a new key where the map has `max` keys",
    ),
    (
        12,
        "ENOMEM",
        "an update found no free element, since values that were replaced or deleted stay while a job may hold them: `spare` is how many elements a map has beside `max`",
    ),
    (16, "EBUSY", "a segment of the map was changed too often"),
    (
        17,
        "EEXIST",
        "an update with flags 1 of a key that is there",
    ),
    (22, "EINVAL", "an update with flags over 2"),
];

/// The number that a printed line has as R0.
fn r0_of(line: &str) -> Option<u64> {
    let word = line.split(' ').last()?;
    word.strip_prefix("r0=")?.parse::<u64>().ok()
}

/// What a number is with a sign, where it is negative.
fn negative(number: u64) -> Option<u64> {
    if number >= 0x8000_0000_0000_0000 {
        Some(number.wrapping_neg())
    } else {
        None
    }
}

/// Says what the answer of a job is with a sign, where it is negative, and which error that is.
pub fn push_answer(text: &mut String, line: &str) -> Result<(), AllocError> {
    let Some(size) = r0_of(line).and_then(negative) else {
        return Ok(());
    };
    write!(text, "{line}: -{size} as a number with a sign\n")?;
    match ERRORS.iter().find(|row| row.0 == size) {
        Some(row) => write!(
            text,
            "  hint: it may be a helper's -{}: {}\n  see: ebpf explain {}\n",
            row.1, row.2, row.1
        ),
        None => Ok(()),
    }
}
