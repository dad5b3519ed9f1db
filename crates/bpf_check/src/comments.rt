//! The comments of a run file, and words that are nearly others.

ghost use Rattle.std.specs.Prelude.{◌≡◌, ◌≤◌, length};
ghost use Rattle.std.specs.List.{before_first};
ghost use Rattle.bpf_check.specs.Comments.{are_exchanged, comment_of, is_mark, is_near};

/// How much of a line is before its first `;`.
fn mark_in(line: &[u8]) -> usize
    ensures value { result ≡ length (before_first is_mark line.now) }
    ensures bound { result ≤ length line.now }
{
    line.iter().take_while(|byte| **byte != b';').count()
}

/// What is after a line's first `;`.
pub(crate) fn comment_of<'a>(line: &'a [u8]) -> &'a [u8]
    ensures { result.now ≡ comment_of line.now }
{
    let mark = mark_in(line);
    if mark < line.len() {
        &line[mark + 1..]
    } else {
        &line[mark..]
    }
}

/// Whether words begin with the same two bytes in the other order, and are else the same.
fn are_exchanged(word: &[u8], other: &[u8]) -> bool
    ensures { result ≡ are_exchanged word.now other.now }
{
    match (word, other) {
        ([first, second, bytes @ ..], [own, next, others @ ..]) => {
            first == next && second == own && bytes == others
        }
        _ => false,
    }
}

/// Whether one edit at most makes a word of the other.
pub(crate) fn is_near(word: &[u8], other: &[u8]) -> bool
    ensures { result ≡ is_near word.now other.now }
{
    match (word, other) {
        ([], _) => other.len() <= 1,
        ([_, bytes @ ..], []) => bytes.is_empty(),
        ([byte, bytes @ ..], [own, others @ ..]) => {
            if byte == own {
                is_near(bytes, others)
            } else {
                bytes == others || word == others || bytes == other || are_exchanged(word, other)
            }
        }
    }
}
