//! What a line of a run file should have, where it is refused.

use crate::excerpt::{fields, places_of};
use bpf_codes::Code;
use bpf_lines::words::numeral_of;
use std::alloc::{AllocError, Global};

/// What is said of a line, and the place in its bytes that it is said of.
#[derive(Drop)]
pub struct Expectation {
    pub place: usize,
    pub text: String,
}

/// The forms of lines. Pieces are between blanks: `NAME`, `N` and `HEX` are a name, a number and
/// hex digits, any other is itself. The last 34 are of version 3 alone, and the two before
/// them of version 2 too.
static FORMS: [&str; 46] = [
    "cpus N",
    "seed N",
    "map NAME key N value N max N spare N",
    "map NAME key N value N max N spare N mask N",
    "prog NAME",
    "prog NAME hex HEX",
    "job N NAME",
    "job N NAME budget N",
    "job N NAME ctx HEX",
    "job N NAME budget N ctx HEX",
    "map NAME key N value N max N spare N grow",
    "map NAME key N value N max N spare N mask N grow",
    "array NAME value N max N",
    "array NAME value N max N percpu",
    "array NAME value N max N frozen",
    "array NAME value N max N percpu frozen",
    "data NAME N HEX",
    "var NAME NAME N N",
    "job N NAME time N",
    "job N NAME random N",
    "job N NAME time N random N",
    "job N NAME budget N time N",
    "job N NAME budget N random N",
    "job N NAME budget N time N random N",
    "job N NAME ctx HEX time N",
    "job N NAME ctx HEX random N",
    "job N NAME ctx HEX time N random N",
    "job N NAME budget N ctx HEX time N",
    "job N NAME budget N ctx HEX random N",
    "job N NAME budget N ctx HEX time N random N",
    "job N NAME xdp HEX",
    "job N NAME xdp HEX time N",
    "job N NAME xdp HEX random N",
    "job N NAME xdp HEX time N random N",
    "job N NAME budget N xdp HEX",
    "job N NAME budget N xdp HEX time N",
    "job N NAME budget N xdp HEX random N",
    "job N NAME budget N xdp HEX time N random N",
    "job N NAME tc HEX",
    "job N NAME tc HEX time N",
    "job N NAME tc HEX random N",
    "job N NAME tc HEX time N random N",
    "job N NAME budget N tc HEX",
    "job N NAME budget N tc HEX time N",
    "job N NAME budget N tc HEX random N",
    "job N NAME budget N tc HEX time N random N",
];

/// How many forms version 1 has.
const FORMS_OF_ONE: usize = 10;

/// How many version 2 has.
const FORMS_OF_TWO: usize = 12;

/// How many forms the file's version has, by the first line that says something.
fn forms_of(file: &str) -> usize {
    for line in file.split('\n') {
        let mut words = fields(line);
        if words.next().is_some() {
            return match words.next() {
                Some("2") => FORMS_OF_TWO,
                Some("3") => FORMS.len(),
                _ => FORMS_OF_ONE,
            };
        }
    }
    FORMS_OF_ONE
}

fn is_name(word: &str) -> bool {
    let begins = word.starts_with(|letter: char| letter.is_ascii_alphabetic() || letter == '_');
    let goes_on = word
        .as_bytes()
        .iter()
        .all(|byte| byte.is_ascii_alphanumeric() || *byte == b'_');
    begins && goes_on && word.len() <= 32
}

/// Whether a word is what a piece of a form asks for.
fn fits(piece: &str, word: &str) -> bool {
    match piece {
        "NAME" => is_name(word),
        "N" => numeral_of(word.as_bytes()).is_some(),
        "HEX" => true,
        _ => piece == word,
    }
}

/// How many words at the front fit a form.
fn fitting(form: &str, words: &[&str]) -> usize {
    let mut count: usize = 0;
    for piece in form.split(' ') {
        match words.get(count) {
            Some(word) if fits(piece, word) => count = count.saturating_add(1),
            _ => return count,
        }
    }
    count
}

/// The piece of a form after this many, empty at its end.
fn piece_at(form: &'static str, count: usize) -> &'static str {
    form.split(' ').nth(count).unwrap_or("")
}

/// The pieces that forms have where the words leave them all, each once; none where the words make
/// a form.
fn pieces_expected(
    alloc: Global,
    forms: usize,
    words: &[&str],
) -> Result<Option<(usize, Vec<&'static str>)>, AllocError> {
    let mut most: usize = 0;
    for form in FORMS.iter().copied().take(forms) {
        let count = fitting(form, words);
        if count == words.len() && piece_at(form, count).is_empty() {
            return Ok(None);
        }
        most = most.max(count);
    }
    let mut pieces: Vec<&'static str> = Vec::new(alloc);
    for form in FORMS.iter().copied().take(forms) {
        let piece = piece_at(form, most);
        if fitting(form, words) == most && !pieces.iter().any(|other| *other == piece) {
            pieces.push(piece)?;
        }
    }
    Ok(Some((most, pieces)))
}

fn push_piece(text: &mut String, piece: &str) -> Result<(), AllocError> {
    match piece {
        "" => text.push_str("the line's end"),
        "NAME" => text.push_str("a name"),
        "N" => text.push_str("a number"),
        "HEX" => text.push_str("hex digits"),
        "spare" => text.push_str(SPARE),
        _ => write!(text, "`{piece}`"),
    }
}

/// What `spare` is, where a line ends before it.
const SPARE: &str =
    "`spare` and how many elements the map has beside `max`, for values that were replaced or deleted and that a job may still hold";

/// "expected" and the pieces, with commas and 'or' between them.
fn listing(alloc: Global, pieces: &[&'static str]) -> Result<String, AllocError> {
    let mut text = "expected ".to_string(alloc)?;
    let last = pieces.len().saturating_sub(1);
    for (number, piece) in pieces.iter().enumerate() {
        if number > 0 {
            text.push_str(if number == last { " or " } else { ", " })?;
        }
        push_piece(&mut text, piece)?;
    }
    Ok(text)
}

/// Why a line that has a form is refused where it is.
fn order_of_lines(first: &str) -> &'static str {
    match first {
        "cpus" => "`cpus` comes once, right after the first line",
        "seed" => "`seed` comes once, before the maps, the programs and the jobs",
        "map" => "the maps come before the programs and the jobs",
        "array" => "arrays come after the maps, and before lines `data` and `var` and the programs",
        "data" | "var" => {
            "lines `data` and `var` come after the arrays and before the programs; variables are 256 at most"
        }
        "prog" => "the programs come before the jobs, and are 256 at most",
        "job" => "there are 4,096 jobs at most",
        _ => "a line here begins with a word of its own",
    }
}

/// The line after which a file of the debugger has commands.
const COMMANDS: &str = "after `---` come commands, which `ebpf debug` alone takes";

/// What is said of a line that has no form there (L2).
fn of_form(
    alloc: Global,
    forms: usize,
    words: &[&str],
    places: &[usize],
) -> Result<Expectation, AllocError> {
    if let ["---"] = words {
        return Ok(Expectation {
            place: places.first().copied().unwrap_or(0),
            text: COMMANDS.to_string(alloc)?,
        });
    }
    match pieces_expected(alloc, forms, words)? {
        Some((count, pieces)) => Ok(Expectation {
            place: places.get(count).copied().unwrap_or(usize::MAX),
            text: listing(alloc, &pieces)?,
        }),
        None => Ok(Expectation {
            place: places.first().copied().unwrap_or(0),
            text: order_of_lines(words.first().copied().unwrap_or("")).to_string(alloc)?,
        }),
    }
}

/// The greatest number after a word.
fn most_behind(word: &str) -> Option<u64> {
    match word {
        "cpus" | "key" | "value" | "max" | "spare" | "mask" => Some(0xffff_ffff),
        "seed" => Some(u64::MAX),
        "budget" => Some(1_000_000_000),
        _ => None,
    }
}

/// The number that a word is, if 64 bits hold it.
fn value_of(word: &str) -> Option<u64> {
    match word.strip_prefix("0x") {
        Some(digits) => u64::from_str_radix(digits, 16).ok(),
        None => word.parse::<u64>().ok(),
    }
}

/// What is said of a variable's line whose numbers are each in their range.
const VARIABLE: &str = "a variable has 1, 2, 4 or 8 bytes, and begins at a multiple of them";

/// What is said of a number that is out of its range (L3).
fn of_number(
    alloc: Global,
    words: &[&str],
    places: &[usize],
) -> Result<Option<Expectation>, AllocError> {
    let mut before = "";
    for (number, word) in words.iter().enumerate() {
        if let Some(most) = most_behind(before)
            && value_of(word).is_none_or(|value| value > most)
        {
            return Ok(Some(Expectation {
                place: places.get(number).copied().unwrap_or(0),
                text: format!(in alloc; "`{before}` is a number from 0 to {most}")?,
            }));
        }
        before = word;
    }
    if let ["var", ..] = words {
        return Ok(Some(Expectation {
            place: places.get(3).copied().unwrap_or(0),
            text: VARIABLE.to_string(alloc)?,
        }));
    }
    Ok(None)
}

/// How many CPUs a run file says.
fn cpus_in(file: &str) -> u64 {
    for line in file.split('\n') {
        let mut words = fields(line);
        if words.next() == Some("cpus") {
            return words.next().and_then(value_of).unwrap_or(1);
        }
    }
    1
}

/// What a line names that isn't there: `prog` or `array`, and how it is called.
#[derive(Clone, Copy)]
struct Missing<'a> {
    key: &'static str,
    kind: &'static str,
    name: &'a str,
}

/// "there is no program b: the file has", and the names.
fn none_named(alloc: Global, file: &str, missing: Missing<'_>) -> Result<String, AllocError> {
    let Missing { key, kind, name } = missing;
    let mut text = format!(in alloc; "there is no {kind} {name}: the file has ")?;
    let mut is_first = true;
    for line in file.split('\n') {
        let mut words = fields(line);
        if words.next() == Some(key)
            && let Some(other) = words.next()
        {
            if !is_first {
                text.push_str(", ")?;
            }
            text.push_str(other)?;
            is_first = false;
        }
    }
    if is_first {
        text.push_str("none")?;
    }
    Ok(text)
}

/// What is said of a job whose CPU or program isn't there (L5).
fn of_job(
    alloc: Global,
    file: &str,
    words: &[&str],
    places: &[usize],
) -> Result<Option<Expectation>, AllocError> {
    let (Some(cpu), Some(name)) = (words.get(1), words.get(2)) else {
        return Ok(None);
    };
    let cpus = cpus_in(file);
    if value_of(cpu).is_none_or(|number| number >= cpus) {
        return Ok(Some(Expectation {
            place: places.get(1).copied().unwrap_or(0),
            text: format!(in alloc; "there is no CPU {cpu}: the file has {cpus}, counted from 0")?,
        }));
    }
    Ok(Some(Expectation {
        place: places.get(2).copied().unwrap_or(0),
        text: none_named(
            alloc,
            file,
            Missing {
                key: "prog",
                kind: "program",
                name,
            },
        )?,
    }))
}

/// What is said of a line `data` or `var` whose array isn't there (L5), by the word that names it.
fn of_array(
    alloc: Global,
    file: &str,
    words: &[&str],
    places: &[usize],
    number: usize,
) -> Result<Option<Expectation>, AllocError> {
    let Some(name) = words.get(number) else {
        return Ok(None);
    };
    Ok(Some(Expectation {
        place: places.get(number).copied().unwrap_or(0),
        text: none_named(
            alloc,
            file,
            Missing {
                key: "array",
                kind: "array",
                name,
            },
        )?,
    }))
}

/// What is said of a line that names what isn't there (L5).
fn of_name(
    alloc: Global,
    file: &str,
    words: &[&str],
    places: &[usize],
) -> Result<Option<Expectation>, AllocError> {
    match words {
        ["data", ..] => of_array(alloc, file, words, places, 1),
        ["var", ..] => of_array(alloc, file, words, places, 2),
        _ => of_job(alloc, file, words, places),
    }
}

/// What a refused line of a run file should have, as far as that is known.
pub fn expected(
    alloc: Global,
    code: Code,
    file: &str,
    line: &str,
) -> Result<Option<Expectation>, AllocError> {
    let mut words: Vec<&str> = Vec::new(alloc);
    for word in fields(line) {
        words.push(word)?;
    }
    let places = places_of(alloc, line)?;
    match code {
        Code::L2 => Ok(Some(of_form(alloc, forms_of(file), &words, &places)?)),
        Code::L3 => of_number(alloc, &words, &places),
        Code::L5 => of_name(alloc, file, &words, &places),
        _ => Ok(None),
    }
}
