//! How a run file's comments ask that it be checked.

ghost use Rattle.std.specs.Prelude.{◌≡◌, ◌≤◌, IfOk, IfSome, map};
ghost use Rattle.bpf_check.specs.Comments.{words_of};
ghost use Rattle.bpf_check.specs.Settings.{after_limit, after_patience, asked_by, is_misset, limit_by, limit_in, seems_setting, setting_in, settings_of, with_setting};

use crate::comments::{comment_of, is_near};
use crate::subjects::{is, number_in};
use bpf_lines::lines::{fields, first_line};
use std::alloc::{AllocError, Global};

/// The greatest limit that a comment may ask for.
pub const MOST_STATES: u64 = 1_000_000_000;

/// What comments ask of the search through a file's schedules.
#[derive(Clone, Copy, PartialEq, Eq, Debug)]
pub struct Settings {
    /// To look for outcomes in which no budget is used up.
    pub patient: bool,
    /// To end once more states than this are kept.
    pub limit: Option<u64>,
}

impl Settings {
    /// With what one more comment asks for: of several limits the first counts.
    fn with_setting(self, setting: Option<Settings>) -> Settings
        ensures { result ≡ with_setting self setting }
    {
        match setting {
            None => self,
            Some(more) => Settings {
                patient: self.patient || more.patient,
                limit: self.limit.or(more.limit),
            },
        }
    }
}

/// The number that a word is, if it is a limit.
fn limit_in(word: &[u8]) -> Option<u64>
    ensures value { result ≡ limit_in word.now }
    ensures bound { IfSome result (λ n. n ≤ MOST_STATES) }
{
    let limit = number_in(word)?;
    if limit <= MOST_STATES {
        Some(limit)
    } else {
        None
    }
}

/// What `limit` and a number ask for, perhaps beside patience.
fn limit_by(patient: bool, name: &[u8], number: &[u8]) -> Option<Settings>
    ensures value { result ≡ limit_by patient name.now number.now }
    ensures bound { IfSome result (λ s. IfSome s.limit (λ n. n ≤ MOST_STATES)) }
{
    if !is(name, "limit") {
        return None;
    }
    let limit = limit_in(number)?;
    Some(Settings {
        patient,
        limit: Some(limit),
    })
}

/// What words after `patient` ask for beside it, if they are nothing or `limit N`.
fn after_patience(words: &[&[u8]]) -> Option<Settings>
    ensures value { result ≡ after_patience (map (λ f. f.now) words.now) }
    ensures bound { IfSome result (λ s. IfSome s.limit (λ n. n ≤ MOST_STATES)) }
{
    match words {
        [] => Some(Settings {
            patient: true,
            limit: None,
        }),
        [name, number] => limit_by(true, name, number),
        [_] | [_, _, _, ..] => None,
    }
}

/// What `limit`, if the name is it, asks for with the words after it: N, or `N patient`.
fn after_limit(name: &[u8], words: &[&[u8]]) -> Option<Settings>
    ensures value { result ≡ after_limit name.now (map (λ f. f.now) words.now) }
    ensures bound { IfSome result (λ s. IfSome s.limit (λ n. n ≤ MOST_STATES)) }
{
    match words {
        [number] => limit_by(false, name, number),
        [number, word] => {
            if is(word, "patient") {
                limit_by(true, name, number)
            } else {
                None
            }
        }
        [] | [_, _, _, ..] => None,
    }
}

/// What words after `check` ask for, if they are `patient`, `limit N` or both.
fn asked_by(words: &[&[u8]]) -> Option<Settings>
    ensures value { result ≡ asked_by (map (λ f. f.now) words.now) }
    ensures bound { IfSome result (λ s. IfSome s.limit (λ n. n ≤ MOST_STATES)) }
{
    match words {
        [] => None,
        [first, more @ ..] => {
            if is(first, "patient") {
                after_patience(more)
            } else {
                after_limit(first, more)
            }
        }
    }
}

/// What the words of a comment ask for, if they ask for something.
fn setting_in(words: &[&[u8]]) -> Option<Settings>
    ensures value { result ≡ setting_in (map (λ f. f.now) words.now) }
    ensures bound { IfSome result (λ s. IfSome s.limit (λ n. n ≤ MOST_STATES)) }
{
    match words {
        [word, asked @ ..] if is(word, "check") => asked_by(asked),
        _ => None,
    }
}

/// Whether the words of a comment seem to ask for something.
fn seems_setting(words: &[&[u8]]) -> bool
    ensures { result ≡ seems_setting (map (λ f. f.now) words.now) }
{
    match words {
        [word, second, ..] => {
            is_near(word, b"check") && (is_near(second, b"patient") || is_near(second, b"limit"))
        }
        _ => false,
    }
}

/// Whether the words of a comment are meant to ask for something, and don't.
pub(crate) fn is_misset(words: &[&[u8]]) -> bool
    ensures { result ≡ is_misset (map (λ f. f.now) words.now) }
{
    seems_setting(words) && setting_in(words).is_none()
}

/// What the comment of a line asks for, if it asks for something.
fn setting_of(alloc: Global, line: &[u8]) -> Result<Option<Settings>, AllocError>
    ensures value { IfOk result (λ found. found ≡ setting_in (words_of line.now)) }
    ensures bound { IfOk result (λ found.
        IfSome found (λ s. IfSome s.limit (λ n. n ≤ MOST_STATES))) }
{
    let words = fields(alloc, comment_of(line))?;
    Ok(setting_in(&words))
}

/// What the comments of a run file ask of the search through its schedules.
pub fn settings_of(alloc: Global, text: &[u8]) -> Result<Settings, AllocError>
    ensures value { IfOk result (λ s. s ≡ settings_of text.now) }
    ensures bound { IfOk result (λ s. IfSome s.limit (λ n. n ≤ MOST_STATES)) }
{
    let mut settings = Settings {
        patient: false,
        limit: None,
    };
    let mut rest = Some(text);
    'lines: while let Some(left) = rest {
        let (line, behind) = first_line(left);
        settings = settings.with_setting(setting_of(alloc, line)?);
        rest = behind;
    }
    Ok(settings)
}
