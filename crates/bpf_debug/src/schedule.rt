//! Schedules as commands: a `steps` has any number of words, each a run.

ghost use Rattle.std.specs.Prelude.{◌≡◌, ◌<◌, ◌∷◌, ◌&&◌, nat_lt, IfOk, IfSome, IfNone, Some, None, length, map};
ghost use Rattle.bpf_debug.specs.Command.{Order, few_words, is_short, order_of, schedule_in};
ghost use Rattle.std.specs.Bool.{OnFalse, OnTrue};
ghost use Rattle.std.specs.List.{list_all};

use crate::command::{MOST_TURNS, is};
use std::alloc::{AllocError, Global};

/// Whether no run has more turns than one may have.
fn are_short(runs: &[(u8, u64)]) -> bool
    ensures { result ≡ list_all is_short runs.now }
{
    runs.iter().all(|run| run.1 <= MOST_TURNS)
}

/// Whether there is a run, and none has more turns than one may have.
fn can_be_made(runs: &[(u8, u64)]) -> bool
    ensures { result ≡ (nat_lt 0 (length runs.now) && list_all is_short runs.now) }
{
    !runs.is_empty() && are_short(runs)
}

/// Whether a line's first word says `steps`.
pub fn is_schedule(word: &[u8], words: &[&[u8]]) -> bool
    ensures yes { OnTrue result (order_of (word.now ∷ map (λ f. f.now) words.now)
        ≡ schedule_in (map (λ f. f.now) words.now)) }
    ensures no { OnFalse result (order_of (word.now ∷ map (λ f. f.now) words.now)
        ≡ few_words (word.now ∷ map (λ f. f.now) words.now)) }
{
    is(word, "steps")
}

/// The runs of a schedule, as the words after `steps` spell them; `None` where they spell none.
pub fn schedule_in(alloc: Global, words: &[&[u8]]) -> Result<Option<Vec<(u8, u64)>>, AllocError>
    ensures said { IfOk result (λ found. IfSome found (λ runs.
        schedule_in (map (λ f. f.now) words.now) ≡ Some (Order.Steps runs.items))) }
    ensures some { IfOk result (λ found. IfSome found (λ runs. 0 < length runs.items)) }
    ensures none { IfOk result (λ found. IfNone found
        (schedule_in (map (λ f. f.now) words.now) ≡ None)) }
{
    let Some(runs) = bpf_schedule::runs_of(alloc, words)? else {
        return Ok(None);
    };
    if !can_be_made(&runs) {
        return Ok(None);
    }
    Ok(Some(runs))
}
