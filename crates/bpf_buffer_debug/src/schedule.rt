//! Schedules as commands: a `steps` has any number of words, each some turns of a CPU or some flushes
//! of its buffer.

ghost use Rattle.std.specs.Prelude.{◌≡◌, ◌<◌, ◌∷◌, ◌++◌, ◌&&◌, nat_lt, IfOk, IfSome, IfNone, Some, None, codes, length, map, string_bytes};
ghost use Rattle.std.specs.List.{list_all};
ghost use Rattle.bpf_schedule.specs.Moves.{all_moves_text};
ghost use Rattle.bpf_debug.specs.Command.{Steps, is_short};
ghost use Rattle.bpf_buffer_debug.specs.Command.{Plain, schedule_in};

use bpf_debug::command::MOST_TURNS;
use bpf_schedule::push_moves;
use std::alloc::{AllocError, Global};

/// Whether no run has more moves than one may have.
fn are_short(runs: &[(u8, u64)]) -> bool
    ensures { result ≡ list_all is_short runs.now }
{
    runs.iter().all(|run| run.1 <= MOST_TURNS)
}

/// Whether there is a run, and none has more moves than one may have.
fn can_be_made(runs: &[(u8, u64)]) -> bool
    ensures { result ≡ (nat_lt 0 (length runs.now) && list_all is_short runs.now) }
{
    !runs.is_empty() && are_short(runs)
}

/// The moves of a schedule, as the words after `steps` spell them; `None` where they spell none.
pub(crate) fn schedule_in(
    alloc: Global,
    words: &[&[u8]],
) -> Result<Option<Vec<(u8, u64)>>, AllocError>
    ensures said { IfOk result (λ found. IfSome found (λ runs.
        schedule_in (map (λ f. f.now) words.now) ≡ Some (Plain (Steps runs.items)))) }
    ensures some { IfOk result (λ found. IfSome found (λ runs. 0 < length runs.items)) }
    ensures none { IfOk result (λ found. IfNone found
        (schedule_in (map (λ f. f.now) words.now) ≡ None)) }
{
    let Some(runs) = bpf_schedule::moves_of(alloc, words)? else {
        return Ok(None);
    };
    if !can_be_made(&runs) {
        return Ok(None);
    }
    Ok(Some(runs))
}

/// The line of the moves made so far, as the command that makes them.
pub(crate) fn course_line(alloc: Global, runs: &[(u8, u64)]) -> Result<String, AllocError>
    ensures { IfOk result (λ text. string_bytes text
        ≡ codes "steps" ++ all_moves_text (length runs.now) runs.now ++ codes "\n") }
{
    let mut text = "steps".to_string(alloc)?;
    push_moves(alloc, &mut text, runs)?;
    text.push_str("\n")?;
    Ok(text)
}
