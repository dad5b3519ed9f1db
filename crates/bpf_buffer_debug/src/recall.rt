//! How a CPU stood before the last of its turns of a kind, among moves that are made again.

ghost use Rattle.std.specs.Prelude.{◌≡◌, ◌==◌, ◌&&◌, ◌∷◌, [], ℕ, IfOk, List, None, Option, Some, replicate, string_bytes};
ghost use Rattle.bpf_machine.specs.Parts.{IsSameHost};
ghost use Rattle.bpf_x86.specs.Machine.{TurnOf};
ghost use Rattle.bpf_buffering.specs.Search.{move_of};
ghost use Rattle.bpf_debug.specs.Recall.{IsLastText, IsRecall, IsStand, Past, is_of};
ghost use Rattle.bpf_buffer_debug.specs.Moves.{all_moves};
ghost use Rattle.bpf_buffer_debug.specs.Recall.{RecallsTo};

use crate::lines::where_line;
use bpf_buffering::{Album, Buffering};
use bpf_debug::course::Course;
use bpf_debug::lines::put_ended;
use bpf_debug::recall::{Kind, Recall, Stand, hand_of, is_of, put_stand};
use bpf_debug::session::make_room;
use bpf_machine::{Standing, Turn};
use bpf_schedule::FLUSH;
use std::alloc::{AllocError, Global};

/// How a CPU is.
fn stand_of(machine: &Buffering, cpu: u8) -> Stand
    ensures { IsStand machine.now.machine.jobs cpu result }
{
    match machine.standing(cpu) {
        Standing::InHand(job, state) => Stand::InHand(hand_of(job, state)),
        Standing::Waiting(job) => Stand::Waiting(job),
        Standing::Idle => Stand::Idle,
    }
}

/// Whether a turn is one of a CPU's of a kind.
fn is_counted(kind: Kind, cpu: u8, turns_of: u8, turn: Turn) -> bool
    ensures { result ≡ ((turns_of == cpu) && is_of kind turn) }
{
    turns_of == cpu && is_of(kind, turn)
}

/// One turn, and the last of this CPU's turns of a kind after it.
fn recall_turn(
    album: &mut Album,
    turns_of: u8,
    cpu: u8,
    kind: Kind,
    recall: Option<Recall>,
) -> Result<Option<Recall>, AllocError>
    ensures made { IfOk result (λ after. RecallsTo kind cpu album.old.machine recall
        (TurnOf turns_of ∷ []) album.new.machine after) }
    ensures host { IsSameHost album.old.machine.machine album.new.machine.machine }
    ensures kept { album.new.kept ≡ album.old.kept }
{
    let stand = stand_of(album.machine(), turns_of);
    let turn = album.turn(turns_of)?;
    if is_counted(kind, cpu, turns_of, turn) {
        Ok(Some(Recall { stand, turn }))
    } else {
        Ok(recall)
    }
}

/// One move, in the same way.
fn recall_move(
    album: &mut Album,
    made: u8,
    cpu: u8,
    kind: Kind,
    recall: Option<Recall>,
) -> Result<Option<Recall>, AllocError>
    ensures made { IfOk result (λ after. RecallsTo kind cpu album.old.machine recall
        (move_of made ∷ []) album.new.machine after) }
    ensures host { IsSameHost album.old.machine.machine album.new.machine.machine }
    ensures kept { album.new.kept ≡ album.old.kept }
{
    if made < FLUSH {
        recall_turn(album, made, cpu, kind, recall)
    } else {
        album.flush_alone(made - FLUSH);
        Ok(recall)
    }
}

/// This many moves of one kind, in the same way.
fn recall_same(
    album: &mut Album,
    made: u8,
    count: u64,
    cpu: u8,
    kind: Kind,
    recall: Option<Recall>,
) -> Result<Option<Recall>, AllocError>
    ensures made { IfOk result (λ after. RecallsTo kind cpu album.old.machine recall
        (replicate count (move_of made)) album.new.machine after) }
    ensures host { IsSameHost album.old.machine.machine album.new.machine.machine }
    ensures kept { album.new.kept ≡ album.old.kept }
{
    let mut last = recall;
    for _ in 0..count {
        let next = recall_move(album, made, cpu, kind, last)?;
        last = next;
    }
    Ok(last)
}

/// The moves of a schedule, in the same way.
fn recall_runs(
    album: &mut Album,
    runs: &[(u8, u64)],
    cpu: u8,
    kind: Kind,
) -> Result<Option<Recall>, AllocError>
    ensures made { IfOk result (λ after. RecallsTo kind cpu album.old.machine None
        (all_moves runs.now) album.new.machine after) }
    ensures host { IsSameHost album.old.machine.machine album.new.machine.machine }
    ensures kept { album.new.kept ≡ album.old.kept }
{
    let mut last = None;
    for run in runs {
        let next = recall_same(album, run.0, run.1, cpu, kind, last)?;
        last = next;
    }
    Ok(last)
}

/// Makes the moves that are kept, and says how a CPU stood before the last of its turns of a kind.
pub(crate) fn recall(
    album: &mut Album,
    course: &Course,
    cpu: u8,
    kind: Kind,
) -> Result<Option<Recall>, AllocError>
    ensures made { IfOk result (λ after. (runs : List (ℕ × ℕ)) × (course.now ≡ Some runs)
        × RecallsTo kind cpu album.old.machine None (all_moves runs) album.new.machine after) }
    ensures host { IsSameHost album.old.machine.machine album.new.machine.machine }
    ensures kept { album.new.kept ≡ album.old.kept }
{
    let Some(runs) = course.runs() else {
        return Err(AllocError);
    };
    recall_runs(album, runs, cpu, kind)
}

/// The line of the job that a turn of a CPU ended, and how the CPU stood before it; where it is, if there
/// is no such turn.
pub(crate) fn last_lines(
    alloc: Global,
    machine: &Buffering,
    cpu: u8,
    recall: Option<Recall>,
) -> Result<String, AllocError>
    ensures { IfOk result (λ text. (past : Option Past) → IsRecall cpu recall past
        → IsLastText cpu past machine.now.machine.jobs (string_bytes text)) }
{
    match recall {
        Some(kept) => {
            let mut out = make_room(alloc, 0)?;
            put_ended(&mut out, cpu, kept.turn);
            put_stand(&mut out, cpu, kept.stand);
            Ok(out)
        }
        None => where_line(alloc, machine, cpu),
    }
}
