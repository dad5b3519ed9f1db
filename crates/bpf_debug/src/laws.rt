//! What follows from the definitions of commands and scripts, as promises to the crates above.
//!
//! These functions do nothing: their contracts are the laws.
ghost use Rattle.bpf_debug.specs.Laws.{BeginningsComeFirst, QuestionsChangeNothing, RecallsChangeNothing, RunsTellTurns, SchedulesAreSteps, ScriptsAreDetermined, ScriptsMakeTurns, StepsSpellSchedules};

/// Any schedule is spelled by `step` commands.
pub fn steps_spell_schedules()
    ensures { StepsSpellSchedules }
{}

/// A `steps` of a schedule leaves what its `step` commands leave, one a turn.
pub fn schedules_are_steps()
    ensures { SchedulesAreSteps }
{}

/// The turns that are kept lead from the first machine to the one that a script leaves.
pub fn scripts_make_turns()
    ensures { ScriptsMakeTurns }
{}

/// Run lengths are those of their turns, and `steps` takes them.
pub fn runs_tell_turns()
    ensures { RunsTellTurns }
{}

/// The beginning of a script is answered whatever comes after it.
pub fn beginnings_come_first()
    ensures { BeginningsComeFirst }
{}

/// Questions change nothing.
pub fn questions_change_nothing()
    ensures { QuestionsChangeNothing }
{}

/// Nor does what makes the turns again, over a machine that they led to.
pub fn recalls_change_nothing()
    ensures { RecallsChangeNothing }
{
    bpf_mem::laws::writes_are_determined();
    bpf_loader::laws::one_instruction_begins();
    bpf_shared::laws::calls_have_one_reply();
}

/// Over a machine whose jobs all wait, a script has one list of answers, unless memory runs out.
pub fn scripts_are_determined()
    ensures { ScriptsAreDetermined }
{
    bpf_mem::laws::writes_are_determined();
    bpf_loader::laws::one_instruction_begins();
    bpf_shared::laws::calls_have_one_reply();
}
