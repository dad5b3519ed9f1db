//! What follows from the definitions of steps and runs, and of what is saved, as promises to the
//! crates above.
//!
//! These functions do nothing: their contracts are the laws, which a proof cites.
ghost use Rattle.bpf_cpu.specs.Laws.{NoMapsNoEvents, OutcomesAreDetermined, PlainStepsAreDetermined, SavedTellsOutcomes, SavedTellsStates, StepsAreDetermined};

/// The replies to a step's calls determine its next call, and all of them the state that it leaves.
pub fn steps_are_determined()
    ensures { StepsAreDetermined }
{
    bpf_mem::laws::writes_are_determined();
    bpf_loader::laws::one_instruction_begins();
}

/// A list of events explains one outcome of a job.
pub fn outcomes_are_determined()
    ensures { OutcomesAreDetermined }
{
    bpf_mem::laws::writes_are_determined();
    bpf_loader::laws::one_instruction_begins();
}

/// Where there is no map, a job's run has no events but its begin and its end.
pub fn no_maps_no_events()
    ensures { NoMapsNoEvents }
{}

/// On one thread, over a plain store, the steps of a run have one course.
pub fn plain_steps_are_determined()
    ensures { PlainStepsAreDetermined }
{
    bpf_mem::laws::writes_are_determined();
    bpf_loader::laws::one_instruction_begins();
    bpf_shared::laws::calls_have_one_reply();
}

/// What a state is saved as determines it, among those of one job.
pub fn saved_tells_states()
    ensures { SavedTellsStates }
{}

/// What an outcome is saved as determines it.
pub fn saved_tells_outcomes()
    ensures { SavedTellsOutcomes }
{}
