//! What follows from the definitions.
//!
//! The functions do nothing: their contracts are the laws.
ghost use Rattle.bpf_agreement.specs.Example.{IsExample};
ghost use Rattle.bpf_agreement.specs.Laws.{CalmHistoriesAreSchedules, HistoriesAreSchedules};
ghost use Rattle.bpf_agreement.specs.Printed.{CalmWorkersPrintOutcomes, WorkersPrintOutcomes};

/// Where there are arrays alone, and each call is one event, or one CPU has all jobs: the ends that a
/// history explains, and the store that it leads to, are those of some schedule.
pub fn histories_are_schedules()
    ensures { HistoriesAreSchedules }
{
    bpf_mem::laws::writes_are_determined();
    bpf_loader::laws::one_instruction_begins();
    bpf_shared::laws::calls_have_one_reply();
    bpf_shared::laws::legal_is_sound();
}

/// With hash maps or without, where each step that turns reach is one event at most, and none asks for
/// a change of a hash map: the ends that a history explains, and the store that it leads to, are those
/// of some schedule.
pub fn calm_histories_are_schedules()
    ensures { CalmHistoriesAreSchedules }
{
    bpf_mem::laws::writes_are_determined();
    bpf_loader::laws::one_instruction_begins();
    bpf_shared::laws::calls_have_one_reply();
    bpf_shared::laws::legal_is_sound();
}

/// Where there are arrays alone, and each call is one event, or one CPU has all jobs: what worker threads
/// print is one of what turns lead to.
pub fn workers_print_outcomes()
    ensures { WorkersPrintOutcomes }
{
    histories_are_schedules();
}

/// Where no map has a pair at first, each step that turns reach is one event at most, and none asks for
/// a change of a hash map: what worker threads print is one of what turns lead to.
pub fn calm_workers_print_outcomes()
    ensures { CalmWorkersPrintOutcomes }
{
    calm_histories_are_schedules();
}

/// Two jobs on two CPUs that store to one array's value and load it are such jobs over arrays alone.
pub fn two_cpus_share_an_array()
    ensures { IsExample }
{}
