//! Kinds of runs.

/// How schedules lead from one world to another.
pub(crate) trait Runs {
    ghost use Rattle.std.specs.Prelude.{ℕ, List};
    ghost use Rattle.bpf_machine.specs.Schedule.{World};

    ghost runs: { World → List ℕ → World → Type 0 };
}

/// With the budgets that jobs have.
pub(crate) struct Strictly;

impl Runs for Strictly {
    ghost use Rattle.bpf_machine.specs.Schedule.{RunsSchedule};

    ghost runs = { RunsSchedule };
}

/// Where jobs in hand may be given more steps on the way.
pub(crate) struct Freely;

impl Runs for Freely {
    ghost use Rattle.bpf_machine.specs.Ends.{RunsFreely};

    ghost runs = { RunsFreely };
}
