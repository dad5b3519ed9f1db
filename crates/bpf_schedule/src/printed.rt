//! A schedule as it is printed.

ghost use Rattle.std.specs.Prelude.{◌≡◌, ◌++◌, OnOk, length, string_bytes};
ghost use Rattle.bpf_schedule.specs.Spelling.{run_text, runs_text};

use std::alloc::{AllocError, Global};

/// Appends this many turns of a CPU to the text.
fn push_run(alloc: Global, text: &mut String, cpu: u8, turns: u64) -> Result<(), AllocError>
    ensures { OnOk result (string_bytes text.new
        ≡ string_bytes text.old ++ run_text (cpu, turns)) }
{
    let run = format!(in alloc; " {cpu}*{turns}")?;
    text.push_str(run.as_str())
}

/// Appends a schedule to the text, each CPU with how many turns it makes before the next, after
/// a blank.
pub fn push_runs(alloc: Global, text: &mut String, runs: &[(u8, u64)]) -> Result<(), AllocError>
    ensures { OnOk result (string_bytes text.new
        ≡ string_bytes text.old ++ runs_text (length runs.now) runs.now) }
{
    for (cpu, turns) in runs {
        push_run(alloc, text, *cpu, *turns)?;
    }
    Ok(())
}
