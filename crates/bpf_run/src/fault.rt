//! What is known of the faults in which jobs ended, and of the last steps of those that ended out of
//! budget. They are run once more for it.

use bpf_advice::Detail;
use bpf_cpu::Job;
use bpf_faults::{Evidence, Loop, Maps, describe, describe_loop, evidence_of};
use bpf_file::{RunFile, read_file};
use bpf_insn::{Insn, encode};
use bpf_lines::{from_hex, to_hex};
use bpf_machine::Machine;
use bpf_text::assemble;
use std::alloc::{AllocError, Global};

/// The instruction at which a fault came, by the number of each job's program.
fn insn_of(machine: &Machine, programs: &[usize], one: &Evidence) -> Option<Insn> {
    let number = *programs.get(one.job)?;
    let program = machine.programs().get(number)?;
    if program.is_start(one.pc) {
        Some(*program.instruction_at(one.pc))
    } else {
        None
    }
}

/// What is known of each fault of which there is evidence.
fn details_of(
    alloc: Global,
    machine: &Machine,
    evidence: &[Evidence],
    programs: &[usize],
    maps: &Maps<'_>,
) -> Result<Vec<Detail>, AllocError> {
    let mut details = Vec::new(alloc);
    for one in evidence {
        if let Some(insn) = insn_of(machine, programs, one) {
            let text = describe(alloc, one, insn, maps)?;
            details.push(Detail { job: one.job, text })?;
        }
    }
    Ok(details)
}

/// Appends to the details those of each job that ended out of budget.
fn add_loops(alloc: Global, details: &mut Vec<Detail>, loops: &[Loop]) -> Result<(), AllocError> {
    for one in loops {
        let text = describe_loop(alloc, one)?;
        details.push(Detail { job: one.job, text })?;
    }
    Ok(())
}

/// The numbers of the jobs' programs.
fn programs_of(alloc: Global, jobs: &[Job]) -> Result<Vec<usize>, AllocError> {
    let mut programs = Vec::new(alloc);
    for job in jobs {
        programs.push(job.program)?;
    }
    Ok(programs)
}

/// What is known of the jobs of a run file that ended in a fault or out of budget.
pub fn details_of_file(alloc: Global, text: &str) -> Option<Vec<Detail>> {
    let RunFile { setup, names, .. } = read_file(alloc, text.as_bytes()).ok()?;
    let numbers = programs_of(alloc, &setup.jobs).ok()?;
    let mut loops = Vec::new(alloc);
    let (machine, evidence) = evidence_of(alloc, setup, &mut loops).ok()?;
    let maps = Maps {
        store: machine.store(),
        names: &names.maps,
    };
    let mut details = details_of(alloc, &machine, &evidence, &numbers, &maps).ok()?;
    add_loops(alloc, &mut details, &loops).ok()?;
    Some(details)
}

/// The run file whose only job runs the program of these bytes.
fn file_of_program(alloc: Global, budget: u64, context: &[u8], bytes: &[u8]) -> Option<String> {
    let words = to_hex(alloc, bytes).ok()?;
    let context = to_hex(alloc, context).ok()?;
    let before = if context.is_empty() { "" } else { " ctx " };
    let file = format!(in alloc;
        "ebpf-run 1\nprog a hex {words}\njob 0 a budget {budget}{before}{context}\n"
    );
    file.ok()
}

/// What is known of the end of the program whose words the text has as hex digits.
pub fn details_of_program(
    alloc: Global,
    budget: u64,
    context: &[u8],
    text: &str,
) -> Option<Vec<Detail>> {
    let bytes = from_hex(alloc, text).ok()?;
    let file = file_of_program(alloc, budget, context, &bytes)?;
    details_of_file(alloc, file.as_str())
}

/// What is known of the end of the program that the text is.
pub fn details_of_assembly(
    alloc: Global,
    budget: u64,
    context: &[u8],
    text: &str,
) -> Option<Vec<Detail>> {
    let insns = assemble(alloc, text).ok()?;
    let bytes = encode(alloc, &insns).ok()?;
    let file = file_of_program(alloc, budget, context, &bytes)?;
    details_of_file(alloc, file.as_str())
}
