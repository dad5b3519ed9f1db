//! The lines of packets.

ghost use Rattle.std.specs.Prelude.{◌≡◌, ◌++◌, [], OnOk, length, slice_index_or, string_bytes};
ghost use Rattle.bpf_shared.specs.Contents.{bytes_of_all};
ghost use Rattle.bpf_cpu.specs.Task.{outcome_at};
ghost use Rattle.bpf_packets.specs.Packets.{has_exited, line_of, packet_line, packet_lines};

use bpf_cpu::Outcome;
use bpf_machine::Machine;
use std::alloc::{AllocError, Global};

/// Whether a job ended by `exit`.
fn has_exited(outcome: Option<Outcome>) -> bool
    ensures { result ≡ has_exited outcome }
{
    matches!(outcome, Some(Outcome::Exit(_)))
}

/// A job's packet; nothing where there is none.
fn packet_at(packets: &[Vec<u8>], job: usize) -> &[u8]
    ensures { result.now ≡ slice_index_or (bytes_of_all packets.now) job [] }
{
    match packets.get(job) {
        Some(packet) => packet,
        None => &[],
    }
}

/// Appends a packet's line to the text.
fn push_packet(
    alloc: Global,
    text: &mut String,
    job: usize,
    packet: &[u8],
) -> Result<(), AllocError>
    ensures { OnOk result (string_bytes text.new
        ≡ string_bytes text.old ++ packet_line job packet.now) }
{
    let digits = hex::encode(alloc, packet)?;
    let line = format!(in alloc; "packet {job} {digits}\n")?;
    text.push_str(line.as_str())
}

/// Appends the line of a packet to the text, where the job ended by `exit` and has a packet.
fn push_left(
    alloc: Global,
    text: &mut String,
    job: usize,
    outcome: Option<Outcome>,
    packet: &[u8],
) -> Result<(), AllocError>
    ensures { OnOk result (string_bytes text.new
        ≡ string_bytes text.old ++ line_of job outcome packet.now) }
{
    if has_exited(outcome) && !packet.is_empty() {
        push_packet(alloc, text, job, packet)?;
    }
    Ok(())
}

/// Appends a line to the text for each job that ended by `exit` and has a packet, in their order.
pub(crate) fn push_packets(
    alloc: Global,
    text: &mut String,
    machine: &Machine,
    packets: &[Vec<u8>],
) -> Result<(), AllocError>
    ensures { OnOk result (string_bytes text.new ≡ string_bytes text.old
        ++ packet_lines (length machine.now.jobs) machine.now.jobs (bytes_of_all packets.now)) }
{
    for job in 0..machine.jobs() {
        push_left(
            alloc,
            text,
            job,
            machine.outcome(job),
            packet_at(packets, job),
        )?;
    }
    Ok(())
}
