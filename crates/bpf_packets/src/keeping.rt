//! The packets of jobs, as their CPUs had them before each job's last turn so far.

ghost use Rattle.std.specs.Prelude.{◌≡◌, IfOk, map, OnOk, slice_set};
ghost use Rattle.bpf_cpu.specs.Task.{waiting};
ghost use Rattle.bpf_packets.specs.Packets.{Keeps, given_packets};
ghost use Rattle.bpf_packets.specs.Private.{Puts};
ghost use Rattle.bpf_shared.specs.Contents.{bytes_of_all};

use bpf_cpu::Job;
use bpf_machine::{Machine, Standing};
use std::alloc::{AllocError, Global};

/// A copy of bytes.
fn copy_bytes(alloc: Global, bytes: &[u8]) -> Result<Vec<u8>, AllocError>
    ensures { IfOk result (λ v. v.items ≡ bytes.now) }
{
    let mut copy = Vec::with_capacity(alloc, bytes.len())?;
    copy.extend_from_slice(bytes)?;
    Ok(copy)
}

/// The packets that jobs are given, by job.
pub(crate) fn given_packets(alloc: Global, jobs: &[Job]) -> Result<Vec<Vec<u8>>, AllocError>
    ensures { IfOk result (λ v. bytes_of_all v.items ≡ given_packets (map waiting jobs.now)) }
{
    let mut packets = Vec::new(alloc);
    for job in jobs {
        let packet = copy_bytes(alloc, job.input.packet.bytes())?;
        packets.push(packet)?;
    }
    Ok(packets)
}

/// Becomes these bytes.
fn refill(packet: &mut Vec<u8>, bytes: &[u8]) -> Result<(), AllocError>
    ensures { OnOk result (packet.new.items ≡ bytes.now) }
{
    packet.clear();
    packet.extend_from_slice(bytes)
}

/// Puts a packet in a job's place, where there is one.
#[tactic(auto, using(crate::proofs::Packets::put_at, crate::proofs::Packets::put_past))]
fn put_packet(packets: &mut [Vec<u8>], job: usize, bytes: &[u8]) -> Result<(), AllocError>
    ensures { OnOk result (bytes_of_all packets.new
        ≡ slice_set (bytes_of_all packets.old) job bytes.now) }
{
    if job < packets.len() {
        refill(&mut packets[job], bytes)?;
    }
    Ok(())
}

/// Puts the packet of a job in hand in its place.
fn put_standing(standing: Standing<'_>, packets: &mut [Vec<u8>]) -> Result<(), AllocError>
    ensures { OnOk result (Puts standing.entry (bytes_of_all packets.old) (bytes_of_all packets.new)) }
{
    match standing {
        Standing::InHand(job, state) => put_packet(packets, job, state.memory.packet.bytes()),
        Standing::Waiting(_) | Standing::Idle => Ok(()),
    }
}

/// Keeps the packet of the job that a CPU has in hand, before its turn. That of a job that waits is
/// there since it was given.
#[tactic(auto, using(crate::proofs::Packets::keeps))]
pub(crate) fn keep_packet(
    machine: &Machine,
    cpu: u8,
    packets: &mut [Vec<u8>],
) -> Result<(), AllocError>
    ensures { OnOk result (Keeps machine.now.jobs cpu (bytes_of_all packets.old)
        (bytes_of_all packets.new)) }
{
    put_standing(machine.standing(cpu), packets)?;
    Ok(())
}
