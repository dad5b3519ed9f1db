//! What a program is given to read with a packet.

ghost use Rattle.std.specs.Prelude.{◌≡◌, ◌≤◌, ◌++◌, IfOk, OnOk, get_or, length};
ghost use Rattle.std.specs.Int.{w32, to_le_bytes};
ghost use Rattle.bpf_mem.specs.Limits.{max_packet};
ghost use Rattle.bpf_file.specs.Packet.{packet_context, tc_context, xdp_context};

use bpf_mem::addresses::PACKET_BASE;
use std::alloc::{AllocError, Global};

/// Where a program hangs that packets are given to.
#[derive(Clone, Copy)]
pub enum Hook {
    /// A card's queue: its context is `struct xdp_md`.
    Xdp,
    /// A traffic filter: its context is `struct __sk_buff`.
    Tc,
}

/// A packet as a job's line says it.
#[derive(Clone, Copy)]
pub struct PacketLine<'a> {
    pub hook: Hook,
    /// The packet's bytes as hex digits.
    pub digits: &'a [u8],
}

/// A byte of a packet, 0 where it has fewer.
fn byte_at(packet: &[u8], at: usize) -> u8
    ensures { result ≡ get_or packet.now at 0 }
{
    match packet.get(at) {
        Some(byte) => *byte,
        None => 0,
    }
}

fn push_number(context: &mut Vec<u8>, number: u32) -> Result<(), AllocError>
    ensures { OnOk result (context.new.items ≡ context.old.items ++ to_le_bytes w32 number) }
{
    context.extend_from_slice(&number.to_le_bytes())
}

/// `struct xdp_md`.
fn xdp_context(alloc: Global, cpu: u8, packet: &[u8]) -> Result<Vec<u8>, AllocError>
    requires { length packet.now ≤ max_packet }
    ensures { IfOk result (λ v. v.items ≡ xdp_context cpu (length packet.now)) }
{
    let data = PACKET_BASE as u32;
    let mut context = Vec::with_capacity(alloc, 24)?;
    push_number(&mut context, data)?;
    push_number(&mut context, data + packet.len() as u32)?;
    push_number(&mut context, data)?;
    push_number(&mut context, 0)?;
    push_number(&mut context, u32::from(cpu))?;
    push_number(&mut context, 0)?;
    Ok(context)
}

/// `struct __sk_buff`.
fn tc_context(alloc: Global, packet: &[u8]) -> Result<Vec<u8>, AllocError>
    requires { length packet.now ≤ max_packet }
    ensures { IfOk result (λ v. v.items ≡ tc_context packet.now) }
{
    let data = PACKET_BASE as u32;
    let count = packet.len() as u32;
    let mut context = Vec::with_capacity(alloc, 192)?;
    push_number(&mut context, count)?;
    context.extend_from_slice(&[0; 12])?;
    context.extend_from_slice(&[byte_at(packet, 12), byte_at(packet, 13), 0, 0])?;
    context.extend_from_slice(&[0; 56])?;
    push_number(&mut context, data)?;
    push_number(&mut context, data + count)?;
    context.extend_from_slice(&[0; 56])?;
    push_number(&mut context, data)?;
    context.extend_from_slice(&[0; 48])?;
    Ok(context)
}

/// The context of a packet.
pub(crate) fn context(
    alloc: Global,
    hook: Hook,
    cpu: u8,
    packet: &[u8],
) -> Result<Vec<u8>, AllocError>
    requires { length packet.now ≤ max_packet }
    ensures { IfOk result (λ v. v.items ≡ packet_context hook cpu packet.now) }
{
    match hook {
        Hook::Xdp => xdp_context(alloc, cpu, packet),
        Hook::Tc => tc_context(alloc, packet),
    }
}
