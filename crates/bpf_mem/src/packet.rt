//! The packet: the bytes that a program is given beside its context, or none.

ghost use Rattle.std.specs.Prelude.{◌≡◌, ◌+◌, ◌<◌, ◌≤◌, ◌↔◌, ◌++◌, IfOk, IfSome, IfNone, IsTrue, length, vec_len};
ghost use Rattle.bpf_base.specs.Bytes.{low_bytes, with_part};
ghost use Rattle.bpf_mem.specs.Bytes.{length_of};
ghost use Rattle.bpf_mem.specs.Limits.{max_packet};

use crate::bytes;
use bpf_insn::operation::Size;
use std::alloc::{AllocError, Global};
use std::marker::Model;

/// The most bytes of a packet.
pub const MAX_PACKET: usize = 16_384;

/// 0 to 16,384 bytes, `MAX_PACKET`.
#[derive(Drop)]
pub struct Packet {
    bytes: Vec<u8>,
}

impl Model for Packet {
    ghost use Rattle.std.specs.Prelude.{List, ℕ, ◌≤◌, length};
    ghost use Rattle.bpf_mem.specs.Limits.{max_packet};

    ghost Value = { List ℕ };

    ghost view = { λ c. c.bytes.items };

    ghost invariant = { λ c. length c.bytes.items ≤ max_packet };
}

impl Packet {
    /// The packet of these bytes. It takes no memory.
    pub fn new(bytes: Vec<u8>) -> Packet
        requires { vec_len bytes ≤ max_packet }
        ensures { result ≡ bytes.items }
    {
        Packet { bytes }
    }

    /// A packet of the same bytes.
    pub fn copy(&self, alloc: Global) -> Result<Packet, AllocError>
        ensures { IfOk result (λ copy. copy ≡ self.now) }
    {
        let mut bytes = Vec::with_capacity(alloc, self.bytes.len())?;
        bytes.extend_from_slice(&self.bytes)?;
        Ok(Packet { bytes })
    }

    /// Its bytes.
    #[inline]
    pub fn bytes(&self) -> &[u8]
        ensures value { result.now ≡ self.now }
        ensures bounded { length self.now ≤ max_packet }
    {
        &self.bytes
    }

    /// Becomes what another packet of its length is. It takes no memory.
    pub fn copy_from(&mut self, other: &Packet)
        requires { length other.now ≡ length self.old }
        ensures { self.new ≡ other.now }
    {
        self.bytes.copy_from_slice(&other.bytes);
    }

    /// Whether the bytes are those of another.
    pub fn is_same(&self, other: &Packet) -> bool
        ensures { IsTrue result ↔ (self.now ≡ other.now) }
    {
        self.bytes.as_slice() == other.bytes.as_slice()
    }

    /// Becomes the bytes that others begin with, as many as it has; what comes after them. `None`
    /// where there are fewer.
    pub fn restore<'a>(&mut self, bytes: &'a [u8]) -> Option<&'a [u8]>
        ensures some { IfSome result (λ rest. bytes.now ≡ self.new ++ rest.now) }
        ensures long { length self.new ≡ length self.old }
        ensures none { IfNone result (length bytes.now < length self.old) }
    {
        let long = self.bytes.len();
        if bytes.len() < long {
            return None;
        }
        let (front, rest) = bytes.split_at(long);
        self.bytes.copy_from_slice(front);
        Some(rest)
    }

    /// Sets the bytes at an offset to the low bytes of a number.
    #[inline]
    pub(crate) fn store(&mut self, offset: usize, size: Size, value: u64)
        requires { offset + length_of size ≤ length self.old }
        ensures value { self.new ≡ with_part self.old offset (low_bytes (length_of size) value) }
        ensures bounded { length self.old ≤ max_packet }
    {
        bytes::store(&mut self.bytes, offset, size, value);
    }
}
