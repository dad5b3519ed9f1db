//! The memory that a format and its strings are read from.

use bpf_cpu::Cpu;
use bpf_debug::byte;
use bpf_plain::PlainStore;
use std::alloc::{AllocError, Global};

/// The memory that a CPU's program may read.
#[derive(Clone, Copy)]
pub(crate) struct Memory<'a> {
    pub store: &'a PlainStore,
    pub state: &'a Cpu,
}

/// Bytes up to the first 0, or why they have none.
#[derive(Drop)]
pub(crate) enum Text {
    Bytes(Vec<u8>),
    /// This many bytes have no 0 among them.
    Unended,
    /// The program may not read one of them.
    Unreadable,
}

impl<'a> Memory<'a> {
    /// The bytes from an address on up to a 0, which is among the first `size`.
    pub(crate) fn text(
        &self,
        alloc: Global,
        address: u64,
        size: usize,
    ) -> Result<Text, AllocError> {
        let mut bytes = Vec::new(alloc);
        let mut at = Some(address);
        for _ in 0..size {
            let Some(byte) = at.and_then(|at| byte(self.store, self.state, at)) else {
                return Ok(Text::Unreadable);
            };
            if byte == 0 {
                return Ok(Text::Bytes(bytes));
            }
            bytes.push(byte)?;
            at = at.and_then(|at| at.checked_add(1));
        }
        Ok(Text::Unended)
    }
}
