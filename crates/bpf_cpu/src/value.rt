//! Loads, stores and atomic operations on values of maps and arrays: each is a call of the store.

ghost use Rattle.std.specs.Prelude.{◌≡◌, ◌≢◌, ◌<◌, ◌%◌, ◌+◌, ◌↔◌, true, false, List, IsTrue, IfOk, IfErr, IfSome, IfNone};
ghost use Rattle.bpf_shared.specs.declared.events.Event.{Event};
ghost use Rattle.bpf_shared.specs.Chain.{Chain};
ghost use Rattle.bpf_mem.specs.Bytes.{length_of, size_of};
ghost use Rattle.bpf_helpers.specs.Held.{AreHeld, KeepsRun};
ghost use Rattle.bpf_cpu.specs.Row.{Quiet};
ghost use Rattle.bpf_cpu.specs.Values.{event_size_of, IsThere, IsPlace, IsPlaceToWrite, MayNotRead, MayNotWrite, LoadsValue, StoresValue, ChangesValue};
ghost use Rattle.bpf_cpu.specs.Step.{Executes};
ghost use Rattle.bpf_cpu.specs.State.{with_register};
ghost use Rattle.bpf_cpu.specs.Private.Execute.{progress_of};
ghost use Rattle.bpf_cpu.specs.Private.Refused.{IsFaultOf, IsHolder, is_read_only, reading_of};

use crate::access::{extension_of, plain_size};
use crate::cpu::{Cpu, widened};
use crate::outcome::Next;
use bpf_alu::sign_extend;
use bpf_helpers::array_with;
use bpf_insn::{AtomicOp, Insn, Reg, SignExtension, Size, Width};
use bpf_mem::{length, size_of_width};
use bpf_shared::{Shared, ValuePlace};

/// A size as the store's calls name it.
fn event_size_of(size: Size) -> bpf_shared::Size
    ensures { result ≡ event_size_of size }
{
    match size {
        Size::Byte => bpf_shared::Size::Byte,
        Size::Half => bpf_shared::Size::Half,
        Size::Word => bpf_shared::Size::Word,
        Size::Double => bpf_shared::Size::Double,
    }
}

/// Whether an address is a multiple of a size. Its length is at hand already, so this takes a mask and
/// no match on the size.
#[inline(always)]
fn is_multiple(address: u64, size: Size) -> bool
    ensures { IsTrue result ↔ (address % length_of size ≡ 0) }
{
    address & (length(size) as u64 - 1) == 0
}

/// What a load puts in its register.
fn read_as(extension: Option<SignExtension>, number: u64) -> u64
    ensures { result ≡ reading_of extension number }
{
    match extension {
        None => number,
        Some(extension) => sign_extend(extension, number),
    }
}

/// What has the bytes of a value: it is held by the CPU's run, or an array has it.
#[derive(Clone, Copy)]
enum Holder {
    Run,
    Array { frozen: bool },
}

impl Holder {
    /// Whether they may only be read.
    fn is_read_only(self) -> bool
        ensures { result ≡ is_read_only self }
    {
        match self {
            Holder::Run => false,
            Holder::Array { frozen } => frozen,
        }
    }
}

impl Cpu {
    /// What has the bytes of an access that isn't private; `None` where no value that may be reached
    /// has them. Arrays come first: where the run holds the value one comparison rules them out.
    #[inline(always)]
    fn find_value<S: Shared>(&self, shared: &S, address: u64, size: Size) -> Option<Holder>
        ensures found { IfSome result (IsHolder (S.shapes shared.now) self.now address size) }
        ensures none { IfNone result (¬ IsThere (S.shapes shared.now) self.now address size) }
    {
        let count = length(size) as u64;
        self.held.are_low();
        match array_with(shared, address, count) {
            Some(array) => Some(Holder::Array {
                frozen: array.frozen,
            }),
            None if self.held.covers(address, count) => Some(Holder::Run),
            None => None,
        }
    }

    /// Where an access that isn't private may read, or why it is a fault.
    fn place_to_read<S: Shared>(
        &self,
        shared: &S,
        address: u64,
        size: Size,
    ) -> Result<ValuePlace, Next>
        ensures at { IfOk result (λ p. p ≡ record { at = address }) }
        ensures place { IfOk result (λ _. IsPlace (S.shapes shared.now) size address self.now) }
        ensures refused { IfErr result (IsFaultOf (MayNotRead (S.shapes shared.now) size address self.now)) }
    {
        let Some(_holder) = self.find_value(shared, address, size) else {
            return Err(Next::BadAddress);
        };
        if !is_multiple(address, size) {
            return Err(Next::Misaligned);
        }
        Ok(ValuePlace { at: address })
    }

    /// Where it may write, or why it is a fault.
    pub(crate) fn place_to_write<S: Shared>(
        &self,
        shared: &S,
        address: u64,
        size: Size,
    ) -> Result<ValuePlace, Next>
        ensures at { IfOk result (λ p. p ≡ record { at = address }) }
        ensures place { IfOk result (λ _. IsPlaceToWrite (S.shapes shared.now) size address self.now) }
        ensures refused { IfErr result (IsFaultOf (MayNotWrite (S.shapes shared.now) size address self.now)) }
    {
        let Some(holder) = self.find_value(shared, address, size) else {
            return Err(Next::BadAddress);
        };
        if !is_multiple(address, size) {
            return Err(Next::Misaligned);
        }
        if holder.is_read_only() {
            return Err(Next::ReadOnly);
        }
        Ok(ValuePlace { at: address })
    }

    /// Writes a register, and goes on to the next word.
    fn put_found(&mut self, dst: Reg, number: u64)
        requires { self.old.pc < 65536 }
        ensures { self.new ≡ with_register self.old dst number (self.old.pc + 1) }
    {
        self.registers[dst as usize] = number;
        self.pc += 1;
    }

    /// LDX at an address that isn't private.
    fn load_value<S: Shared>(
        &mut self,
        size: Size,
        extension: Option<SignExtension>,
        dst: Reg,
        address: u64,
        shared: &mut S,
    ) -> Next
        requires short { self.old.pc < 65536 }
        requires serves { S.serves shared.old self.old.number ≡ true }
        requires in_run { S.running shared.old self.old.number ≡ true }
        requires held { AreHeld (S.held shared.old self.old.number) self.old.held }
        ensures load { (events : List Event) ×
            Chain S.passes S.serves self.old.number shared.old shared.new events ×
            LoadsValue (S.shapes shared.old) size (reading_of extension) dst address self.old events (progress_of result self.new) self.new }
        ensures number { self.new.number ≡ self.old.number }
        ensures held { AreHeld (S.held shared.new self.old.number) self.new.held }
        ensures keeps { KeepsRun S.shapes S.running S.held self.old.number shared.old shared.new }
    {
        match self.place_to_read(shared, address, size) {
            Ok(place) => {
                let found = shared.value_load(self.number, place, event_size_of(size));
                self.put_found(dst, read_as(extension, found));
                Next::On
            }
            Err(next) => next,
        }
    }

    /// ST and STX at an address that isn't private.
    fn store_value<S: Shared>(
        &mut self,
        size: Size,
        address: u64,
        number: u64,
        shared: &mut S,
    ) -> Next
        requires short { self.old.pc < 65536 }
        requires serves { S.serves shared.old self.old.number ≡ true }
        requires in_run { S.running shared.old self.old.number ≡ true }
        requires held { AreHeld (S.held shared.old self.old.number) self.old.held }
        ensures store { (events : List Event) ×
            Chain S.passes S.serves self.old.number shared.old shared.new events ×
            StoresValue (S.shapes shared.old) size address number self.old events (progress_of result self.new) self.new }
        ensures number { self.new.number ≡ self.old.number }
        ensures held { AreHeld (S.held shared.new self.old.number) self.new.held }
        ensures keeps { KeepsRun S.shapes S.running S.held self.old.number shared.old shared.new }
    {
        match self.place_to_write(shared, address, size) {
            Ok(place) => {
                shared.value_store(self.number, place, event_size_of(size), number);
                self.pc += 1;
                Next::On
            }
            Err(next) => next,
        }
    }

    /// ATOMIC at an address that isn't private.
    fn change_value<S: Shared>(
        &mut self,
        width: Width,
        op: AtomicOp,
        src: Reg,
        address: u64,
        shared: &mut S,
    ) -> Next
        requires short { self.old.pc < 65536 }
        requires serves { S.serves shared.old self.old.number ≡ true }
        requires in_run { S.running shared.old self.old.number ≡ true }
        requires held { AreHeld (S.held shared.old self.old.number) self.old.held }
        ensures change { (events : List Event) ×
            Chain S.passes S.serves self.old.number shared.old shared.new events ×
            ChangesValue (S.shapes shared.old) width op src address self.old events (progress_of result self.new) self.new }
        ensures number { self.new.number ≡ self.old.number }
        ensures held { AreHeld (S.held shared.new self.old.number) self.new.held }
        ensures keeps { KeepsRun S.shapes S.running S.held self.old.number shared.old shared.new }
    {
        let size = size_of_width(width);
        match self.place_to_write(shared, address, size) {
            Ok(place) => {
                let operand = self.value(src);
                let expected = self.registers[0];
                let found = shared.value_atomic(
                    self.number,
                    place,
                    event_size_of(size),
                    op.change(),
                    operand,
                    expected,
                );
                self.fetch(op, src, found);
                self.pc += 1;
                Next::On
            }
            Err(next) => next,
        }
    }

    /// Executes an instruction that accesses memory which isn't private: where a value has the
    /// bytes that it may reach, that is a call of the store, and else a fault.
    #[cold]
    #[inline(never)]
    pub(crate) fn access_value<S: Shared>(&mut self, insn: &Insn, shared: &mut S) -> Next
        requires missed { Quiet insn.now self.old (progress_of Next.BadAddress self.old) self.old }
        requires short { self.old.pc < 65536 }
        requires serves { S.serves shared.old self.old.number ≡ true }
        requires in_run { S.running shared.old self.old.number ≡ true }
        requires held { AreHeld (S.held shared.old self.old.number) self.old.held }
        ensures access { (events : List Event) ×
            Chain S.passes S.serves self.old.number shared.old shared.new events ×
            Executes (S.shapes shared.old) insn.now self.old events (progress_of result self.new) self.new }
        ensures number { self.new.number ≡ self.old.number }
        ensures held { AreHeld (S.held shared.new self.old.number) self.new.held }
        ensures keeps { KeepsRun S.shapes S.running S.held self.old.number shared.old shared.new }
    {
        match *insn {
            Insn::Load {
                size,
                dst,
                base,
                offset,
            } => self.load_value(size, None, dst, self.address(base, offset), shared),
            Insn::LoadSigned {
                size,
                dst,
                base,
                offset,
            } => {
                let extension = Some(extension_of(size));
                let size = plain_size(size);
                self.load_value(size, extension, dst, self.address(base, offset), shared)
            }
            Insn::StoreImmediate {
                size,
                base,
                offset,
                value,
            } => self.store_value(size, self.address(base, offset), widened(value), shared),
            Insn::Store {
                size,
                base,
                offset,
                src,
            } => self.store_value(size, self.address(base, offset), self.value(src), shared),
            Insn::Atomic {
                width,
                op,
                base,
                offset,
                src,
            } => self.change_value(width, op, src, self.address(base, offset), shared),
            Insn::Alu { .. }
            | Insn::Negate { .. }
            | Insn::SignExtend { .. }
            | Insn::SwapBytes { .. }
            | Insn::Jump { .. }
            | Insn::JumpLong { .. }
            | Insn::JumpIf { .. }
            | Insn::CallHelper { .. }
            | Insn::CallLocal { .. }
            | Insn::Exit
            | Insn::LoadNumber { .. }
            | Insn::LoadMap { .. } => Next::BadAddress,
        }
    }
}
