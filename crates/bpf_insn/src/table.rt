//! The table of instructions, a line a row (RFC 9669, sections 3 to 5). What an instruction is
//! written as and what a word must be to be read as one both come from it.

ghost use Rattle.std.specs.Prelude.{◌≡◌, ◌/◌, ◌%◌, ◌^◌};
ghost use Rattle.bpf_insn.specs.declared.instruction.Insn.TheVariants as insn;
ghost use Rattle.bpf_insn.specs.Table.{row, wide_row, register as register_field, offset as offset_field, imm as imm_field, row_of};
ghost use Rattle.bpf_insn.specs.declared.row.Field.TheVariants as field;
ghost use Rattle.bpf_insn.specs.Private.Bytes.{IsWritable};
ghost use Rattle.bpf_insn.specs.Private.Families.{IsJump, IsLoadOrStore, IsAnyStore};

use crate::codes::{
    ALWAYS, ATOMIC, CALL, EXIT, IMM, LD, LDX, MEM, MEMSX, NEGATE, ST, STX, opcode_k, opcode_memory,
    opcode_x,
};
use crate::instruction::{Insn, Operand};
use crate::operation::{AluOp, Condition, Size, Width};
use crate::register::Reg;
use crate::row::Field::{self, Holds, Selects, Unused};
use crate::row::{Encoding, Row};

/// A row of one word.
fn basic(opcode: u8, dst: Field, src: Field, offset: Field, imm: Field) -> Row
    ensures { result ≡ row opcode dst src offset imm }
{
    Row {
        opcode,
        dst,
        src,
        offset,
        imm,
        encoding: Encoding::Basic,
    }
}

/// A row of two words: LD IMM DW.
fn wide(dst: Reg, src: u32, imm: u32, second: Field) -> Row
    ensures { result ≡ wide_row (register_field dst) (field.Selects src) (field.Holds imm) second }
{
    Row {
        opcode: opcode_memory(LD, Size::Double.code(), IMM),
        dst: register(dst),
        src: Selects(src),
        offset: Unused,
        imm: Holds(imm),
        encoding: Encoding::Wide(second),
    }
}

fn register(register: Reg) -> Field
    ensures { result ≡ register_field register }
{
    Holds(u32::from(register.number()))
}

fn offset(offset: i16) -> Field
    ensures { result ≡ offset_field offset }
{
    Holds(u32::from(offset.cast_unsigned()))
}

fn imm(number: i32) -> Field
    ensures { result ≡ imm_field number }
{
    Holds(number.cast_unsigned())
}

/// The low and the high half of a number.
fn halves(number: u64) -> (u32, u32)
    ensures low { result.0 ≡ number % 2 ^ 32 }
    ensures high { result.1 ≡ number / 2 ^ 32 }
{
    let low = (number % 0x1_0000_0000) as u32;
    let high = (number / 0x1_0000_0000) as u32;
    (low, high)
}

fn alu(width: Width, op: AluOp, dst: Reg, src: Operand) -> Row
    ensures value { result ≡ row_of (insn.Alu width op dst src) }
    ensures writable { IsWritable (insn.Alu width op dst src) }
{
    let (class, code) = (width.alu_class(), op.code());
    match src {
        Operand::Immediate(number) => {
            let opcode = opcode_k(class, code);
            basic(opcode, register(dst), Unused, op.offset(), imm(number))
        }
        Operand::Register(src) => {
            let opcode = opcode_x(class, code);
            let offset = op.offset_from_register();
            basic(opcode, register(dst), register(src), offset, Unused)
        }
    }
}

fn jump_if(width: Width, condition: Condition, dst: Reg, src: Operand, by: i16) -> Row
    ensures value { result ≡ row_of (insn.JumpIf width condition dst src by) }
    ensures writable { IsWritable (insn.JumpIf width condition dst src by) }
{
    let (class, code) = (width.jump_class(), condition.code());
    match src {
        Operand::Immediate(number) => {
            let opcode = opcode_k(class, code);
            basic(opcode, register(dst), Unused, offset(by), imm(number))
        }
        Operand::Register(src) => {
            let opcode = opcode_x(class, code);
            basic(opcode, register(dst), register(src), offset(by), Unused)
        }
    }
}

/// The row of a jump, a call or EXIT (RFC 9669, section 4.3).
fn jump(insn: Insn) -> Row
    requires { IsJump insn }
    ensures value { result ≡ row_of insn }
    ensures writable { IsWritable insn }
{
    let class = Width::Bits64.jump_class();
    match insn {
        Insn::Jump { offset: by } => {
            let opcode = opcode_k(class, ALWAYS);
            basic(opcode, Unused, Unused, offset(by), Unused)
        }
        Insn::JumpLong { offset: by } => {
            let opcode = opcode_k(Width::Bits32.jump_class(), ALWAYS);
            basic(opcode, Unused, Unused, Unused, imm(by))
        }
        Insn::JumpIf {
            width,
            condition,
            dst,
            src,
            offset,
        } => jump_if(width, condition, dst, src, offset),
        Insn::CallHelper { number } => {
            let opcode = opcode_k(class, CALL);
            basic(opcode, Unused, Selects(0), Unused, Holds(number))
        }
        Insn::CallLocal { offset: by } => {
            let opcode = opcode_k(class, CALL);
            basic(opcode, Unused, Selects(1), Unused, imm(by))
        }
        Insn::Exit => basic(opcode_k(class, EXIT), Unused, Unused, Unused, Unused),
        _ => unreachable!(),
    }
}

/// The row of a store (RFC 9669, sections 5.1 and 5.3).
fn store(insn: Insn) -> Row
    requires { IsAnyStore insn }
    ensures value { result ≡ row_of insn }
    ensures writable { IsWritable insn }
{
    match insn {
        Insn::StoreImmediate {
            size,
            base,
            offset: by,
            value,
        } => {
            let opcode = opcode_memory(ST, size.code(), MEM);
            basic(opcode, register(base), Unused, offset(by), imm(value))
        }
        Insn::Store {
            size,
            base,
            offset: by,
            src,
        } => {
            let opcode = opcode_memory(STX, size.code(), MEM);
            basic(opcode, register(base), register(src), offset(by), Unused)
        }
        Insn::Atomic {
            width,
            op,
            base,
            offset: by,
            src,
        } => {
            let opcode = opcode_memory(STX, width.atomic_size(), ATOMIC);
            let selected = Selects(op.code());
            basic(opcode, register(base), register(src), offset(by), selected)
        }
        _ => unreachable!(),
    }
}

/// The row of a load or a store (RFC 9669, sections 5.1 to 5.3).
fn memory(insn: Insn) -> Row
    requires { IsLoadOrStore insn }
    ensures value { result ≡ row_of insn }
    ensures writable { IsWritable insn }
{
    match insn {
        Insn::Load {
            size,
            dst,
            base,
            offset: by,
        } => {
            let opcode = opcode_memory(LDX, size.code(), MEM);
            basic(opcode, register(dst), register(base), offset(by), Unused)
        }
        Insn::LoadSigned {
            size,
            dst,
            base,
            offset: by,
        } => {
            let opcode = opcode_memory(LDX, size.code(), MEMSX);
            basic(opcode, register(dst), register(base), offset(by), Unused)
        }
        _ => store(insn),
    }
}

impl Insn {
    /// The row of the instruction.
    pub(crate) fn row(self) -> Row
        ensures value { result ≡ row_of self }
        ensures writable { IsWritable self }
    {
        match self {
            Insn::Alu {
                width,
                op,
                dst,
                src,
            } => alu(width, op, dst, src),
            Insn::Negate { width, dst } => {
                let opcode = opcode_k(width.alu_class(), NEGATE);
                basic(opcode, register(dst), Unused, Unused, Unused)
            }
            Insn::SignExtend {
                extension,
                dst,
                src,
            } => {
                let (opcode, offset) = (extension.opcode(), Selects(extension.offset()));
                basic(opcode, register(dst), register(src), offset, Unused)
            }
            Insn::SwapBytes { swap, width, dst } => {
                let imm = Selects(width.bits());
                basic(swap.opcode(), register(dst), Unused, Unused, imm)
            }
            Insn::LoadNumber { dst, number } => {
                let (low, high) = halves(number);
                wide(dst, 0, low, Holds(high))
            }
            Insn::LoadMap { dst, map } => wide(dst, 1, map, Unused),
            Insn::Jump { .. }
            | Insn::JumpLong { .. }
            | Insn::JumpIf { .. }
            | Insn::CallHelper { .. }
            | Insn::CallLocal { .. }
            | Insn::Exit => jump(self),
            _ => memory(self),
        }
    }
}
